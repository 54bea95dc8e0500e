// What the script in a slab declares: its header, its tracks and its channels.
ghost use Rattle.std.specs.Prelude.{◌≡◌, ◌≤◌, MatchOption};
ghost use Rattle.codec.specs.Shapes.{read_of};
ghost use Rattle.runs.specs.Declaring.{DeclaresAs, DeclaresNone, PortAt, PortsAt, declared_port, fresh_port};

use crate::Port;
use codec::frames::{Frame, Head};
use lattice::Lattice;
use script::{frame_at, holds};

// The header of a script, its tracks and channels with nothing in them, and how many frames it has. There is no heap, so the arrays
// have room for as many as a script may declare, and the header says how many it does.
#[derive(Clone, Copy)]
pub(crate) struct Declared {
    pub head: Head,
    pub tracks: [Port; 8],
    pub channels: [Port; 8],
    pub frames: u16,
}

// A track or channel with its part from `start` on and nothing in it.
fn empty_port(level: u32, size: u16, start: usize) -> Port
    ensures { result ≡ fresh_port level size start }
{
    Port {
        level,
        start,
        size: size as usize,
        count: 0,
        missed: 0,
    }
}

// The track or channel that a frame declares. Any other gets an empty part, and no None: in a script that was found none stands there.
fn port_of(frame: Frame<'_>, start: usize) -> Port
    ensures port { result ≡ declared_port (read_of frame.entry).frame start }
    ensures small { result.size ≤ 65535 }
{
    match frame {
        Frame::Track(store) | Frame::Channel(store) => {
            empty_port(store.level, store.capacity, start)
        }
        _ => empty_port(0, 0, start),
    }
}

// The track or channel that is declared at a place of the script.
fn port_at(script: &[u8], place: u16, start: usize) -> Port
    ensures port { PortAt script.now place start result }
    ensures small { result.size ≤ 65535 }
{
    frame_at(script, place).map_or(empty_port(0, 0, start), |frame| port_of(frame, start))
}

// The n tracks or channels that are declared from a place on, the part of each behind the parts before it.
fn ports(script: &[u8], first: u16, n: u8) -> [Port; 8]
    requires { (n ≤ 8) × (first ≤ 16) }
    ensures { PortsAt script.now first n result }
{
    let mut all = [empty_port(0, 0, 0); 8];
    let mut start = 0;
    let declared = &mut all[..n as usize];
    for (h, port) in declared.iter_mut().enumerate() {
        *port = port_at(script, first + h as u16, start);
        start += port.size;
    }
    all
}

// What the script that a slab holds declares; None where the slab holds none of the kind K.
pub(crate) fn declarations<K: Lattice>(script: &[u8]) -> Option<Declared>
    ensures { MatchOption result (DeclaresNone K.kind K.order script.now) (DeclaresAs K.kind K.order script.now) }
{
    let found = holds::<K>(script)?;
    Some(Declared {
        head: found.head,
        tracks: ports(script, 1, found.head.tracks),
        channels: ports(script, 1 + found.head.tracks as u16, found.head.channels),
        frames: found.frames,
    })
}
