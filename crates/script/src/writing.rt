// Writing the frames of a slab as lines.
ghost use Rattle.std.specs.Prelude.{◌≡◌, ◌+◌, ◌<◌, ◌≤◌, List, length, MatchOption};
ghost use Rattle.codec.specs.Frames.{Frame};
ghost use Rattle.script.specs.Promises.{WriteGives, Writes, Wrote};
ghost use Rattle.script.specs.Slabs.{Holds};
ghost use Rattle.script.specs.Text.{text_of};
ghost use Rattle.script.specs.Writings.{PutLine, Puts};

use crate::faults::RunFault;
use crate::finding::{front_of, holds, slot_in};
use codec::digits::digits_of;
use lattice::Lattice;

// Writes bytes as a line from place n on, and answers the place behind it; None where there is no room.
#[tactic(auto, using(crate::proofs::Texting::none_put, crate::proofs::Texting::byte_put))]
fn put_line(bytes: &[u8], out: &mut [u8], n: usize) -> Option<usize>
    requires short { length bytes.now ≤ 51 }
    requires within { n ≤ length out.old }
    ensures { PutLine bytes.now out.old out.new n result }
{
    let end = n + 2 * bytes.len();
    if out.len() <= end {
        return None;
    }
    // By index: as where a line is read, an invariant of a loop over what iter_mut lends can't name the output.
    for (i, byte) in bytes.iter().enumerate() {
        let (high, low) = digits_of(*byte);
        let at = n + 2 * i;
        out[at] = high;
        out[at + 1] = low;
    }
    out[end] = b'\n';
    Some(end + 1)
}

// Writes the frames in the first slots of a slab as lines, and answers how many bytes they are.
fn put_frames(slab: &[u8], frames: u16, out: &mut [u8]) -> Option<usize>
    requires room { 26112 ≤ length slab.now }
    requires few { frames ≤ 512 }
    ensures { Puts slab.now frames out.old out.new result }
{
    let mut n = 0;
    // By their numbers: slot_in alone says where a slot lies, and its bound; over the chunks of the slab both would be said and proved again.
    for i in 0..frames {
        n = put_line(front_of(slot_in(slab, i)?), out, n)?;
    }
    Some(n)
}

// Writes the script that a slab holds, and answers how many bytes it is; None where it holds none or there is no room.
#[tactic(auto, using(crate::proofs::Holding::held_few))]
fn put_script<K: Lattice>(slab: &[u8], out: &mut [u8]) -> Option<usize>
    ensures { MatchOption result ((fs : List Frame) → Holds K.kind K.order slab.now fs → length out.old < length (text_of fs)) (Wrote K.kind K.order slab.now out.old out.new) }
{
    let declared = holds::<K>(slab)?;
    put_frames(slab, declared.frames, out)
}

// Writes the script that a slab holds; zeros where it holds none or there is no room.
fn write_from<K: Lattice>(slab: &[u8], out: &mut [u8]) -> Result<usize, RunFault>
    ensures { WriteGives K.kind K.order slab.now out.old out.new result }
{
    let written = put_script::<K>(slab, out);
    if written.is_none() {
        out.fill(0);
    }
    written.ok_or(RunFault::NoState)
}

// Writes the script that a slab holds as lines, and answers how many bytes they are.
// Where the slab holds no script of the kind K, or its lines do not fit, the output is zero.
// It only calls write_from: that what was read comes back is proved here, from that contract.
#[tactic(auto, using(crate::proofs::Promising::writes))]
pub fn write<K: Lattice>(slab: &[u8], out: &mut [u8]) -> Result<usize, RunFault>
    ensures { Writes K.kind K.order slab.now out.old out.new result }
{
    write_from::<K>(slab, out)
}
