// Where threads begin.
ghost use Rattle.std.specs.Prelude.{◌≡◌, ◌≤◌};
ghost use Rattle.runs.specs.Flat.{nil_place};
ghost use Rattle.codec.specs.Shapes.{read_of};
ghost use Rattle.model.specs.Fitting.{is_thread_end};
ghost use Rattle.runs.specs.Declaring.{DeclaresAs};
ghost use Rattle.runs.specs.Starting.{Begins, ComesTo, EndsThread, NextThread, PlacesAt};

use crate::declaring::Declared;
use crate::{Cell, Core, Pace, Place};
use codec::frames::Frame;
use lattice::{Lattice, OPEN};
use script::{FRAMES, frame_at};
use survey::stretch_at;

// At the first frame, running.
fn at_first_frame() -> Place
    ensures { result ≡ nil_place }
{
    Place::default()
}

// Whether a frame ends a thread.
fn is_end(frame: Frame<'_>) -> bool
    ensures { result ≡ is_thread_end (read_of frame.entry).frame }
{
    matches!(frame, Frame::ThreadEnd)
}

// Whether the frame at a place of the script does.
fn ends_thread(script: &[u8], at: u16) -> bool
    ensures { EndsThread script.now at result }
{
    frame_at(script, at).is_some_and(is_end)
}

// A thread that comes to a place with no block open. A turn's arrival decides so by the table of steps; here there is none yet.
fn come_to(script: &[u8], at: u16) -> Place
    ensures { ComesTo script.now at result }
{
    Place {
        at,
        depth: 0,
        pace: if ends_thread(script, at) {
            Pace::Finished
        } else {
            Pace::Running
        },
    }
}

// The first place of the thread behind the one whose first place this is.
fn next_thread(script: &[u8], at: u16) -> u16
    ensures { NextThread script.now at result }
{
    let end = stretch_at(script, at).end;
    if end < FRAMES { end + 2 } else { end }
}

// The places where the first n threads begin, the first of them given.
fn places(script: &[u8], first: u16, n: u8) -> [Place; 8]
    requires { n ≤ 8 }
    ensures { PlacesAt script.now first n result }
{
    let mut all = [at_first_frame(); 8];
    let mut at = first;
    let threads = &mut all[..n as usize];
    for place in threads.iter_mut() {
        *place = come_to(script, at);
        at = next_thread(script, at);
    }
    all
}

// A run, but for its scheduler, at the beginning of the script that a slab holds.
pub(crate) fn beginning<K: Lattice>(script: &[u8], declared: Declared) -> Core
    requires { DeclaresAs K.kind K.order script.now declared }
    ensures { Begins script.now declared result }
{
    let Declared {
        head,
        tracks,
        channels,
        ..
    } = declared;
    let cells = [Cell {
        value: 0,
        level: OPEN,
    }; 64];
    let first = 2 + head.tracks as u16 + head.channels as u16;
    let threads = places(script, first, head.threads);
    Core {
        head,
        cells,
        threads,
        tracks,
        channels,
        turns: 0,
    }
}
