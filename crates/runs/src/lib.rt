// The monitor: runs of scripts over lent memory, and the calls on them.
// Numbers widen by `as` at an index, where a call of `from` would say no more.
#![tactic(auto)]

ghost use Rattle.std.specs.Prelude.{◌≡◌, ◌<◌, ◌≤◌, length};
ghost use Rattle.runs.specs.Headers.{Few};

pub use crate::run::Run;
use codec::frames::Head;
use survey::Step;

mod blocks;
mod calls;
mod declaring;
mod finding;
mod fitting;
mod run;
mod stack;
mod starting;
mod statuses;
mod steps;
mod turns;
mod values;
mod verdicts;
mod wiping;

// The open blocks of eight threads, sixteen each: what a slab of them holds at least. A slab may be lent longer, and what an advance
// promises speaks of all of it, so it is not cut to an array of this length, and the functions within say that it is as long.
pub const MARKS: usize = 128;

// The working numbers of an expression: what the work slab holds at least.
pub const WORK: usize = 16;

// The turns that a run may have in all.
const MOST_TURNS: u32 = 1_000_000;

// A variable: its value and its level.
#[derive(Clone, Copy)]
pub(crate) struct Cell {
    pub value: i32,
    pub level: u32,
}

// A thread runs, idles at the end of a way for so many turns more, or is finished.
#[derive(Clone, Copy, Default)]
pub(crate) enum Pace {
    #[default]
    Running,
    Idling(u16),
    Finished,
}

// Where a thread stands: its next frame, how many blocks it is inside, and its pace. No ghost field bounds the depth: the specifications
// write places down field by field, and each would have to carry a proof.
#[derive(Clone, Copy, Default)]
pub(crate) struct Place {
    pub at: u16,
    pub depth: u8,
    pub pace: Pace,
}

// Whether a thread may be given a turn.
#[derive(Clone, Copy, PartialEq)]
pub(crate) enum Status {
    Ready,
    Finished,
    Waiting,
    Barred,
}

// Which threads are ready, and whether all are finished. There is no heap, so the answers are eight: those of the threads that
// the header declares come first.
#[derive(Clone, Copy)]
pub(crate) struct Survey {
    ready: [bool; 8],
    over: bool,
}

// An open block: where it began, and the context level inside it.
#[derive(Clone, Copy, Default)]
pub struct Mark {
    pub(crate) opener: u16,
    pub(crate) level: u32,
}

impl Mark {
    ghost use Rattle.runs.specs.Flat.{nil_mark};

    // No open block.
    pub fn none() -> Mark
        ensures { result ≡ nil_mark }
    {
        Mark::default()
    }
}

// What a put leaves on a channel: the turn, from 1, the thread, and a value, or a mark in its place with value 0. The machine's entry
// has both fields, and so has this one.
#[derive(Clone, Copy, Debug, Default, PartialEq)]
pub struct Entry {
    pub turn: u32,
    pub thread: u8,
    pub mark: bool,
    pub value: i32,
}

impl Entry {
    ghost use Rattle.runs.specs.Flat.{nil_entry};

    // No entry yet.
    pub fn none() -> Entry
        ensures { result ≡ nil_entry }
    {
        Entry::default()
    }
}

// How many entries a channel has, and how many it missed because it was full.
#[derive(Clone, Copy, Debug, PartialEq)]
pub struct Count {
    pub entries: u16,
    pub missed: u32,
}

// A thread at its turn: its number, where it stands, and the step there.
#[derive(Clone, Copy)]
pub(crate) struct Turn {
    thread: u8,
    place: Place,
    step: Step,
    ghost few: { thread < 8 },
}

// A track or a channel, and its part of the lent memory, by numbers: a slice in its place would be lent as long as the run lasts.
#[derive(Clone, Copy)]
pub(crate) struct Port {
    pub level: u32,
    pub start: usize,
    pub size: usize,
    pub count: usize,
    pub missed: u32,
}

// A run but for its scheduler. Its header declares no more than the arrays hold, which are arrays since there is no heap.
#[derive(Drop)]
pub(crate) struct Core {
    pub head: Head,
    pub cells: [Cell; 64],
    pub threads: [Place; 8],
    pub tracks: [Port; 8],
    pub channels: [Port; 8],
    pub turns: u32,
    ghost few: { Few head },
}

// What turns read and never change: the steps and the bytes of the script, and the samples. What they change is lent beside it, slab
// by slab. One struct of `&mut`s was tried: that a slab which is read while another is written stays as it was is then left open.
// `TrackParts`, `Sized` and `RunningOn` tie a run to these and to the slabs, several objects that no one struct has, so they are clauses.
#[derive(Clone, Copy)]
pub(crate) struct Inputs<'a> {
    pub table: &'a [Step],
    pub code: &'a [u8],
    pub samples: &'a [i32],
    ghost short: { length table.now ≤ 512 },
}
