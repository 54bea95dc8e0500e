// Scripts: read from lines into a slab, found again in a slab of any bytes, and written back.
#![tactic(auto)]

ghost use Rattle.std.specs.Prelude.{◌≡◌};

pub use crate::finding::{frame_at, holds};
pub use crate::reading::{kind_named, read};
pub use crate::writing::write;
use codec::frames::Head;
use codec::lines::BYTES;
use lattice::Lattice;
use std::marker::PhantomData;

mod blocks;
pub mod faults;
mod finding;
mod reading;
mod state;
mod writing;

// The most frames that a script has.
pub const FRAMES: u16 = 512;

// The bytes of a slot, which holds one frame.
pub const SLOT: usize = BYTES;

// The bytes of a script slab: a slot for each frame.
pub const SLAB: usize = FRAMES as usize * SLOT;

// The most samples that all tracks hold together, and the most entries that all channels do.
pub const SAMPLES: u32 = 2048;

pub const ENTRIES: u32 = 512;

// How deep blocks nest at most.
pub const DEPTH: usize = 16;

// What a script declares: its header, the samples and entries of all tracks and channels, and how many frames it has.
#[derive(Clone, Copy)]
pub struct Declarations {
    pub head: Head,
    pub samples: u16,
    pub entries: u16,
    pub frames: u16,
}

// A script that was read. Only `read` makes one, and a run can be made of nothing else.
#[derive(Drop)]
pub struct Accepted<K: Lattice> {
    kind: PhantomData<K>,
    declarations: Declarations,
}

impl<K: Lattice> Accepted<K> {
    pub fn declarations(&self) -> Declarations
        ensures { result ≡ self.now.declarations }
    {
        self.declarations
    }
}
