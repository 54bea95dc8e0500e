// A run of a script.
ghost use Rattle.runs.specs.Kept.{CodedLevels, Held, Laid, Missed, Small};

use crate::Core;
use lattice::Lattice;
use scheduler::Scheduler;
use std::marker::PhantomData;

// A run has its scheduler, and everything that is not in the slabs lent to its calls. Only `make` makes one, and it has to be closed.
pub struct Run<K: Lattice, S: Scheduler> {
    pub(crate) kind: PhantomData<K>,
    pub(crate) scheduler: S,
    pub(crate) core: Core,
    ghost small: { Small core },
    ghost tracks: { Laid core.tracks core.head.tracks },
    ghost fed: { Held core.tracks core.head.tracks },
    ghost channels: { Laid core.channels core.head.channels },
    ghost put: { Held core.channels core.head.channels },
    ghost missed: { Missed core },
    ghost coded: { CodedLevels K.order core },
}
