// The memory that a run is lent at each call: a script, and as much of all else as it declares.
ghost use Rattle.std.specs.Prelude.{◌≡◌, length, MatchResult};
ghost use Rattle.runs.specs.Calls.{Advances, Closes, Counts, Finds, Made, NotMade, Feeds};
ghost use Rattle.runs.specs.Memory.{memory};
ghost use Rattle.runs.specs.Zeros.{AllZero};

use lattice::Lattice;
use runs::{Count, Entry, MARKS, Mark, Run, WORK};
use scheduler::Scheduler;
use script::faults::RunFault;
use script::{Accepted, Declarations};
use std::alloc::{AllocError, Global};

#[derive(Drop)]
pub struct Slabs {
    script: Vec<u8>,
    samples: Vec<i32>,
    entries: Vec<Entry>,
    marks: Vec<Mark>,
    work: Vec<i32>,
}

impl Slabs {
    // A script's slab, and beside it what its script declares, all of it zero.
    pub fn around(
        heap: Global,
        script: Vec<u8>,
        declared: Declarations,
    ) -> Result<Slabs, AllocError> {
        let samples = vec![in heap; 0i32; usize::from(declared.samples)]?;
        let entries = vec![in heap; Entry::none(); usize::from(declared.entries)]?;
        let marks = vec![in heap; Mark::none(); MARKS]?;
        let work = vec![in heap; 0i32; WORK]?;
        Ok(Slabs {
            script,
            samples,
            entries,
            marks,
            work,
        })
    }

    // A run of the script in this memory.
    pub fn make<K: Lattice, S: Scheduler + Drop>(
        &mut self,
        accepted: &Accepted<K>,
        scheduler: S,
    ) -> Result<Run<K, S>, RunFault>
        ensures run { MatchResult result (λ run. Made K.kind K.order self.old.script.items self.old.samples.items self.new.samples.items self.old.entries.items self.new.entries.items self.old.marks.items self.new.marks.items scheduler run.core run.scheduler) (NotMade K.kind K.order self.old.script.items self.old.samples.items self.new.samples.items self.old.entries.items self.new.entries.items self.old.marks.items self.new.marks.items) }
        ensures rest { (self.new.script ≡ self.old.script) × (self.new.work ≡ self.old.work) }
    {
        Run::make(
            accepted,
            scheduler,
            &self.script,
            &mut self.samples,
            &mut self.entries,
            &mut self.marks,
        )
    }

    // One sample more on a track: how many it then holds.
    pub fn feed<K: Lattice, S: Scheduler + Drop>(
        &mut self,
        run: &mut Run<K, S>,
        track: u8,
        sample: i32,
    ) -> Result<u16, RunFault>
        ensures fed { Feeds K.kind K.order S.meaning track sample run.old.core run.old.scheduler self.old.samples.items run.new.core run.new.scheduler self.new.samples.items result }
        ensures rest { ((self.new.script ≡ self.old.script) × (self.new.entries ≡ self.old.entries)) × ((self.new.marks ≡ self.old.marks) × (self.new.work ≡ self.old.work)) }
    {
        run.feed(track, sample, &mut self.samples)
    }

    // How many entries a channel has, and how many it missed.
    pub fn count<K: Lattice, S: Scheduler + Drop>(
        &self,
        run: &Run<K, S>,
        channel: u8,
    ) -> Result<Count, RunFault>
        ensures { Counts K.kind K.order S.meaning channel run.now.core run.now.scheduler self.now.entries.items result }
    {
        run.count(channel, &self.entries)
    }

    // One entry of a channel, counted from 0.
    pub fn entry<K: Lattice, S: Scheduler + Drop>(
        &self,
        run: &Run<K, S>,
        channel: u8,
        index: u16,
    ) -> Result<Entry, RunFault>
        ensures { Finds K.kind K.order S.meaning channel index run.now.core run.now.scheduler self.now.entries.items result }
    {
        run.entry(channel, index, &self.entries)
    }

    // Up to so many turns: how many were given.
    pub fn advance<K: Lattice, S: Scheduler + Drop>(
        &mut self,
        run: &mut Run<K, S>,
        turns: u16,
    ) -> Result<u16, RunFault>
        ensures turns { Advances K.kind K.order S.meaning turns (memory run.old.core self.old.script.items self.old.samples.items self.old.entries.items self.old.marks.items) run.old.scheduler (length self.old.work.items) (memory run.new.core self.new.script.items self.new.samples.items self.new.entries.items self.new.marks.items) run.new.scheduler result }
        ensures work { AllZero self.new.work.items }
    {
        run.advance(
            turns,
            &self.script,
            &self.samples,
            &mut self.entries,
            &mut self.marks,
            &mut self.work,
        )
    }

    // Ends the run, which leaves this memory zero: how many turns it was given.
    pub fn close<K: Lattice, S: Scheduler + Drop>(&mut self, run: Run<K, S>) -> u32
        ensures { Closes run.core self.old.script.items self.new.script.items self.old.samples.items self.new.samples.items self.old.entries.items self.new.entries.items self.old.marks.items self.new.marks.items self.old.work.items self.new.work.items result }
    {
        run.close(
            &mut self.script,
            &mut self.samples,
            &mut self.entries,
            &mut self.marks,
            &mut self.work,
        )
    }
}
