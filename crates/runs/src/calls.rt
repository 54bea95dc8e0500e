// The calls on a run.
ghost use Rattle.std.specs.Prelude.{◌≡◌, ℕ, ◌<◌, ◌≤◌, length, MatchResult};
ghost use Rattle.script.specs.Code.{Script};
ghost use Rattle.model.specs.Machine.{State};
ghost use Rattle.runs.specs.Calls.{Advances, Closes, Counts, Feeds, Finds, Made, NotMade};
ghost use Rattle.runs.specs.Kept.{NoPort, PortIn, Small, room};
ghost use Rattle.runs.specs.Memory.{memory};
ghost use Rattle.runs.specs.Zeros.{AllZero};

use crate::declaring::declarations;
use crate::finding::room_of;
use crate::run::Run;
use crate::starting::beginning;
use crate::wiping::Cleared;
use crate::{Core, Count, Entry, Inputs, MOST_TURNS, Mark, Port, WORK};
use lattice::Lattice;
use scheduler::Scheduler;
use script::faults::RunFault;
use script::{Accepted, FRAMES};
use std::marker::PhantomData;
use survey::Step;

// Track or channel h, of n whose parts lie in a slab of so many slots: NoState where the slab is too short for their parts, NoSuch where
// there is none.
fn port_in(ports: &[Port; 8], n: u8, slots: usize, h: u8) -> Result<Port, RunFault>
    requires few { n ≤ 8 }
    requires small { room ports.now n ≤ 2048 }
    ensures { MatchResult result (PortIn ports.now n slots h) (NoPort ports.now n slots h) }
{
    if slots < room_of(ports, n) {
        return Err(RunFault::NoState);
    }
    if h >= n {
        return Err(RunFault::NoSuch);
    }
    Ok(ports[h as usize])
}

// That the parts are small is a clause and no ghost field of Core: a turn writes channels, and each such step would prove the sums again.
impl Core {
    // Track h, where the slab of samples has so many slots.
    fn track(&self, h: u8, slots: usize) -> Result<Port, RunFault>
        requires { Small self.now }
        ensures { MatchResult result (PortIn self.now.tracks self.now.head.tracks slots h) (NoPort self.now.tracks self.now.head.tracks slots h) }
    {
        port_in(&self.tracks, self.head.tracks, slots, h)
    }

    // Channel h, where the slab of entries does.
    fn channel(&self, h: u8, slots: usize) -> Result<Port, RunFault>
        requires { Small self.now }
        ensures { MatchResult result (PortIn self.now.channels self.now.head.channels slots h) (NoPort self.now.channels self.now.head.channels slots h) }
    {
        port_in(&self.channels, self.head.channels, slots, h)
    }
}

// Each call is lent the slabs that it needs and no more, so they are parameters and no struct.
impl<K: Lattice, S: Scheduler + Drop> Run<K, S> {
    // A run of the script that the slab holds now; only what reading returned lets one be made. Samples, entries and open blocks are zero then.
    pub fn make(
        _accepted: &Accepted<K>,
        scheduler: S,
        script: &[u8],
        samples: &mut [i32],
        entries: &mut [Entry],
        marks: &mut [Mark],
    ) -> Result<Run<K, S>, RunFault>
        ensures { MatchResult result (λ run. Made K.kind K.order script.now samples.old samples.new entries.old entries.new marks.old marks.new scheduler run.core run.scheduler) (NotMade K.kind K.order script.now samples.old samples.new entries.old entries.new marks.old marks.new) }
    {
        let declared = declarations::<K>(script).ok_or(RunFault::NoState)?;
        let core = beginning::<K>(script, declared);
        if !core.long_enough(samples.len(), entries.len(), marks.len()) {
            return Err(RunFault::NoState);
        }
        samples.fill(0);
        entries.fill(Entry::none());
        marks.fill(Mark::none());
        Ok(Run {
            kind: PhantomData,
            scheduler,
            core,
        })
    }

    // One sample more on a track: how many it then holds.
    pub fn feed(&mut self, track: u8, sample: i32, samples: &mut [i32]) -> Result<u16, RunFault>
        ensures { Feeds K.kind K.order S.meaning track sample self.old.core self.old.scheduler samples.old self.new.core self.new.scheduler samples.new result }
    {
        let port = self.core.track(track, samples.len())?;
        if port.count >= port.size {
            return Err(RunFault::TrackFull);
        }
        samples[port.start + port.count] = sample;
        self.core.tracks[track as usize].count = port.count + 1;
        Ok((port.count + 1) as u16)
    }

    // How many entries a channel has, and how many it missed.
    pub fn count(&self, channel: u8, entries: &[Entry]) -> Result<Count, RunFault>
        ensures { Counts K.kind K.order S.meaning channel self.now.core self.now.scheduler entries.now result }
    {
        let port = self.core.channel(channel, entries.len())?;
        Ok(Count {
            entries: port.count as u16,
            missed: port.missed,
        })
    }

    // One entry of a channel, counted from 0.
    pub fn entry(&self, channel: u8, index: u16, entries: &[Entry]) -> Result<Entry, RunFault>
        ensures { Finds K.kind K.order S.meaning channel index self.now.core self.now.scheduler entries.now result }
    {
        let port = self.core.channel(channel, entries.len())?;
        if index as usize >= port.count {
            return Err(RunFault::NoSuch);
        }
        Ok(entries[port.start + index as usize])
    }

    // Up to so many turns, rests counted: how many were given. The work slab is zero at the end, on every way out.
    pub fn advance(
        &mut self,
        turns: u16,
        script: &[u8],
        samples: &[i32],
        entries: &mut [Entry],
        marks: &mut [Mark],
        work: &mut [i32],
    ) -> Result<u16, RunFault>
        ensures turns { Advances K.kind K.order S.meaning turns (memory self.old.core script.now samples.now entries.old marks.old) self.old.scheduler (length work.old) (memory self.new.core script.now samples.now entries.new marks.new) self.new.scheduler result }
        ensures work { AllZero work.new }
    {
        let guard = Cleared { numbers: work };
        self.advance_with(turns, script, samples, entries, marks, guard.numbers)
    }

    // The same, with what the turns leave in the work slab.
    fn advance_with(
        &mut self,
        turns: u16,
        script: &[u8],
        samples: &[i32],
        entries: &mut [Entry],
        marks: &mut [Mark],
        work: &mut [i32],
    ) -> Result<u16, RunFault>
        ensures { Advances K.kind K.order S.meaning turns (memory self.old.core script.now samples.now entries.old marks.old) self.old.scheduler (length work.old) (memory self.new.core script.now samples.now entries.new marks.new) self.new.scheduler result }
    {
        let work = work.first_chunk_mut::<WORK>().ok_or(RunFault::NoState)?;
        let mut table = [Step::none(); FRAMES as usize];
        let steps = self
            .core
            .state_in::<K>(script, samples, entries, marks, &mut table)
            .ok_or(RunFault::NoState)?;
        if self.core.turns == MOST_TURNS {
            return Err(RunFault::OutOfTurns);
        }
        let inputs = Inputs {
            table: steps,
            code: script,
            samples,
        };
        let given = self.core.advance::<K, S>(
            &mut self.scheduler,
            u32::from(turns),
            inputs,
            marks,
            entries,
            work,
        );
        Ok(given as u16)
    }

    // Ends the run: the slabs are zero, and the answer is the turns that it was given.
    pub fn close(
        self,
        script: &mut [u8],
        samples: &mut [i32],
        entries: &mut [Entry],
        marks: &mut [Mark],
        work: &mut [i32],
    ) -> u32
        ensures { Closes self.core script.old script.new samples.old samples.new entries.old entries.new marks.old marks.new work.old work.new result }
    {
        script.fill(0);
        samples.fill(0);
        entries.fill(Entry::none());
        marks.fill(Mark::none());
        work.fill(0);
        let Run {
            kind: _,
            scheduler: _,
            core,
        } = self;
        core.turns
    }
}
