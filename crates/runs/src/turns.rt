// Turns on end: who gets each, and when there are no more.
ghost use Rattle.std.specs.Prelude.{◌≡◌, ℕ, ◌<◌, ◌≤◌, ◌||◌, List, ◌==◌};
ghost use Rattle.codec.specs.Frames.{Frame};
ghost use Rattle.script.specs.Code.{Script};
ghost use Rattle.model.specs.Machine.{State};
ghost use Rattle.runs.specs.Flat.{mem};
ghost use Rattle.runs.specs.Leaves.{Leaves};
ghost use Rattle.runs.specs.Running.{RunsOn, RunningOn, TurnedOn, AdvancedOn};
ghost use Rattle.runs.specs.Turns.{ReadyList};

use crate::{Core, Entry, Inputs, MOST_TURNS, Mark, WORK};
use lattice::Lattice;
use scheduler::Scheduler;

// Whether no turn is left to give: every thread is finished, or it was the last that a run may have.
fn stops(over: bool, turns: u32) -> bool
    ensures { result ≡ (over || turns == 1000000) }
{
    over | (turns == MOST_TURNS)
}

impl Core {
    // The turn of the thread that the scheduler names, or a rest.
    fn turn<K: Lattice, S: Scheduler>(
        &mut self,
        scheduler: &mut S,
        ready: [bool; 8],
        inputs: Inputs<'_>,
        marks: &mut [Mark],
        entries: &mut [Entry],
        work: &mut [i32; WORK],
    )
        requires runs { RunningOn inputs (mem self.old marks.old entries.old) }
        requires ready { ReadyList K.order inputs.table.now inputs.code.now inputs.samples.now self.old marks.old ready self.old.head.threads }
        requires turns { self.old.turns < 1000000 }
        ensures runs { (sc : Script) (after : ℕ → List Frame) (s : State) → RunsOn inputs.entry (mem self.old marks.old entries.old) sc after s → TurnedOn K.order S.meaning inputs.entry (mem self.old marks.old entries.old) (mem self.new marks.new entries.new) scheduler.old scheduler.new sc after s }
        ensures leaves { Leaves (mem self.old marks.old entries.old) (mem self.new marks.new entries.new) }
    {
        let count = self.head.threads as usize;
        let chosen = scheduler.choose(&ready[..count]);
        self.take::<K>(chosen, inputs, marks, entries, work);
    }

    // Up to n turns; how many were given.
    pub(crate) fn advance<K: Lattice, S: Scheduler>(
        &mut self,
        scheduler: &mut S,
        n: u32,
        inputs: Inputs<'_>,
        marks: &mut [Mark],
        entries: &mut [Entry],
        work: &mut [i32; WORK],
    ) -> u32
        requires runs { RunningOn inputs (mem self.old marks.old entries.old) }
        ensures runs { (sc : Script) (after : ℕ → List Frame) (s : State) → RunsOn inputs.entry (mem self.old marks.old entries.old) sc after s → AdvancedOn K.order S.meaning inputs.entry n result (mem self.new marks.new entries.new) scheduler.old scheduler.new sc after s }
        ensures leaves { Leaves (mem self.old marks.old entries.old) (mem self.new marks.new entries.new) }
        ensures few { result ≤ n }
    {
        for given in 0..n {
            let survey = self.survey::<K>(inputs, marks, work);
            if stops(survey.over, self.turns) {
                return given;
            }
            self.turn::<K, S>(scheduler, survey.ready, inputs, marks, entries, work);
        }
        n
    }
}
