// How each thread stands.
ghost use Rattle.std.specs.Prelude.{◌≡◌, ◌<◌, ◌≤◌, slice_index_or};
ghost use Rattle.survey.specs.Table.{step_at_place};
ghost use Rattle.runs.specs.Flat.{nil_place, Sized, SoundStep, FitNow, TrackParts};
ghost use Rattle.model.specs.Machine.{chosen_status, status_is_ready as model_ready, status_is_finished as model_finished};
ghost use Rattle.runs.specs.Statuses.{status_of, if_status, with_status, status_now};
ghost use Rattle.runs.specs.Turns.{AllFit, ReadyList, over_first};

use crate::blocks::is_open;
use crate::{Core, Inputs, Mark, Pace, Status, Survey, Turn, WORK};
use lattice::Lattice;
use survey::Kind;

impl Status {
    // Barred is looked at first, then waiting.
    fn chosen(barred: bool, waits: bool) -> Status
        ensures { status_of result ≡ chosen_status barred waits }
    {
        if barred {
            Status::Barred
        } else if waits {
            Status::Waiting
        } else {
            Status::Ready
        }
    }

    // Whether a thread that stands so is ready.
    fn is_ready(self) -> bool
        ensures { result ≡ model_ready (status_of self) }
    {
        self == Status::Ready
    }

    // Whether it is finished.
    fn is_finished(self) -> bool
        ensures { result ≡ model_finished (status_of self) }
    {
        self == Status::Finished
    }
}

impl Core {
    // Whether a thread that stands at an if may be given a turn.
    fn status_if<K: Lattice>(&self, t: Turn, inputs: Inputs<'_>, marks: &[Mark]) -> Status
        requires sized { Sized self.now inputs.table.now marks.now }
        requires fit { (SoundStep self.now inputs.code.now t.step) × (t.place.depth ≤ 16) }
        ensures { status_of result ≡ if_status K.order inputs.entry.table.now inputs.entry.code.now t.thread self.now marks.now t.place t.step }
    {
        let here = t.context(marks);
        let level = K::join(here, self.level::<K>(inputs.expression(t.step)));
        let closed = !is_open(level);
        Status::chosen(
            !t.step.fixed && closed,
            is_open(here)
                && closed
                && t.step.needed & self.against(t.thread, inputs.table, marks) != 0,
        )
    }

    // The same at a with, by its own locks and its value; what the two share is one expression.
    fn status_with<K: Lattice>(
        &self,
        t: Turn,
        inputs: Inputs<'_>,
        marks: &[Mark],
        work: &mut [i32; WORK],
    ) -> Status
        requires sized { Sized self.now inputs.table.now marks.now }
        requires fit { (SoundStep self.now inputs.code.now t.step) × (t.place.depth ≤ 16) }
        requires tracks { TrackParts self.now inputs.samples.now }
        ensures { status_of result ≡ with_status K.order inputs.entry.table.now inputs.entry.code.now inputs.entry.samples.now t.thread self.now marks.now t.place t.step }
    {
        let bytes = inputs.expression(t.step);
        let zero = self.value(bytes, inputs.samples, work) == 0;
        let here = t.context(marks);
        Status::chosen(
            !is_open(self.level::<K>(bytes)),
            is_open(here)
                & (zero || t.step.mask & self.against(t.thread, inputs.table, marks) != 0),
        )
    }

    // Whether a turn may be given to thread i: one match over the pace and the kind together, as for the turn itself.
    fn status<K: Lattice>(
        &self,
        i: u8,
        inputs: Inputs<'_>,
        marks: &[Mark],
        work: &mut [i32; WORK],
    ) -> Status
        requires sized { (Sized self.now inputs.table.now marks.now) × (i < self.now.head.threads) }
        requires here { let p = slice_index_or self.now.threads i nil_place in let st = step_at_place inputs.table.now p.at in FitNow p.pace st.kind self.now inputs.table.now inputs.code.now p st }
        requires tracks { TrackParts self.now inputs.samples.now }
        ensures { status_of result ≡ status_now K.order inputs.entry.table.now inputs.entry.code.now inputs.entry.samples.now i self.now marks.now }
    {
        let t = self.turn_at(i, inputs);
        match (t.place.pace, t.step.kind) {
            (Pace::Idling(_), _) => Status::Ready,
            (Pace::Finished, _) => Status::Finished,
            (Pace::Running, Kind::If) => self.status_if::<K>(t, inputs, marks),
            (Pace::Running, Kind::While) => Status::chosen(
                !is_open(self.level::<K>(inputs.expression(t.step))),
                false,
            ),
            (Pace::Running, Kind::With) => self.status_with::<K>(t, inputs, marks, work),
            (Pace::Running, _) => Status::Ready,
        }
    }

    // The status of every thread.
    pub(crate) fn survey<K: Lattice>(
        &self,
        inputs: Inputs<'_>,
        marks: &[Mark],
        work: &mut [i32; WORK],
    ) -> Survey
        requires fit { AllFit self.now inputs.table.now inputs.code.now marks.now }
        requires tracks { TrackParts self.now inputs.samples.now }
        ensures ready { ReadyList K.order inputs.entry.table.now inputs.entry.code.now inputs.entry.samples.now self.now marks.now result.ready self.now.head.threads }
        ensures over { result.over ≡ over_first K.order inputs.entry.table.now inputs.entry.code.now inputs.entry.samples.now self.now marks.now self.now.head.threads }
    {
        let mut ready = [false; 8];
        let mut over = true;
        let threads = &mut ready[..self.head.threads as usize];
        for (i, can) in threads.iter_mut().enumerate() {
            let status = self.status::<K>(i as u8, inputs, marks, work);
            *can = status.is_ready();
            over &= status.is_finished();
        }
        Survey { ready, over }
    }
}
