// What a turn does.
ghost use Rattle.std.specs.Prelude.{◌≡◌, ℕ, ◌+◌, ◌-◌, ◌<◌, ◌≤◌, List, length, get_or, slice_index_or, slice_set};
ghost use Rattle.runs.specs.Flat.{nil_mark, turn_at, first_mark, level_inside, pace_at as model_pace_at, arrived, with_place, nil_place, Sized, Fit, FitAt, SoundStep, mem, after_turn, skipped, assigned, branched, branch_level, opened, closing, beyond, Part, Parts, nil_port, with_channels, added_port, added_entries, entry_by, put_verdict, put_core, put_entries, looped, looped_marks, arrive_in, TrackParts};
ghost use Rattle.std.proofs.Math.Option.{some};
ghost use Rattle.codec.specs.Frames.{Frame};
ghost use Rattle.script.specs.Code.{Script};
ghost use Rattle.model.specs.Machine.{State, rules, take_turn};
ghost use Rattle.runs.specs.Running.{RunsOn, RunningOn};
ghost use Rattle.runs.specs.Leaves.{Leaves};
ghost use Rattle.runs.specs.Turns.{Within};
ghost use Rattle.scheduler.specs.Turns.{answered};

use crate::blocks::{context_level, innermost, opener};
use crate::verdicts::{Verdict, decide};
use crate::{Cell, Core, Entry, Inputs, Mark, Pace, Place, Turn, WORK, verdicts};
use lattice::Lattice;
use survey::{Kind, Step};

// The pace of a thread that comes to a frame of this kind.
fn pace_at(kind: Kind) -> Pace
    ensures { result ≡ model_pace_at kind }
{
    match kind {
        Kind::End => Pace::Finished,
        _ => Pace::Running,
    }
}

// The place of a thread that comes to a frame.
fn arrive(table: &[Step], at: u16, depth: u8) -> Place
    requires { at < length table.now }
    ensures { result ≡ arrived table.now at depth }
{
    Place {
        at,
        depth,
        pace: pace_at(table[at as usize].kind),
    }
}

impl Turn {
    // The context level of the thread.
    pub(crate) fn context(self, marks: &[Mark]) -> u32
        requires { (self.place.depth ≤ 16) × (128 ≤ length marks.now) }
        ensures { result ≡ level_inside marks.now (first_mark self.thread) self.place.depth }
    {
        context_level(marks, self.blocks())
    }

    // The frame at the thread's place opens a block, with this level inside it.
    fn open(self, marks: &mut [Mark], level: u32)
        requires { (self.place.depth < 16) × (128 ≤ length marks.old) }
        ensures { marks.new ≡ opened self.thread marks.old self.place level }
    {
        let mark = Mark {
            opener: self.place.at,
            level,
        };
        let _ = self.blocks().push(marks, mark);
    }
}

impl Core {
    // Thread i, where it stands, and the step there.
    pub(crate) fn turn_at(&self, i: u8, inputs: Inputs<'_>) -> Turn
        requires { (i < 8) × ((get_or self.now.threads i nil_place).at < length inputs.table.now) }
        ensures { (few : i < 8) × (result ≡ turn_at self.now inputs.entry.table.now i few) }
    {
        let place = self.threads[i as usize];
        Turn {
            thread: i,
            place,
            step: inputs.table[place.at as usize],
        }
    }

    // Thread i comes to a frame.
    fn arrive_at(&mut self, i: u8, inputs: Inputs<'_>, at: u16, depth: u8)
        requires { (i < 8) × (at < length inputs.table.now) }
        ensures { self.new ≡ with_place self.old i (arrived inputs.entry.table.now at depth) }
    {
        self.threads[i as usize] = arrive(inputs.table, at, depth);
    }

    // A skip: one frame on.
    fn skip(&mut self, t: Turn, inputs: Inputs<'_>)
        requires { t.place.at + 1 < length inputs.table.now }
        ensures { self.new ≡ skipped inputs.entry.table.now t.thread self.old t.place }
    {
        self.arrive_at(t.thread, inputs, t.place.at + 1, t.place.depth);
    }

    // An assignment: the value, at its level joined with the guard.
    fn assign<K: Lattice>(
        &mut self,
        t: Turn,
        inputs: Inputs<'_>,
        marks: &[Mark],
        work: &mut [i32; WORK],
    )
        requires sized { Sized self.old inputs.table.now marks.now }
        requires fit { FitAt Kind.Assign self.old inputs.table.now inputs.code.now t.place t.step }
        requires tracks { TrackParts self.old inputs.samples.now }
        ensures { self.new ≡ assigned K.order inputs.entry.table.now inputs.entry.code.now inputs.entry.samples.now t.thread self.old marks.now t.place t.step }
    {
        let bytes = inputs.expression(t.step);
        let value = self.value(bytes, inputs.samples, work);
        let level = K::join(
            self.level::<K>(bytes),
            self.guard::<K>(inputs.table, marks, t.step.number),
        );
        self.cells[t.step.number as usize] = Cell { value, level };
        self.skip(t, inputs);
    }

    // An if: what either way assigns is raised, and one way is taken.
    fn branch<K: Lattice>(
        &mut self,
        t: Turn,
        inputs: Inputs<'_>,
        marks: &mut [Mark],
        work: &mut [i32; WORK],
    )
        requires sized { Sized self.old inputs.table.now marks.old }
        requires fit { FitAt Kind.If self.old inputs.table.now inputs.code.now t.place t.step }
        requires tracks { TrackParts self.old inputs.samples.now }
        ensures core { self.new ≡ branched K.order inputs.entry.table.now inputs.entry.code.now inputs.entry.samples.now t.thread self.old marks.old t.place t.step }
        ensures marks { marks.new ≡ opened t.thread marks.old t.place (branch_level K.order inputs.entry.code.now t.thread self.old marks.old t.place t.step) }
    {
        let bytes = inputs.expression(t.step);
        let level = K::join(t.context(marks), self.level::<K>(bytes));
        let zero = self.value(bytes, inputs.samples, work) == 0;
        self.raise::<K>(t.step.assigned, level);
        t.open(marks, level);
        self.arrive_at(
            t.thread,
            inputs,
            if zero { t.step.other } else { t.place.at + 1 },
            t.place.depth + 1,
        );
    }

    // The end of a way with n idle turns left: one fewer, or out of the branch.
    fn close(&mut self, t: Turn, n: u16, inputs: Inputs<'_>)
        requires { (t.place.at < 512) × ((0 < t.place.depth) × (beyond t.step.kind t.step.other t.place.at < length inputs.table.now)) }
        ensures { self.new ≡ closing inputs.entry.table.now t.thread n self.old t.place t.step }
    {
        if n == 0 {
            let to = match t.step.kind {
                Kind::Else => t.step.other,
                _ => t.place.at + 1,
            };
            self.arrive_at(t.thread, inputs, to, t.place.depth - 1);
        } else {
            self.threads[t.thread as usize] = Place {
                pace: Pace::Idling(n - 1),
                ..t.place
            };
        }
    }

    // One entry more on channel `h`, or one more missed.
    fn add_entry(&mut self, h: usize, entry: Entry, entries: &mut [Entry])
        requires h { h < 8 }
        requires part { (Part (slice_index_or self.old.channels h nil_port) self.old.turns entries.old) × (self.old.turns ≤ 1000000) }
        ensures core { self.new ≡ with_channels self.old (slice_set self.old.channels h (added_port (slice_index_or self.old.channels h nil_port))) }
        ensures entries { entries.new ≡ added_entries (slice_index_or self.old.channels h nil_port) entry entries.old }
    {
        let port = self.channels[h];
        if port.count < port.size {
            entries[port.start + port.count] = entry;
            self.channels[h].count = port.count + 1;
        } else {
            self.channels[h].missed = port.missed + 1;
        }
    }

    // What becomes of a put: one decision by the levels of the context, the expression and the channel.
    fn verdict<K: Lattice>(&self, t: Turn, inputs: Inputs<'_>, marks: &[Mark]) -> Verdict
        requires fit { (SoundStep self.now inputs.code.now t.step) × ((t.step.number < 8) × (t.step.kind ≡ Kind.Put)) }
        requires room { (t.place.depth ≤ 16) × (128 ≤ length marks.now) }
        ensures { result ≡ put_verdict K.order inputs.entry.code.now t.thread self.now marks.now t.place t.step }
    {
        let to = self.channels[t.step.number as usize].level;
        let level = self.level::<K>(inputs.expression(t.step));
        decide(
            verdicts::code(t.step.kind),
            K::flows(t.context(marks), to),
            K::flows(level, to),
        )
    }

    // What a put leaves that is not dropped.
    fn entry(&self, t: Turn, verdict: Verdict, inputs: Inputs<'_>, work: &mut [i32; WORK]) -> Entry
        requires fit { SoundStep self.now inputs.code.now t.step }
        requires turns { self.now.turns ≤ 1000000 }
        requires tracks { TrackParts self.now inputs.samples.now }
        ensures { result ≡ entry_by verdict inputs.entry.code.now inputs.entry.samples.now t.thread self.now t.step }
    {
        let (mark, value) = match verdict {
            Verdict::Value => (
                false,
                self.value(inputs.expression(t.step), inputs.samples, work),
            ),
            _ => (true, 0),
        };
        Entry {
            turn: self.turns + 1,
            thread: t.thread,
            mark,
            value,
        }
    }

    // A put: an entry on its channel, or one more missed, unless it is dropped.
    fn put<K: Lattice>(
        &mut self,
        t: Turn,
        inputs: Inputs<'_>,
        marks: &[Mark],
        entries: &mut [Entry],
        work: &mut [i32; WORK],
    )
        requires sized { (Sized self.old inputs.table.now marks.now) × (Parts self.old entries.old) }
        requires fit { (FitAt Kind.Put self.old inputs.table.now inputs.code.now t.place t.step) × ((t.place.depth ≤ 16) × (t.step.kind ≡ Kind.Put)) }
        requires tracks { TrackParts self.old inputs.samples.now }
        ensures core { self.new ≡ put_core K.order inputs.entry.table.now inputs.entry.code.now inputs.entry.samples.now t.thread self.old marks.now t.place t.step }
        ensures entries { entries.new ≡ put_entries K.order inputs.entry.table.now inputs.entry.code.now inputs.entry.samples.now t.thread self.old marks.now t.place t.step entries.old }
    {
        let verdict = self.verdict::<K>(t, inputs, marks);
        if verdict.leaves_one() {
            let entry = self.entry(t, verdict, inputs, work);
            self.add_entry(t.step.number as usize, entry, entries);
        }
        self.skip(t, inputs);
    }

    // Into a block: it is marked with the level inside it.
    fn enter(&mut self, t: Turn, inputs: Inputs<'_>, marks: &mut [Mark])
        requires { (t.place.at + 1 < length inputs.table.now) × ((t.place.depth < 16) × (128 ≤ length marks.old)) }
        ensures core { self.new ≡ arrive_in inputs.entry.table.now t.thread self.old (t.place.at + 1) (t.place.depth + 1) }
        ensures marks { marks.new ≡ opened t.thread marks.old t.place (level_inside marks.old (first_mark t.thread) t.place.depth) }
    {
        t.open(marks, t.context(marks));
        self.arrive_at(t.thread, inputs, t.place.at + 1, t.place.depth + 1);
    }

    // A while: past its end, or into its body.
    fn repeat(&mut self, t: Turn, inputs: Inputs<'_>, marks: &mut [Mark], work: &mut [i32; WORK])
        requires sized { Sized self.old inputs.table.now marks.old }
        requires fit { FitAt Kind.While self.old inputs.table.now inputs.code.now t.place t.step }
        requires tracks { TrackParts self.old inputs.samples.now }
        ensures core { self.new ≡ looped inputs.entry.table.now inputs.entry.code.now inputs.entry.samples.now t.thread self.old t.place t.step }
        ensures marks { marks.new ≡ looped_marks inputs.entry.code.now inputs.entry.samples.now t.thread self.old marks.old t.place t.step }
    {
        if self.value(inputs.expression(t.step), inputs.samples, work) == 0 {
            self.arrive_at(t.thread, inputs, t.step.other, t.place.depth);
        } else {
            self.enter(t, inputs, marks);
        }
    }

    // From the end of a while back to its test.
    fn return_to_test(&mut self, t: Turn, inputs: Inputs<'_>, marks: &[Mark])
        requires thread { (0 < t.place.depth) × (first_mark t.thread + t.place.depth ≤ length marks.now) }
        requires opener { (get_or marks.now (first_mark t.thread + (t.place.depth - 1)) nil_mark).opener < length inputs.table.now }
        ensures { self.new ≡ arrive_in inputs.entry.table.now t.thread self.old (get_or marks.now (first_mark t.thread + (t.place.depth - 1)) nil_mark).opener (t.place.depth - 1) }
    {
        let opener = innermost(marks, t.blocks()).opener;
        self.arrive_at(t.thread, inputs, opener, t.place.depth - 1);
    }

    // Out of a with.
    fn leave(&mut self, t: Turn, inputs: Inputs<'_>)
        requires { (0 < t.place.depth) × (t.place.at + 1 < length inputs.table.now) }
        ensures { self.new ≡ arrive_in inputs.entry.table.now t.thread self.old (t.place.at + 1) (t.place.depth - 1) }
    {
        self.arrive_at(t.thread, inputs, t.place.at + 1, t.place.depth - 1);
    }

    // One turn of thread i: by its own state and its next frame. It is one match over the pace and the kind together, as the machine's
    // rules are written.
    fn step<K: Lattice>(
        &mut self,
        i: u8,
        inputs: Inputs<'_>,
        marks: &mut [Mark],
        entries: &mut [Entry],
        work: &mut [i32; WORK],
    )
        requires fit { Fit self.old inputs.table.now inputs.code.now marks.old entries.old i }
        requires tracks { TrackParts self.old inputs.samples.now }
        ensures { mem self.new marks.new entries.new ≡ after_turn K.order inputs.entry.table.now inputs.entry.code.now inputs.entry.samples.now i (mem self.old marks.old entries.old) }
    {
        let t = self.turn_at(i, inputs);
        match (t.place.pace, t.step.kind) {
            (Pace::Finished, _) => {}
            (Pace::Idling(n), _) => self.close(t, n, inputs),
            (Pace::Running, Kind::Skip) => self.skip(t, inputs),
            (Pace::Running, Kind::Assign) => self.assign::<K>(t, inputs, marks, work),
            (Pace::Running, Kind::If) => self.branch::<K>(t, inputs, marks, work),
            (Pace::Running, Kind::Else) => {
                self.close(t, opener(inputs.table, marks, t).first, inputs)
            }
            (Pace::Running, Kind::EndIf) => {
                self.close(t, opener(inputs.table, marks, t).second, inputs)
            }
            (Pace::Running, Kind::Put) => self.put::<K>(t, inputs, marks, entries, work),
            (Pace::Running, Kind::While) => self.repeat(t, inputs, marks, work),
            (Pace::Running, Kind::EndWhile) => self.return_to_test(t, inputs, marks),
            (Pace::Running, Kind::With) => self.enter(t, inputs, marks),
            (Pace::Running, Kind::EndWith) => self.leave(t, inputs),
            (Pace::Running, Kind::Other | Kind::Begin | Kind::End) => {}
        }
    }

    // A turn given to thread i, and counted.
    fn turn_of<K: Lattice>(
        &mut self,
        i: u8,
        inputs: Inputs<'_>,
        marks: &mut [Mark],
        entries: &mut [Entry],
        work: &mut [i32; WORK],
    )
        requires runs { RunningOn inputs (mem self.old marks.old entries.old) }
        requires thread { (i < self.old.head.threads) × (self.old.turns < 1000000) }
        ensures runs { (sc : Script) (after : ℕ → List Frame) (s : State) → RunsOn inputs.entry (mem self.old marks.old entries.old) sc after s → RunsOn inputs.entry (mem self.new marks.new entries.new) sc after (take_turn (rules K.order sc) s (some i)) }
        ensures leaves { Leaves (mem self.old marks.old entries.old) (mem self.new marks.new entries.new) }
    {
        let turns = self.turns;
        self.step::<K>(i, inputs, marks, entries, work);
        self.turns = turns + 1;
    }

    // The turn of a thread, or a rest.
    pub(crate) fn take<K: Lattice>(
        &mut self,
        chosen: Option<u8>,
        inputs: Inputs<'_>,
        marks: &mut [Mark],
        entries: &mut [Entry],
        work: &mut [i32; WORK],
    )
        requires runs { RunningOn inputs (mem self.old marks.old entries.old) }
        requires chosen { Within chosen self.old.head.threads }
        requires turns { self.old.turns < 1000000 }
        ensures runs { (sc : Script) (after : ℕ → List Frame) (s : State) → RunsOn inputs.entry (mem self.old marks.old entries.old) sc after s → RunsOn inputs.entry (mem self.new marks.new entries.new) sc after (take_turn (rules K.order sc) s (answered chosen)) }
        ensures leaves { Leaves (mem self.old marks.old entries.old) (mem self.new marks.new entries.new) }
    {
        match chosen {
            Some(i) => self.turn_of::<K>(i, inputs, marks, entries, work),
            None => self.turns += 1,
        }
    }
}
