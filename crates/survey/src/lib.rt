// What a stretch of commands is, from its frames: whether it takes a fixed time and how long, which locks it names, which variables it assigns.
// The table of a script's steps is filled on the same way.
#![tactic(auto)]

ghost use Rattle.std.specs.Prelude.{◌≡◌, ◌+◌, ◌*◌, ◌<◌, ◌≤◌, true};
ghost use Rattle.codec.specs.Expressions.{decode};
ghost use Rattle.model.specs.Stretches.{is_literal_one};
ghost use Rattle.survey.specs.Bits.{bit as bit_of};
ghost use Rattle.survey.specs.Filling.{BeginsThread, Filled, Outside, simple_step};
ghost use Rattle.survey.specs.Stretches.{assigning, both_ways, followed, held, Measures, no_command, repeated, Survey};
ghost use Rattle.survey.specs.Table.{Tabulates};

pub use crate::around::{Around, walk_to};
use crate::reading::Reading;
pub use crate::table::{Kind, Step};
use crate::table::{past, plain, put_step};
use codec::expressions::{Op, first_op};
use codec::frames::Frame;
use script::{FRAMES, frame_at};

mod around;
mod reading;
mod table;

// A stretch up to the frame that ends it, which stands at `end`. Whether it takes a fixed time and its duration are both promised of
// every stretch: so they are a yes or no and a number, and no Option.
#[derive(Clone, Copy)]
pub struct Stretch {
    pub fixed: bool,
    pub duration: u32,
    pub needed: u16,
    pub assigned: u64,
    pub end: u16,
}

impl Stretch {
    // No command, at a place.
    fn none(at: u16) -> Stretch
        ensures { result ≡ no_command at }
    {
        Stretch {
            fixed: true,
            duration: 0,
            needed: 0,
            assigned: 0,
            end: at,
        }
    }

    // No turn, at a place, but a variable that is assigned.
    fn assigning(variable: u8, at: u16) -> Stretch
        ensures { result ≡ assigning variable at }
    {
        Stretch {
            assigned: bit(variable),
            ..Stretch::none(at)
        }
    }

    // The two ways of an if as one, which lasts as long as the longer way.
    fn beside(self, second: Stretch) -> Stretch
        ensures { result ≡ both_ways self second }
    {
        Stretch {
            fixed: self.fixed && second.fixed,
            duration: self.duration.max(second.duration),
            needed: self.needed | second.needed,
            assigned: self.assigned | second.assigned,
            end: second.end,
        }
    }

    // The body of a with, under locks whose condition is literal one or not.
    fn held(self, locks: u16, one: bool) -> Stretch
        ensures { result ≡ held locks one self }
    {
        Stretch {
            fixed: one && self.fixed,
            needed: locks | self.needed,
            ..self
        }
    }

    // So many turns with this, and what follows.
    fn then(self, turns: u32, next: Stretch) -> Stretch
        requires { self.duration + next.duration + turns < 4294967296 }
        ensures { result ≡ followed self turns next }
    {
        Stretch {
            duration: self.duration + next.duration + turns,
            ..self.beside(next)
        }
    }

    // A while with this as its body, and what follows.
    fn repeated(self, next: Stretch) -> Stretch
        ensures { result ≡ repeated self next }
    {
        Stretch {
            fixed: false,
            duration: 0,
            ..self.beside(next)
        }
    }
}

// A variable's bit in a mask.
fn bit(variable: u8) -> u64
    ensures { result ≡ bit_of variable }
{
    1u64.checked_shl(u32::from(variable)).unwrap_or(0)
}

// Whether an expression is the constant one and nothing else.
fn literal_one(code: &[u8]) -> bool
    ensures { (decode 0 code.now).whole ≡ true → result ≡ is_literal_one (decode 0 code.now).ops }
{
    matches!(first_op(code), Some((Op::Constant(1), [])))
}

// The step of a command that is no block, from its frame.
fn simple(at: u16, frame: Frame<'_>) -> Step
    requires { at < 512 }
    ensures { result ≡ simple_step at frame.entry }
{
    match frame {
        Frame::Assign {
            variable,
            expression: code,
        } => Step {
            number: variable,
            ..Reading { at, code }.step(Kind::Assign, 2)
        },
        Frame::Put {
            channel,
            expression: code,
        } => Step {
            number: channel,
            ..Reading { at, code }.step(Kind::Put, 2)
        },
        _ => plain(Kind::Skip),
    }
}

// The stretch at a place of a script, down through all nested blocks; the frames that are left grow fewer with each call. On the
// way every frame before its end gets its step: a block's when the stretches inside it are known.
fn survey_from(slab: &[u8], at: u16, table: &mut [Step]) -> Stretch
    requires { at ≤ 512 }
    ensures start { at ≤ result.end }
    ensures end { result.end ≤ 512 }
    ensures turns { result.duration + 2 * at ≤ 2 * result.end }
    ensures survey { Survey slab.now at result }
    ensures steps { Filled slab.now at result.end table.old table.new }
{
    let Some(frame) = frame_at(slab, at) else {
        return Stretch::none(at);
    };
    match frame {
        Frame::Skip | Frame::Put { .. } => {
            put_step(table, at, simple(at, frame));
            Stretch::none(at).then(1, survey_from(slab, past(at), table))
        }
        Frame::Assign { variable, .. } => {
            put_step(table, at, simple(at, frame));
            let own = Stretch::assigning(variable, at);
            own.then(1, survey_from(slab, past(at), table))
        }
        Frame::If { condition: code } => {
            let first = survey_from(slab, past(at), table);
            let second = survey_from(slab, past(first.end), table);
            Reading { at, code }.put_choice(table, first, second);
            let both = first.beside(second);
            both.then(2, survey_from(slab, past(second.end), table))
        }
        Frame::While { condition: code } => {
            let body = survey_from(slab, past(at), table);
            Reading { at, code }.put_loop(table, body.end);
            body.repeated(survey_from(slab, past(body.end), table))
        }
        Frame::With {
            locks,
            condition: code,
        } => {
            let body = survey_from(slab, past(at), table);
            Reading { at, code }.put_hold(table, locks, body.end);
            let held = body.held(locks, literal_one(code));
            held.then(2, survey_from(slab, past(body.end), table))
        }
        _ => Stretch::none(at),
    }
}

// Whether a thread begins at a place.
fn begins_thread(slab: &[u8], place: u16) -> bool
    ensures { BeginsThread slab.now place result }
{
    matches!(frame_at(slab, place), Some(Frame::Thread { .. }))
}

// The steps of the thread that begins at a place, or of the one frame there that no thread has; the place behind them.
fn tabulate_from(slab: &[u8], place: u16, table: &mut [Step]) -> u16
    requires place { place < 512 }
    requires outside { Outside slab.now place }
    ensures start { place < result }
    ensures end { result ≤ 512 }
    ensures outside { Outside slab.now result }
    ensures steps { Filled slab.now place result table.old table.new }
{
    if !begins_thread(slab, place) {
        put_step(table, place, plain(Kind::Other));
        return place + 1;
    }
    put_step(table, place, plain(Kind::Begin));
    let thread = survey_from(slab, place + 1, table);
    put_step(table, thread.end, plain(Kind::End));
    past(thread.end)
}

// The steps of the script that a slab holds, one for each frame, in the first places of the table.
pub fn tabulate(slab: &[u8], table: &mut [Step])
    ensures { Tabulates slab.now table.new }
{
    // A turn goes past a whole thread, so there is no range of places to go through.
    let mut place = 0;
    while place < FRAMES {
        place = tabulate_from(slab, place, table);
    }
}

// The stretch of commands at a place of the script that a slab holds.
pub fn stretch_at(slab: &[u8], place: u16) -> Stretch
    ensures { Survey slab.now place result }
{
    if place > FRAMES {
        return Stretch::none(place);
    }
    // No table is asked for, so none of the steps is kept.
    survey_from(slab, place, &mut [])
}

// Whether that stretch takes a fixed time, and how long it lasts: one measuring answers both. The pair is no Option, since both are
// promised of every stretch.
pub fn measure(slab: &[u8], place: u16) -> (bool, u32)
    ensures { Measures slab.now place result }
{
    let stretch = stretch_at(slab, place);
    (stretch.fixed, stretch.duration)
}

#[cfg(test)]
mod tests {
    use super::*;
    use lattice::TwoPoint;
    use script::{SLAB, read};

    // A with of literal one around an if with ways of 2 and 1 turns, then a while, then a skip; slots 4 to 17 are its commands.
    const SCRIPT: &[u8] = b"0101010102010103\n\
0200000000010004\n\
0300000000000008\n\
2000\n\
4500010100000001\n\
400200\n\
31000200\n\
31010200\n\
41\n\
32000200\n\
42\n\
46\n\
430200\n\
4500020200\n\
30\n\
46\n\
44\n\
30\n\
21\n\
7F0014\n";

    #[test]
    fn worked_examples(rt: HostRuntime) {
        let mut slab = [0u8; SLAB];
        assert!(rt; read::<TwoPoint>(SCRIPT, &mut slab).is_ok());
        assert_eq!(rt; measure(&slab, 6), (true, 2));
        assert_eq!(rt; measure(&slab, 9), (true, 1));
        assert_eq!(rt; measure(&slab, 5), (true, 4));
        assert_eq!(rt; measure(&slab, 17), (true, 1));
        assert!(rt; !measure(&slab, 4).0);
    }

    // The whole thread: both locks, both variables, up to its last frame.
    #[test]
    fn a_whole_thread(rt: HostRuntime) {
        let mut slab = [0u8; SLAB];
        assert!(rt; read::<TwoPoint>(SCRIPT, &mut slab).is_ok());
        let thread = stretch_at(&slab, 4);
        assert_eq!(rt; thread.needed, 3);
        assert_eq!(rt; thread.assigned, 3);
        assert_eq!(rt; thread.end, 18);
        assert_eq!(rt; stretch_at(&slab, 12).needed, 2);
        assert_eq!(rt; stretch_at(&slab, 600).end, 600);
    }

    // Its steps: the if in it has its else at 8, where the second way waits for the first, and its end at 10; the while ends at 16.
    #[test]
    fn steps_of_a_script(rt: HostRuntime) {
        let mut slab = [0u8; SLAB];
        assert!(rt; read::<TwoPoint>(SCRIPT, &mut slab).is_ok());
        let mut table = [Step::none(); 512];
        tabulate(&slab, &mut table);
        let choice = table[5];
        assert!(rt; choice.fixed);
        assert_eq!(rt; (choice.first, choice.second), (0, 1));
        assert_eq!(rt; (choice.start, choice.stop), (256, 258));
        assert_eq!(rt; (choice.needed, choice.assigned), (0, 3));
        assert_eq!(rt; (choice.other, table[8].other), (9, 11));
        assert_eq!(rt; table[12].other, 17);
        assert_eq!(rt; table[13].mask, 2);
        assert_eq!(rt; table[7].number, 1);
    }
}
