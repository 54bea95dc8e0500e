// A frame with an expression, in its slot: its step, and the steps of the block that it opens, if it opens one.
ghost use Rattle.std.specs.Prelude.{◌≡◌, ◌<◌, ◌≤◌, length, slice_set};
ghost use Rattle.survey.specs.Filling.{closing_step, idle_turns, if_step, place_past, plain_step, reading_step};

use crate::Stretch;
use crate::table::{Kind, Step, past, plain, put_step};
use codec::frames::LONGEST;
use script::SLOT;

// The place of a frame with an expression, which is that of a slot, and the bytes of the expression.
#[derive(Clone, Copy)]
pub(crate) struct Reading<'a> {
    pub(crate) at: u16,
    pub(crate) code: &'a [u8],
    ghost within: { at < 512 },
}

impl Reading<'_> {
    // A step with the expression, which stands so far into the slot.
    pub(crate) fn step(self, kind: Kind, offset: u16) -> Step
        requires { offset ≤ 3 }
        ensures { result ≡ reading_step kind 0 0 0 self.entry.at offset (length self.entry.code.now) }
    {
        let start = self.at * SLOT as u16 + offset;
        Step {
            start,
            stop: start + self.code.len().min(LONGEST) as u16,
            ..plain(kind)
        }
    }

    // Writes the steps of an if, of its else and of its end, from its two ways.
    pub(crate) fn put_choice(self, table: &mut [Step], first: Stretch, second: Stretch)
        requires first { first.duration ≤ 2048 }
        requires second { second.duration ≤ 2048 }
        ensures { table.new ≡ slice_set (slice_set (slice_set table.old self.entry.at (if_step self.entry.at (length self.entry.code.now) first second)) first.end (closing_step Kind.Else (place_past second.end))) second.end (plain_step Kind.EndIf) }
    {
        let both = first.beside(second);
        let choice = Step {
            other: past(first.end),
            fixed: both.fixed,
            first: idle(both.fixed, first.duration, second.duration),
            second: idle(both.fixed, second.duration, first.duration),
            needed: both.needed,
            assigned: both.assigned,
            ..self.step(Kind::If, 1)
        };
        let middle = Step {
            other: past(second.end),
            ..plain(Kind::Else)
        };
        put_step(table, self.at, choice);
        put_step(table, first.end, middle);
        put_step(table, second.end, plain(Kind::EndIf));
    }

    // Writes the step that opens a block with one stretch inside, and that of the block's end.
    fn put_block(self, table: &mut [Step], opens: Step, end: u16, closes: Kind)
        ensures { table.new ≡ slice_set (slice_set table.old self.entry.at opens) end (plain_step closes) }
    {
        put_step(table, self.at, opens);
        put_step(table, end, plain(closes));
    }

    // Writes the steps of a while and of its end.
    pub(crate) fn put_loop(self, table: &mut [Step], end: u16)
        ensures { table.new ≡ slice_set (slice_set table.old self.entry.at (reading_step Kind.While 0 0 (place_past end) self.entry.at 1 (length self.entry.code.now))) end (plain_step Kind.EndWhile) }
    {
        let opens = Step {
            other: past(end),
            ..self.step(Kind::While, 1)
        };
        self.put_block(table, opens, end, Kind::EndWhile);
    }

    // Writes the steps of a with and of its end.
    pub(crate) fn put_hold(self, table: &mut [Step], mask: u16, end: u16)
        ensures { table.new ≡ slice_set (slice_set table.old self.entry.at (reading_step Kind.With 0 mask 0 self.entry.at 3 (length self.entry.code.now))) end (plain_step Kind.EndWith) }
    {
        let opens = Step {
            mask,
            ..self.step(Kind::With, 3)
        };
        self.put_block(table, opens, end, Kind::EndWith);
    }
}

// The idle turns at the end of a way: how much longer the other one lasts, where both take a fixed time.
fn idle(fixed: bool, own: u32, other: u32) -> u16
    requires { other ≤ 2048 }
    ensures { result ≡ idle_turns fixed own other }
{
    if fixed {
        other.saturating_sub(own) as u16
    } else {
        0
    }
}
