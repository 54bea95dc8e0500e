// Run lines, behind the script: first the scheduler, then calls.
ghost use Rattle.std.specs.Iterator.{item_count};
ghost use Rattle.std.specs.Prelude.{◌≡◌, MatchOption};
ghost use Rattle.codec.specs.Slots.{perhaps};
ghost use Rattle.script.specs.Refusals.{script_refusal};
ghost use Rattle.script.specs.declared.faults.ScriptFault.TheVariants.{InFrame};
ghost use Rattle.protocol.specs.RunLines.{NextLine, NoLine, TookLine, call_line, call_of, first_line, line_of, lines_left, run_line, scheduler_line, scheduling_of, told};

use codec::lines::{Slot, read_line, split_line};
use script::faults::{Cause, LineFault, ScriptFault};

// The most picks of a scheduler's line.
pub const PICKS: usize = 32;

// A line of a text: its number, the bytes that its digits give, and what stands behind it.
#[derive(Clone, Copy)]
pub struct Line<'a> {
    pub number: u16,
    pub bytes: Result<Slot, LineFault>,
    pub rest: &'a [u8],
}

// The lines of a text that are still to come, and the number of the first.
#[derive(Drop)]
pub struct Lines<'a> {
    text: &'a [u8],
    number: u16,
}

// What is asked of a run.
#[derive(Clone, Copy)]
pub enum Call {
    Feed { track: u8, sample: i32 },
    Advance { turns: u16 },
    Read { channel: u8 },
    Status { thread: u8 },
}

// Who gives the turns of a run.
#[derive(Clone, Copy)]
pub enum Scheduling<'a> {
    RoundRobin,
    PickList { picks: &'a [u8] },
}

// What one line behind the script says.
#[derive(Clone, Copy)]
pub enum RunLine<'a> {
    // None where it names a scheduler that there is not.
    Scheduler(Option<Scheduling<'a>>),
    Call(Call),
}

// The first line of a text, which has this number; None where no line is left. What no 0A ends is a line too, a faulty one, and the last.
pub fn next_line(text: &[u8], number: u16) -> Option<Line<'_>>
    ensures { MatchOption result (NoLine text.now) (TookLine text.now number) }
{
    if text.is_empty() {
        return None;
    }
    match split_line(text) {
        Some((line, rest)) => Some(Line {
            number,
            bytes: read_line(line).ok_or(LineFault { line: number }),
            rest,
        }),
        None => Some(Line {
            number,
            bytes: Err(LineFault { line: number }),
            rest: &[],
        }),
    }
}

impl<'a> Lines<'a> {
    // The lines of a text, the first of which has this number.
    pub fn numbered(text: &'a [u8], first: u16) -> Lines<'a>
        ensures text { result.text.now ≡ text.now }
        ensures first { result.number ≡ first }
    {
        Lines {
            text,
            number: first,
        }
    }
}

impl<'a> Iterator for Lines<'a> {
    type Item = Line<'a>;

    ghost next_gives = { NextLine };

    ghost remaining = { item_count lines_left };

    fn next(&mut self) -> Option<Line<'a>> {
        let number = self.number;
        let line = next_line(self.text, number)?;
        self.text = line.rest;
        // An input has far fewer lines than the count can hold.
        self.number = number.saturating_add(1);
        Some(line)
    }
}

// The scheduler that the bytes behind a 4F name; None where their number is wrong.
fn read_scheduler(bytes: &[u8]) -> Option<RunLine<'_>>
    ensures { perhaps line_of result ≡ scheduler_line bytes.now }
{
    match bytes {
        [0x00] => Some(RunLine::Scheduler(Some(Scheduling::RoundRobin))),
        [0x01, picks @ ..] if (1..=PICKS).contains(&picks.len()) => Some(RunLine::Scheduler(Some(
            Scheduling::PickList { picks },
        ))),
        [] | [0x00 | 0x01, ..] => None,
        [_, rest @ ..] if rest.len() <= PICKS => Some(RunLine::Scheduler(None)),
        _ => None,
    }
}

// The run line that bytes are; None where the kind is unknown here or the length is not the kind's.
pub fn read_run_line(bytes: &[u8]) -> Option<RunLine<'_>>
    ensures { perhaps line_of result ≡ run_line bytes.now }
{
    match bytes {
        [0x4F, scheduler @ ..] => read_scheduler(scheduler),
        [0x50, track, a, b, c, d] => Some(RunLine::Call(Call::Feed {
            track: *track,
            sample: i32::from_be_bytes([*a, *b, *c, *d]),
        })),
        [0x51, high, low] => Some(RunLine::Call(Call::Advance {
            turns: u16::from_be_bytes([*high, *low]),
        })),
        [0x52, channel] => Some(RunLine::Call(Call::Read { channel: *channel })),
        [0x54, thread] => Some(RunLine::Call(Call::Status { thread: *thread })),
        _ => None,
    }
}

// What stands at a line is refused for a cause.
pub fn fault_at(line: u16, cause: Cause) -> ScriptFault
    ensures { result ≡ InFrame cause line }
{
    ScriptFault::InFrame { cause, line }
}

// The scheduler that the first run line names.
pub fn read_scheduling(bytes: &[u8], line: u16) -> Result<Scheduling<'_>, ScriptFault>
    ensures { told scheduling_of script_refusal result ≡ first_line (run_line bytes.now) line }
{
    match read_run_line(bytes).ok_or(fault_at(line, Cause::Shape))? {
        RunLine::Scheduler(scheduling) => scheduling.ok_or(fault_at(line, Cause::Range)),
        RunLine::Call(_) => Err(fault_at(line, Cause::Order)),
    }
}

// The call that a later run line makes. The scheduler is named once, so that a second one is out of order.
pub fn read_call(bytes: &[u8], line: u16) -> Result<Call, ScriptFault>
    ensures { told call_of script_refusal result ≡ call_line (run_line bytes.now) line }
{
    match read_run_line(bytes).ok_or(fault_at(line, Cause::Shape))? {
        RunLine::Call(call) => Ok(call),
        RunLine::Scheduler(_) => Err(fault_at(line, Cause::Order)),
    }
}
