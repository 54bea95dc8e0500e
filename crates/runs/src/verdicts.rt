// What the monitor decides of a turn.
ghost use Rattle.std.specs.Prelude.{◌≡◌};
ghost use Rattle.runs.specs.Verdicts.{code_of, decided, left_by};

use survey::Kind;

// A put is dropped, swapped for a mark, or let through with its value. Other commands leave nothing, and the ends of blocks are no commands.
#[derive(Clone, Copy)]
pub(crate) enum Verdict {
    Drop,
    Mark,
    Value,
    Silent,
    Closing,
}

impl Verdict {
    // Whether a channel then has one entry more, or has missed one.
    pub(crate) fn leaves_one(self) -> bool
        ensures { result ≡ (left_by self).one }
    {
        matches!(self, Verdict::Mark | Verdict::Value)
    }
}

// The number of a kind in the format, by which a decision tells commands from the ends of blocks.
pub(crate) fn code(kind: Kind) -> u8
    ensures { result ≡ code_of kind }
{
    kind as u8
}

// The decision at a frame of this kind, by whether the context level and the expression's may flow to the channel. The project fixes
// it over the format's numbers and not over the enum of kinds: ranges of them tell commands from the ends of blocks.
pub(crate) fn decide(kind: u8, context_flows: bool, level_flows: bool) -> Verdict
    ensures { result ≡ decided kind context_flows level_flows }
{
    match kind {
        0x32 if !context_flows => Verdict::Drop,
        0x32 if !level_flows => Verdict::Mark,
        0x32 => Verdict::Value,
        0x30..=0x31 | 0x40 | 0x43 | 0x45 => Verdict::Silent,
        _ => Verdict::Closing,
    }
}
