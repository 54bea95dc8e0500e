// Refusals of three layers, each standing whole inside the next.
ghost use Rattle.std.specs.Prelude.{◌≡◌, Some};
ghost use Rattle.script.specs.declared.faults.RunFault.TheVariants.{InScript};
ghost use Rattle.script.specs.declared.faults.ScriptFault.TheVariants.{InLine};
ghost use Rattle.script.specs.Meanings.{cause_meaning, layer_name, line_meaning, run_meaning, script_meaning};
ghost use Rattle.script.specs.Refusals.{cause_number, line_refusal, run_refusal, script_refusal};

use std::fmt;

// The layer that refused: one line, the script, or a call.
#[derive(Clone, Copy, Debug, PartialEq)]
pub enum Layer {
    Line,
    Script,
    Run,
}

// What a refusal tells. Numbers 1 to 8 stand at a line, counted from 1; those of calls at none. The number is the format's, and no enum:
// the enums are the faults, and this is what they tell.
#[derive(Clone, Copy, Debug, PartialEq)]
pub struct Refusal {
    pub number: u8,
    pub line: Option<u16>,
    pub layer: Layer,
}

// A line that is no frame: it is empty, has an odd number of digits or more than 102, has a byte that is no digit, or no 0A ends it.
#[derive(Clone, Copy, Debug, PartialEq)]
pub struct LineFault {
    pub line: u16,
}

// What a frame is refused for.
#[derive(Clone, Copy, Debug, PartialEq)]
pub enum Cause {
    // The kind is unknown, or the length is not the kind's.
    Shape,
    // A header or a capacity is outside its range.
    Range,
    // A level is not of the header's kind.
    Level,
    // Out of order, unmatched, miscounted, missing or left over.
    Order,
    // A variable, track, channel or lock is not declared.
    Undeclared,
    // An expression does not work out.
    Expression,
    // Nested too deep, too many frames, or too long an input.
    Limit,
}

// Why lines are no script.
#[derive(Clone, Copy, Debug, PartialEq)]
pub enum ScriptFault {
    InLine(LineFault),
    InFrame { cause: Cause, line: u16 },
}

// Why a call did nothing.
#[derive(Clone, Copy, Debug, PartialEq)]
pub enum RunFault {
    InScript(ScriptFault),
    // A slab or an output is too short, a slab holds no script, or the slabs hold no state of a run.
    NoState,
    // There is no such track, channel, thread or entry.
    NoSuch,
    // The track is full.
    TrackFull,
    // The last turn that a run may have was given.
    OutOfTurns,
}

// Number, line and layer of a line's fault are those of the script's fault around it.
impl From<LineFault> for ScriptFault {
    ghost from_gives = { λ fault r. (r ≡ InLine fault) × (script_refusal r ≡ line_refusal fault) };

    fn from(fault: LineFault) -> Self {
        Self::InLine(fault)
    }
}

// Number, line and layer of a script's fault are those of the run's fault around it.
impl From<ScriptFault> for RunFault {
    ghost from_gives = { λ fault r. (r ≡ InScript fault) × (run_refusal r ≡ script_refusal fault) };

    fn from(fault: ScriptFault) -> Self {
        Self::InScript(fault)
    }
}

// A line's fault becomes the run's through the script's, and still tells the same.
impl From<LineFault> for RunFault {
    ghost from_gives = { λ fault r. (r ≡ InScript (InLine fault)) × (run_refusal r ≡ line_refusal fault) };

    fn from(fault: LineFault) -> Self {
        Self::from(ScriptFault::from(fault))
    }
}

// The number of what a frame is refused for.
impl From<Cause> for u8 {
    ghost from_gives = { λ cause r. r ≡ cause_number cause };

    fn from(cause: Cause) -> Self {
        match cause {
            Cause::Shape => 2,
            Cause::Range => 3,
            Cause::Level => 4,
            Cause::Order => 5,
            Cause::Undeclared => 6,
            Cause::Expression => 7,
            Cause::Limit => 8,
        }
    }
}

// What each fault tells.
impl From<LineFault> for Refusal {
    ghost from_gives = { λ fault r. r ≡ line_refusal fault };

    fn from(fault: LineFault) -> Self {
        Self {
            number: 1,
            line: Some(fault.line),
            layer: Layer::Line,
        }
    }
}

impl From<ScriptFault> for Refusal {
    ghost from_gives = { λ fault r. r ≡ script_refusal fault };

    fn from(fault: ScriptFault) -> Self {
        match fault {
            ScriptFault::InLine(fault) => Self::from(fault),
            ScriptFault::InFrame { cause, line } => Self {
                number: u8::from(cause),
                line: Some(line),
                layer: Layer::Script,
            },
        }
    }
}

impl From<RunFault> for Refusal {
    ghost from_gives = { λ fault r. r ≡ run_refusal fault };

    fn from(fault: RunFault) -> Self {
        let number = match fault {
            RunFault::InScript(fault) => return Self::from(fault),
            RunFault::NoState => 9,
            RunFault::NoSuch => 10,
            RunFault::TrackFull => 11,
            RunFault::OutOfTurns => 12,
        };
        Self {
            number,
            line: None,
            layer: Layer::Run,
        }
    }
}

// The layers and the faults in plain words, as the programs print them.

impl fmt::Display for Layer {
    ghost output = { λ layer. Some (layer_name layer) };

    fn fmt<W: fmt::Write>(&self, f: &mut fmt::Formatter<W>) -> fmt::Result {
        f.write_str(match self {
            Layer::Line => "line",
            Layer::Script => "script",
            Layer::Run => "run",
        })
    }
}

impl fmt::Display for LineFault {
    ghost output = { λ fault. Some (line_meaning fault) };

    fn fmt<W: fmt::Write>(&self, f: &mut fmt::Formatter<W>) -> fmt::Result {
        f.write_str(
            "the line is empty, has an odd number of digits or more than 102, has a byte that is no digit 0-9 or A-F, or does not end in a newline",
        )
    }
}

impl fmt::Display for Cause {
    ghost output = { λ cause. Some (cause_meaning cause) };

    fn fmt<W: fmt::Write>(&self, f: &mut fmt::Formatter<W>) -> fmt::Result {
        f.write_str(match self {
            Cause::Shape => "the frame's kind is unknown here, or its length is not the kind's",
            Cause::Range =>
                "a field of the header is outside its range, or a capacity exceeds 2,048 samples or 512 entries in all",
            Cause::Level => "a level is not one of the header's kind of levels",
            Cause::Order =>
                "the frame is out of order, a block is unmatched, a count is wrong, or lines are missing or left over",
            Cause::Undeclared => "a variable, track, channel or lock is not declared",
            Cause::Expression =>
                "an expression has an unknown or cut code, finds its stack empty, holds more than 16 numbers, or does not leave one",
            Cause::Limit =>
                "blocks nest more than 16 deep, there are more than 512 frames, or the input has more than 16,384 bytes",
        })
    }
}

impl fmt::Display for ScriptFault {
    ghost output = { λ fault. Some (script_meaning fault) };

    fn fmt<W: fmt::Write>(&self, f: &mut fmt::Formatter<W>) -> fmt::Result {
        match self {
            ScriptFault::InLine(fault) => fault.fmt(f),
            ScriptFault::InFrame { cause, .. } => cause.fmt(f),
        }
    }
}

impl fmt::Display for RunFault {
    ghost output = { λ fault. Some (run_meaning fault) };

    fn fmt<W: fmt::Write>(&self, f: &mut fmt::Formatter<W>) -> fmt::Result {
        f.write_str(match self {
            RunFault::InScript(fault) => return fault.fmt(f),
            RunFault::NoState => "the memory lent is too short, or holds no script",
            RunFault::NoSuch => "there is no such track, channel, thread or entry",
            RunFault::TrackFull => "the track is full",
            RunFault::OutOfTurns => "the last turn that a run may have was given",
        })
    }
}
