// The input before it is read: its length, the kind of levels that its header names, and where its script ends.
ghost use Rattle.std.specs.Prelude.{◌≡◌, Some};
ghost use Rattle.script.specs.Format.{named_kind};
ghost use Rattle.protocol.specs.Intake.{Parted, ShortEnough, begins_last, kind_for, kind_name, kind_number};

use crate::run_lines::fault_at;
use codec::lines::split_line;
use script::faults::{Cause, RunFault};
use script::kind_named;
use std::fmt;

// The most bytes that a program takes.
pub const LONGEST: usize = 16_384;

// The kinds of levels that the program has.
#[derive(Clone, Copy, Debug, PartialEq)]
pub enum Kind {
    TwoPoint,
    Bits,
}

impl fmt::Display for Kind {
    ghost output = { λ kind. Some (kind_name kind) };

    fn fmt<W: fmt::Write>(&self, f: &mut fmt::Formatter<W>) -> fmt::Result {
        match self {
            Kind::TwoPoint => f.write_str("open and closed"),
            Kind::Bits => f.write_str("sets of sixteen bits"),
        }
    }
}

// An input that is too long is refused at no line, before anything of it is read.
pub fn short_enough(input: &[u8]) -> Result<(), RunFault>
    ensures { ShortEnough input.now result }
{
    if input.len() > LONGEST {
        return Err(RunFault::from(fault_at(0, Cause::Limit)));
    }
    Ok(())
}

// The kind to read a text under. One that the program has not gets its refusal from reading under any other.
// A match on one number against all else: a conversion from numbers would have an error that nobody looks at.
pub fn kind_for_text(text: &[u8]) -> Kind
    ensures { kind_number result ≡ kind_for (named_kind text.now) }
{
    match kind_named(text) {
        Some(2) => Kind::Bits,
        _ => Kind::TwoPoint,
    }
}

// Whether a line begins as a script's last frame does.
fn is_last(line: &[u8]) -> bool
    ensures { result ≡ begins_last line.now }
{
    line.starts_with(b"7F")
}

// The script, up to and with its last line, and the run lines behind it. With no such line, all of the text is the script.
#[tactic(auto, using(crate::proofs::Parting::gone_more))]
pub fn split_script(text: &[u8]) -> (&[u8], &[u8])
    ensures { Parted text.now result.0.now result.1.now }
{
    // No iterator gives the lines here: where the last one is found, what is left behind it says where to split.
    let mut rest = text;
    while let Some((line, after)) = split_line(rest) {
        rest = after;
        if is_last(line) {
            return text.split_at(text.len() - rest.len());
        }
    }
    (text, &[])
}
