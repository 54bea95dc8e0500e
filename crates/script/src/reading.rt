// Reading line by line: each frame is tested and put into its slot.
ghost use Rattle.std.proofs.Math.Option.{some};
ghost use Rattle.std.specs.Prelude.{◌≡◌, ◌≤◌, length, MatchResult};
ghost use Rattle.codec.specs.Lines.{line_bytes};
ghost use Rattle.codec.specs.Shapes.{read_of};
ghost use Rattle.codec.specs.Slots.{perhaps};
ghost use Rattle.script.specs.Format.{kind_in, whole_line};
ghost use Rattle.script.specs.Promises.{NamesKind, ReadGives, Reads};
ghost use Rattle.script.specs.Takings.{Fails, Fills, Refuses, Took};

use crate::faults::{Cause, LineFault, RunFault, ScriptFault};
use crate::state::State;
use crate::{Accepted, SLAB, SLOT};
use codec::frames::{Frame, read_frame};
use codec::lines::{Slot, read_line, split_line};
use lattice::Lattice;
use std::marker::PhantomData;

// A line's frame in its slot, and the state behind it.
fn take_line<K: Lattice>(state: State, line: &[u8]) -> Result<(State, Slot), ScriptFault>
    requires { state.frames ≤ 512 }
    ensures { MatchResult result (λ p. Took K.kind K.order state (whole_line (line_bytes (some line.now))) p.0 p.1) (Refuses K.kind K.order state (whole_line (line_bytes (some line.now)))) }
{
    let number = state.frames + 1;
    let slot = read_line(line).ok_or(LineFault { line: number })?;
    let next = state
        .take::<K>(&slot.bytes[..slot.len])
        .map_err(|cause| ScriptFault::InFrame {
            cause,
            line: number,
        })?;
    Ok((next, slot))
}

// Puts the frames of the lines into the first slots of a slab, to the first fault.
fn fill<K: Lattice>(lines: &[u8], slab: &mut [u8]) -> Result<State, ScriptFault>
    requires { 26112 ≤ length slab.old }
    ensures { MatchResult result (Fills K.kind K.order lines.now slab.old slab.new) (Fails K.kind K.order lines.now) }
{
    let mut state = State::at_first();
    let mut rest = lines;
    // Line by line from the rest, and not over split: a last line that no 0A ends is a fault, and split would give it like the others.
    // Lines are not counted apart, as they are behind a script: a line's number is that of the frames put so far, and one.
    while !rest.is_empty() {
        let number = state.frames + 1;
        let (line, after) = split_line(rest).ok_or(LineFault { line: number })?;
        let (next, slot) = take_line::<K>(state, line)?;
        let at = usize::from(state.frames) * SLOT;
        slab[at..at + SLOT].copy_from_slice(&slot.bytes);
        state = next;
        rest = after;
    }
    if !state.ended() {
        return Err(ScriptFault::InFrame {
            cause: Cause::Order,
            line: state.frames + 1,
        });
    }
    Ok(state)
}

// Reads a script into a slab: the frames in their slots and zeros behind them, or a refusal and nothing but zeros.
fn read_into<K: Lattice>(lines: &[u8], slab: &mut [u8]) -> Result<Accepted<K>, RunFault>
    ensures { ReadGives K.kind K.order lines.now slab.old slab.new result }
{
    if slab.len() < SLAB {
        return Err(RunFault::NoState);
    }
    match fill::<K>(lines, slab) {
        Ok(state) => {
            let used = usize::from(state.frames) * SLOT;
            slab[used..SLAB].fill(0);
            Ok(Accepted {
                kind: PhantomData,
                declarations: state.declarations(),
            })
        }
        Err(fault) => {
            slab.fill(0);
            Err(RunFault::from(fault))
        }
    }
}

// Reads a script of the kind K into a slab of at least 26,112 bytes: a frame a slot of 51 bytes, zeros behind it.
// A refusal of the lines leaves the slab zero, a slab that is too short is left as it was.
// It only calls read_into: what that contract means for every text is proved here, once.
#[tactic(auto, using(crate::proofs::Promising::reads))]
pub fn read<K: Lattice>(lines: &[u8], slab: &mut [u8]) -> Result<Accepted<K>, RunFault>
    ensures { Reads K.kind K.order lines.now slab.old slab.new result }
{
    read_into::<K>(lines, slab)
}

// The kind that a frame names, if it is a header.
fn header_kind(frame: Frame<'_>) -> Option<u8>
    ensures { perhaps (λ n. n) result ≡ kind_in (read_of frame.entry).frame }
{
    match frame {
        Frame::Header(head) => Some(head.kind),
        _ => None,
    }
}

// The kind of levels that the header of a text names; None where its first line is no header.
#[tactic(auto, using(crate::proofs::Naming::names, crate::proofs::Naming::no_line, crate::proofs::Naming::named_line))]
pub fn kind_named(lines: &[u8]) -> Option<u8>
    ensures { NamesKind lines.now result }
{
    let (line, _) = split_line(lines)?;
    let slot = read_line(line)?;
    header_kind(read_frame(&slot.bytes[..slot.len])?)
}
