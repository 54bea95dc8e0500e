// Finding a script in a slab of any bytes: the frame at the front of a slot, and zeros behind it.
ghost use Rattle.std.specs.Prelude.{◌≡◌, ◌+◌, ◌*◌, ◌<◌, ◌≤◌, length, take, unwrap_or, MatchOption};
ghost use Rattle.codec.specs.Expressions.{expr_bytes, decode, op_bytes};
ghost use Rattle.script.specs.Findings.{all_zero, length_at};
ghost use Rattle.script.specs.Nexts.{Next, NoNext};
ghost use Rattle.script.specs.Promises.{FrameFound, HoldsGives};
ghost use Rattle.script.specs.Slabs.{SlotFound};
ghost use Rattle.codec.specs.Operations.{op_of};

use crate::state::State;
use crate::{Declarations, FRAMES, SLAB, SLOT};
use codec::expressions::{Op, Ops};
use codec::frames::{Frame, read_frame};
use lattice::Lattice;

// Slot i of a slab, counted from 0; None past slot 511 and past the slab.
pub(crate) fn slot_in(slab: &[u8], i: u16) -> Option<&[u8; SLOT]>
    ensures { MatchOption result (i < 512 → length slab.now < i * 51 + 51) (λ s. SlotFound slab.now i s.now) }
{
    if i >= FRAMES {
        return None;
    }
    slab.get(usize::from(i) * SLOT..)?.first_chunk()
}

// Whether there is nothing but zeros.
fn is_zero(bytes: &[u8]) -> bool
    ensures { result ≡ all_zero bytes.now }
{
    bytes.iter().all(|b| *b == 0)
}

// How many bytes an operation has.
fn op_length(op: Op) -> usize
    ensures length { result ≡ length (op_bytes (op_of op)) }
    ensures short { result ≤ 5 }
{
    match op {
        Op::Constant(_) => 5,
        Op::Variable(_) | Op::Sample(_) | Op::Held(_) => 2,
        Op::Two(_) | Op::One(_) => 1,
    }
}

// How many bytes of a code can be read.
fn code_length(code: &[u8]) -> usize
    requires { length code.now ≤ 51 }
    ensures length { result ≡ length (expr_bytes (decode 0 code.now).ops) }
    ensures short { result ≤ 5 * length code.now }
{
    Ops::new(code).map(op_length).sum()
}

// How many bytes the frame at the front of a slot has; None where its kind is unknown.
fn frame_length(slot: &[u8; SLOT]) -> Option<usize>
    ensures { unwrap_or result 0 ≡ length_at slot.now }
{
    let slot: &[u8] = slot;
    Some(match slot[0] {
        0x01..=0x03 => 8,
        0x20 => 2,
        0x21 | 0x30 | 0x41 | 0x42 | 0x44 | 0x46 => 1,
        0x31 | 0x32 => 2 + code_length(&slot[2..]),
        0x40 | 0x43 => 1 + code_length(&slot[1..]),
        0x45 => 3 + code_length(&slot[3..]),
        0x7F => 3,
        _ => return None,
    })
}

// The bytes of the frame at the front of a slot; none where there is no frame, and the whole slot where it would be longer than that.
pub(crate) fn front_of(slot: &[u8; SLOT]) -> &[u8]
    ensures bytes { result.now ≡ take (length_at slot.now) slot.now }
    ensures short { length result.now ≤ 51 }
{
    let len = frame_length(slot).unwrap_or(0);
    slot.get(..len).unwrap_or(slot)
}

// The state behind the frame in a slot; None where no frame is there, the frame fails one of its tests, or not all behind it is zero.
fn next_slot<K: Lattice>(state: State, slot: &[u8; SLOT]) -> Option<State>
    ensures { MatchOption result (NoNext K.kind K.order state slot.now) (Next K.kind K.order state slot.now) }
{
    let (front, behind) = slot.split_at_checked(frame_length(slot)?)?;
    if !is_zero(behind) {
        return None;
    }
    state.take::<K>(front).ok()
}

// What the script declares that a slab of any bytes holds; None where it holds no script of the kind K.
pub fn holds<K: Lattice>(slab: &[u8]) -> Option<Declarations>
    ensures { HoldsGives K.kind K.order slab.now result }
{
    // Told before anything is looked at, so that a refusal for length costs nothing.
    if slab.len() < SLAB {
        return None;
    }
    let mut state = State::at_first();
    while !state.ended() {
        state = next_slot::<K>(state, slot_in(slab, state.frames)?)?;
    }
    let used = usize::from(state.frames) * SLOT;
    is_zero(slab.get(used..SLAB)?).then_some(state.declarations())
}

// The frame in a slot of a slab, counted from 0; None where there is no such slot or it begins with no frame.
pub fn frame_at(slab: &[u8], slot: u16) -> Option<Frame<'_>>
    ensures { FrameFound slab.now slot result }
{
    read_frame(front_of(slot_in(slab, slot)?))
}
