// Expressions in postfix code: their operations, and what a sound one is.
ghost use Rattle.std.specs.Prelude.{◌≡◌, ◌<◌, ◌&&◌, ◌==◌, false, length, MatchOption};
ghost use Rattle.codec.specs.Expressions.{decode};
ghost use Rattle.codec.specs.Sound.{declared, leaves_one, op_declared, sound};
ghost use Rattle.std.specs.Iterator.{YieldsFirstBy, item_count};
ghost use Rattle.codec.specs.Operations.{First, alone, deepened, left, op_of, plain_at, stopped};
ghost use Rattle.codec.specs.Shapes.{head_of};
ghost use Rattle.codec.specs.Slots.{perhaps};

use crate::frames::Head;

// Operations on two working numbers; the lower one is the first operand.
#[derive(Clone, Copy)]
pub enum Binary {
    Sum,
    Difference,
    Product,
    Quotient,
    Less,
    Equal,
    Both,
    Either,
}

// Operations on one.
#[derive(Clone, Copy)]
pub enum Unary {
    Negated,
    Inverted,
}

// One operation of an expression.
#[derive(Clone, Copy)]
pub enum Op {
    Constant(i32),
    Variable(u8),
    // The sample of a track, in place of its index.
    Sample(u8),
    // How many samples a track holds.
    Held(u8),
    Two(Binary),
    One(Unary),
}

// The operation of a code that has no operand bytes.
fn plain_op(k: u8) -> Option<Op>
    ensures { perhaps alone result ≡ plain_at k }
{
    match k {
        0x10 => Some(Op::Two(Binary::Sum)),
        0x11 => Some(Op::Two(Binary::Difference)),
        0x12 => Some(Op::Two(Binary::Product)),
        0x13 => Some(Op::Two(Binary::Quotient)),
        0x14 => Some(Op::Two(Binary::Less)),
        0x15 => Some(Op::Two(Binary::Equal)),
        0x16 => Some(Op::Two(Binary::Both)),
        0x17 => Some(Op::Two(Binary::Either)),
        0x18 => Some(Op::One(Unary::Negated)),
        0x19 => Some(Op::One(Unary::Inverted)),
        _ => None,
    }
}

// The first operation of a code and the code behind it; None where the code is empty, or its first operation unknown or cut.
pub fn first_op(code: &[u8]) -> Option<(Op, &[u8])>
    ensures { MatchOption result (0 < length code.now → decode 0 code.now ≡ stopped) (λ p. First code.now (op_of p.0) p.1.now) }
{
    match code {
        [0x01, a, b, c, d, rest @ ..] => Some((
            Op::Constant(i32::from_be_bytes([*a, *b, *c, *d])),
            rest,
        )),
        [0x02, x, rest @ ..] => Some((Op::Variable(*x), rest)),
        [0x03, t, rest @ ..] => Some((Op::Sample(*t), rest)),
        [0x04, t, rest @ ..] => Some((Op::Held(*t), rest)),
        [k, rest @ ..] => Some((plain_op(*k)?, rest)),
        [] => None,
    }
}

// Whether the variable or track that an operation names is declared.
fn is_declared(op: Op, head: &Head) -> bool
    ensures { result ≡ op_declared (head_of head.now) (op_of op) }
{
    match op {
        Op::Variable(x) => x < head.variables,
        Op::Sample(t) | Op::Held(t) => t < head.tracks,
        Op::Constant(_) | Op::Two(_) | Op::One(_) => true,
    }
}

// The operations of a code, one after another, as far as they can be read.
#[derive(Drop)]
pub struct Ops<'a> {
    rest: &'a [u8],
}

impl<'a> Ops<'a> {
    pub fn new(code: &'a [u8]) -> Ops<'a>
        ensures { left result ≡ (decode 0 code.now).ops }
    {
        Ops { rest: code }
    }
}

impl<'a> Iterator for Ops<'a> {
    type Item = Op;

    ghost next_gives = { YieldsFirstBy op_of left };

    ghost remaining = { item_count left };

    fn next(&mut self) -> Option<Op> {
        let (op, after) = first_op(self.rest)?;
        self.rest = after;
        Some(op)
    }
}

// Whether every variable and track that can be read in an expression is declared.
pub fn names_declared(code: &[u8], head: &Head) -> bool
    ensures { result ≡ declared (head_of head.now) (decode 0 code.now).ops }
{
    Ops::new(code).all(|op| is_declared(op, head))
}

// The most working numbers that an expression holds at a time.
pub const WORKING: u8 = 16;

// How many numbers are held after an operation; None where it finds too few or there would be more than 16.
fn deepen(op: Op, depth: u8) -> Option<u8>
    ensures { perhaps (λ d. d) result ≡ deepened (op_of op) depth }
{
    match op {
        Op::Constant(_) | Op::Variable(_) | Op::Held(_) => (depth < WORKING).then(|| depth + 1),
        Op::Sample(_) | Op::One(_) => (depth >= 1).then_some(depth),
        Op::Two(_) => (depth >= 2).then(|| depth - 1),
    }
}

// How many numbers an expression leaves; None where it cannot be read to its end or an operation has no room.
// By first_op: a try_fold, a for and a while let over Ops were tried and don't prove, since the law of its `next` tells what operations
// are left, not whether the code is whole.
fn depth_left(code: &[u8]) -> Option<u8>
    ensures { MatchOption result (sound 0 (decode 0 code.now) ≡ false) (λ d. sound 0 (decode 0 code.now) ≡ (d == 1)) }
{
    let mut rest = code;
    let mut depth = 0;
    while !rest.is_empty() {
        let (op, after) = first_op(rest)?;
        depth = deepen(op, depth)?;
        rest = after;
    }
    Some(depth)
}

// Whether an expression can be read to its end, finds its operands, holds at most 16 numbers and leaves one.
pub fn leaves_one_number(code: &[u8]) -> bool
    ensures { result ≡ (decode 0 code.now).whole && leaves_one 0 (decode 0 code.now).ops }
{
    depth_left(code) == Some(1)
}
