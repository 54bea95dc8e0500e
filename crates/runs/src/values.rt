// Expressions: their values and levels, from the bytes of the script slab.
ghost use Rattle.std.specs.Prelude.{◌≡◌, ◌+◌, ◌-◌, ◌<◌, ◌≤◌, [], length, pos, slice_index_or, slice_set};
ghost use Rattle.survey.specs.Table.{Good, bytes_of};
ghost use Rattle.runs.specs.Flat.{track_of, tracks_of, made_at, value_at, level_at, head_of_core, TrackParts, cell_level, track_level};
ghost use Rattle.model.specs.Values.{truth, apply_binary, apply_unary, sample_at};
ghost use Rattle.codec.specs.Operations.{op_of, binary_of, unary_of};
ghost use Rattle.runs.specs.Operations.{joined_one, Named, taken};

use crate::stack::Stack;
use crate::{Core, Inputs, Port, WORK};
use codec::expressions::{Binary, Op, Ops, Unary};
use lattice::{Lattice, OPEN};
use survey::Step;

impl<'a> Inputs<'a> {
    // The bytes of a step's expression.
    pub(crate) fn expression(self, st: Step) -> &'a [u8]
        requires { (st.start ≤ st.stop) × (st.stop ≤ length self.code.now) }
        ensures { result.now ≡ bytes_of self.entry.code.now st }
    {
        let start = st.start as usize;
        let stop = st.stop as usize;
        &self.code[start..stop]
    }
}

// An operation on two numbers, the lower one first.
#[tactic(auto, using(std::proofs::lemmas::Int::wraps, crate::proofs::Quotients::quotient_is), unfolding(model::specs::Values::apply_binary))]
fn combine(op: Binary, a: i32, b: i32) -> i32
    ensures { result ≡ apply_binary (binary_of op) a b }
{
    match op {
        Binary::Sum => a.wrapping_add(b),
        Binary::Difference => a.wrapping_sub(b),
        Binary::Product => a.wrapping_mul(b),
        Binary::Quotient => { if b == 0 { 0 } else { a.wrapping_div(b) } }
        Binary::Less => i32::from(a < b),
        Binary::Equal => i32::from(a == b),
        Binary::Both => i32::from(a != 0 && b != 0),
        Binary::Either => i32::from(a != 0 || b != 0),
    }
}

// An operation on one number.
#[tactic(auto, using(std::proofs::lemmas::Int::wraps), unfolding(model::specs::Values::apply_unary))]
fn alter(op: Unary, a: i32) -> i32
    ensures { result ≡ apply_unary (unary_of op) a }
{
    match op {
        Unary::Negated => a.wrapping_neg(),
        Unary::Inverted => i32::from(a == 0),
    }
}

// What was fed to a track.
fn fed(samples: &[i32], port: Port) -> &[i32]
    requires { port.start + port.count ≤ length samples.now }
    ensures { result.now ≡ track_of samples.now port }
{
    &samples[port.start..][..port.count]
}

// How many working numbers an operation takes.
fn operands(op: Op) -> usize
    ensures { result ≡ taken op }
{
    match op {
        Op::Constant(_) | Op::Variable(_) | Op::Held(_) => 0,
        Op::Sample(_) | Op::One(_) => 1,
        Op::Two(_) => 2,
    }
}

impl Core {
    // A sample by its index; an index below 0 or not yet fed gives 0.
    fn sample(&self, t: u8, index: i32, samples: &[i32]) -> i32
        requires track { t < self.now.head.tracks }
        requires tracks { TrackParts self.now samples.now }
        ensures { result ≡ sample_at (slice_index_or (tracks_of self.now samples.now) t []) index }
    {
        let fed = fed(samples, self.tracks[t as usize]);
        // As one chain, by `map_or`, it was tried, and its return stayed open.
        match usize::try_from(index) {
            Ok(n) => fed.get(n).copied().unwrap_or(0),
            Err(_) => 0,
        }
    }

    // The number that an operation makes of the working numbers.
    fn made(&self, op: Op, numbers: Stack, samples: &[i32], work: &[i32]) -> i32
        requires tracks { TrackParts self.now samples.now }
        requires named { Named self.now.head.variables self.now.head.tracks op }
        requires held { (taken op ≤ numbers.held) × (numbers.base + numbers.held ≤ length work.now) }
        ensures { result ≡ made_at self.now samples.now op numbers work.now }
    {
        match op {
            Op::Constant(n) => n,
            Op::Variable(x) => self.cells[x as usize].value,
            Op::Sample(t) => self.sample(t, numbers.item(work, 1), samples),
            Op::Held(t) => self.tracks[t as usize].count as i32,
            Op::Two(two) => combine(two, numbers.item(work, 2), numbers.item(work, 1)),
            Op::One(one) => alter(one, numbers.item(work, 1)),
        }
    }

    // One operation on the working numbers.
    fn apply(&self, op: Op, numbers: Stack, samples: &[i32], work: &mut [i32; WORK]) -> Stack
        requires tracks { TrackParts self.now samples.now }
        requires named { Named self.now.head.variables self.now.head.tracks op }
        requires held { (taken op ≤ numbers.held) × (numbers.held - taken op < 16) }
        requires room { (numbers.held ≤ 16) × (numbers.base ≡ 0) }
        ensures numbers { result ≡ record { base = numbers.base; held = numbers.held - taken op + 1 } }
        ensures work { work.new ≡ slice_set work.old (numbers.base + (numbers.held - taken op)) (made_at self.now samples.now op numbers work.old) }
    {
        let made = self.made(op, numbers, samples, work);
        numbers.without(operands(op)).push(work, made)
    }

    // The value of an expression.
    pub(crate) fn value(&self, code: &[u8], samples: &[i32], work: &mut [i32; WORK]) -> i32
        requires tracks { TrackParts self.now samples.now }
        requires good { Good (head_of_core self.now) code.now }
        ensures { result ≡ value_at self.now samples.now code.now }
    {
        let mut numbers = Stack { base: 0, held: 0 };
        for op in Ops::new(code) {
            numbers = self.apply(op, numbers, samples, work);
        }
        numbers.item(work, 1)
    }

    // One operation's part of a level.
    fn level_one<K: Lattice>(&self, op: Op, from: u32) -> u32
        requires named { Named self.now.head.variables self.now.head.tracks op }
        ensures { result ≡ joined_one K.order (cell_level self.now) (track_level self.now) (op_of op) from }
    {
        match op {
            Op::Variable(x) => K::join(from, self.cells[x as usize].level),
            Op::Sample(t) => K::join(from, self.tracks[t as usize].level),
            Op::Held(t) => K::join(from, self.tracks[t as usize].level),
            Op::Constant(_) | Op::Two(_) | Op::One(_) => from,
        }
    }

    // The level of an expression.
    pub(crate) fn level<K: Lattice>(&self, code: &[u8]) -> u32
        requires good { Good (head_of_core self.now) code.now }
        ensures { result ≡ level_at K.order self.now code.now }
    {
        let mut all = OPEN;
        for op in Ops::new(code) {
            all = self.level_one::<K>(op, all);
        }
        all
    }
}
