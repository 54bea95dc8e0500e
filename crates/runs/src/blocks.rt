// Open blocks: the context level, the guards, the locks that are held.
ghost use Rattle.std.specs.Prelude.{◌≡◌, ℕ, ◌+◌, ◌-◌, ◌*◌, ◌<◌, ◌≤◌, length, get_or, if◌then◌else◌, slice_index_or};
ghost use Rattle.runs.specs.Flat.{nil_mark, first_mark, level_inside, guard_marks, guard_threads, with_cells, raised, raised_cell, Sized, opener_step};
ghost use Rattle.runs.specs.Blocks.{Lie};
ghost use Rattle.survey.specs.Stretches.{has_bit};
ghost use Rattle.model.specs.Levels.{is_open as level_open};
ghost use Rattle.runs.specs.Statuses.{locks_of, reserved_one, held_one, against_first};

use crate::stack::Stack;
use crate::{Cell, Core, Mark, Place, Turn};
use lattice::{Lattice, OPEN};
use survey::Step;

// Whether the mask has bit x; past its 64 bits it has none.
fn bit(mask: u64, x: u8) -> bool
    ensures { result ≡ has_bit mask x }
{
    mask.checked_shr(u32::from(x))
        .is_some_and(|rest| rest % 2 == 1)
}

// Whether a level counts as open.
pub(crate) fn is_open(level: u32) -> bool
    ensures { result ≡ level_open level }
{
    level == OPEN
}

// The open blocks of a thread: a stack of marks. Each thread has sixteen slots.
pub(crate) fn open_blocks(thread: usize, depth: u8) -> Stack
    requires { thread < 8 }
    ensures { result ≡ record { base = first_mark thread; held = depth } }
{
    Stack {
        base: thread * 16,
        held: depth as usize,
    }
}

// The innermost of them.
pub(crate) fn innermost(marks: &[Mark], blocks: Stack) -> Mark
    requires { (0 < blocks.held) × (blocks.base + blocks.held ≤ length marks.now) }
    ensures { result ≡ slice_index_or marks.now (blocks.base + (blocks.held - 1)) nil_mark }
{
    blocks.item(marks, 1)
}

// The context level inside them.
pub(crate) fn context_level(marks: &[Mark], blocks: Stack) -> u32
    requires { blocks.base + blocks.held ≤ length marks.now }
    ensures { result ≡ level_inside marks.now blocks.base blocks.held }
{
    if blocks.held == 0 {
        OPEN
    } else {
        innermost(marks, blocks).level
    }
}

impl Turn {
    // The open blocks of the thread.
    pub(crate) fn blocks(self) -> Stack
        ensures { result ≡ record { base = first_mark self.thread; held = self.place.depth } }
    {
        open_blocks(self.thread as usize, self.place.depth)
    }
}

// The step that opened the innermost of a thread's blocks.
pub(crate) fn opener(table: &[Step], marks: &[Mark], t: Turn) -> Step
    requires thread { (0 < t.place.depth) × (first_mark t.thread + t.place.depth ≤ length marks.now) }
    requires opener { (get_or marks.now (first_mark t.thread + (t.place.depth - 1)) nil_mark).opener < length table.now }
    ensures { result ≡ opener_step table.now marks.now (first_mark t.thread) t.place.depth }
{
    table[innermost(marks, t.blocks()).opener as usize]
}

// One block's part of the guard: its level, if it assigns the variable.
fn guard_one<K: Lattice>(assigned: u64, level: u32, x: u8, from: u32) -> u32
    ensures { result ≡ (if has_bit assigned x then K.order.join from level else from) }
{
    if bit(assigned, x) {
        K::join(from, level)
    } else {
        from
    }
}

// The guard on variable `x` from open blocks, outermost first. That blocks lie in the slabs ties them to a table and to marks that are
// lent at each call, so it is a clause here and below.
fn guard_of<K: Lattice>(table: &[Step], marks: &[Mark], blocks: Stack, x: u8, from: u32) -> u32
    requires { Lie table.now marks.now blocks }
    ensures { result ≡ guard_marks K.order table.now marks.now x blocks.base blocks.held from }
{
    let mut all = from;
    for mark in blocks.items(marks) {
        all = guard_one::<K>(table[mark.opener as usize].assigned, mark.level, x, all);
    }
    all
}

// A variable whose bit the mask has, its level joined with `level`. It is below 64, so its bit is looked at without the test of `bit`:
// this is done for each variable at each if.
fn raise_cell<K: Lattice>(cell: Cell, mask: u64, x: u8, level: u32) -> Cell
    requires { x < 64 }
    ensures { result ≡ raised_cell K.order mask level x cell }
{
    if (mask >> x) % 2 == 1 {
        Cell {
            level: K::join(cell.level, level),
            ..cell
        }
    } else {
        cell
    }
}

// The locks that open blocks give together. What one of them gives goes by its step, and by the levels outside and inside it.
fn locks<F: Fn(&Step, u32, u32) -> u16>(
    table: &[Step],
    marks: &[Mark],
    blocks: Stack,
    given: F,
) -> u16
    requires lie { Lie table.now marks.now blocks }
    requires given { F.IsAlwaysCallable given }
    ensures { (f : Step → ℕ → ℕ → ℕ) → ((s : _) (o i r : ℕ) → F.post given s o i r → r ≡ f s.now o i) → result ≡ locks_of table.now marks.now f blocks.base blocks.held }
{
    let mut all = 0;
    let mut outside = OPEN;
    for mark in blocks.items(marks) {
        all |= given(&table[mark.opener as usize], outside, mark.level);
        outside = mark.level;
    }
    all
}

// The locks that a block reserves: those that either way names, if it is the outermost of a level that is not open.
fn reserved(step: &Step, outside: u32, inside: u32) -> u16
    ensures { result ≡ reserved_one step.now outside inside }
{
    if is_open(outside) && !is_open(inside) {
        step.needed
    } else {
        0
    }
}

// The locks that thread j holds against thread i: those of its open blocks, but not against itself, and those that they reserve. One
// walk over the blocks gives both.
fn held(table: &[Step], marks: &[Mark], i: u8, j: usize, p: Place) -> u16
    requires thread { j < 8 }
    requires lie { Lie table.now marks.now (record { base = first_mark j; held = p.depth }) }
    ensures { result ≡ held_one table.now marks.now i j p }
{
    let itself = j == i as usize;
    locks(
        table,
        marks,
        open_blocks(j, p.depth),
        |step, outside, inside| {
            let own = if itself { 0 } else { step.mask };
            own | reserved(step, outside, inside)
        },
    )
}

impl Core {
    // The guard on variable `x`, by rising thread.
    pub(crate) fn guard<K: Lattice>(&self, table: &[Step], marks: &[Mark], x: u8) -> u32
        requires { Sized self.now table.now marks.now }
        ensures { result ≡ guard_threads K.order table.now marks.now x self.now.threads self.now.head.threads }
    {
        let mut all = OPEN;
        for (i, place) in self.threads[..self.head.threads as usize]
            .iter()
            .enumerate()
        {
            all = guard_of::<K>(table, marks, open_blocks(i, place.depth), x, all);
        }
        all
    }

    // Each variable of the mask has its level joined with `level`.
    pub(crate) fn raise<K: Lattice>(&mut self, mask: u64, level: u32)
        ensures { self.new ≡ with_cells self.old (raised K.order mask level self.old.cells self.old.head.variables) }
    {
        // By number, since no part of a field can be lent mutably in a struct with a ghost field; over a copy it was tried, which is put back
        // at each if.
        for x in 0..self.head.variables {
            self.cells[x as usize] = raise_cell::<K>(self.cells[x as usize], mask, x, level);
        }
    }

    // The locks that stand against thread i.
    pub(crate) fn against(&self, i: u8, table: &[Step], marks: &[Mark]) -> u16
        requires sized { Sized self.now table.now marks.now }
        ensures { result ≡ against_first table.now marks.now i self.now.threads self.now.head.threads }
    {
        let mut all = 0;
        for (j, place) in self.threads[..self.head.threads as usize]
            .iter()
            .enumerate()
        {
            all |= held(table, marks, i, j, *place);
        }
        all
    }
}
