// Whether what memory says of the threads fits a script.
ghost use Rattle.std.specs.Prelude.{◌≡◌, ◌+◌, ◌<◌, ◌≤◌, length};
ghost use Rattle.survey.specs.Table.{step_at_place};
ghost use Rattle.runs.specs.Flat.{first_mark};
ghost use Rattle.runs.specs.Turns.{all_first};
ghost use Rattle.runs.specs.Fitted.{if_kind, way_end_kind, thread_end_kind, level_suits, mark_suits, block_suits, pace_suits, thread_right, OfScript, TellsFit};

use crate::blocks::open_blocks;
use crate::{Core, Mark, Pace};
use lattice::{Lattice, OPEN};
use survey::{Around, Kind, Step, walk_to};

// The kind of the step at a place; past the table it is none that a thread may stand at.
fn kind_at(table: &[Step], place: u16) -> Kind
    ensures { result ≡ (step_at_place table.now place).kind }
{
    table
        .get(place as usize)
        .map_or(Kind::Other, |step| step.kind)
}

// Whether a step of this kind begins an if.
fn begins_if(kind: Kind) -> bool
    ensures { result ≡ if_kind kind }
{
    kind == Kind::If
}

// Whether it ends a way of an if.
fn ends_way(kind: Kind) -> bool
    ensures { result ≡ way_end_kind kind }
{
    matches!(kind, Kind::Else | Kind::EndIf)
}

// Whether it ends a thread.
fn ends_thread(kind: Kind) -> bool
    ensures { result ≡ thread_end_kind kind }
{
    kind == Kind::End
}

// Whether the level inside a block fits the kind of its opener: at an if it is a code of the kind K, at a while or a with it is
// the level outside.
fn level_fits<K: Lattice>(kind: Kind, level: u32, outside: u32) -> bool
    ensures { result ≡ level_suits K.order kind level outside }
{
    if begins_if(kind) {
        K::has(level)
    } else {
        level == outside
    }
}

// Whether a mark is that of the block which a walk met there, with a level that fits.
fn block_fits<K: Lattice>(table: &[Step], met: u16, mark: Mark, outside: u32) -> bool
    ensures { result ≡ mark_suits K.order table.now met mark outside }
{
    let fits = level_fits::<K>(kind_at(table, mark.opener), mark.level, outside);
    (met == mark.opener) & fits
}

// Whether the marks of thread i are those of the blocks that a walk met.
fn blocks_fit<K: Lattice>(table: &[Step], around: Around, marks: &[Mark], i: u8) -> bool
    requires deep { around.depth ≤ 16 }
    requires room { (i < 8) × (first_mark i + around.depth ≤ length marks.now) }
    ensures { result ≡ all_first (block_suits K.order table.now around.openers marks.now (first_mark i)) around.depth }
{
    let mut all = true;
    let mut outside = OPEN;
    let blocks = open_blocks(i as usize, around.depth).items(marks);
    for (mark, met) in blocks.iter().zip(&around.openers) {
        all &= block_fits::<K>(table, *met, *mark, outside);
        outside = mark.level;
    }
    all
}

// Whether a thread may have this pace at a step of this kind: it idles only at the end of a way, and is called finished exactly
// at its own end.
fn pace_fits(pace: Pace, kind: Kind) -> bool
    ensures { result ≡ pace_suits pace kind }
{
    match pace {
        Pace::Running => !ends_thread(kind),
        Pace::Idling(_) => ends_way(kind),
        Pace::Finished => ends_thread(kind),
    }
}

impl Core {
    // Whether thread i stands in its own frames, inside the blocks that memory says, with levels and a pace that fit.
    fn thread_fits<K: Lattice>(&self, i: u8, table: &[Step], marks: &[Mark]) -> bool
        requires room { (i < 8) × (128 ≤ length marks.now) }
        ensures { OfScript K.kind K.order table.now (thread_right K.order self.now marks.now i) result }
    {
        let p = self.threads[i as usize];
        let around = walk_to(table, p.at);
        // As one chain of `&&` it was tried, and its returns stayed open.
        if around.depth == p.depth {
            let own = (around.begun == i as u16 + 1) & (around.ended == i as u16);
            let blocks = blocks_fit::<K>(table, around, marks, i);
            own & blocks & pace_fits(p.pace, kind_at(table, p.at))
        } else {
            false
        }
    }

    // Whether what memory says of the threads fits the script whose steps these are.
    pub(crate) fn fits<K: Lattice>(&self, table: &[Step], marks: &[Mark]) -> bool
        requires room { 128 ≤ length marks.now }
        ensures { TellsFit K.kind K.order table.now self.now marks.now result }
    {
        (0..self.head.threads).all(|i| self.thread_fits::<K>(i, table, marks))
    }
}
