// A script as a table of steps: a frame each, with all that a turn at it needs to know.
ghost use Rattle.std.specs.Prelude.{◌≡◌, slice_set};
ghost use Rattle.survey.specs.Filling.{place_past, plain_step};
ghost use Rattle.survey.specs.Table.{nil_step};

use script::FRAMES;

// The kinds of frames: those that a thread may stand at, the one that begins a thread, and every other. Each but Other has the
// number that it has in the format.
#[derive(Clone, Copy, Debug, Default, PartialEq, Eq)]
pub enum Kind {
    #[default]
    Other = 0x00,
    Begin = 0x20,
    End = 0x21,
    Skip = 0x30,
    Assign = 0x31,
    Put = 0x32,
    If = 0x40,
    Else = 0x41,
    EndIf = 0x42,
    While = 0x43,
    EndWhile = 0x44,
    With = 0x45,
    EndWith = 0x46,
}

// A frame as the turns need it. Its expression is the bytes from `start` to `stop` of the script slab; `other` is the place past
// the else or the end of its block; masks are 0 where the kind has none. For an if: whether both ways take a fixed
// time, the idle turns at the end of the first and of the second, the locks that either names, and the variables that either assigns.
// The idle turns are numbers beside the flag, and no Option: a closing turn reads them of any if, 0 where it takes no fixed time.
// It is one flat record for all kinds: a table is lent memory, with records of one size, and a turn reads a field without asking for
// the kind. `start`, `stop` and `other` are places and no slices, since the slab is lent to each call, and a step may borrow nothing.
#[derive(Clone, Copy, Default)]
pub struct Step {
    pub kind: Kind,
    pub number: u8,
    pub mask: u16,
    pub start: u16,
    pub stop: u16,
    pub other: u16,
    pub fixed: bool,
    pub first: u16,
    pub second: u16,
    pub needed: u16,
    pub assigned: u64,
}

impl Step {
    // A step that no thread stands at, to make a table of.
    pub fn none() -> Step
        ensures { result ≡ nil_step }
    {
        Step::default()
    }
}

// A step with nothing but its kind.
pub(crate) fn plain(kind: Kind) -> Step
    ensures { result ≡ plain_step kind }
{
    Step {
        kind,
        ..Step::default()
    }
}

// Writes a step at its place, where the table has that place. With `get_mut` it does not prove: after it a proof knows no element of the slice.
pub(crate) fn put_step(table: &mut [Step], place: u16, step: Step)
    ensures { table.new ≡ slice_set table.old place step }
{
    let at = usize::from(place);
    if at < table.len() {
        table[at] = step;
    }
}

// The place behind another, in a script.
pub(crate) fn past(place: u16) -> u16
    ensures { result ≡ place_past place }
{
    if place < FRAMES { place + 1 } else { place }
}
