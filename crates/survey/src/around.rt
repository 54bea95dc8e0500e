// A walk over a script's steps: what stands around a place.
ghost use Rattle.std.specs.Prelude.{◌≡◌, ◌<◌, ◌≤◌};
ghost use Rattle.survey.specs.Around.{Walks, no_around, entered, left, strode};

use crate::table::{Kind, Step};
use script::DEPTH;

// What a walk over a script's frames has met when it comes to a place: how many threads began and ended, and where the blocks
// began that are still open, `depth` of them, outermost first: an array and a depth, in fixed memory, as the model stacks them. Reading a script
// stacks blocks so too, and asks other things of them.
#[derive(Clone, Copy, Default)]
pub struct Around {
    pub begun: u16,
    pub ended: u16,
    pub openers: [u16; DEPTH],
    pub depth: u8,
}

impl Around {
    // Before the first frame. The default, of which its derive tells field by field, as one value: a walk in steps needs that.
    fn start() -> Around
        ensures { result ≡ no_around }
    {
        Around::default()
    }

    // Into a block whose first frame stands at a place; no valid script has more of them open than there is room for.
    fn enter(mut self, place: u16) -> Around
        ensures { result ≡ entered place self }
    {
        let depth = usize::from(self.depth);
        if depth < DEPTH {
            self.openers[depth] = place;
            self.depth += 1;
        }
        self
    }

    // Out of the innermost block.
    fn leave(self) -> Around
        ensures { result ≡ left self }
    {
        Around {
            depth: self.depth.saturating_sub(1),
            ..self
        }
    }

    // Over the frame at a place.
    fn over(self, place: u16, kind: Kind) -> Around
        requires begun { self.begun ≤ place }
        requires ended { self.ended ≤ place }
        requires place { place < 65535 }
        ensures { result ≡ strode place kind self }
    {
        match kind {
            Kind::Begin => Around {
                begun: self.begun + 1,
                ..self
            },
            Kind::End => Around {
                ended: self.ended + 1,
                ..self
            },
            Kind::If | Kind::While | Kind::With => self.enter(place),
            Kind::EndIf | Kind::EndWhile | Kind::EndWith => self.leave(),
            Kind::Other | Kind::Skip | Kind::Assign | Kind::Put | Kind::Else => self,
        }
    }
}

// What a walk from the first frame has met when it comes to a place; past the last frame it meets nothing more.
pub fn walk_to(table: &[Step], place: u16) -> Around
    ensures met { Walks table.now place result }
    ensures deep { result.depth ≤ 16 }
{
    let end = table.len().min(usize::from(place));
    let mut walk = Around::start();
    for (p, step) in table[..end].iter().enumerate() {
        walk = walk.over(p as u16, step.kind);
    }
    walk
}

#[cfg(test)]
mod tests {
    use super::*;
    use crate::table::plain;

    // A thread with a while around an if, between the header's frame and the last.
    fn table() -> [Step; 10] {
        [
            plain(Kind::Other),
            plain(Kind::Begin),
            plain(Kind::While),
            plain(Kind::If),
            plain(Kind::Skip),
            plain(Kind::Else),
            plain(Kind::EndIf),
            plain(Kind::EndWhile),
            plain(Kind::End),
            plain(Kind::Other),
        ]
    }

    #[test]
    fn inside_two_blocks(rt: HostRuntime) {
        let inside = walk_to(&table(), 5);
        assert_eq!(rt; inside.begun, 1);
        assert_eq!(rt; inside.ended, 0);
        assert_eq!(rt; inside.depth, 2);
        assert_eq!(rt; inside.openers[0], 2);
        assert_eq!(rt; inside.openers[1], 3);
    }

    #[test]
    fn behind_each_block(rt: HostRuntime) {
        assert_eq!(rt; walk_to(&table(), 7).depth, 1);
        assert_eq!(rt; walk_to(&table(), 8).depth, 0);
        assert_eq!(rt; walk_to(&table(), 9).ended, 1);
        assert_eq!(rt; walk_to(&table(), 600).ended, 1);
    }
}
