// The open blocks of a thread.
ghost use Rattle.std.specs.Prelude.{◌≡◌, ◌<◌, ◌≤◌, [], ◌∷◌, IsTrue, MatchOption};

use crate::DEPTH;

// An open block: an if before its else, an if behind it, a while, a with.
#[derive(Clone, Copy, Debug, PartialEq)]
pub(crate) enum Block {
    BeforeElse,
    BehindElse,
    InWhile,
    InWith,
}

// The open blocks, at most 16, outermost first: the first `depth` of these. With no heap they stand in an array with a length.
#[derive(Clone, Copy)]
pub(crate) struct Opened {
    pub stack: [Block; DEPTH],
    pub depth: usize,
    ghost deep: { depth ≤ 16 },
}

impl Opened {
    ghost use Rattle.script.specs.Format.{none_open, room};
    ghost use Rattle.script.specs.Format.Phase.{inside};
    ghost use Rattle.script.specs.Stages.{block_of, held};

    // No open block.
    pub(crate) fn none() -> Opened
        ensures { held result ≡ [] }
    {
        Opened {
            stack: [Block::BeforeElse; DEPTH],
            depth: 0,
        }
    }

    pub(crate) fn is_empty(self) -> bool
        ensures { result ≡ none_open (inside (held self)) }
    {
        self.depth == 0
    }

    // Whether one more may be opened.
    #[tactic(auto, using(crate::proofs::OpenBlocks::held_length))]
    pub(crate) fn has_room(self) -> bool
        ensures room { result ≡ room (inside (held self)) }
        ensures short { IsTrue result → self.depth < 16 }
    {
        self.depth < DEPTH
    }

    // One more inside these.
    #[tactic(auto, using(crate::proofs::OpenBlocks::held_more))]
    pub(crate) fn push(mut self, block: Block) -> Opened
        requires { self.depth < 16 }
        ensures { held result ≡ block_of block ∷ held self }
    {
        self.stack[self.depth] = block;
        self.depth += 1;
        self
    }

    // The innermost, and those around it; None where none is open.
    pub(crate) fn pop(self) -> Option<(Block, Opened)>
        ensures { MatchOption result (held self ≡ []) (λ p. (held self ≡ block_of p.0 ∷ held p.1) × (p.1.depth < 16)) }
    {
        let depth = self.depth.checked_sub(1)?;
        let around = Opened {
            stack: self.stack,
            depth,
        };
        Some((self.stack[depth], around))
    }
}
