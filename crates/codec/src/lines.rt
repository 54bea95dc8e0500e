// Lines of digits, each ended by byte 0A, and the bytes of a frame in a slot.
ghost use Rattle.std.specs.Prelude.{◌≡◌, ◌≤◌, ◌∷◌, ◌++◌, length, IfSome, MatchOption};
ghost use Rattle.std.proofs.Math.Option.{some};
ghost use Rattle.codec.specs.Lines.{line_bytes, pairs};
ghost use Rattle.codec.specs.Slots.{Padded, front, no_end, perhaps};

use crate::digits::digit_worth;

// The most bytes of a frame.
pub const BYTES: usize = 51;

// The most digits of a line: two for each byte.
pub const DIGITS: usize = 2 * BYTES;

// The bytes of a frame at the front of a slot, zeros behind them. It is an array with a length, since all 51 bytes go into the slab, with no heap.
// That it is zero there stands in the contracts, and in no ghost field: a type with fewer values would ask more of whoever fills one.
#[derive(Clone, Copy)]
pub struct Slot {
    pub bytes: [u8; BYTES],
    pub len: usize,
}

// The first line of a text, and what stands behind its 0A; None where no 0A ends it.
pub fn split_line(text: &[u8]) -> Option<(&[u8], &[u8])>
    ensures { MatchOption result (no_end text.now) (λ p. no_end p.0.now × (text.now ≡ p.0.now ++ (10 ∷ p.1.now))) }
{
    let end = text.iter().position(|byte| *byte == b'\n')?;
    Some((&text[..end], &text[end + 1..]))
}

// The bytes that the digits of a line give, two digits a byte.
fn read_pairs(line: &[u8]) -> Option<Slot>
    requires { length line.now ≤ 102 }
    ensures bytes { perhaps front result ≡ pairs line.now }
    ensures slot { IfSome result Padded }
{
    let mut bytes = [0; BYTES];
    let (pairs, odd) = line.as_chunks::<2>();
    // By number: tried over iter_mut zipped with the pairs, but an invariant of that loop can't name the array, so that nothing is known of
    // the bytes written when a `?` leaves it.
    for (i, [high, low]) in pairs.iter().enumerate() {
        bytes[i] = 16 * digit_worth(*high)? + digit_worth(*low)?;
    }
    odd.is_empty().then_some(Slot {
        bytes,
        len: pairs.len(),
    })
}

// The bytes of a line: 1 to 51 of them.
#[tactic(auto, unfolding(crate::specs::Lines::line_bytes))]
pub fn read_line(line: &[u8]) -> Option<Slot>
    ensures bytes { perhaps front result ≡ line_bytes (some line.now) }
    ensures slot { IfSome result Padded }
{
    if (1..=DIGITS).contains(&line.len()) {
        read_pairs(line)
    } else {
        None
    }
}
