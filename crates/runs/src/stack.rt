// A bounded stack over lent memory, of items of any kind: working numbers, open blocks.
ghost use Rattle.std.specs.Prelude.{◌≡◌, ℕ, ◌+◌, ◌-◌, ◌<◌, ◌≤◌, length, slice_index_or, slice_set};

// The slot of its first item, and how many items it holds, 16 at most; the last of them is its top. The slots are lent, since there
// is no heap, so it is two numbers and takes them at each call.
#[derive(Clone, Copy)]
pub(crate) struct Stack {
    pub base: usize,
    pub held: usize,
}

impl Stack {
    // One item more, which is then the top.
    pub(crate) fn push<T: Copy>(self, slots: &mut [T], item: T) -> Stack
        requires room { (self.held < 16) × (self.base + self.held < length slots.old) }
        ensures stack { result ≡ record { base = self.base; held = self.held + 1 } }
        ensures slots { slots.new ≡ slice_set slots.old (self.base + self.held) item }
    {
        slots[self.base + self.held] = item;
        Stack {
            held: self.held + 1,
            ..self
        }
    }

    // The same without its topmost n items; their slots stay as they are.
    pub(crate) fn without(self, n: usize) -> Stack
        requires { n ≤ self.held }
        ensures { result ≡ record { base = self.base; held = self.held - n } }
    {
        Stack {
            held: self.held - n,
            ..self
        }
    }

    // The item number n from the top on, which is number 1.
    pub(crate) fn item<T: Copy>(self, slots: &[T], n: usize) -> T
        requires { (0 < n) × ((n ≤ self.held) × (self.base + self.held ≤ length slots.now)) }
        ensures { (d : T) → result ≡ slice_index_or slots.now (self.base + (self.held - n)) d }
    {
        slots[self.base + (self.held - n)]
    }

    // All of them, the topmost last.
    pub(crate) fn items<T>(self, slots: &[T]) -> &[T]
        requires { self.base + self.held ≤ length slots.now }
        ensures long { length result.now ≡ self.held }
        ensures by_index { (i : ℕ) (d : T) → i < self.held → slice_index_or result.now i d ≡ slice_index_or slots.now (self.base + i) d }
    {
        &slots[self.base..self.base + self.held]
    }
}
