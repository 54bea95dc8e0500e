// The input of the program, read whole. It stands in each program and not in a library, since no library takes memory from a heap but
// for what protocol writes.
ghost use Rattle.std.specs.Prelude.{◌≡◌, take, IfOk, IfSome};

use protocol::intake::LONGEST;
use std::alloc::Global;
use std::io;
use std::io::Read;

// All that a source has, or one byte more than is taken, so that too long an input shows.
pub fn read_input<R: Read + Drop>(heap: Global, source: R) -> io::Result<Vec<u8>>
    ensures { IfOk result (λ v. IfSome (R.remaining source) (λ all. v.items ≡ take 16385 all)) }
{
    let mut input = Vec::new(heap);
    source.take(LONGEST as u64 + 1).read_to_end(&mut input)?;
    Ok(input)
}
