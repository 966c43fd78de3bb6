//! The bytes that a program takes in of its input: as many as can matter to a sheet.
#![tactic(auto)]

ghost use Rattle.std.specs.Prelude.{◌≡◌, IfOk, IfSome, take};

use std::alloc::Global;
use std::io;
use std::io::Read;

#[cfg(test)]
mod tests;

/// The longest sheet and one word more: no later byte changes what is read.
const MOST_BYTES: u64 = 18_444;

/// The first bytes of a reader, all that it gives or as many as can matter to a sheet.
pub fn first_bytes<R: Read + Drop>(heap: Global, reader: R) -> io::Result<Vec<u8>>
    ensures { IfOk result (λ v. IfSome (R.remaining reader) (λ xs. v.items ≡ take 18444 xs)) }
{
    let mut bytes = Vec::new(heap);
    reader.take(MOST_BYTES).read_to_end(&mut bytes)?;
    Ok(bytes)
}
