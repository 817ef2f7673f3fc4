//! A day file from an input.
ghost use Rattle.std.specs.Prelude.{◌≡◌, ◌≤◌, true, take, IfOk, vec_len, nat_lt};

use std::alloc::Global;
use std::io;
use std::io::Read;

/// The most bytes that are read of a day file.
pub const MOST_BYTES: usize = 65_536;

/// What was read of an input, and whether there is more.
#[derive(Drop)]
pub struct Input {
    pub bytes: Vec<u8>,
    // The bytes are of use either way, and no two cases of an enum.
    pub has_more: bool,
}

impl Input {
    // No `From`: it drops what is past the limit.
    /// What is kept of some bytes: the first `MOST_BYTES`, and whether there were more.
    pub fn of(mut bytes: Vec<u8>) -> Input
        ensures bytes { result.bytes.items ≡ take 65536 bytes.items }
        ensures more { result.has_more ≡ nat_lt 65536 (vec_len bytes) }
        ensures most { vec_len result.bytes ≤ 65536 }
        ensures full { result.has_more ≡ true → vec_len result.bytes ≡ 65536 }
    {
        let has_more = bytes.len() > MOST_BYTES;
        bytes.truncate(MOST_BYTES);
        Input { bytes, has_more }
    }
}

/// Reads at most `MOST_BYTES`, and one byte beyond them to see whether there is one.
pub fn read_input<R: Read + Drop>(heap: Global, from: R) -> io::Result<Input>
    ensures most { IfOk result (λ input. vec_len input.bytes ≤ 65536) }
    ensures full { IfOk result (λ input. input.has_more ≡ true → vec_len input.bytes ≡ 65536) }
{
    let mut bytes = Vec::new(heap);
    from.take(65_537).read_to_end(&mut bytes)?;
    Ok(Input::of(bytes))
}
