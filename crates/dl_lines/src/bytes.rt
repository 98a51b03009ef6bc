// A number of bytes.
ghost use Rattle.std.specs.Prelude.{◌≡◌, ◌+◌, ◌≤◌, ◌<◌, ◌++◌, ℕ, List, Ok, false, true, IfOk, IfSome, length, vec_len};
ghost use Rattle.std.specs.Io.KnownBytes.{Consumes, IsAtEnd};

use crate::fault::{LineFault, check_again};
use std::alloc::Allocator;
use std::io::BufRead;

/// Reads `count` bytes into the buffer, and returns whether the input had as many. If not, the buffer has what was left.
pub fn fill<R: BufRead, A: Allocator>(
    input: &mut R,
    count: usize,
    bytes: &mut Vec<u8, A>,
) -> Result<bool, LineFault>
    ensures read { IfOk result (λ full. Consumes (R.remaining input.old) (R.remaining input.new) bytes.new.items) }
    ensures full { result ≡ Ok true → vec_len bytes.new ≡ count }
    ensures ended { result ≡ Ok false → IfSome (R.remaining input.old) (λ left. left ≡ bytes.new.items) × (vec_len bytes.new < count) }
{
    bytes.clear();
    for _ in 0..u64::MAX {
        if bytes.len() == count {
            return Ok(true);
        }
        if read_some(input, count - bytes.len(), bytes)? {
            return Ok(false);
        }
    }
    Err(LineFault::Read)
}

// Adds what the input has ready, up to `most` bytes, and returns whether the input is at its end. Nothing is added if
// the read was interrupted.
fn read_some<R: BufRead, A: Allocator>(
    input: &mut R,
    most: usize,
    bytes: &mut Vec<u8, A>,
) -> Result<bool, LineFault>
    requires { 0 < most }
    ensures read { IfOk result (λ ended. (some : List ℕ) × (bytes.new.items ≡ bytes.old.items ++ some) × (length some ≤ most) × Consumes (R.remaining input.old) (R.remaining input.new) some) }
    ensures ended { result ≡ Ok true → IsAtEnd (R.remaining input.old) × (bytes.new.items ≡ bytes.old.items) }
{
    let ready = match input.fill_buf() {
        Ok(ready) => ready,
        Err(e) => {
            check_again(e.kind())?;
            return Ok(false);
        }
    };
    let some = ready.len().min(most);
    bytes.extend_from_slice(&ready[..some])?;
    input.consume(some);
    Ok(some == 0)
}
