// Bytes in hexadecimal.
ghost use Rattle.std.specs.Prelude.{◌≡◌, ◌++◌, OnOk};
ghost use Rattle.std.specs.List.{flat_map};
ghost use Rattle.dl_lines.specs.Digits.{hex};

use std::alloc::{AllocError, Allocator};

// The digits of hexadecimal numbers.
static DIGITS: [u8; 16] = *b"0123456789abcdef";

/// Adds each byte in two digits.
pub fn push_hex<A: Allocator>(text: &mut Vec<u8, A>, bytes: &[u8]) -> Result<(), AllocError>
    ensures { OnOk result (text.new.items ≡ text.old.items ++ flat_map hex bytes.now) }
{
    text.reserve(2 * bytes.len())?;
    for byte in bytes {
        let [high, low] = hex(*byte);
        text.push_reserved(high);
        text.push_reserved(low);
    }
    Ok(())
}

/// A byte in two digits, with letters in lower case.
pub fn hex(byte: u8) -> [u8; 2]
    ensures { result ≡ hex byte }
{
    [DIGITS[byte as usize / 16], DIGITS[byte as usize % 16]]
}
