// Digests that were written before.
ghost use Rattle.std.specs.Prelude.{◌≡◌, ◌∷◌, [], ℕ, Ok, Err, Some, None, IfOk, IfSome, map};
ghost use Rattle.dl_lines.specs.Lines.{HasLines, TakesLines};
ghost use Rattle.dl_digest.specs.Line.{line_text};
ghost use Rattle.dl_digest.specs.List.{fault_of};
ghost use Rattle.dl_digest.specs.declared.list.ListFault.TheVariants.{OutOfMemory};

use crate::line::DigestLine;
use dl_lines::{LineFault, NextLine, next_line};
use std::alloc::{AllocError, AllocFailed, Allocator};
use std::io::BufRead;
use thiserror::Error;

// The most bytes of a line, more than any line has.
const LINE_LIMIT: usize = 256;

/// Why digests could not be read.
#[derive(Clone, Copy, Debug, PartialEq, Eq, Error)]
pub enum ListFault {
    /// This line, counted from 1, is no digest.
    #[error("line {0} is no digest: NAME, a generation or all, the number of items and 64 digits, with a space between them")]
    BadLine(u64),
    /// The input could not be read.
    #[error("read")]
    Read,
    #[error("out of memory")]
    OutOfMemory,
}

/// Reads lines of digests to their end.
pub fn read_lines<R: BufRead, A: Allocator + Copy>(
    alloc: A,
    input: &mut R,
) -> Result<Vec<DigestLine, A>, ListFault>
    ensures { IfOk result (λ lines. HasLines (R.remaining input.old) (map line_text lines.items)) }
{
    let mut lines = Vec::new(alloc);
    let mut text = Vec::new(alloc);
    for number in 1..u64::MAX {
        match next_digest(input, &mut text, number)? {
            Some(line) => lines.push(line)?,
            None => return Ok(lines),
        }
    }
    Err(ListFault::Read)
}

// Reads the next line, which has this number. None at the end.
fn next_digest<R: BufRead, A: Allocator>(
    input: &mut R,
    text: &mut Vec<u8, A>,
    number: u64,
) -> Result<Option<DigestLine>, ListFault>
    ensures read { (line : DigestLine) → result ≡ Ok (Some line) → TakesLines (R.remaining input.old) (R.remaining input.new) (line_text line ∷ []) }
    ensures end { result ≡ Ok None → HasLines (R.remaining input.old) [] }
    ensures bad { (k : ℕ) → result ≡ Err (ListFault.BadLine k) → k ≡ number }
{
    match next_line(input, LINE_LIMIT, text)? {
        NextLine::Read => match digest_of(text.as_slice()) {
            Some(line) => Ok(Some(line)),
            None => Err(ListFault::BadLine(number)),
        },
        NextLine::TooLong => Err(ListFault::BadLine(number)),
        NextLine::End => Ok(None),
    }
}

// Parses the digest that a line states.
fn digest_of(text: &[u8]) -> Option<DigestLine>
    ensures { IfSome result (λ line. line_text line ≡ text.now) }
{
    DigestLine::parse(str::from_utf8(text).ok()?)
}

impl From<AllocError> for ListFault {
    ghost from_gives = { λ _ e. e ≡ OutOfMemory };

    fn from(_: AllocError) -> ListFault {
        ListFault::OutOfMemory
    }
}

impl<T: Drop> From<AllocFailed<T>> for ListFault {
    ghost from_gives = { λ _ e. e ≡ OutOfMemory };

    fn from(_: AllocFailed<T>) -> ListFault {
        ListFault::OutOfMemory
    }
}

impl From<LineFault> for ListFault {
    ghost from_gives = { λ fault e. e ≡ fault_of fault };

    fn from(fault: LineFault) -> ListFault {
        match fault {
            LineFault::Read => ListFault::Read,
            LineFault::OutOfMemory => ListFault::OutOfMemory,
        }
    }
}
