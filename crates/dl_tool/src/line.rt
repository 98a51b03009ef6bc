// What is found of a log, as a line.
ghost use Rattle.std.specs.Prelude.{◌≡◌, ◌++◌, List, ℕ, OnOk, codes};
ghost use Rattle.dl_types.specs.Printed.{printed_file, refusal_text};
ghost use Rattle.dl_tool.specs.Line.{whole_word, log_text, amount_text, counts_text, miscount_text, kept_text, cut_text, IsFindingText, IsLine};

use crate::finding::{Amount, Finding};
use dl_types::{Base, FileName, Kind, Refusal};
use std::alloc::{AllocError, Allocator};
use std::io::Write;

/// A log of a folder, open or not, named by its files.
#[derive(Clone, Copy)]
pub struct LogFiles {
    /// What the names of its files begin with.
    pub base: Base,
    pub kind: Kind,
}

/// Adds the line of what was found of a log.
pub fn push_line<A: Allocator + Copy>(
    text: &mut Vec<u8, A>,
    log: LogFiles,
    found: Finding,
) -> Result<(), AllocError>
    ensures { OnOk result ((line : List ℕ) × IsLine log found line × (text.new.items ≡ text.old.items ++ line)) }
{
    push_log(text, log)?;
    push_finding(text, found)?;
    push_bytes(text, b"\n")
}

/// The word for a log that is opened as it is. It says whether the older files have bad bytes, or count another
/// number of items than they have.
pub fn whole_word(amount: Amount) -> &'static str
    ensures { result.now ≡ whole_word amount }
{
    if amount.bad != 0 {
        return "damaged";
    }
    if amount.miscounted == 0 {
        "clean"
    } else {
        "miscounted"
    }
}

// Adds a log, and a space.
fn push_log<A: Allocator>(text: &mut Vec<u8, A>, log: LogFiles) -> Result<(), AllocError>
    ensures { OnOk result (text.new.items ≡ text.old.items ++ log_text log) }
{
    let base = log.base;
    let kind = log.kind.word();
    write!(text, "{base} {kind} ").map_err(|_| AllocError)
}

// Adds what was found.
fn push_finding<A: Allocator + Copy>(
    text: &mut Vec<u8, A>,
    found: Finding,
) -> Result<(), AllocError>
    ensures { OnOk result ((said : List ℕ) × IsFindingText found said × (text.new.items ≡ text.old.items ++ said)) }
{
    match found {
        Finding::Absent => push_bytes(text, b"no such log"),
        Finding::Clean(amount) => push_clean(text, amount),
        Finding::Torn {
            amount,
            kept,
            cut,
            ..
        } => push_torn(text, amount, kept, cut),
        Finding::Refused(refusal) => push_refusal(text, refusal),
        Finding::Unread(file) => push_unread(text, file),
    }
}

// Adds how much a log has.
fn push_amount<A: Allocator>(text: &mut Vec<u8, A>, amount: Amount) -> Result<(), AllocError>
    ensures { OnOk result (text.new.items ≡ text.old.items ++ amount_text amount) }
{
    push_counts(text, amount)?;
    push_miscount(text, amount.miscounted)
}

// Adds how many files have a wrong count, if any has.
fn push_miscount<A: Allocator>(text: &mut Vec<u8, A>, miscounted: u64) -> Result<(), AllocError>
    ensures { OnOk result (text.new.items ≡ text.old.items ++ miscount_text miscounted) }
{
    if miscounted == 0 {
        return Ok(());
    }
    write!(text, " miscounted={miscounted}").map_err(|_| AllocError)
}

// Adds how many files, items and bytes a log has.
fn push_counts<A: Allocator>(text: &mut Vec<u8, A>, amount: Amount) -> Result<(), AllocError>
    ensures { OnOk result (text.new.items ≡ text.old.items ++ counts_text amount) }
{
    let Amount {
        files,
        items,
        bytes,
        bad,
        ..
    } = amount;
    write!(text, "files={files} items={items} bytes={bytes} bad={bad}").map_err(|_| AllocError)
}

// Adds how much a log has that is opened as it is, and whether something is wrong of its older files.
fn push_clean<A: Allocator>(text: &mut Vec<u8, A>, amount: Amount) -> Result<(), AllocError>
    ensures { OnOk result (text.new.items ≡ text.old.items ++ (amount_text amount ++ codes " " ++ whole_word amount)) }
{
    push_amount(text, amount)?;
    push_bytes(text, b" ")?;
    push_bytes(text, whole_word(amount).as_bytes())
}

// Adds how much a log has, and what a repair would do.
fn push_torn<A: Allocator>(
    text: &mut Vec<u8, A>,
    amount: Amount,
    kept: u64,
    cut: u64,
) -> Result<(), AllocError>
    ensures { OnOk result (text.new.items ≡ text.old.items ++ (amount_text amount ++ kept_text kept ++ cut_text cut)) }
{
    push_amount(text, amount)?;
    push_kept(text, kept)?;
    push_cut(text, cut)
}

// Adds how many items a repair would keep.
fn push_kept<A: Allocator>(text: &mut Vec<u8, A>, kept: u64) -> Result<(), AllocError>
    ensures { OnOk result (text.new.items ≡ text.old.items ++ kept_text kept) }
{
    write!(text, " needs repair: {kept} items kept, ").map_err(|_| AllocError)
}

/// Adds how many bytes a repair would cut.
pub fn push_cut<A: Allocator>(text: &mut Vec<u8, A>, cut: u64) -> Result<(), AllocError>
    ensures { OnOk result (text.new.items ≡ text.old.items ++ cut_text cut) }
{
    write!(text, "{cut} bytes bad").map_err(|_| AllocError)
}

// Adds why an open is refused.
fn push_refusal<A: Allocator>(text: &mut Vec<u8, A>, refusal: Refusal) -> Result<(), AllocError>
    ensures { OnOk result (text.new.items ≡ text.old.items ++ (codes "refused: " ++ refusal_text refusal)) }
{
    write!(text, "refused: {refusal}").map_err(|_| AllocError)
}

// Adds at which file the device failed.
fn push_unread<A: Allocator>(text: &mut Vec<u8, A>, file: FileName) -> Result<(), AllocError>
    ensures { OnOk result (text.new.items ≡ text.old.items ++ (codes "cannot read " ++ printed_file file)) }
{
    write!(text, "cannot read {file}").map_err(|_| AllocError)
}

/// Adds bytes as they are.
pub fn push_bytes<A: Allocator>(text: &mut Vec<u8, A>, bytes: &[u8]) -> Result<(), AllocError>
    ensures { OnOk result (text.new.items ≡ text.old.items ++ bytes.now) }
{
    text.extend_from_slice(bytes)
}
