// What is found of a log, a field a line.
ghost use Rattle.std.specs.Prelude.{◌≡◌, ◌++◌, List, ℕ, IsTrue, IfOk, OnOk, codes};
ghost use Rattle.std.specs.Io.KnownBytes.{Appends};
ghost use Rattle.std.specs.Fmt.{decimal};
ghost use Rattle.dl_types.specs.Name.{base_text};
ghost use Rattle.dl_types.specs.Printed.{characters_of, printed_file, refusal_text, kind_word};
ghost use Rattle.dl_tool.specs.About.{field, log_fields, size_field, count_fields, miscount_field, amount_fields, state_field, keeps_text, repair_text, IsStateText, IsInfo};
ghost use Rattle.dl_tool.specs.Report.{FindsLog};

use crate::check::check_log;
use crate::finding::{Amount, Finding};
use crate::line::{LogFiles, push_bytes, push_cut, whole_word};
use crate::report::{ReportFault, write_text};
use dl_disk::Disk;
use dl_types::{Base, FileName, Kind, Refusal, Size};
use std::alloc::{AllocError, Allocator};
use std::io::Write;

/// Checks a log, which is not open, and writes what it finds, a field a line. Nothing is changed.
pub fn describe_log<D: Disk, W: Write, A: Allocator + Copy>(
    alloc: A,
    disk: &mut D,
    log: LogFiles,
    output: &mut W,
) -> Result<Finding, ReportFault>
    ensures same { IsTrue (D.state disk.new).honest → (D.state disk.new).content ≡ (D.state disk.old).content }
    ensures stayed { IsTrue (D.state disk.new).honest → IsTrue (D.state disk.old).honest }
    ensures finds { IfOk result (λ found. IsTrue (D.state disk.new).honest → FindsLog A (D.state disk.old).content log found) }
    ensures info { IfOk result (λ found. (text : List ℕ) × IsInfo log found text × Appends (W.contents output.old) (W.contents output.new) text) }
{
    let found = check_log(alloc, disk, log.base, log.kind)?;
    let mut text = Vec::new(alloc);
    push_info(&mut text, log, found)?;
    write_text(text.as_slice(), output)?;
    Ok(found)
}

// Adds the lines of what was found of a log.
fn push_info<A: Allocator>(
    text: &mut Vec<u8, A>,
    log: LogFiles,
    found: Finding,
) -> Result<(), AllocError>
    ensures { OnOk result ((said : List ℕ) × IsInfo log found said × (text.new.items ≡ text.old.items ++ said)) }
{
    push_log(text, log)?;
    push_found(text, found)
}

// Adds the lines of a log.
fn push_log<A: Allocator>(text: &mut Vec<u8, A>, log: LogFiles) -> Result<(), AllocError>
    ensures { OnOk result (text.new.items ≡ text.old.items ++ log_fields log) }
{
    push_name(text, log.base)?;
    push_kind(text, log.kind)
}

// Adds the line of a name.
fn push_name<A: Allocator>(text: &mut Vec<u8, A>, base: Base) -> Result<(), AllocError>
    ensures { OnOk result (text.new.items ≡ text.old.items ++ field (codes "name") (characters_of (base_text base))) }
{
    write!(text, "name: {base}\n").map_err(|_| AllocError)
}

// Adds the line of a kind.
fn push_kind<A: Allocator>(text: &mut Vec<u8, A>, kind: Kind) -> Result<(), AllocError>
    ensures { OnOk result (text.new.items ≡ text.old.items ++ field (codes "kind") (kind_word kind)) }
{
    let kind = kind.word();
    write!(text, "kind: {kind}\n").map_err(|_| AllocError)
}

// Adds the lines of what was found.
fn push_found<A: Allocator>(text: &mut Vec<u8, A>, found: Finding) -> Result<(), AllocError>
    ensures { OnOk result ((said : List ℕ) × IsStateText found said × (text.new.items ≡ text.old.items ++ said)) }
{
    match found {
        Finding::Absent => push_state(text, "no such log"),
        Finding::Clean(amount) => {
            push_amount(text, amount)?;
            push_state(text, whole_word(amount))
        }
        Finding::Torn {
            amount,
            kept,
            cut,
            ..
        } => {
            push_amount(text, amount)?;
            push_repair(text, kept, cut)
        }
        Finding::Refused(refusal) => push_refused(text, refusal),
        Finding::Unread(file) => push_unread(text, file),
    }
}

// Adds the line of a state.
fn push_state<A: Allocator>(text: &mut Vec<u8, A>, state: &str) -> Result<(), AllocError>
    ensures { OnOk result (text.new.items ≡ text.old.items ++ state_field state.now) }
{
    write!(text, "state: {state}\n").map_err(|_| AllocError)
}

// Adds the lines of how much a log has.
fn push_amount<A: Allocator>(text: &mut Vec<u8, A>, amount: Amount) -> Result<(), AllocError>
    ensures { OnOk result (text.new.items ≡ text.old.items ++ amount_fields amount) }
{
    push_size(text, amount.stored)?;
    push_counts(text, amount)?;
    push_miscount(text, amount.miscounted)
}

// Adds the line of how many files have a wrong count, if any has.
fn push_miscount<A: Allocator>(text: &mut Vec<u8, A>, miscounted: u64) -> Result<(), AllocError>
    ensures { OnOk result (text.new.items ≡ text.old.items ++ miscount_field miscounted) }
{
    if miscounted == 0 {
        return Ok(());
    }
    push_number(text, "miscounted", miscounted)
}

// Adds the line of the size that is stored: a halt log stores none.
fn push_size<A: Allocator>(text: &mut Vec<u8, A>, stored: Option<Size>) -> Result<(), AllocError>
    ensures { OnOk result (text.new.items ≡ text.old.items ++ size_field stored) }
{
    match stored {
        None => push_bytes(text, b"size: not stored\n"),
        Some(size) => write!(text, "size: {size}\n").map_err(|_| AllocError),
    }
}

// Adds the lines of the counts.
fn push_counts<A: Allocator>(text: &mut Vec<u8, A>, amount: Amount) -> Result<(), AllocError>
    ensures { OnOk result (text.new.items ≡ text.old.items ++ count_fields amount) }
{
    push_number(text, "files", amount.files)?;
    push_number(text, "items", amount.items)?;
    push_number(text, "bytes", amount.bytes)?;
    push_number(text, "bad", amount.bad)
}

// Adds the line of a number.
fn push_number<A: Allocator>(
    text: &mut Vec<u8, A>,
    key: &str,
    number: u64,
) -> Result<(), AllocError>
    ensures { OnOk result (text.new.items ≡ text.old.items ++ field key.now (decimal number)) }
{
    write!(text, "{key}: {number}\n").map_err(|_| AllocError)
}

// Adds the line of a log that needs a repair.
fn push_repair<A: Allocator>(text: &mut Vec<u8, A>, kept: u64, cut: u64) -> Result<(), AllocError>
    ensures { OnOk result (text.new.items ≡ text.old.items ++ state_field (repair_text kept cut)) }
{
    push_bytes(text, b"state: ")?;
    push_repair_text(text, kept, cut)?;
    push_bytes(text, b"\n")
}

// Adds what a repair would keep and cut.
fn push_repair_text<A: Allocator>(
    text: &mut Vec<u8, A>,
    kept: u64,
    cut: u64,
) -> Result<(), AllocError>
    ensures { OnOk result (text.new.items ≡ text.old.items ++ repair_text kept cut) }
{
    push_kept(text, kept)?;
    push_cut(text, cut)
}

// Adds how many items a repair would keep.
fn push_kept<A: Allocator>(text: &mut Vec<u8, A>, kept: u64) -> Result<(), AllocError>
    ensures { OnOk result (text.new.items ≡ text.old.items ++ keeps_text kept) }
{
    write!(text, "needs repair: {kept} items kept, ").map_err(|_| AllocError)
}

// Adds the line of why an open is refused.
fn push_refused<A: Allocator>(text: &mut Vec<u8, A>, refusal: Refusal) -> Result<(), AllocError>
    ensures { OnOk result (text.new.items ≡ text.old.items ++ state_field (codes "refused: " ++ refusal_text refusal)) }
{
    write!(text, "state: refused: {refusal}\n").map_err(|_| AllocError)
}

// Adds the line of the file at which the device failed.
fn push_unread<A: Allocator>(text: &mut Vec<u8, A>, file: FileName) -> Result<(), AllocError>
    ensures { OnOk result (text.new.items ≡ text.old.items ++ state_field (codes "cannot read " ++ printed_file file)) }
{
    write!(text, "state: cannot read {file}\n").map_err(|_| AllocError)
}
