// What is found of a log, as a JSON object.
ghost use Rattle.std.specs.Prelude.{◌≡◌, ◌++◌, List, ℕ, OnOk, codes};
ghost use Rattle.dl_types.specs.Printed.{printed_file, refusal_text};
ghost use Rattle.dl_tool.specs.Json.{json_log, json_size, json_state, json_counts, json_miscount, json_amount, json_repair, json_field, json_end, IsJsonText, IsJson};

use crate::finding::{Amount, Finding};
use crate::line::{LogFiles, push_bytes, whole_word};
use dl_types::{FileName, Refusal, Size};
use std::alloc::{AllocError, Allocator};
use std::io::Write;

/// Adds the object of what was found of a log, on a line of its own. Nothing is escaped: no name of a file and no
/// refusal has a quote, a backslash or a control character.
pub fn push_json<A: Allocator>(
    text: &mut Vec<u8, A>,
    log: LogFiles,
    found: Finding,
) -> Result<(), AllocError>
    ensures { OnOk result ((line : List ℕ) × IsJson log found line × (text.new.items ≡ text.old.items ++ line)) }
{
    push_log(text, log)?;
    push_found(text, found)?;
    push_end(text)
}

// Adds the end of an object.
fn push_end<A: Allocator>(text: &mut Vec<u8, A>) -> Result<(), AllocError>
    ensures { OnOk result (text.new.items ≡ text.old.items ++ json_end) }
{
    push_bytes(text, b"}\n")
}

// Adds the front of an object: the log.
fn push_log<A: Allocator>(text: &mut Vec<u8, A>, log: LogFiles) -> Result<(), AllocError>
    ensures { OnOk result (text.new.items ≡ text.old.items ++ json_log log) }
{
    let base = log.base;
    let kind = log.kind.word();
    write!(text, "{{\"name\":\"{base}\",\"kind\":\"{kind}\"").map_err(|_| AllocError)
}

// Adds what was found.
fn push_found<A: Allocator>(text: &mut Vec<u8, A>, found: Finding) -> Result<(), AllocError>
    ensures { OnOk result ((said : List ℕ) × IsJsonText found said × (text.new.items ≡ text.old.items ++ said)) }
{
    match found {
        Finding::Absent => push_state(text, "no such log"),
        Finding::Clean(amount) => push_amount(text, whole_word(amount), amount),
        Finding::Torn {
            amount,
            kept,
            cut,
            ..
        } => push_torn(text, amount, kept, cut),
        Finding::Refused(refusal) => push_refused(text, refusal),
        Finding::Unread(file) => push_unread(text, file),
    }
}

// Adds the state of a log.
fn push_state<A: Allocator>(text: &mut Vec<u8, A>, state: &str) -> Result<(), AllocError>
    ensures { OnOk result (text.new.items ≡ text.old.items ++ json_state state.now) }
{
    write!(text, ",\"state\":\"{state}\"").map_err(|_| AllocError)
}

// Adds the size that is stored.
fn push_size<A: Allocator>(text: &mut Vec<u8, A>, stored: Option<Size>) -> Result<(), AllocError>
    ensures { OnOk result (text.new.items ≡ text.old.items ++ json_size stored) }
{
    match stored {
        None => Ok(()),
        Some(size) => write!(text, ",\"size\":\"{size}\"").map_err(|_| AllocError),
    }
}

// Adds how much a log has.
fn push_counts<A: Allocator>(text: &mut Vec<u8, A>, amount: Amount) -> Result<(), AllocError>
    ensures { OnOk result (text.new.items ≡ text.old.items ++ json_counts amount) }
{
    let Amount {
        files,
        items,
        bytes,
        bad,
        ..
    } = amount;
    write!(
        text,
        ",\"files\":{files},\"items\":{items},\"bytes\":{bytes},\"bad\":{bad}"
    )
    .map_err(|_| AllocError)
}

// Adds a log in this state, and how much it has.
fn push_amount<A: Allocator>(
    text: &mut Vec<u8, A>,
    state: &str,
    amount: Amount,
) -> Result<(), AllocError>
    ensures { OnOk result (text.new.items ≡ text.old.items ++ json_amount state.now amount) }
{
    push_size(text, amount.stored)?;
    push_state(text, state)?;
    push_counts(text, amount)?;
    push_miscount(text, amount.miscounted)
}

// Adds how many files have a wrong count, if any has.
fn push_miscount<A: Allocator>(text: &mut Vec<u8, A>, miscounted: u64) -> Result<(), AllocError>
    ensures { OnOk result (text.new.items ≡ text.old.items ++ json_miscount miscounted) }
{
    if miscounted == 0 {
        return Ok(());
    }
    write!(text, ",\"miscounted\":{miscounted}").map_err(|_| AllocError)
}

// Adds a log that needs a repair.
fn push_torn<A: Allocator>(
    text: &mut Vec<u8, A>,
    amount: Amount,
    kept: u64,
    cut: u64,
) -> Result<(), AllocError>
    ensures { OnOk result (text.new.items ≡ text.old.items ++ (json_amount (codes "needs repair") amount ++ json_repair kept cut)) }
{
    push_amount(text, "needs repair", amount)?;
    push_repair(text, kept, cut)
}

// Adds what a repair would do.
fn push_repair<A: Allocator>(text: &mut Vec<u8, A>, kept: u64, cut: u64) -> Result<(), AllocError>
    ensures { OnOk result (text.new.items ≡ text.old.items ++ json_repair kept cut) }
{
    write!(text, ",\"kept\":{kept},\"cut\":{cut}").map_err(|_| AllocError)
}

// Adds why an open is refused.
fn push_refused<A: Allocator>(text: &mut Vec<u8, A>, refusal: Refusal) -> Result<(), AllocError>
    ensures { OnOk result (text.new.items ≡ text.old.items ++ (json_state (codes "refused") ++ json_field (codes "why") (refusal_text refusal))) }
{
    push_state(text, "refused")?;
    write!(text, ",\"why\":\"{refusal}\"").map_err(|_| AllocError)
}

// Adds at which file the device failed.
fn push_unread<A: Allocator>(text: &mut Vec<u8, A>, file: FileName) -> Result<(), AllocError>
    ensures { OnOk result (text.new.items ≡ text.old.items ++ (json_state (codes "unread") ++ json_field (codes "file") (printed_file file))) }
{
    push_state(text, "unread")?;
    write!(text, ",\"file\":\"{file}\"").map_err(|_| AllocError)
}
