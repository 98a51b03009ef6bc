// The info of a log as text.
ghost use Rattle.std.specs.Prelude.{◌≡◌, ◌++◌, codes, IfErr, OnOk};
ghost use Rattle.std.specs.Fmt.{decimal};
ghost use Rattle.std.specs.List.{flat_map};
ghost use Rattle.dl_app.specs.InfoText.{names_text, form_text, info_text, next_owner_text, owner_text, owners_text, users_text, status_word, head_text, extent_text, files_text, overflows_text, hold_text, writing_text, more_text, yes_or_no};
ghost use Rattle.dl_app.specs.Options.{mode_word};

use crate::fault::ScriptFault;
use dl_lines::push_hex;
use dl_types::{Base, Extent, Info, Item, Kind, Mode, Name, Overflows, Owner, Size, Writing};
use std::alloc::Allocator;
use std::io::Write;

/// Adds the info of a log.
pub fn push_info<A: Allocator>(text: &mut Vec<u8, A>, info: &Info<A>) -> Result<(), ScriptFault>
    ensures text { OnOk result (text.new.items ≡ text.old.items ++ info_text info.now) }
    ensures fault { IfErr result (λ e. e ≡ ScriptFault.OutOfMemory) }
{
    push_names(text, info.log, info.base)?;
    push_form(text, info.kind, info.size, info.mode)?;
    push_owners(text, info.owners.as_slice())?;
    push_users(text, info.users, info.blocked)?;
    push_more(text, &info.writing)
}

// Adds the name and the base.
fn push_names<A: Allocator>(text: &mut Vec<u8, A>, log: Name, base: Base) -> Result<(), ScriptFault>
    ensures text { OnOk result (text.new.items ≡ text.old.items ++ names_text log base) }
    ensures fault { IfErr result (λ e. e ≡ ScriptFault.OutOfMemory) }
{
    write!(text, "info {log} {base}").map_err(|_| ScriptFault::OutOfMemory)
}

// Adds the kind, the size and the mode.
fn push_form<A: Allocator>(
    text: &mut Vec<u8, A>,
    kind: Kind,
    size: Size,
    mode: Mode,
) -> Result<(), ScriptFault>
    ensures text { OnOk result (text.new.items ≡ text.old.items ++ form_text kind size mode) }
    ensures fault { IfErr result (λ e. e ≡ ScriptFault.OutOfMemory) }
{
    let kind = kind.word();
    let mode = mode_word(mode);
    write!(text, " {kind} {size} {mode}").map_err(|_| ScriptFault::OutOfMemory)
}

// The word of a mode.
fn mode_word(mode: Mode) -> &'static str
    ensures { result.now ≡ mode_word mode }
{
    match mode {
        Mode::ReadWrite => "rw",
        Mode::ReadOnly => "ro",
    }
}

// The word of a truth.
fn yes_or_no(holds: bool) -> &'static str
    ensures { result.now ≡ yes_or_no holds }
{
    if holds { "yes" } else { "no" }
}

// Adds the owners in order of joining.
fn push_owners<A: Allocator>(text: &mut Vec<u8, A>, owners: &[Owner]) -> Result<(), ScriptFault>
    ensures text { OnOk result (text.new.items ≡ text.old.items ++ codes " owners=" ++ owners_text owners.now) }
    ensures fault { IfErr result (λ e. e ≡ ScriptFault.OutOfMemory) }
{
    text.extend_from_slice(b" owners=")?;
    match owners.split_first() {
        None => Ok(text.extend_from_slice(b"none")?),
        Some((first, others)) => {
            push_owner(text, *first)?;
            push_others(text, others)
        }
    }
}

// Adds owners, each after a comma.
fn push_others<A: Allocator>(text: &mut Vec<u8, A>, owners: &[Owner]) -> Result<(), ScriptFault>
    ensures text { OnOk result (text.new.items ≡ text.old.items ++ flat_map next_owner_text owners.now) }
    ensures fault { IfErr result (λ e. e ≡ ScriptFault.OutOfMemory) }
{
    for owner in owners {
        text.push(b',')?;
        push_owner(text, *owner)?;
    }
    Ok(())
}

// Adds an owner, and whether it wants notices.
fn push_owner<A: Allocator>(text: &mut Vec<u8, A>, owner: Owner) -> Result<(), ScriptFault>
    ensures text { OnOk result (text.new.items ≡ text.old.items ++ owner_text owner) }
    ensures fault { IfErr result (λ e. e ≡ ScriptFault.OutOfMemory) }
{
    let client = owner.client;
    let notify = yes_or_no(owner.notify);
    write!(text, "{client}:{notify}").map_err(|_| ScriptFault::OutOfMemory)
}

// Adds the number of anonymous users, and the block.
fn push_users<A: Allocator>(
    text: &mut Vec<u8, A>,
    users: u32,
    blocked: Option<bool>,
) -> Result<(), ScriptFault>
    ensures text { OnOk result (text.new.items ≡ text.old.items ++ users_text users blocked) }
    ensures fault { IfErr result (λ e. e ≡ ScriptFault.OutOfMemory) }
{
    let status = status_word(blocked);
    write!(text, " users={users} {status}").map_err(|_| ScriptFault::OutOfMemory)
}

// The word of a block.
fn status_word(blocked: Option<bool>) -> &'static str
    ensures { result.now ≡ status_word blocked }
{
    match blocked {
        None => "ok",
        Some(true) => "blocked-queue",
        Some(false) => "blocked-refuse",
    }
}

// Adds the fields that only a log in read-write mode has, if it is one.
fn push_more<A: Allocator>(
    text: &mut Vec<u8, A>,
    writing: &Option<Writing<A>>,
) -> Result<(), ScriptFault>
    ensures text { OnOk result (text.new.items ≡ text.old.items ++ more_text writing.now) }
    ensures fault { IfErr result (λ e. e ≡ ScriptFault.OutOfMemory) }
{
    match writing {
        None => Ok(()),
        Some(writing) => push_writing(text, writing),
    }
}

// Adds the fields that only a log in read-write mode has.
fn push_writing<A: Allocator>(
    text: &mut Vec<u8, A>,
    writing: &Writing<A>,
) -> Result<(), ScriptFault>
    ensures text { OnOk result (text.new.items ≡ text.old.items ++ writing_text writing.now) }
    ensures fault { IfErr result (λ e. e ≡ ScriptFault.OutOfMemory) }
{
    text.extend_from_slice(b" head=")?;
    push_head(text, &writing.head)?;
    push_written(text, writing.written)?;
    push_extent(text, writing.extent)?;
    push_hold(text, writing.hold)
}

// Adds the head item, or that there is none.
fn push_head<A: Allocator>(text: &mut Vec<u8, A>, head: &Option<Item<A>>) -> Result<(), ScriptFault>
    ensures text { OnOk result (text.new.items ≡ text.old.items ++ head_text head.now) }
    ensures fault { IfErr result (λ e. e ≡ ScriptFault.OutOfMemory) }
{
    let Some(item) = head else {
        return Ok(text.extend_from_slice(b"none")?);
    };
    let bytes = item.as_bytes();
    if bytes.is_empty() {
        return Ok(text.push(b'-')?);
    }
    Ok(push_hex(text, bytes)?)
}

// Adds the number of items that were logged.
fn push_written<A: Allocator>(text: &mut Vec<u8, A>, written: u64) -> Result<(), ScriptFault>
    ensures text { OnOk result (text.new.items ≡ text.old.items ++ codes " written=" ++ decimal written) }
    ensures fault { IfErr result (λ e. e ≡ ScriptFault.OutOfMemory) }
{
    write!(text, " written={written}").map_err(|_| ScriptFault::OutOfMemory)
}

// Adds how far the files have come.
fn push_extent<A: Allocator>(text: &mut Vec<u8, A>, extent: Extent) -> Result<(), ScriptFault>
    ensures text { OnOk result (text.new.items ≡ text.old.items ++ extent_text extent) }
    ensures fault { IfErr result (λ e. e ≡ ScriptFault.OutOfMemory) }
{
    match extent {
        Extent::Halt { full } => push_full(text, full),
        Extent::Wrap {
            bytes,
            items,
            all,
            file,
            overflows,
        } => {
            push_files(text, bytes, items, all, file)?;
            push_overflows(text, overflows)
        }
    }
}

// Adds whether a halt log is full.
fn push_full<A: Allocator>(text: &mut Vec<u8, A>, full: bool) -> Result<(), ScriptFault>
    ensures text { OnOk result (text.new.items ≡ text.old.items ++ extent_text (Extent.Halt full)) }
    ensures fault { IfErr result (λ e. e ≡ ScriptFault.OutOfMemory) }
{
    let full = yes_or_no(full);
    write!(text, " full={full}").map_err(|_| ScriptFault::OutOfMemory)
}

// Adds the bytes and the items of the current file of a wrap log, the items of all files, and the number of the current
// file.
fn push_files<A: Allocator>(
    text: &mut Vec<u8, A>,
    bytes: u64,
    items: u64,
    all: u64,
    file: u32,
) -> Result<(), ScriptFault>
    ensures text { OnOk result (text.new.items ≡ text.old.items ++ files_text bytes items all file) }
    ensures fault { IfErr result (λ e. e ≡ ScriptFault.OutOfMemory) }
{
    write!(text, " bytes={bytes} items={items} all={all} file={file}").map_err(
        |_| ScriptFault::OutOfMemory,
    )
}

// Adds how often a wrap log went to its next file.
fn push_overflows<A: Allocator>(
    text: &mut Vec<u8, A>,
    overflows: Overflows,
) -> Result<(), ScriptFault>
    ensures text { OnOk result (text.new.items ≡ text.old.items ++ overflows_text overflows) }
    ensures fault { IfErr result (λ e. e ≡ ScriptFault.OutOfMemory) }
{
    let since_open = overflows.since_open;
    let since_info = overflows.since_info;
    write!(text, " overflows={since_open},{since_info}").map_err(|_| ScriptFault::OutOfMemory)
}

// Adds the most blocks that the log may have, or that there is no such number.
fn push_hold<A: Allocator>(text: &mut Vec<u8, A>, hold: Option<u32>) -> Result<(), ScriptFault>
    ensures text { OnOk result (text.new.items ≡ text.old.items ++ hold_text hold) }
    ensures fault { IfErr result (λ e. e ≡ ScriptFault.OutOfMemory) }
{
    match hold {
        None => Ok(text.extend_from_slice(b" hold=none")?),
        Some(blocks) => write!(text, " hold={blocks}").map_err(|_| ScriptFault::OutOfMemory),
    }
}
