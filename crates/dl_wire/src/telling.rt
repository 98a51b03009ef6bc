// Infos and notices as bytes.
ghost use Rattle.std.specs.Prelude.{◌≡◌, ◌++◌, ◌∷◌, [], OnOk};
ghost use Rattle.dl_types.specs.Notice.{said_by};
ghost use Rattle.dl_wire.specs.Parts.{list_text, option_text, bool_code};
ghost use Rattle.dl_wire.specs.Answer.{owner_text, extent_text, writing_text, settings_text, members_text, info_text, change_text, said_text};

use crate::fault::EncodeFault;
use crate::refusing::push_refusal;
use crate::writing::{
    bool_code, kind_code, mode_code, push_base, push_count, push_items, push_name, push_size,
    push_some_item, push_some_u32, push_u32, push_u64,
};
use dl_types::{Change, Extent, Info, Notice, Owner, Status, Writing};
use std::alloc::{AllocError, Allocator};

// An owner.
fn push_owner<A: Allocator>(out: &mut Vec<u8, A>, owner: Owner) -> Result<(), AllocError>
    ensures { OnOk result (out.new.items ≡ out.old.items ++ owner_text owner) }
{
    push_u32(out, owner.client.0)?;
    out.push(bool_code(owner.notify))?;
    Ok(())
}

// The owners of a log after their number.
fn push_owners<A: Allocator>(out: &mut Vec<u8, A>, owners: &[Owner]) -> Result<(), EncodeFault>
    ensures { OnOk result (out.new.items ≡ out.old.items ++ list_text owner_text owners.now) }
{
    push_count(out, owners.len())?;
    for owner in owners {
        push_owner(out, *owner)?;
    }
    Ok(())
}

// How far the files of a log have come.
fn push_extent<A: Allocator>(out: &mut Vec<u8, A>, extent: Extent) -> Result<(), AllocError>
    ensures { OnOk result (out.new.items ≡ out.old.items ++ extent_text extent) }
{
    match extent {
        Extent::Halt { full } => {
            out.push(0)?;
            out.push(bool_code(full))?;
        }
        Extent::Wrap {
            bytes,
            items,
            all,
            file,
            overflows,
        } => {
            out.push(1)?;
            push_u64(out, bytes)?;
            push_u64(out, items)?;
            push_u64(out, all)?;
            push_u32(out, file)?;
            push_u64(out, overflows.since_open)?;
            push_u64(out, overflows.since_info)?;
        }
    }
    Ok(())
}

// What an info says of a log in read-write mode, if it is in that mode.
fn push_writing<A: Allocator>(
    out: &mut Vec<u8, A>,
    writing: &Option<Writing<A>>,
) -> Result<(), AllocError>
    ensures { OnOk result (out.new.items ≡ out.old.items ++ option_text writing_text writing.now) }
{
    match writing {
        None => {
            out.push(0)?;
            Ok(())
        }
        Some(writing) => {
            out.push(1)?;
            push_some_item(out, &writing.head)?;
            push_u64(out, writing.written)?;
            push_extent(out, writing.extent)?;
            push_some_u32(out, writing.hold)
        }
    }
}

// Whether a log is blocked, and how.
fn push_blocked<A: Allocator>(out: &mut Vec<u8, A>, blocked: Option<bool>) -> Result<(), AllocError>
    ensures { OnOk result (out.new.items ≡ out.old.items ++ option_text (λ queue. bool_code queue ∷ []) blocked) }
{
    match blocked {
        None => out.push(0)?,
        Some(queue) => {
            out.push(1)?;
            out.push(bool_code(queue))?;
        }
    }
    Ok(())
}

// The name, the base, the kind, the size and the mode of a log.
fn push_settings<A: Allocator>(out: &mut Vec<u8, A>, info: &Info<A>) -> Result<(), AllocError>
    ensures { OnOk result (out.new.items ≡ out.old.items ++ settings_text info.now) }
{
    push_name(out, info.log)?;
    push_base(out, info.base)?;
    out.push(kind_code(info.kind))?;
    push_size(out, info.size)?;
    out.push(mode_code(info.mode))?;
    Ok(())
}

// The owners and users of a log, and its block.
fn push_members<A: Allocator>(out: &mut Vec<u8, A>, info: &Info<A>) -> Result<(), EncodeFault>
    ensures { OnOk result (out.new.items ≡ out.old.items ++ members_text info.now) }
{
    push_owners(out, info.owners.as_slice())?;
    push_u32(out, info.users)?;
    push_blocked(out, info.blocked)?;
    Ok(())
}

/// What a log tells about itself.
pub fn push_info<A: Allocator>(out: &mut Vec<u8, A>, info: &Info<A>) -> Result<(), EncodeFault>
    ensures { OnOk result (out.new.items ≡ out.old.items ++ info_text info.now) }
{
    push_settings(out, info)?;
    push_members(out, info)?;
    push_writing(out, &info.writing)?;
    Ok(())
}

// A change of a log.
fn push_change<A: Allocator>(out: &mut Vec<u8, A>, change: Change) -> Result<(), AllocError>
    ensures { OnOk result (out.new.items ≡ out.old.items ++ change_text change) }
{
    match change {
        Change::Wrap(count) => {
            out.push(0)?;
            push_u64(out, count)?;
        }
        Change::Truncated(count) => {
            out.push(1)?;
            push_u64(out, count)?;
        }
        Change::Full => out.push(2)?,
        Change::ErrorStatus(Status::Ok) => out.extend_from_slice(&[3, 0])?,
        Change::ErrorStatus(Status::Fault(refusal)) => {
            out.extend_from_slice(&[3, 1])?;
            push_refusal(out, refusal)?;
        }
    }
    Ok(())
}

/// What a client is told of a log.
pub fn push_said<A: Allocator>(out: &mut Vec<u8, A>, notice: &Notice<A>) -> Result<(), EncodeFault>
    ensures { OnOk result (out.new.items ≡ out.old.items ++ said_text (said_by notice.now)) }
{
    match notice {
        Notice::Change(change) => push_change(out, *change)?,
        Notice::ReadOnly(items) => {
            out.push(4)?;
            push_items(out, items.as_slice())?;
        }
        Notice::Blocked(items) => {
            out.push(5)?;
            push_items(out, items.as_slice())?;
        }
        Notice::NoSuchLog => out.push(6)?,
    }
    Ok(())
}
