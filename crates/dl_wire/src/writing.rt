// The parts of a frame, each written at the end of some bytes.
ghost use Rattle.std.specs.Prelude.{◌≡◌, ◌++◌, ◌∷◌, [], ◌≤◌, ◌<◌, ◌^◌, List, ℕ, Err, OnOk, length};
ghost use Rattle.dl_types.specs.Name.{name_text, base_text};
ghost use Rattle.dl_wire.specs.declared.fault.EncodeFault.TheVariants.{TooLong};
ghost use Rattle.dl_wire.specs.Parts.{u16_text, u64_text, short_text, bytes_text, list_text, option_text, bool_code, kind_code, mode_code, size_text, position_text, u32_text};

use crate::fault::EncodeFault;
use dl_types::{Base, Continuation, Item, Kind, Mode, Name, Size};
use std::alloc::{AllocError, Allocator};

/// The byte of a flag.
pub fn bool_code(flag: bool) -> u8
    ensures { result ≡ bool_code flag }
{
    if flag { 1 } else { 0 }
}

/// The byte of a kind.
pub fn kind_code(kind: Kind) -> u8
    ensures { result ≡ kind_code kind }
{
    match kind {
        Kind::Halt => 0,
        Kind::Wrap => 1,
    }
}

/// The byte of a mode.
pub fn mode_code(mode: Mode) -> u8
    ensures { result ≡ mode_code mode }
{
    match mode {
        Mode::ReadWrite => 0,
        Mode::ReadOnly => 1,
    }
}

/// A number of two bytes.
#[tactic(auto, unfolding(crate::specs::Parts::u16_text))]
pub fn push_u16<A: Allocator>(out: &mut Vec<u8, A>, number: u16) -> Result<(), AllocError>
    ensures { OnOk result (out.new.items ≡ out.old.items ++ u16_text number) }
{
    out.extend_from_slice(&number.to_be_bytes())?;
    Ok(())
}

/// A number of four bytes.
#[tactic(auto, unfolding(crate::specs::Parts::u32_text))]
pub fn push_u32<A: Allocator>(out: &mut Vec<u8, A>, number: u32) -> Result<(), AllocError>
    ensures { OnOk result (out.new.items ≡ out.old.items ++ u32_text number) }
{
    out.extend_from_slice(&number.to_be_bytes())?;
    Ok(())
}

/// A number of eight bytes.
#[tactic(auto, unfolding(crate::specs::Parts::u64_text))]
pub fn push_u64<A: Allocator>(out: &mut Vec<u8, A>, number: u64) -> Result<(), AllocError>
    ensures { OnOk result (out.new.items ≡ out.old.items ++ u64_text number) }
{
    out.extend_from_slice(&number.to_be_bytes())?;
    Ok(())
}

/// A number of four bytes that may be missing.
pub fn push_some_u32<A: Allocator>(
    out: &mut Vec<u8, A>,
    number: Option<u32>,
) -> Result<(), AllocError>
    ensures { OnOk result (out.new.items ≡ out.old.items ++ option_text u32_text number) }
{
    match number {
        None => out.push(0)?,
        Some(number) => {
            out.push(1)?;
            push_u32(out, number)?;
        }
    }
    Ok(())
}

// A text of fewer than 256 bytes after its length.
fn push_short<A: Allocator>(out: &mut Vec<u8, A>, text: &[u8]) -> Result<(), AllocError>
    requires { length text.now < 2 ^ 8 }
    ensures { OnOk result (out.new.items ≡ out.old.items ++ short_text text.now) }
{
    out.push(text.len() as u8)?;
    out.extend_from_slice(text)?;
    Ok(())
}

/// The name of a log.
pub fn push_name<A: Allocator>(out: &mut Vec<u8, A>, name: Name) -> Result<(), AllocError>
    ensures { OnOk result (out.new.items ≡ out.old.items ++ short_text (name_text name)) }
{
    push_short(out, name.as_bytes())
}

/// The base of files.
pub fn push_base<A: Allocator>(out: &mut Vec<u8, A>, base: Base) -> Result<(), AllocError>
    ensures { OnOk result (out.new.items ≡ out.old.items ++ short_text (base_text base)) }
{
    push_short(out, base.as_bytes())
}

/// An item.
pub fn push_item<A: Allocator>(out: &mut Vec<u8, A>, item: &Item<A>) -> Result<(), AllocError>
    ensures { OnOk result (out.new.items ≡ out.old.items ++ bytes_text item.now) }
{
    let bytes = item.as_bytes();
    push_u32(out, bytes.len() as u32)?;
    out.extend_from_slice(bytes)?;
    Ok(())
}

/// An item that may be missing.
pub fn push_some_item<A: Allocator>(
    out: &mut Vec<u8, A>,
    item: &Option<Item<A>>,
) -> Result<(), AllocError>
    ensures { OnOk result (out.new.items ≡ out.old.items ++ option_text bytes_text item.now) }
{
    match item {
        None => {
            out.push(0)?;
            Ok(())
        }
        Some(item) => {
            out.push(1)?;
            push_item(out, item)
        }
    }
}

/// The number of a list's parts.
pub fn push_count<A: Allocator>(out: &mut Vec<u8, A>, count: usize) -> Result<(), EncodeFault>
    ensures fits { result ≡ Err TooLong → 2 ^ 32 ≤ count }
    ensures written { OnOk result (out.new.items ≡ out.old.items ++ u32_text count) }
{
    match u32::try_from(count) {
        Ok(count) => {
            push_u32(out, count)?;
            Ok(())
        }
        Err(_) => Err(EncodeFault::TooLong),
    }
}

/// Items after their number.
pub fn push_items<A: Allocator>(out: &mut Vec<u8, A>, items: &[Item<A>]) -> Result<(), EncodeFault>
    ensures { OnOk result (out.new.items ≡ out.old.items ++ list_text bytes_text items.now) }
{
    push_count(out, items.len())?;
    for item in items {
        push_item(out, item)?;
    }
    Ok(())
}

/// A size.
pub fn push_size<A: Allocator>(out: &mut Vec<u8, A>, size: Size) -> Result<(), AllocError>
    ensures { OnOk result (out.new.items ≡ out.old.items ++ size_text size) }
{
    match size {
        Size::Infinity => out.push(0)?,
        Size::Limit(limit) => {
            out.push(1)?;
            push_u64(out, limit)?;
        }
        Size::Wrap { bytes, files } => {
            out.push(2)?;
            push_u64(out, bytes)?;
            push_u32(out, files)?;
        }
    }
    Ok(())
}

/// A position in a log.
pub fn push_position<A: Allocator>(
    out: &mut Vec<u8, A>,
    position: Continuation,
) -> Result<(), AllocError>
    ensures { OnOk result (out.new.items ≡ out.old.items ++ position_text position) }
{
    push_u64(out, position.generation)?;
    push_u64(out, position.passed)?;
    out.push(bool_code(position.told))?;
    Ok(())
}
