// Refusals as bytes.
ghost use Rattle.std.specs.Prelude.{◌≡◌, ◌++◌, OnOk};
ghost use Rattle.dl_wire.specs.Answer.{argument_code, part_text, file_text, refusal_code, refusal_parts, refusal_text};

use crate::writing::{push_base, push_name, push_size, push_u32, push_u64};
use dl_types::{Argument, FileName, Part, Refusal};
use std::alloc::{AllocError, Allocator};

// The byte of an argument.
fn argument_code(argument: Argument) -> u8
    ensures { result ≡ argument_code argument }
{
    match argument {
        Argument::Kind => 0,
        Argument::Size => 1,
        Argument::Repair => 2,
        Argument::Head => 3,
        Argument::Items => 4,
        Argument::Item => 5,
        Argument::Count => 6,
        Argument::Continuation => 7,
        Argument::Blocks => 8,
        Argument::Hold => 9,
    }
}

// Which of a base's files.
fn push_part<A: Allocator>(out: &mut Vec<u8, A>, part: Part) -> Result<(), AllocError>
    ensures { OnOk result (out.new.items ≡ out.old.items ++ part_text part) }
{
    match part {
        Part::Halt => out.push(0)?,
        Part::Index => out.push(1)?,
        Part::Numbered(number) => {
            out.push(2)?;
            push_u32(out, number)?;
        }
    }
    Ok(())
}

/// A base, and which of its files.
pub fn push_file<A: Allocator>(out: &mut Vec<u8, A>, file: FileName) -> Result<(), AllocError>
    ensures { OnOk result (out.new.items ≡ out.old.items ++ file_text file) }
{
    push_base(out, file.base)?;
    push_part(out, file.part)
}

// The byte that a refusal begins with.
fn refusal_code(refusal: Refusal) -> u8
    ensures { result ≡ refusal_code refusal }
{
    match refusal {
        Refusal::BadArg(_) => 65,
        Refusal::NoSuchLog => 66,
        Refusal::NameAlreadyOpen => 67,
        Refusal::ArgMismatch(_) => 68,
        Refusal::SizeMismatch(..) => 69,
        Refusal::OpenReadWrite => 70,
        Refusal::OpenReadOnly => 71,
        Refusal::FileInUse(_) => 72,
        Refusal::NoFile => 73,
        Refusal::NotALogFile(_) => 74,
        Refusal::InvalidIndexFile => 75,
        Refusal::NeedRepair => 76,
        Refusal::ReadOnlyMode => 77,
        Refusal::Full => 78,
        Refusal::BlockedLog => 79,
        Refusal::NotBlocked => 80,
        Refusal::NotBlockedByCaller => 81,
        Refusal::HaltLog => 82,
        Refusal::NewSizeTooSmall(_) => 83,
        Refusal::SameFileName => 84,
        Refusal::StaleContinuation => 85,
        Refusal::EndOfLog => 86,
        Refusal::CorruptFile(_) => 87,
        Refusal::DeviceFault(_) => 88,
        Refusal::Exhausted => 89,
    }
}

// What a refusal says besides.
fn push_parts<A: Allocator>(out: &mut Vec<u8, A>, refusal: Refusal) -> Result<(), AllocError>
    ensures { OnOk result (out.new.items ≡ out.old.items ++ refusal_parts refusal) }
{
    match refusal {
        Refusal::BadArg(argument) | Refusal::ArgMismatch(argument) => {
            out.push(argument_code(argument))?;
        }
        Refusal::SizeMismatch(old, new) => {
            push_size(out, old)?;
            push_size(out, new)?;
        }
        Refusal::FileInUse(log) => push_name(out, log)?,
        Refusal::NotALogFile(file) | Refusal::DeviceFault(file) => push_file(out, file)?,
        Refusal::NewSizeTooSmall(bytes) => push_u64(out, bytes)?,
        Refusal::CorruptFile(number) => push_u32(out, number)?,
        _ => {}
    }
    Ok(())
}

/// A refusal.
pub fn push_refusal<A: Allocator>(out: &mut Vec<u8, A>, refusal: Refusal) -> Result<(), AllocError>
    ensures { OnOk result (out.new.items ≡ out.old.items ++ refusal_text refusal) }
{
    out.push(refusal_code(refusal))?;
    push_parts(out, refusal)
}
