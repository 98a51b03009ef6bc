// Why the device failed, as an answer.
ghost use Rattle.std.specs.Prelude.{◌≡◌, ◌++◌, OnOk};
ghost use Rattle.dl_wire.specs.Answer.{frame_text};
ghost use Rattle.dl_wire.specs.Parts.{i32_text, option_text};
ghost use Rattle.dl_wire.specs.Reason.{cause_code, error_number, reason_text, reason_answer};

use crate::fault::EncodeFault;
use crate::frame::end;
use crate::refusing::push_file;
use crate::writing::push_u32;
use dl_disk::{Cause, Reason};
use std::alloc::{AllocError, Allocator};

// The byte of a cause.
fn cause_code(cause: Cause) -> u8
    ensures { result ≡ cause_code cause }
{
    match cause {
        Cause::System(_) => 0,
        Cause::OutOfMemory => 1,
        Cause::NotPlain => 2,
        Cause::Shorter => 3,
        Cause::Lost => 4,
        Cause::Other => 5,
    }
}

// The system's error number, or 0 if the system refused nothing.
fn error_number(cause: Cause) -> i32
    ensures { result ≡ error_number cause }
{
    cause.number().unwrap_or(0)
}

// A signed number of four bytes.
fn push_i32<A: Allocator>(out: &mut Vec<u8, A>, number: i32) -> Result<(), AllocError>
    ensures { OnOk result (out.new.items ≡ out.old.items ++ i32_text number) }
{
    push_u32(out, number.cast_unsigned())
}

// A file, why a call on it failed, and the system's error number.
fn push_one<A: Allocator>(out: &mut Vec<u8, A>, reason: Reason) -> Result<(), AllocError>
    ensures { OnOk result (out.new.items ≡ out.old.items ++ reason_text reason) }
{
    push_file(out, reason.file)?;
    out.push(cause_code(reason.cause))?;
    push_i32(out, error_number(reason.cause))
}

// A reason that may be missing.
fn push_some<A: Allocator>(out: &mut Vec<u8, A>, reason: Option<Reason>) -> Result<(), AllocError>
    ensures { OnOk result (out.new.items ≡ out.old.items ++ option_text reason_text reason) }
{
    match reason {
        None => out.push(0)?,
        Some(reason) => {
            out.push(1)?;
            push_one(out, reason)?;
        }
    }
    Ok(())
}

// A tag, the kind of the answer, and the reason.
fn push_reason_text<A: Allocator>(
    out: &mut Vec<u8, A>,
    tag: u32,
    reason: Option<Reason>,
) -> Result<(), AllocError>
    ensures { OnOk result (out.new.items ≡ out.old.items ++ (reason_answer tag reason)) }
{
    push_u32(out, tag)?;
    out.push(13)?;
    push_some(out, reason)
}

/// Adds the frame of the answer to a request for a reason: why the last call of the device that failed did, if that is known.
pub fn push_reason<A: Allocator>(
    out: &mut Vec<u8, A>,
    tag: u32,
    reason: Option<Reason>,
) -> Result<(), EncodeFault>
    ensures { OnOk result (out.new.items ≡ out.old.items ++ frame_text (reason_answer tag reason)) }
{
    let start = out.len();
    push_u32(out, 0)?;
    push_reason_text(out, tag, reason)?;
    end(out, start)
}
