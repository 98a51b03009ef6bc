// The open logs, as an answer.
ghost use Rattle.std.specs.Prelude.{◌≡◌, ◌++◌, OnOk};
ghost use Rattle.std.specs.List.{flat_map};
ghost use Rattle.dl_types.specs.Name.{name_text};
ghost use Rattle.dl_wire.specs.Answer.{frame_text};
ghost use Rattle.dl_wire.specs.Logs.{logs_answer};
ghost use Rattle.dl_wire.specs.Parts.{short_text};

use crate::fault::EncodeFault;
use crate::frame::end;
use crate::writing::{push_count, push_name, push_u32};
use dl_types::Name;
use std::alloc::{AllocError, Allocator};

// Names, one after another.
fn push_each<A: Allocator>(out: &mut Vec<u8, A>, logs: &[Name]) -> Result<(), AllocError>
    ensures { OnOk result (out.new.items ≡ out.old.items ++ flat_map (λ log. short_text (name_text log)) logs.now) }
{
    for log in logs {
        push_name(out, *log)?;
    }
    Ok(())
}

// A tag, the kind of the answer, and the names after their number.
fn push_logs_text<A: Allocator>(
    out: &mut Vec<u8, A>,
    tag: u32,
    logs: &[Name],
) -> Result<(), EncodeFault>
    ensures { OnOk result (out.new.items ≡ out.old.items ++ (logs_answer tag logs.now)) }
{
    push_u32(out, tag)?;
    out.push(14)?;
    push_count(out, logs.len())?;
    push_each(out, logs)?;
    Ok(())
}

/// Adds the frame of the answer to a request for the open logs: their names.
pub fn push_logs<A: Allocator>(
    out: &mut Vec<u8, A>,
    tag: u32,
    logs: &[Name],
) -> Result<(), EncodeFault>
    ensures { OnOk result (out.new.items ≡ out.old.items ++ frame_text (logs_answer tag logs.now)) }
{
    let start = out.len();
    push_u32(out, 0)?;
    push_logs_text(out, tag, logs)?;
    end(out, start)
}
