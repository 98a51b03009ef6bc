// Logs that were not synced, as the answer to a sync of many.
ghost use Rattle.std.specs.Prelude.{◌≡◌, ◌++◌, OnOk};
ghost use Rattle.std.specs.List.{flat_map};
ghost use Rattle.dl_wire.specs.Answer.{frame_text};
ghost use Rattle.dl_wire.specs.Unsynced.{unsynced_text, unsynced_answer};

use crate::answering::push_reply;
use crate::fault::EncodeFault;
use crate::frame::end;
use crate::writing::{push_count, push_name, push_u32};
use dl_types::{Name, Reply};
use std::alloc::{Allocator, Global};

/// A log that was not put on the device, and the reply to its sync.
#[derive(Drop)]
pub struct Unsynced<A: Allocator = Global> {
    pub log: Name,
    pub reply: Reply<A>,
}

// A log, and the kind of the reply to its sync with its parts.
fn push_one<A: Allocator>(out: &mut Vec<u8, A>, unsynced: &Unsynced<A>) -> Result<(), EncodeFault>
    ensures { OnOk result (out.new.items ≡ out.old.items ++ unsynced_text unsynced.now) }
{
    push_name(out, unsynced.log)?;
    push_reply(out, &unsynced.reply)?;
    Ok(())
}

// The parts of logs, one after another.
fn push_each<A: Allocator>(
    out: &mut Vec<u8, A>,
    unsynced: &[Unsynced<A>],
) -> Result<(), EncodeFault>
    ensures { OnOk result (out.new.items ≡ out.old.items ++ flat_map unsynced_text unsynced.now) }
{
    for one in unsynced {
        push_one(out, one)?;
    }
    Ok(())
}

// A tag, the kind of the answer, and the logs after their number.
fn push_unsynced_text<A: Allocator>(
    out: &mut Vec<u8, A>,
    tag: u32,
    unsynced: &[Unsynced<A>],
) -> Result<(), EncodeFault>
    ensures { OnOk result (out.new.items ≡ out.old.items ++ (unsynced_answer tag unsynced.now)) }
{
    push_u32(out, tag)?;
    out.push(12)?;
    push_count(out, unsynced.len())?;
    push_each(out, unsynced)?;
    Ok(())
}

/// Adds the frame of the answer to a sync of many logs: those that were not put on the device.
pub fn push_unsynced<A: Allocator>(
    out: &mut Vec<u8, A>,
    tag: u32,
    unsynced: &[Unsynced<A>],
) -> Result<(), EncodeFault>
    ensures { OnOk result (out.new.items ≡ out.old.items ++ frame_text (unsynced_answer tag unsynced.now)) }
{
    let start = out.len();
    push_u32(out, 0)?;
    push_unsynced_text(out, tag, unsynced)?;
    end(out, start)
}
