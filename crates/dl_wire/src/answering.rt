// Answers and notices as whole frames.
ghost use Rattle.std.specs.Prelude.{◌≡◌, ◌++◌, OnOk};
ghost use Rattle.dl_wire.specs.declared.limits.TheConstants.{VERSION, FRAME_LIMIT, SUSPENDED_LIMIT};
ghost use Rattle.dl_wire.specs.Answer.{turn_text, reply_text, answer_text, notice_text, bad_text, welcome_text, frame_text};

use crate::fault::EncodeFault;
use crate::frame::end;
use crate::limits::{FRAME_LIMIT, SUSPENDED_LIMIT, VERSION};
use crate::refusing::push_refusal;
use crate::telling::{push_info, push_said};
use crate::writing::{push_items, push_name, push_position, push_u16, push_u32, push_u64};
use dl_types::{Delivery, Reply, Turn};
use std::alloc::{AllocError, Allocator};

// What became of the oldest block.
fn push_turn<A: Allocator>(out: &mut Vec<u8, A>, turn: Turn) -> Result<(), AllocError>
    ensures { OnOk result (out.new.items ≡ out.old.items ++ turn_text turn) }
{
    match turn {
        Turn::Drained(log) => {
            out.push(0)?;
            push_name(out, log)?;
        }
        Turn::Idle => out.push(1)?,
        Turn::Fault(log) => {
            out.push(2)?;
            push_name(out, log)?;
        }
    }
    Ok(())
}

/// The kind of a reply, and its parts.
pub fn push_reply<A: Allocator>(out: &mut Vec<u8, A>, reply: &Reply<A>) -> Result<(), EncodeFault>
    ensures { OnOk result (out.new.items ≡ out.old.items ++ reply_text reply.now) }
{
    match reply {
        Reply::Opened => out.push(1)?,
        Reply::Repaired { recovered, bad } => {
            out.push(2)?;
            push_u64(out, *recovered)?;
            push_u64(out, *bad)?;
        }
        Reply::Done => out.push(3)?,
        Reply::Suspended => out.push(4)?,
        Reply::Held => out.push(5)?,
        Reply::Items { next, items, bad } => {
            out.push(6)?;
            push_position(out, *next)?;
            push_u64(out, *bad)?;
            push_items(out, items.as_slice())?;
        }
        Reply::Eof => out.push(7)?,
        Reply::At(place) => {
            out.push(8)?;
            push_position(out, *place)?;
        }
        Reply::Info(info) => {
            out.push(9)?;
            push_info(out, info.as_info())?;
        }
        Reply::Turn(turn) => {
            out.push(10)?;
            push_turn(out, *turn)?;
        }
        Reply::Refused(refusal) => push_refusal(out, *refusal)?,
        Reply::OutOfMemory => out.push(11)?,
    }
    Ok(())
}

// The tag of a request, and the reply to it.
fn push_answer_text<A: Allocator>(
    out: &mut Vec<u8, A>,
    tag: u32,
    reply: &Reply<A>,
) -> Result<(), EncodeFault>
    ensures { OnOk result (out.new.items ≡ out.old.items ++ (answer_text tag reply.now)) }
{
    push_u32(out, tag)?;
    push_reply(out, reply)?;
    Ok(())
}

/// Adds the frame of an answer: the tag of its request, and the reply.
pub fn push_answer<A: Allocator>(
    out: &mut Vec<u8, A>,
    tag: u32,
    reply: &Reply<A>,
) -> Result<(), EncodeFault>
    ensures { OnOk result (out.new.items ≡ out.old.items ++ frame_text (answer_text tag reply.now)) }
{
    let start = out.len();
    push_u32(out, 0)?;
    push_answer_text(out, tag, reply)?;
    end(out, start)
}

// A client, a log, and what the client is told.
fn push_notice_text<A: Allocator>(
    out: &mut Vec<u8, A>,
    delivery: &Delivery<A>,
) -> Result<(), EncodeFault>
    ensures { OnOk result (out.new.items ≡ out.old.items ++ (notice_text delivery.now)) }
{
    push_u32(out, 0)?;
    out.push(128)?;
    push_u32(out, delivery.client().0)?;
    push_name(out, delivery.log())?;
    push_said(out, delivery.notice())?;
    Ok(())
}

/// Adds the frame of a notice.
pub fn push_notice<A: Allocator>(
    out: &mut Vec<u8, A>,
    delivery: &Delivery<A>,
) -> Result<(), EncodeFault>
    ensures { OnOk result (out.new.items ≡ out.old.items ++ frame_text (notice_text delivery.now)) }
{
    let start = out.len();
    push_u32(out, 0)?;
    push_notice_text(out, delivery)?;
    end(out, start)
}

// A tag, and a place.
fn push_bad_text<A: Allocator>(
    out: &mut Vec<u8, A>,
    tag: u32,
    place: u32,
) -> Result<(), EncodeFault>
    ensures { OnOk result (out.new.items ≡ out.old.items ++ (bad_text tag place)) }
{
    push_u32(out, tag)?;
    out.push(63)?;
    push_u32(out, place)?;
    Ok(())
}

/// Adds the frame of the answer to a text that is no request: the place of the first part that is wrong.
pub fn push_bad<A: Allocator>(out: &mut Vec<u8, A>, tag: u32, place: u32) -> Result<(), EncodeFault>
    ensures { OnOk result (out.new.items ≡ out.old.items ++ frame_text (bad_text tag place)) }
{
    let start = out.len();
    push_u32(out, 0)?;
    push_bad_text(out, tag, place)?;
    end(out, start)
}

// A tag, the version, the limits, and the name of the program.
fn push_welcome_text<A: Allocator>(out: &mut Vec<u8, A>, tag: u32) -> Result<(), EncodeFault>
    ensures { OnOk result (out.new.items ≡ out.old.items ++ (welcome_text tag VERSION FRAME_LIMIT SUSPENDED_LIMIT)) }
{
    push_u32(out, tag)?;
    out.push(0)?;
    push_u16(out, VERSION)?;
    push_u32(out, FRAME_LIMIT as u32)?;
    push_u32(out, SUSPENDED_LIMIT as u32)?;
    out.extend_from_slice(b"\x04dlog")?;
    Ok(())
}

/// Adds the frame of the answer to a hello: the version of the frames, the limits, and the name of the program.
pub fn push_welcome<A: Allocator>(out: &mut Vec<u8, A>, tag: u32) -> Result<(), EncodeFault>
    ensures { OnOk result (out.new.items ≡ out.old.items ++ frame_text (welcome_text tag VERSION FRAME_LIMIT SUSPENDED_LIMIT)) }
{
    let start = out.len();
    push_u32(out, 0)?;
    push_welcome_text(out, tag)?;
    end(out, start)
}
