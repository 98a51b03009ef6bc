// A request from its text.
ghost use Rattle.std.specs.Prelude.{◌≡◌, ◌⊎◌, Ok, Err, IfOk};
ghost use Rattle.dl_wire.specs.declared.fault.DecodeFault.TheVariants as fault;
ghost use Rattle.dl_wire.specs.declared.request.Request.{Request};
ghost use Rattle.dl_wire.specs.Decode.{kinds, modes, repairs, links, bools, ops, position_at, place_at, client_at, open_at, call_at, called_at, asked_at, whole_at, request_in, IsDecoded};
ghost use Rattle.dl_wire.specs.Fits.{IsRequest};
ghost use Rattle.dl_wire.specs.Reading.{Gives, choice_at};
ghost use Rattle.dl_wire.specs.Request.{request_text};

use crate::fault::{DecodeFault, ReadFault};
use crate::lists::names_at;
use crate::op::{Op, Verb};
use crate::reading::{
    base_at, choice_at, i32_at, list_at, name_at, size_at, some_base_at, some_item_at,
    some_size_at, some_u32_at, u16_at, u32_at, u64_at,
};
use crate::request::{Ask, Request};
use dl_types::{
    Act, Call, ClientId, Continuation, Event, Kind, Link, Mode, Name, OpenArgs, Place, Repair,
};
use std::alloc::Allocator;

/// Reads the request that all of a text says.
pub fn decode<A: Allocator + Copy>(alloc: A, text: &[u8]) -> Result<Request<A>, DecodeFault>
    ensures found { IfOk result (λ r. IsRequest r × (text.now ≡ request_text r)) }
    ensures only { (r : Request A) → IsRequest r → text.now ≡ request_text r → (result ≡ Ok r) ⊎ (result ≡ Err fault.OutOfMemory) }
    ensures place { IsDecoded result (request_in text.now) }
{
    match whole_at(alloc, text) {
        Ok(request) => Ok(request),
        Err(ReadFault::Left(left)) => Err(DecodeFault::At(text.len().saturating_sub(left))),
        Err(ReadFault::OutOfMemory) => Err(DecodeFault::OutOfMemory),
    }
}

// A tag, a number, and the parts.
#[tactic(auto, unfolding(crate::specs::Decode::whole_at))]
fn whole_at<A: Allocator + Copy>(alloc: A, bytes: &[u8]) -> Result<Request<A>, ReadFault>
    ensures { Gives (λ x. x) result (whole_at bytes.now) }
{
    let (tag, rest) = u32_at(bytes)?;
    let (op, rest) = op_at(rest)?;
    let (ask, rest) = asked_at(alloc, op, rest)?;
    if !rest.is_empty() {
        return Err(ReadFault::Left(rest.len()));
    }
    Ok(Request { tag, ask })
}

// The number of what is asked for.
fn op_at(bytes: &[u8]) -> Result<(Op, &[u8]), ReadFault>
    ensures { Gives (λ x. (x.0, x.1.now)) result (choice_at ops bytes.now) }
{
    let ops = [
        Op::Hello,
        Op::Call(Verb::Open),
        Op::Call(Verb::Log),
        Op::Call(Verb::Alog),
        Op::Call(Verb::Chunk),
        Op::Call(Verb::ChunkStep),
        Op::Call(Verb::Truncate),
        Op::Call(Verb::Reopen),
        Op::Call(Verb::NextFile),
        Op::Call(Verb::ChangeSize),
        Op::Call(Verb::Sync),
        Op::Call(Verb::Block),
        Op::Call(Verb::Unblock),
        Op::Call(Verb::Info),
        Op::Call(Verb::Close),
        Op::Exit,
        Op::Flush,
        Op::All,
        Op::SyncAll,
        Op::Reason,
        Op::Logs,
    ];
    choice_at(&ops, bytes)
}

// The parts of what is asked for.
#[tactic(auto, unfolding(crate::specs::Decode::asked_at))]
fn asked_at<A: Allocator + Copy>(
    alloc: A,
    op: Op,
    bytes: &[u8],
) -> Result<(Ask<A>, &[u8]), ReadFault>
    ensures { Gives (λ x. (x.0, x.1.now)) result (asked_at op bytes.now) }
{
    match op {
        Op::Hello => {
            let (version, rest) = u16_at(bytes)?;
            Ok((Ask::Hello(version), rest))
        }
        Op::Call(verb) => {
            let (event, rest) = called_at(alloc, verb, bytes)?;
            Ok((Ask::Event(event), rest))
        }
        Op::Exit => {
            let (client, rest) = client_at(bytes)?;
            Ok((Ask::Event(Event::Exit { client }), rest))
        }
        Op::Flush => Ok((Ask::Event(Event::Flush), bytes)),
        Op::All => Ok((Ask::All, bytes)),
        Op::SyncAll => {
            let (client, rest) = client_at(bytes)?;
            let (logs, rest) = names_at(alloc, rest)?;
            Ok((Ask::SyncAll { client, logs }, rest))
        }
        Op::Reason => Ok((Ask::Reason, bytes)),
        Op::Logs => Ok((Ask::Logs, bytes)),
    }
}

// A client, a log, and the parts of a call.
#[tactic(auto, unfolding(crate::specs::Decode::called_at))]
fn called_at<A: Allocator + Copy>(
    alloc: A,
    verb: Verb,
    bytes: &[u8],
) -> Result<(Event<A>, &[u8]), ReadFault>
    ensures { Gives (λ x. (x.0, x.1.now)) result (called_at verb bytes.now) }
{
    let (client, rest) = client_at(bytes)?;
    let (log, rest) = name_at(rest)?;
    let (call, rest) = call_at(alloc, verb, log, rest)?;
    Ok((Event::Call { client, log, call }, rest))
}

// The number of a client.
#[tactic(auto, unfolding(crate::specs::Decode::client_at))]
fn client_at(bytes: &[u8]) -> Result<(ClientId, &[u8]), ReadFault>
    ensures { Gives (λ x. (x.0, x.1.now)) result (client_at bytes.now) }
{
    let (number, rest) = u32_at(bytes)?;
    Ok((ClientId(number), rest))
}

// The parts of a call on the log of this name.
#[tactic(auto, unfolding(crate::specs::Decode::call_at))]
fn call_at<A: Allocator + Copy>(
    alloc: A,
    verb: Verb,
    log: Name,
    bytes: &[u8],
) -> Result<(Call<A>, &[u8]), ReadFault>
    ensures { Gives (λ x. (x.0, x.1.now)) result (call_at verb log bytes.now) }
{
    match verb {
        Verb::Open => {
            let (args, rest) = open_at(alloc, bytes)?;
            Ok((Call::Open(args), rest))
        }
        Verb::Log => {
            let (items, rest) = list_at(alloc, bytes)?;
            Ok((Call::Act(Act::Log(items)), rest))
        }
        Verb::Alog => {
            let (items, rest) = list_at(alloc, bytes)?;
            Ok((Call::Alog(items), rest))
        }
        Verb::Chunk => {
            let (from, rest) = place_at(log, bytes)?;
            let (most, rest) = u64_at(rest)?;
            Ok((Call::Act(Act::Chunk { from, most }), rest))
        }
        Verb::ChunkStep => {
            let (from, rest) = place_at(log, bytes)?;
            let (by, rest) = i32_at(rest)?;
            Ok((Call::Act(Act::ChunkStep { from, by }), rest))
        }
        Verb::Truncate => {
            let (head, rest) = some_item_at(alloc, bytes)?;
            Ok((Call::Act(Act::Truncate { head }), rest))
        }
        Verb::Reopen => {
            let (target, rest) = base_at(bytes)?;
            let (head, rest) = some_item_at(alloc, rest)?;
            Ok((Call::Reopen { target, head }, rest))
        }
        Verb::NextFile => Ok((Call::Act(Act::NextFile), bytes)),
        Verb::ChangeSize => {
            let (size, rest) = size_at(bytes)?;
            Ok((Call::Act(Act::ChangeSize(size)), rest))
        }
        Verb::Sync => Ok((Call::Act(Act::Sync), bytes)),
        Verb::Block => {
            let (queue, rest) = choice_at(&[false, true], bytes)?;
            Ok((Call::Block { queue }, rest))
        }
        Verb::Unblock => Ok((Call::Unblock, bytes)),
        Verb::Info => Ok((Call::Act(Act::Info), bytes)),
        Verb::Close => Ok((Call::Close, bytes)),
    }
}

// The options of an open.
#[tactic(auto, unfolding(crate::specs::Decode::open_at))]
fn open_at<A: Allocator + Copy>(alloc: A, bytes: &[u8]) -> Result<(OpenArgs<A>, &[u8]), ReadFault>
    ensures { Gives (λ x. (x.0, x.1.now)) result (open_at bytes.now) }
{
    let (kind, rest) = choice_at(&[Kind::Halt, Kind::Wrap], bytes)?;
    let (base, rest) = some_base_at(rest)?;
    let (size, rest) = some_size_at(rest)?;
    let (mode, rest) = choice_at(&[Mode::ReadWrite, Mode::ReadOnly], rest)?;
    let (repair, rest) = choice_at(&[Repair::Yes, Repair::No, Repair::Truncate], rest)?;
    let (head, rest) = some_item_at(alloc, rest)?;
    let (notify, rest) = choice_at(&[false, true], rest)?;
    let (link, rest) = choice_at(&[Link::Owner, Link::Anonymous], rest)?;
    let (hold, rest) = some_u32_at(rest)?;
    let args = OpenArgs {
        base,
        kind,
        size,
        mode,
        repair,
        head,
        notify,
        link,
        hold,
    };
    Ok((args, rest))
}

// A place to read from in the log of this name.
#[tactic(auto, unfolding(crate::specs::Decode::place_at))]
fn place_at(log: Name, bytes: &[u8]) -> Result<(Place, &[u8]), ReadFault>
    ensures { Gives (λ x. (x.0, x.1.now)) result (place_at log bytes.now) }
{
    match bytes {
        [] => Err(ReadFault::Left(0)),
        [0, rest @ ..] => Ok((Place::Start, rest)),
        [1, rest @ ..] => {
            let (position, rest) = position_at(log, rest)?;
            Ok((Place::At(position), rest))
        }
        [_, ..] => Err(ReadFault::Left(bytes.len())),
    }
}

// A position in the log of this name.
#[tactic(auto, unfolding(crate::specs::Decode::position_at))]
fn position_at(log: Name, bytes: &[u8]) -> Result<(Continuation, &[u8]), ReadFault>
    ensures { Gives (λ x. (x.0, x.1.now)) result (position_at log bytes.now) }
{
    let (generation, rest) = u64_at(bytes)?;
    let (passed, rest) = u64_at(rest)?;
    let (told, rest) = choice_at(&[false, true], rest)?;
    let position = Continuation {
        log,
        generation,
        passed,
        told,
    };
    Ok((position, rest))
}
