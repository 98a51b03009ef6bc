// The call that a request is.
ghost use Rattle.std.specs.Prelude.{◌≡◌, IfSome, IfNone, IfOk, IfErr, Err};
ghost use Rattle.dl_app.specs.Places.{place_of};
ghost use Rattle.dl_app.specs.Command.{place_from, call_in, refusal_in};

use crate::command::{Request, Start};
use crate::items::{head_of, items_of};
use crate::places::Places;
use dl_types::{Act, Call, ClientId, Fail, Name, Place};
use std::alloc::Allocator;

/// Makes the call that a client's words ask for, or returns why no call can be made of them.
pub fn call_of<A: Allocator + Copy>(
    alloc: A,
    client: ClientId,
    log: Name,
    request: &Request<'_>,
    places: &Places<A>,
) -> Result<Call<A>, Fail>
    ensures call { IfOk result (λ call. call ≡ call_in request.now (place_of places.now client log)) }
    ensures refused { IfSome (refusal_in request.now) (λ refusal. result ≡ Err (Fail.Refused refusal)) }
    ensures memory { IfNone (refusal_in request.now) (IfErr result (λ fail. fail ≡ Fail.OutOfMemory)) }
{
    Ok(match *request {
        Request::Open { kind, settings } => Call::Open(settings.args(alloc, kind)?),
        Request::Log(words) => Call::Act(Act::Log(items_of(alloc, words)?)),
        Request::Alog(words) => Call::Alog(items_of(alloc, words)?),
        Request::Chunk { from, most } => Call::Act(Act::Chunk {
            from: place_from(from, client, log, places),
            most,
        }),
        Request::ChunkStep { from, by } => Call::Act(Act::ChunkStep {
            from: place_from(from, client, log, places),
            by,
        }),
        Request::Truncate { head } => Call::Act(Act::Truncate {
            head: head_of(alloc, head)?,
        }),
        Request::Reopen { target, head } => Call::Reopen {
            target,
            head: head_of(alloc, head)?,
        },
        Request::NextFile => Call::Act(Act::NextFile),
        Request::ChangeSize(size) => Call::Act(Act::ChangeSize(size)),
        Request::Sync => Call::Act(Act::Sync),
        Request::Block { queue } => Call::Block { queue },
        Request::Unblock => Call::Unblock,
        Request::Info => Call::Act(Act::Info),
        Request::Close => Call::Close,
    })
}

// The place at which a client begins to read a log.
fn place_from<A: Allocator + Copy>(
    from: Start,
    client: ClientId,
    log: Name,
    places: &Places<A>,
) -> Place
    ensures { result ≡ place_from from (place_of places.now client log) }
{
    match from {
        Start::First => Place::Start,
        Start::Next => places.next(client, log),
    }
}
