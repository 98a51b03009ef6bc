// One client of a script, in a thread of its own.
ghost use Rattle.std.specs.Prelude.{◌≡◌, ◌≢◌, ◌∷◌, [], true, List, IfSome, OnOk};
ghost use Rattle.dl_types.specs.declared.place.Place.TheVariants.{Start};
ghost use Rattle.dl_types.specs.declared.reply.Reply.TheVariants.{OutOfMemory};
ghost use Rattle.dl_app.specs.Places.{place_of};
ghost use Rattle.dl_server.specs.declared.client.Did.{Did};
ghost use Rattle.dl_server.specs.declared.client.Did.TheVariants.{Sent};
ghost use Rattle.dl_threads.specs.Commands.{calls_of};
ghost use Rattle.dl_threads.specs.Lines.{texts_of};
ghost use Rattle.dl_threads.specs.Parts.{PlaysLines};
ghost use Rattle.dl_threads.specs.Played.{Makes, MakesAll, MakesCall, Plays, IsSame, GoesOn};

use crate::parts::commands_of;
use dl_app::{Command, Places, Request, call_of};
use dl_disk::Disk;
use dl_server::{AlogFault, Client, Done, Server};
use dl_types::{Call, ClientId, Fail, Items, Name, Reply};
use std::alloc::{AllocError, Global};
use std::sync::Wait;

/// Has a client of the server make the calls that a client of the script has in these lines, and exit. Returns what it did, unless
/// memory was refused.
pub(crate) fn play<D: Disk + Drop, T: Wait>(
    rt: &T,
    alloc: Global,
    server: &Server<D>,
    own: ClientId,
    lines: &[Vec<u8>],
    kept: bool,
) -> Option<Done>
    ensures { IfSome result (λ done. kept ≡ true → PlaysLines own (texts_of lines.now) done) }
{
    let Ok(commands) = commands_of(alloc, lines) else {
        return None;
    };
    play_commands(rt, alloc, server, own, commands.as_slice(), kept)
}

// The same for the commands of the lines.
fn play_commands<D: Disk + Drop, T: Wait>(
    rt: &T,
    alloc: Global,
    server: &Server<D>,
    own: ClientId,
    commands: &[Command<'_>],
    kept: bool,
) -> Option<Done>
    ensures { IfSome result (λ done. kept ≡ true → Plays own commands.now done) }
{
    let mut client = server.connect(rt).ok()?;
    let is_kept = client.is_kept();
    let made = make_all(rt, alloc, server, &mut client, own, commands);
    let done = server.exit(rt, client).ok()?;
    if is_kept != kept {
        return None;
    }
    made.ok()?;
    Some(done)
}

// Makes the calls of a client of the script, up to its exit.
fn make_all<D: Disk + Drop, T: Wait>(
    rt: &T,
    alloc: Global,
    server: &Server<D>,
    client: &mut Client<'_>,
    own: ClientId,
    commands: &[Command<'_>],
) -> Result<(), AllocError>
    ensures same { IsSame client.old client.new }
    ensures made { OnOk result (client.old.kept ≡ true → (did : List (Did Global)) × MakesAll client.old.id (calls_of own commands.now) (λ c l. Start) did
        × GoesOn client.old did client.new) }
{
    let mut places = Places::new(alloc);
    for command in commands {
        match *command {
            Command::Call {
                client: caller,
                log,
                request,
            } => {
                if caller == own {
                    make(rt, alloc, server, client, log, &request, &mut places)?;
                }
            }
            Command::Exit(caller) => {
                if caller == own {
                    return Ok(());
                }
            }
            Command::File(_) | Command::Flush => {}
        }
    }
    Ok(())
}

// Makes a call, unless it is refused before it is one.
fn make<D: Disk + Drop, T: Wait>(
    rt: &T,
    alloc: Global,
    server: &Server<D>,
    client: &mut Client<'_>,
    log: Name,
    request: &Request<'_>,
    places: &mut Places<Global>,
) -> Result<(), AllocError>
    ensures same { IsSame client.old client.new }
    ensures made { OnOk result (client.old.kept ≡ true → (did : List (Did Global)) × Makes client.old.id log request.now (place_of places.old) did (place_of places.new)
        × GoesOn client.old did client.new) }
{
    match call_of(alloc, client.id(), log, request, places) {
        Ok(call) => make_call(rt, server, client, log, call, places),
        Err(Fail::Refused(_)) => Ok(()),
        Err(Fail::OutOfMemory) => Err(AllocError),
    }
}

// Makes a call: sends its items, if it is to send some, and else waits for its reply.
fn make_call<D: Disk + Drop, T: Wait>(
    rt: &T,
    server: &Server<D>,
    client: &mut Client<'_>,
    log: Name,
    call: Call,
    places: &mut Places<Global>,
) -> Result<(), AllocError>
    ensures same { IsSame client.old client.new }
    ensures made { OnOk result (client.old.kept ≡ true → (did : List (Did Global)) × MakesCall client.old.id log call (place_of places.old) did (place_of places.new)
        × GoesOn client.old did client.new) }
{
    match call {
        Call::Alog(items) => send(rt, server, client, log, items),
        call => {
            let reply = server.ask(rt, client, log, call);
            had_memory(&reply)?;
            places.keep_after(client.id(), log, &reply)
        }
    }
}

// Fails if memory was refused to a call.
fn had_memory(reply: &Reply) -> Result<(), AllocError>
    ensures { OnOk result (reply.now ≢ OutOfMemory) }
{
    match reply {
        Reply::OutOfMemory => Err(AllocError),
        _ => Ok(()),
    }
}

// Sends items. While the ring of the client is full, it has the server take them in.
fn send<D: Disk + Drop, T: Wait>(
    rt: &T,
    server: &Server<D>,
    client: &mut Client<'_>,
    log: Name,
    items: Items,
) -> Result<(), AllocError>
    ensures same { IsSame client.old client.new }
    ensures sent { OnOk result (client.old.kept ≡ true → GoesOn client.old (Sent log items ∷ []) client.new) }
{
    let mut items = items;
    for _ in rt.forever() {
        match client.alog(log, items) {
            Ok(()) => return Ok(()),
            Err(AlogFault::OutOfMemory(_)) => return Err(AllocError),
            Err(AlogFault::InboxFull(back)) => items = back,
        }
        server.take_in(rt, client)?;
    }
    unreachable!()
}
