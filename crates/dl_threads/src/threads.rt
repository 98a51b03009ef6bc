// The threads of a script: one for each client, and a flusher.
ghost use Rattle.std.specs.Prelude.{◌≡◌, IfOk, true, map};
ghost use Rattle.dl_threads.specs.Lines.{texts_of};
ghost use Rattle.dl_threads.specs.Parts.{ArePlayed, FillParts};

use crate::client::play;
use crate::part::Part;
use dl_disk::Disk;
use dl_server::{Done, PeriodicGate, Server};
use dl_types::ClientId;
use std::alloc::{AllocError, Global};
use std::sync::Wait;
use std::thread;
use std::thread::{PromisedHandle, Threads};
use std::time::{Clock, Duration};

// How many milliseconds pass until all that waits is written again.
const PERIOD: u64 = 1;

/// Plays the clients, each in a thread of its own, beside a flusher. Returns what the clients did, in the same order, unless memory
/// was refused or a thread could not be started.
pub(crate) fn play_all<D: Disk + Drop + Send, T: Threads + Wait + Clock + Sync>(
    rt: &T,
    alloc: Global,
    server: &Server<D>,
    clients: &[ClientId],
    lines: &[Vec<u8>],
    kept: bool,
) -> Result<Vec<Done>, AllocError>
    ensures { IfOk result (λ dones. kept ≡ true → ArePlayed (texts_of lines.now) clients.now dones.items) }
{
    thread::scope(
        thread::scope_env(),
        rt,
        |scope| -> Result<Vec<Done>, AllocError>
            ensures { IfOk result (λ dones. kept ≡ true → ArePlayed (texts_of lines.entry.now) clients.entry.now dones.items) }
        {
            scope.spawn(move || flush(rt, server))?;
            let dones = play_clients(rt, alloc, server, clients, lines, kept);
            server.end_gates();
            dones
        },
    )
}

// Writes what waits and takes in what was sent, until the gates of the server end.
fn flush<D: Disk + Drop, T: Wait + Clock>(rt: &T, server: &Server<D>) {
    let mut gate = PeriodicGate::new(rt, server, Duration::from_millis(PERIOD));
    server.run_flusher(rt, &mut gate);
}

// Plays the clients, and returns what the clients did.
fn play_clients<D: Disk + Drop + Send, T: Threads + Wait + Sync>(
    rt: &T,
    alloc: Global,
    server: &Server<D>,
    clients: &[ClientId],
    lines: &[Vec<u8>],
    kept: bool,
) -> Result<Vec<Done>, AllocError>
    ensures { IfOk result (λ dones. kept ≡ true → ArePlayed (texts_of lines.now) clients.now dones.items) }
{
    thread::scope(
        thread::scope_env(),
        rt,
        |scope| -> Result<Vec<Done>, AllocError>
            ensures { IfOk result (λ dones. kept ≡ true → ArePlayed (texts_of lines.entry.now) clients.entry.now dones.items) }
        {
            let mut handles = Vec::new(alloc);
            for client in clients {
                let own = *client;
                let part = Part { own, lines, kept };
                let handle = scope.spawn_with(
                    part,
                    move || play(rt, alloc, server, own, lines, kept),
                )?;
                handles.push(handle)?;
            }
            join_all(rt, alloc, handles)
        },
    )
}

// What the clients of these threads did, in the same order.
fn join_all<T: Threads>(
    rt: &T,
    alloc: Global,
    handles: Vec<PromisedHandle<Option<Done>, Part<'_>>>,
) -> Result<Vec<Done>, AllocError>
    ensures { IfOk result (λ dones. FillParts (map (λ handle. handle.promise) handles.entry.items) dones.items) }
{
    let mut dones = Vec::new(alloc);
    for handle in handles {
        let Some(done) = handle.join(rt) else {
            return Err(AllocError);
        };
        dones.push(done)?;
    }
    Ok(dones)
}
