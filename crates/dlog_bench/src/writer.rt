// A thread's part in what threads log.
use crate::bench::one_item;
use crate::client::check;
use crate::fault::Fault;
use dl_disk::Disk;
use dl_server::{AlogFault, Client, Done, Server};
use dl_types::{Fail, Items, Kind, Name, OpenArgs, Reply};
use std::alloc::Global;
use std::sync::Wait;

/// How a thread logs an item.
#[derive(Clone, Copy)]
pub enum Way {
    /// It waits for the answer.
    Log,
    /// It sends the item.
    Alog,
    /// It waits for the answer, and for that of a sync.
    Sync,
}

/// What a thread logs, one item a call.
#[derive(Clone, Copy)]
pub struct Part {
    pub way: Way,
    pub log: Name,
    pub items: u64,
}

/// Opens a log, logs to it, and exits. Returns what the client did, if it did its part.
pub fn write<R: Wait, D: Disk + Drop>(
    rt: &R,
    alloc: Global,
    server: &Server<D>,
    part: Part,
) -> Option<Done> {
    let mut client = server.connect(rt).ok()?;
    let written = log_items(rt, alloc, server, &mut client, part);
    let left = server.exit(rt, client);
    written.ok()?;
    left.ok()
}

fn log_items<R: Wait, D: Disk + Drop>(
    rt: &R,
    alloc: Global,
    server: &Server<D>,
    client: &mut Client<'_>,
    part: Part,
) -> Result<(), Fault> {
    let log = part.log;
    check(&server.open(rt, client, log, OpenArgs::of(Kind::Halt)))?;
    for number in 0..part.items {
        let items = one_item(alloc, number)?;
        match part.way {
            Way::Log => check(&server.log(rt, client, log, items))?,
            Way::Alog => send(rt, server, client, log, items)?,
            Way::Sync => {
                check(&server.log(rt, client, log, items))?;
                check(&server.sync(rt, client, log))?;
            }
        }
    }
    Ok(())
}

// Sends items. If the ring is full, the server first processes what was sent.
fn send<R: Wait, D: Disk + Drop>(
    rt: &R,
    server: &Server<D>,
    client: &mut Client<'_>,
    log: Name,
    items: Items,
) -> Result<(), Fault> {
    let mut items = items;
    for _ in rt.forever() {
        match client.alog(log, items) {
            Ok(()) => return Ok(()),
            Err(AlogFault::InboxFull(back)) => items = back,
            Err(AlogFault::OutOfMemory(_)) => return Err(Fault::Hub(Fail::OutOfMemory)),
        }
        server.take_in(rt, client)?;
    }
    unreachable!()
}

/// How many items were logged since the log was opened, as an info says.
pub fn written(info: &Reply) -> u64 {
    let Reply::Info(info) = info else {
        return 0;
    };
    let writing = info.as_info().writing.as_ref();
    writing.map_or(0, |writing| writing.written)
}
