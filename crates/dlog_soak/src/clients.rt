// The clients that send, those that sync, and those that come and go.
use crate::work::Work;
use dl_disk::Disk;
use dl_server::{AlogFault, Client, Server};
use dl_types::{Item, Items, Kind, Name, OpenArgs, Reply, Size};
use std::alloc::Global;
use std::sync::Wait;

// How many bytes an item has.
const ITEM_BYTES: usize = 100;

/// How the logs of a soak are opened.
pub fn log_args() -> OpenArgs {
    let mut args = OpenArgs::of(Kind::Wrap);
    args.size = Some(Size::Wrap {
        bytes: 100_000,
        files: 4,
    });
    args.notify = true;
    args
}

/// Sends at most so many items, until the soak ends.
pub fn send<R: Wait, D: Disk + Drop>(
    rt: &R,
    alloc: Global,
    work: &Work<'_, D>,
    log: Name,
    most: u64,
) -> Option<()> {
    let mut client = work.server.connect(rt).ok()?;
    let sent = send_all(rt, alloc, work, &mut client, log, most);
    let done = work.server.exit(rt, client).ok()?;
    work.keep(rt, done)?;
    sent
}

fn send_all<R: Wait, D: Disk + Drop>(
    rt: &R,
    alloc: Global,
    work: &Work<'_, D>,
    client: &mut Client<'_>,
    log: Name,
    most: u64,
) -> Option<()> {
    for _ in 0..most {
        if work.has_ended() {
            break;
        }
        send_one(rt, alloc, work, client, log)?;
    }
    Some(())
}

// Sends an item, or has the server process those before it if the ring of the client is full.
fn send_one<R: Wait, D: Disk + Drop>(
    rt: &R,
    alloc: Global,
    work: &Work<'_, D>,
    client: &mut Client<'_>,
    log: Name,
) -> Option<()> {
    match client.alog(log, one_item(alloc)?) {
        Ok(()) => {
            work.count_sent();
            Some(())
        }
        Err(AlogFault::InboxFull(_)) => work.server.take_in(rt, client).ok(),
        Err(AlogFault::OutOfMemory(_)) => None,
    }
}

// One item of a hundred bytes.
fn one_item(alloc: Global) -> Option<Items> {
    let item = Item::of([b'x'; ITEM_BYTES].to_vec(alloc).ok()?).ok()?;
    Items::of(vec![in alloc; item].ok()?).ok()
}

/// Logs at most so many items, each with a sync, until the soak ends.
pub fn sync<R: Wait, D: Disk + Drop>(
    rt: &R,
    alloc: Global,
    work: &Work<'_, D>,
    log: Name,
    most: u64,
) -> Option<()> {
    let mut client = work.server.connect(rt).ok()?;
    let synced = sync_all(rt, alloc, work, &mut client, log, most);
    let done = work.server.exit(rt, client).ok()?;
    work.keep(rt, done)?;
    synced
}

fn sync_all<R: Wait, D: Disk + Drop>(
    rt: &R,
    alloc: Global,
    work: &Work<'_, D>,
    client: &mut Client<'_>,
    log: Name,
    most: u64,
) -> Option<()> {
    for _ in 0..most {
        if work.has_ended() {
            break;
        }
        is_done(work.server.log(rt, client, log, one_item(alloc)?))?;
        is_done(work.server.sync(rt, client, log))?;
        work.count_synced();
    }
    Some(())
}

/// Comes and goes as an owner, at most so many times, until the soak ends.
pub fn visit<R: Wait, D: Disk + Drop>(
    rt: &R,
    alloc: Global,
    work: &Work<'_, D>,
    log: Name,
    most: u64,
) -> Option<()> {
    for _ in 0..most {
        if work.has_ended() {
            break;
        }
        visit_once(rt, alloc, work, log)?;
        work.count_visit();
    }
    Some(())
}

// Comes as an owner, blocks the log, logs behind the block, and goes.
fn visit_once<R: Wait, D: Disk + Drop>(
    rt: &R,
    alloc: Global,
    work: &Work<'_, D>,
    log: Name,
) -> Option<()> {
    let mut client = work.server.connect(rt).ok()?;
    let attended = attend(rt, alloc, work.server, &mut client, log);
    let done = work.server.exit(rt, client).ok()?;
    work.keep(rt, done)?;
    attended
}

fn attend<R: Wait, D: Disk + Drop>(
    rt: &R,
    alloc: Global,
    server: &Server<D>,
    client: &mut Client<'_>,
    log: Name,
) -> Option<()> {
    is_done(server.open(rt, client, log, log_args()))?;
    is_done(server.block(rt, client, log, true))?;
    let _blocked = server.log(rt, client, log, one_item(alloc)?);
    is_done(server.unblock(rt, client, log))?;
    is_done(server.log(rt, client, log, one_item(alloc)?))?;
    is_done(server.close(rt, client, log))
}

/// Whether a call did its work.
pub fn is_done(reply: Reply) -> Option<()> {
    matches!(reply, Reply::Opened | Reply::Done).then_some(())
}
