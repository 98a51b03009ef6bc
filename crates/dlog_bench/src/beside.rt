// A client that logs now and then while others sync, and how long it waits.
use crate::bench::one_item;
use crate::client::check;
use crate::fault::Fault;
use crate::waits::Waits;
use dl_disk::Disk;
use dl_server::{Client, Server};
use dl_types::{Kind, Name, OpenArgs};
use std::alloc::Global;
use std::sync::Wait;
use std::sync::atomic::{AtomicBool, Ordering};
use std::thread;
use std::time::{Clock, Duration, Instant};

// How many microseconds pass between two of its calls.
const PAUSE: u64 = 200;

/// Logs items to a log of its own until `has_ended`. Returns how long its calls waited, if all were answered.
pub fn log_beside<R: Wait + Clock, D: Disk + Drop>(
    rt: &R,
    alloc: Global,
    server: &Server<D>,
    log: Name,
    has_ended: &AtomicBool,
) -> Option<Waits> {
    let mut client = server.connect(rt).ok()?;
    let waits = log_items(rt, alloc, server, &mut client, log, has_ended);
    let left = server.exit(rt, client);
    left.ok()?;
    waits.ok()
}

fn log_items<R: Wait + Clock, D: Disk + Drop>(
    rt: &R,
    alloc: Global,
    server: &Server<D>,
    client: &mut Client<'_>,
    log: Name,
    has_ended: &AtomicBool,
) -> Result<Waits, Fault> {
    check(&server.open(rt, client, log, OpenArgs::of(Kind::Halt)))?;
    let mut waits = Waits::none();
    for number in 0..u64::MAX {
        if has_ended.load(Ordering::SeqCst) {
            break;
        }
        let items = one_item(alloc, number)?;
        let start = Instant::now(rt)?;
        check(&server.log(rt, client, log, items))?;
        waits = waits.and_one(start.elapsed(rt)?);
        thread::sleep(rt, Duration::from_micros(PAUSE));
    }
    Ok(waits)
}
