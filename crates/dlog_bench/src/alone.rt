// What one thread logs that has a hub for itself.
use crate::bench::{Bench, one_item};
use crate::client::{call, check};
use crate::fault::Fault;
use crate::measures::name;
use crate::writer::written;
use dl_disk::Disk;
use dl_hub::Hub;
use dl_trail::{Record, Recorded};
use dl_types::{Call, Event, Kind, OpenArgs, Reply, Turn};
use std::time::{Duration, Instant};

// What does events, one after another.
trait Steps {
    fn step(&mut self, event: Event) -> Reply;
}

impl<D: Disk + Drop> Steps for Hub<D> {
    fn step(&mut self, event: Event) -> Reply {
        Hub::step(self, event).reply
    }
}

impl<D: Disk + Drop> Steps for Recorded<D> {
    fn step(&mut self, event: Event) -> Reply {
        Recorded::step(self, event).reply
    }
}

/// How long it takes to log the items to a hub over this disk.
pub fn time_hub<D: Disk + Drop>(bench: Bench<'_>, disk: D) -> Result<Duration, Fault> {
    let mut hub = Hub::new(bench.rt.alloc(), disk, bench.blocks)?;
    log_items(bench, &mut hub)
}

/// How long it takes to log the items to a hub that keeps its history, or does not.
pub fn time_recorded<D: Disk + Drop>(
    bench: Bench<'_>,
    disk: D,
    record: Record,
) -> Result<Duration, Fault> {
    let mut hub = Recorded::new(bench.rt.alloc(), disk, bench.blocks, record)?;
    log_items(bench, &mut hub)
}

// Logs the items to one log, one a call, and writes what waits. Returns how long that took.
fn log_items<S: Steps>(bench: Bench<'_>, hub: &mut S) -> Result<Duration, Fault> {
    let log = name(bench, 0)?;
    check(&hub.step(call(log, Call::Open(OpenArgs::of(Kind::Halt)))))?;
    let start = Instant::now(bench.rt)?;
    for number in 0..bench.items {
        check(&hub.step(call(log, Call::log(one_item(bench.rt.alloc(), number)?))))?;
    }
    flush(hub);
    let spent = start.elapsed(bench.rt)?;
    if written(&hub.step(call(log, Call::info()))) != bench.items {
        return Err(Fault::Items);
    }
    Ok(spent)
}

// Writes all that waits.
fn flush<S: Steps>(hub: &mut S) {
    for _ in 0..u64::MAX {
        let Reply::Turn(Turn::Drained(_)) = hub.step(Event::Flush) else {
            return;
        };
    }
}
