// What threads log through one server.
use crate::bench::Bench;
use crate::client::check;
use crate::fault::Fault;
use crate::measures::name;
use crate::writer::{Part, Way, write, written};
use dl_disk::Disk;
use dl_server::{Client, Done, PeriodicGate, Server};
use dl_trail::{Record, Recorded};
use dl_types::{Kind, Name, OpenArgs, Turn};
use std::alloc::Global;
use std::sync::Wait;
use std::thread;
use std::thread::{JoinHandle, Threads};
use std::time::{Clock, Duration, Instant};

// How long a flusher waits until it writes all that waits, in milliseconds.
const PERIOD: u64 = 100;

/// How threads share a server.
#[derive(Clone, Copy)]
pub struct Plan {
    pub way: Way,
    /// Whether each thread has a log of its own.
    pub apart: bool,
    pub record: Record,
}

impl Plan {
    /// What the line of the measure is called.
    pub fn name(self) -> &'static str {
        match (self.way, self.apart, self.record) {
            (Way::Log, false, Record::Off) => "threads_log_off",
            (Way::Log, false, Record::Kept) => "threads_log_kept",
            (Way::Log, true, Record::Off) => "threads_log_apart_off",
            (Way::Log, true, Record::Kept) => "threads_log_apart_kept",
            (Way::Alog, false, Record::Off) => "threads_alog_off",
            (Way::Alog, false, Record::Kept) => "threads_alog_kept",
            (Way::Alog, true, Record::Off) => "threads_alog_apart_off",
            (Way::Alog, true, Record::Kept) => "threads_alog_apart_kept",
            (Way::Sync, false, _) => "threads_sync",
            (Way::Sync, true, _) => "threads_sync_apart",
        }
    }
}

/// How long it takes to log the items by threads through a server over this disk.
pub fn time_server<R: Threads + Wait + Clock + Sync, D: Disk + Drop + Send>(
    rt: &R,
    bench: Bench<'_>,
    disk: D,
    plan: Plan,
) -> Result<Duration, Fault> {
    let hub = Recorded::new(bench.rt.alloc(), disk, bench.blocks, plan.record)?;
    let server = Server::start(bench.rt.alloc(), hub);
    let spent = own(rt, bench, &server, plan);
    drop(server.stop());
    spent
}

/// How long it takes to log the items by threads, with the logs opened by a client that keeps them open meanwhile.
pub fn own<R: Threads + Wait + Clock + Sync, D: Disk + Drop + Send>(
    rt: &R,
    bench: Bench<'_>,
    server: &Server<D>,
    plan: Plan,
) -> Result<Duration, Fault> {
    let mut owner = server.connect(rt)?;
    let spent = attend(rt, bench, server, plan, &mut owner);
    let _done = server.exit(rt, owner);
    spent
}

fn attend<R: Threads + Wait + Clock + Sync, D: Disk + Drop + Send>(
    rt: &R,
    bench: Bench<'_>,
    server: &Server<D>,
    plan: Plan,
    owner: &mut Client<'_>,
) -> Result<Duration, Fault> {
    let logs = logs(bench, plan)?;
    for log in &logs {
        check(&server.open(rt, owner, *log, OpenArgs::of(Kind::Halt)))?;
    }
    let start = Instant::now(bench.rt)?;
    let done = share(rt, bench, server, plan.way, logs.as_slice())?;
    flush(rt, server);
    let spent = start.elapsed(bench.rt)?;
    drop(done);
    let mut items = 0u64;
    for log in &logs {
        items = items.saturating_add(written(&server.info(rt, owner, *log)));
    }
    if items != bench.items {
        return Err(Fault::Items);
    }
    Ok(spent)
}

// The names of the logs.
fn logs(bench: Bench<'_>, plan: Plan) -> Result<Vec<Name>, Fault> {
    let mut logs = Vec::new(bench.rt.alloc());
    let count = if plan.apart { bench.threads } else { 1 };
    for number in 0..count {
        logs.push(name(bench, u64::from(number))?)?;
    }
    Ok(logs)
}

// Has threads log the items, beside a flusher. Returns what their clients did.
fn share<R: Threads + Wait + Clock + Sync, D: Disk + Drop + Send>(
    rt: &R,
    bench: Bench<'_>,
    server: &Server<D>,
    way: Way,
    logs: &[Name],
) -> Result<Vec<Done>, Fault> {
    thread::scope(thread::scope_env(), rt, |scope| {
        let _flusher = scope.spawn(move || {
            let mut gate = PeriodicGate::new(rt, server, Duration::from_millis(PERIOD));
            server.run_flusher(rt, &mut gate);
        });
        let done = write_all(rt, bench, server, way, logs);
        server.end_gates();
        done
    })
}

// Has each thread log its items, to the logs in turn.
fn write_all<R: Threads + Wait + Sync, D: Disk + Drop + Send>(
    rt: &R,
    bench: Bench<'_>,
    server: &Server<D>,
    way: Way,
    logs: &[Name],
) -> Result<Vec<Done>, Fault> {
    let alloc = bench.rt.alloc();
    thread::scope(thread::scope_env(), rt, |scope| {
        let mut writers = Vec::new(alloc);
        for number in 0..bench.threads {
            let part = part_of(bench, way, logs, number)?;
            let Ok(writer) = scope.spawn(move || write(rt, alloc, server, part)) else {
                return Err(Fault::Thread);
            };
            writers.push(writer)?;
        }
        join_all(rt, alloc, writers)
    })
}

// The part of the thread of this number: its share of the items, and one of the logs.
fn part_of(bench: Bench<'_>, way: Way, logs: &[Name], number: u32) -> Result<Part, Fault> {
    let log = logs
        .get(number as usize % logs.len().max(1))
        .ok_or(Fault::Thread)?;
    let items = bench.items.saturating_add(u64::from(number)) / u64::from(bench.threads.max(1));
    Ok(Part {
        way,
        log: *log,
        items,
    })
}

// What the clients of these threads did.
fn join_all<R: Threads>(
    rt: &R,
    alloc: Global,
    writers: Vec<JoinHandle<Option<Done>>>,
) -> Result<Vec<Done>, Fault> {
    let mut done = Vec::new(alloc);
    for writer in writers {
        done.push(writer.join(rt).ok_or(Fault::Thread)?)?;
    }
    Ok(done)
}

// Writes all that waits.
fn flush<R: Wait, D: Disk + Drop>(rt: &R, server: &Server<D>) {
    for _ in 0..u64::MAX {
        let Some(Turn::Drained(_)) = server.flush_turn(rt) else {
            return;
        };
    }
}
