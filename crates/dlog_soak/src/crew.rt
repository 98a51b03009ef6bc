// All clients of a soak, each in a thread of its own.
use crate::clients::{send, sync, visit};
use crate::watcher::{count, open_all, rolls, watch};
use crate::work::Work;
use dl_disk::Disk;
use dl_server::{Client, Done, PeriodicGate, Server};
use dl_types::Name;
use std::alloc::Global;
use std::sync::{Mutex, Wait};
use std::thread;
use std::thread::Threads;
use std::time::{Clock, Duration};

// How many clients send, and how many sync each item. Two more come and go, and one watches.
const SENDERS: usize = 5;

const SYNCERS: usize = 4;

// How many items a sender sends at most, and how often an owner comes and an item is synced at most, if all is kept.
const KEPT_ITEMS: u64 = 20_000;

const KEPT_VISITS: u64 = 2_000;

// How many milliseconds pass until all that waits is written again.
const PERIOD: u64 = 5;

/// What was done in a soak.
#[derive(Clone, Copy)]
pub struct Soaked {
    /// How many items were sent, and how many owners came and went.
    pub sent: u64,
    pub visits: u64,
    /// How many items were logged and synced.
    pub synced: u64,
    pub seen: Seen,
}

/// How many rolls the watcher was notified of, how many it missed since its ring was full, and how many there were.
#[derive(Clone, Copy)]
pub struct Seen {
    pub told: u64,
    pub missed: u64,
    pub rolls: u64,
}

/// Has clients work on a server for this time. Where `kept` is given, what each of them did is put there.
pub fn soak<R: Threads + Wait + Clock + Sync, D: Disk + Drop + Send>(
    rt: &R,
    alloc: Global,
    server: &Server<D>,
    kept: Option<&Mutex<Vec<Done>>>,
    time: Duration,
) -> Option<Soaked> {
    let work = Work::new(server, kept);
    let seen = watch_all(rt, alloc, &work, time)?;
    Some(Soaked {
        sent: work.sent(),
        visits: work.visits(),
        synced: work.synced(),
        seen,
    })
}

// Has the clients work while one watches.
fn watch_all<R: Threads + Wait + Clock + Sync, D: Disk + Drop + Send>(
    rt: &R,
    alloc: Global,
    work: &Work<'_, D>,
    time: Duration,
) -> Option<Seen> {
    let mut watcher = work.server.connect(rt).ok()?;
    let attended = attend(rt, alloc, work, &mut watcher, time);
    let done = work.server.exit(rt, watcher).ok()?;
    let missed = done.missed;
    work.keep(rt, done)?;
    let (told, rolls) = attended?;
    Some(Seen {
        told,
        missed,
        rolls,
    })
}

// Opens the logs, has the others work, and counts two kinds of rolls: those that it is notified of and those that
// there were.
fn attend<R: Threads + Wait + Clock + Sync, D: Disk + Drop + Send>(
    rt: &R,
    alloc: Global,
    work: &Work<'_, D>,
    watcher: &mut Client<'_>,
    time: Duration,
) -> Option<(u64, u64)> {
    let logs = [Name::parse(b"one")?, Name::parse(b"two")?];
    open_all(rt, work.server, watcher, &logs)?;
    let seen = share(rt, alloc, work, watcher, &logs, time)?;
    let told = seen.saturating_add(count(watcher));
    Some((told, rolls(rt, work.server, watcher, &logs)?))
}

// Starts a flusher and the others, and ends them. Returns how many rolls were reported meanwhile.
fn share<R: Threads + Wait + Clock + Sync, D: Disk + Drop + Send>(
    rt: &R,
    alloc: Global,
    work: &Work<'_, D>,
    watcher: &mut Client<'_>,
    logs: &[Name; 2],
    time: Duration,
) -> Option<u64> {
    thread::scope(thread::scope_env(), rt, |scope| {
        let flusher = scope.spawn(move || {
            let mut gate = PeriodicGate::new(rt, work.server, Duration::from_millis(PERIOD));
            work.server.run_flusher(rt, &mut gate);
        });
        work.note(flusher.ok().map(|_| ()));
        let seen = crowd(rt, alloc, work, watcher, logs, time);
        work.server.end_gates();
        seen
    })
}

// Has the senders, those that sync and the visitors work while the watcher watches. Returns how many rolls the
// watcher was notified of, if all could work.
fn crowd<R: Threads + Wait + Clock + Sync, D: Disk + Drop + Send>(
    rt: &R,
    alloc: Global,
    work: &Work<'_, D>,
    watcher: &mut Client<'_>,
    logs: &[Name; 2],
    time: Duration,
) -> Option<u64> {
    let (items, comings) = if work.is_kept() {
        (KEPT_ITEMS, KEPT_VISITS)
    } else {
        (u64::MAX, u64::MAX)
    };
    let seen = thread::scope(thread::scope_env(), rt, |scope| {
        for number in 0..SENDERS {
            let log = logs[number % 2];
            let sender = scope.spawn(move || work.note(send(rt, alloc, work, log, items)));
            work.note(sender.ok().map(|_| ()));
        }
        for number in 0..SYNCERS {
            let log = logs[number % 2];
            let syncer = scope.spawn(move || work.note(sync(rt, alloc, work, log, comings)));
            work.note(syncer.ok().map(|_| ()));
        }
        for log in logs {
            let log = *log;
            let visitor = scope.spawn(move || work.note(visit(rt, alloc, work, log, comings)));
            work.note(visitor.ok().map(|_| ()));
        }
        let seen = watch(rt, watcher, time);
        work.end();
        seen
    });
    if work.has_failed() { None } else { seen }
}
