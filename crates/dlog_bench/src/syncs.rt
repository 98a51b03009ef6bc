// The measures of durable writes: threads that each log an item and sync, again and again.
use crate::bench::Bench;
use crate::beside::log_beside;
use crate::fault::Fault;
use crate::measures::{LAST_LOG, clear, disk, name};
use crate::threads::{Plan, own};
use crate::waits::Waits;
use crate::writer::Way;
use dl_disk::Disk;
use dl_server::Server;
use dl_trail::{Record, Recorded};
use std::sync::Wait;
use std::sync::atomic::{AtomicBool, Ordering};
use std::thread;
use std::thread::Threads;
use std::time::{Clock, Duration};

// The most items that a thread logs: a device may take milliseconds for each.
const MOST_ITEMS: u64 = 1_000;

// All threads to one log, and each to its own.
const PLANS: [Plan; 2] = [
    Plan {
        way: Way::Sync,
        apart: false,
        record: Record::Off,
    },
    Plan {
        way: Way::Sync,
        apart: true,
        record: Record::Off,
    },
];

/// Whether one of these measures is called so.
pub fn is_of_syncs(name: &str) -> bool {
    PLANS.iter().any(|plan| plan.name() == name)
}

/// Takes the measures, whose files in the folder are removed before and after.
pub fn measure_syncs<R: Threads + Wait + Clock + Sync>(
    rt: &R,
    bench: Bench<'_>,
) -> Result<(), Fault> {
    let most = MOST_ITEMS.saturating_mul(u64::from(bench.threads));
    let few = Bench {
        items: bench.items.min(most),
        ..bench
    };
    for plan in PLANS {
        if bench.wants(plan.name()) {
            measure(rt, few, plan)?;
        }
    }
    Ok(())
}

fn measure<R: Threads + Wait + Clock + Sync>(
    rt: &R,
    bench: Bench<'_>,
    plan: Plan,
) -> Result<(), Fault> {
    clear(bench)?;
    let done = time(rt, bench, disk(bench)?, plan);
    clear(bench)?;
    let (spent, waits) = done?;
    bench.items(plan.name(), spent)?;
    if bench.counts {
        return Ok(());
    }
    bench.waits("beside_", plan.name(), waits)
}

// How long it takes to log the items and to sync each, and how long another client waits meanwhile.
fn time<R: Threads + Wait + Clock + Sync, D: Disk + Drop + Send>(
    rt: &R,
    bench: Bench<'_>,
    disk: D,
    plan: Plan,
) -> Result<(Duration, Waits), Fault> {
    let hub = Recorded::new(bench.rt.alloc(), disk, bench.blocks, plan.record)?;
    let server = Server::start(bench.rt.alloc(), hub);
    let done = share(rt, bench, &server, plan);
    drop(server.stop());
    done
}

// Has one client log beside the others.
fn share<R: Threads + Wait + Clock + Sync, D: Disk + Drop + Send>(
    rt: &R,
    bench: Bench<'_>,
    server: &Server<D>,
    plan: Plan,
) -> Result<(Duration, Waits), Fault> {
    let alloc = bench.rt.alloc();
    let log = name(bench, LAST_LOG)?;
    let has_ended = AtomicBool::new(false);
    thread::scope(thread::scope_env(), rt, |scope| {
        let ended = &has_ended;
        let Ok(beside) = scope.spawn(move || log_beside(rt, alloc, server, log, ended)) else {
            return Err(Fault::Thread);
        };
        let spent = own(rt, bench, server, plan);
        has_ended.store(true, Ordering::SeqCst);
        let waits = beside.join(rt).ok_or(Fault::Thread)?;
        Ok((spent?, waits))
    })
}
