// The measures with threads: each is taken several times, in turn with the others, and its best time is reported.
use crate::alone::{time_hub, time_recorded};
use crate::bench::Bench;
use crate::fault::Fault;
use crate::measures::{clear, disk};
use crate::threads::{Plan, time_server};
use crate::writer::Way;
use dl_disk::{Disk, MemoryDisk};
use dl_trail::Record;
use std::sync::Wait;
use std::thread::Threads;
use std::time::{Clock, Duration};

// How often each measure is taken where times are reported.
const ROUNDS: u32 = 5;

// What is logged to.
#[derive(Clone, Copy)]
enum Over {
    /// A hub, by one thread.
    Hub,
    /// A hub that keeps its history or not, by one thread.
    Recorded(Record),
    /// A server, by all threads.
    Server(Plan),
}

// A measure, and its best times so far.
#[derive(Clone, Copy)]
struct Best {
    over: Over,
    folder: Duration,
    memory: Duration,
}

impl Best {
    // A measure that was not taken yet.
    fn new(over: Over) -> Best {
        Best {
            over,
            folder: Duration::MAX,
            memory: Duration::MAX,
        }
    }

    // The same of threads that share a server.
    fn shared(way: Way, apart: bool, record: Record) -> Best {
        Best::new(Over::Server(Plan { way, apart, record }))
    }

    // Whether the words ask for it.
    fn is_wanted(&self, bench: Bench<'_>) -> bool {
        bench.wants(name_of(self.over))
    }

    // Takes the measure over the folder and over memory.
    fn take<R: Threads + Wait + Clock + Sync>(
        &mut self,
        rt: &R,
        bench: Bench<'_>,
    ) -> Result<(), Fault> {
        clear(bench)?;
        let folder = time(rt, bench, disk(bench)?, self.over)?;
        self.folder = self.folder.min(folder);
        let memory = time(rt, bench, MemoryDisk::new(bench.rt.alloc()), self.over)?;
        self.memory = self.memory.min(memory);
        Ok(())
    }
}

// The measures, in their order.
fn measures() -> [Best; 11] {
    let (one, apart) = (false, true);
    [
        Best::new(Over::Hub),
        Best::new(Over::Recorded(Record::Off)),
        Best::new(Over::Recorded(Record::Kept)),
        Best::shared(Way::Log, one, Record::Off),
        Best::shared(Way::Log, one, Record::Kept),
        Best::shared(Way::Log, apart, Record::Off),
        Best::shared(Way::Log, apart, Record::Kept),
        Best::shared(Way::Alog, one, Record::Off),
        Best::shared(Way::Alog, one, Record::Kept),
        Best::shared(Way::Alog, apart, Record::Off),
        Best::shared(Way::Alog, apart, Record::Kept),
    ]
}

// What the line of a measure is called.
fn name_of(over: Over) -> &'static str {
    match over {
        Over::Hub => "log_core",
        Over::Recorded(Record::Off) => "log_off",
        Over::Recorded(Record::Kept) => "log_kept",
        Over::Server(plan) => plan.name(),
    }
}

/// Whether one of these measures is called so.
pub fn is_of_rounds(name: &str) -> bool {
    measures().iter().any(|best| name_of(best.over) == name)
}

/// Takes the measures with threads, whose files in the folder are removed before and after.
pub fn measure_rounds<R: Threads + Wait + Clock + Sync>(
    rt: &R,
    bench: Bench<'_>,
) -> Result<(), Fault> {
    let mut bests = measures();
    let done = take_rounds(rt, bench, &mut bests);
    clear(bench)?;
    done?;
    for best in &bests {
        if best.is_wanted(bench) {
            bench.at("folder").items(name_of(best.over), best.folder)?;
        }
    }
    for best in &bests {
        if best.is_wanted(bench) {
            bench.at("memory").items(name_of(best.over), best.memory)?;
        }
    }
    Ok(())
}

// Takes the measures in turn, over and over.
fn take_rounds<R: Threads + Wait + Clock + Sync>(
    rt: &R,
    bench: Bench<'_>,
    bests: &mut [Best],
) -> Result<(), Fault> {
    let rounds = if bench.counts { 1 } else { ROUNDS };
    for _ in 0..rounds {
        take_round(rt, bench, bests)?;
    }
    Ok(())
}

fn take_round<R: Threads + Wait + Clock + Sync>(
    rt: &R,
    bench: Bench<'_>,
    bests: &mut [Best],
) -> Result<(), Fault> {
    for best in bests {
        if best.is_wanted(bench) {
            best.take(rt, bench)?;
        }
    }
    Ok(())
}

// How long it takes to log the items over this disk.
fn time<R: Threads + Wait + Clock + Sync, D: Disk + Drop + Send>(
    rt: &R,
    bench: Bench<'_>,
    disk: D,
    over: Over,
) -> Result<Duration, Fault> {
    match over {
        Over::Hub => time_hub(bench, disk),
        Over::Recorded(record) => time_recorded(bench, disk, record),
        Over::Server(plan) => time_server(rt, bench, disk, plan),
    }
}
