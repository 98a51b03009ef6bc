// The measure of readers: threads that each read chunks of one log at random places.
use crate::bench::{Bench, ITEM_BYTES};
use crate::client::{Client, check};
use crate::fault::Fault;
use crate::measures::{clear, disk, name};
use crate::waits::Waits;
use dl_disk::Disk;
use dl_hub::Hub;
use dl_server::Server;
use dl_trail::{Record, Recorded};
use dl_types::{Continuation, Kind, Name, OpenArgs, Place, Reply};
use std::sync::Wait;
use std::thread;
use std::thread::{JoinHandle, Threads};
use std::time::{Clock, Duration, Instant};

/// What the line of the measure is called.
pub const CHUNKS: &str = "threads_chunk";

// How long each thread reads, and how many chunks at most.
const SECONDS: u64 = 1;

const MOST_CHUNKS: u64 = 10_000;

// The most items that a chunk is asked for.
const CHUNK_ITEMS: u64 = 10;

/// Takes the measure over the folder, whose files are removed before and after.
pub fn measure_chunks<R: Threads + Wait + Clock + Sync>(
    rt: &R,
    bench: Bench<'_>,
) -> Result<(), Fault> {
    if !bench.wants(CHUNKS) {
        return Ok(());
    }
    clear(bench)?;
    let done = time(rt, bench);
    clear(bench)?;
    let waits = done?;
    if bench.counts {
        return bench.line(CHUNKS, format_args!("{} items", bench.items));
    }
    bench.waits("", CHUNKS, waits)
}

// Fills a log, and has the threads read it.
fn time<R: Threads + Wait + Clock + Sync>(rt: &R, bench: Bench<'_>) -> Result<Waits, Fault> {
    let log = name(bench, 0)?;
    fill(bench, log)?;
    let hub = Recorded::new(bench.rt.alloc(), disk(bench)?, bench.blocks, Record::Off)?;
    let server = Server::start(bench.rt.alloc(), hub);
    let waits = share(rt, bench, &server, log);
    drop(server.stop());
    waits
}

// Logs the items and closes the log.
fn fill(bench: Bench<'_>, log: Name) -> Result<(), Fault> {
    let hub = Hub::new(bench.rt.alloc(), disk(bench)?, bench.blocks)?;
    fill_log(&mut Client { bench, hub }, log)
}

fn fill_log<D: Disk + Drop>(client: &mut Client<'_, D>, log: Name) -> Result<(), Fault> {
    client.open(log, Kind::Halt, None)?;
    client.append(&[log], 64)?;
    client.close(log)
}

// Has the log opened by a client that keeps it open meanwhile.
fn share<R: Threads + Wait + Clock + Sync, D: Disk + Drop + Send>(
    rt: &R,
    bench: Bench<'_>,
    server: &Server<D>,
    log: Name,
) -> Result<Waits, Fault> {
    let mut owner = server.connect(rt)?;
    let opened = check(&server.open(rt, &mut owner, log, OpenArgs::of(Kind::Halt)));
    let waits = opened.and_then(|_| read_all(rt, bench, server, log));
    let _done = server.exit(rt, owner);
    waits
}

// Has each thread read.
fn read_all<R: Threads + Wait + Clock + Sync, D: Disk + Drop + Send>(
    rt: &R,
    bench: Bench<'_>,
    server: &Server<D>,
    log: Name,
) -> Result<Waits, Fault> {
    thread::scope(thread::scope_env(), rt, |scope| {
        let mut readers = Vec::new(bench.rt.alloc());
        for number in 0..bench.threads {
            let reader = Reader {
                log,
                items: bench.items,
                seed: u64::from(number),
            };
            let Ok(thread) = scope.spawn(move || reader.read(rt, server)) else {
                return Err(Fault::Thread);
            };
            readers.push(thread)?;
        }
        join_all(rt, readers)
    })
}

// How long the chunks of these threads took.
fn join_all<R: Threads>(rt: &R, readers: Vec<JoinHandle<Option<Waits>>>) -> Result<Waits, Fault> {
    let mut waits = Waits::none();
    for reader in readers {
        waits = waits.and(reader.join(rt).ok_or(Fault::Thread)?);
    }
    Ok(waits)
}

// What a thread reads: a log of so many items, at places that follow from a number.
#[derive(Clone, Copy)]
struct Reader {
    log: Name,
    items: u64,
    seed: u64,
}

impl Reader {
    // Opens the log and reads. Returns how long the chunks took, if they had the items of their places.
    fn read<R: Wait + Clock, D: Disk + Drop>(self, rt: &R, server: &Server<D>) -> Option<Waits> {
        let mut client = server.connect(rt).ok()?;
        let waits = self.read_chunks(rt, server, &mut client);
        let left = server.exit(rt, client);
        left.ok()?;
        waits.ok()
    }

    fn read_chunks<R: Wait + Clock, D: Disk + Drop>(
        self,
        rt: &R,
        server: &Server<D>,
        client: &mut dl_server::Client<'_>,
    ) -> Result<Waits, Fault> {
        check(&server.open(rt, client, self.log, OpenArgs::of(Kind::Halt)))?;
        let first = server.chunk(rt, client, self.log, Place::Start, 1);
        let Reply::Items { next, .. } = first else {
            return Err(Fault::Items);
        };
        let mut random = self.seed;
        let mut waits = Waits::none();
        for _ in 0..MOST_CHUNKS {
            random = after(random);
            let passed = (random >> 16) % self.items.max(1);
            let start = Instant::now(rt)?;
            let place = Place::At(Continuation { passed, ..next });
            let chunk = server.chunk(rt, client, self.log, place, CHUNK_ITEMS);
            waits = waits.and_one(start.elapsed(rt)?);
            check_first(&chunk, passed)?;
            if waits.total >= Duration::from_secs(SECONDS) {
                break;
            }
        }
        Ok(waits)
    }
}

// The number after this one in a row of numbers that looks random.
fn after(number: u64) -> u64 {
    number
        .wrapping_mul(6_364_136_223_846_793_005)
        .wrapping_add(1_442_695_040_888_963_407)
}

// Tests that the first item of a chunk has this number.
fn check_first(chunk: &Reply, number: u64) -> Result<(), Fault> {
    let Reply::Items { items, .. } = chunk else {
        return Err(Fault::Items);
    };
    let first = items.as_slice().first().ok_or(Fault::Items)?;
    if first.as_bytes().len() == ITEM_BYTES && first.as_bytes().starts_with(&number.to_be_bytes()) {
        Ok(())
    } else {
        Err(Fault::Items)
    }
}
