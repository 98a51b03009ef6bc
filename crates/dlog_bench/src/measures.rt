// The measures, in their order.
use crate::bench::Bench;
use crate::client::Client;
use crate::fault::Fault;
use dl_disk::{Disk, FolderDisk, MemoryDisk};
use dl_hub::Hub;
use dl_types::{Base, FILES_LIMIT, FileName, Kind, Name, Refusal, Size};
use std::fs::{self, OpenOptions};
use std::io::{ErrorKind, Write};
use std::time::Duration;

// The most logs that are written in turn, and how many of them the first of the two measures writes.
const MOST_LOGS: u64 = 1_000;

const FEW_LOGS: usize = 100;

/// The greatest number of a log.
pub const LAST_LOG: u64 = MOST_LOGS + 2;

// A wrap log that is written one item a call, and one of many small files. Neither loses an item.
const WRAP: &str = "bench_wrap";

const WRAP_SIZE: Size = Size::Wrap {
    bytes: 1_000_000,
    files: FILES_LIMIT,
};

const SET: &str = "bench_set";

const SET_SIZE: Size = Size::Wrap {
    bytes: 100_000,
    files: FILES_LIMIT,
};

// What a stop leaves in the middle of writing an item: five bytes of the eight before it.
const TORN: [u8; 5] = [0, 0, 0, 100, 0xd1];

/// Takes all measures, over the folder, whose files are removed before and after, and then over memory.
pub fn measure_all(bench: Bench<'_>) -> Result<(), Fault> {
    clear(bench)?;
    let done = measure_folder(bench);
    clear(bench)?;
    done?;
    measure(bench.at("memory"), Ok(MemoryDisk::new(bench.rt.alloc())))
}

// How many logs there are: the first for one item a call, the second for many, and the others to be written in turn.
fn count_logs(bench: Bench<'_>) -> u64 {
    bench.items.min(MOST_LOGS).saturating_add(2)
}

/// The name of the log of this number.
pub fn name(bench: Bench<'_>, number: u64) -> Result<Name, Fault> {
    let text = format!(in bench.rt.alloc(); "bench_{number}")?;
    named(text.as_str())
}

fn named(text: &str) -> Result<Name, Fault> {
    Ok(Name::parse(text.as_bytes()).ok_or(Refusal::NoSuchLog)?)
}

// The names of all logs.
fn names(bench: Bench<'_>) -> Result<Vec<Name>, Fault> {
    let mut names = Vec::new(bench.rt.alloc());
    for number in 0..count_logs(bench) {
        names.push(name(bench, number)?)?;
    }
    Ok(names)
}

// The path of a log's file.
fn path(bench: Bench<'_>, number: u64) -> Result<String, Fault> {
    Ok(format!(in bench.rt.alloc(); "{}/bench_{number}.log", bench.folder)?)
}

/// Removes the files of the logs from the folder, and nothing else.
pub fn clear(bench: Bench<'_>) -> Result<(), Fault> {
    for number in 0..=LAST_LOG {
        let _there = remove(bench, path(bench, number)?.as_str())?;
    }
    clear_set(bench, WRAP)?;
    clear_set(bench, SET)
}

// Removes the files of a wrap log from the folder, which are numbered from 1 on.
fn clear_set(bench: Bench<'_>, log: &str) -> Result<(), Fault> {
    let index = format!(in bench.rt.alloc(); "{}/{log}.idx", bench.folder)?;
    let _there = remove(bench, index.as_str())?;
    for number in 1..=FILES_LIMIT {
        let file = format!(in bench.rt.alloc(); "{}/{log}.{number}", bench.folder)?;
        if !remove(bench, file.as_str())? {
            break;
        }
    }
    Ok(())
}

// Removes a file, and returns whether it was there.
fn remove(bench: Bench<'_>, path: &str) -> Result<bool, Fault> {
    match fs::remove_file(bench.rt, path) {
        Ok(()) => Ok(true),
        Err(error) if error.kind() == ErrorKind::NotFound => Ok(false),
        Err(error) => Err(error.into()),
    }
}

// The measures over the folder. The first hub is dropped with logs open, as at a stop.
fn measure_folder(bench: Bench<'_>) -> Result<(), Fault> {
    measure(bench, disk(bench))?;
    tear(bench)?;
    bench.wait("open_repair", reopen(bench, name(bench, 0)?, Kind::Halt)?)?;
    bench.wait("open_closed", reopen(bench, name(bench, 1)?, Kind::Halt)?)?;
    bench.wait("open_set", reopen(bench, named(SET)?, Kind::Wrap)?)
}

// Writes the front of a frame after the end of the first file, as a stop in the middle of a write leaves it.
fn tear(bench: Bench<'_>) -> Result<(), Fault> {
    let path = path(bench, 0)?;
    let mut options = OpenOptions::new();
    let mut file = options.append(true).open(bench.rt, path.as_str())?;
    Ok(file.write_all(&TORN)?)
}

/// The disk over the folder.
pub fn disk(bench: Bench<'_>) -> Result<FolderDisk<HostRuntime>, Fault> {
    FolderDisk::open(bench.rt.clone()?, bench.folder).map_err(|_| Fault::Folder)
}

// Opens a log of the folder with a new hub, and then reads it. Returns how long the open took.
fn reopen(bench: Bench<'_>, log: Name, kind: Kind) -> Result<Duration, Fault> {
    let hub = Hub::new(bench.rt.alloc(), disk(bench)?, bench.blocks)?;
    Client { bench, hub }.time_open(log, kind)
}

// The measures over any disk.
fn measure<D: Disk + Drop>(bench: Bench<'_>, disk: Result<D, Fault>) -> Result<(), Fault> {
    let hub = Hub::new(bench.rt.alloc(), disk?, bench.blocks)?;
    measure_calls(&mut Client { bench, hub })
}

// Logs to all logs and reads the first. The second, that of many items a call, is closed.
fn measure_calls<D: Disk + Drop>(client: &mut Client<'_, D>) -> Result<(), Fault> {
    let bench = client.bench;
    let logs = names(bench)?;
    let [one, many, turns @ ..] = logs.as_slice() else {
        return Err(Fault::Refused(Refusal::NoSuchLog));
    };
    client.open(*one, Kind::Halt, None)?;
    bench.items("append", client.append(&[*one], 1)?)?;
    client.open(*many, Kind::Halt, None)?;
    bench.items("append_64", client.append(&[*many], 64)?)?;
    let spent = client.read(*one)?;
    bench.items("read", spent)?;
    bench.bytes("read_bytes", spent)?;
    if !bench.counts {
        bench.memory()?;
    }
    measure_wraps(client)?;
    for log in turns {
        client.open(*log, Kind::Halt, None)?;
    }
    let few = &turns[..turns.len().min(FEW_LOGS)];
    bench.items("round_robin_100", client.append(few, 1)?)?;
    bench.items("round_robin", client.append(turns, 1)?)?;
    if bench.counts {
        show_files(client, logs.as_slice())?;
    }
    client.close(*many)
}

// Logs to both wrap logs, and reads the one of many files, which is then closed.
fn measure_wraps<D: Disk + Drop>(client: &mut Client<'_, D>) -> Result<(), Fault> {
    let bench = client.bench;
    let (wrap, set) = (named(WRAP)?, named(SET)?);
    client.open(wrap, Kind::Wrap, Some(WRAP_SIZE))?;
    bench.items("append_wrap", client.append(&[wrap], 1)?)?;
    client.open(set, Kind::Wrap, Some(SET_SIZE))?;
    bench.items("append_64_set", client.append(&[set], 64)?)?;
    bench.items("read_set", client.read(set)?)?;
    client.close(set)
}

// Prints how many files the logs have, each its own, and how large they are.
fn show_files<D: Disk + Drop>(client: &mut Client<'_, D>, logs: &[Name]) -> Result<(), Fault> {
    let mut bytes = 0u64;
    for log in logs {
        let text = client.hub.read_file(FileName::halt(Base::of(*log)));
        let text = text.map_err(|_| Fault::Folder)?.ok_or(Fault::Folder)?;
        bytes = bytes.saturating_add(text.len() as u64);
    }
    let bench = client.bench;
    bench.line("files", format_args!("{} files", logs.len()))?;
    bench.line("file_bytes", format_args!("{bytes} bytes"))
}
