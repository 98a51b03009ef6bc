//! A soak of the server: clients that send as fast as they can, owners that come and go, and blocks, for a time that is given.
#![tactic(auto)]

mod clients;
mod crew;
mod watcher;
mod work;

use anyhow::{Context, Result};
use crew::{Seen, Soaked, soak};
use dl_disk::{Disk, FolderDisk, MemoryDisk};
use dl_server::Server;
use dl_settle::settle;
use dl_trail::{Record, Recorded};
use std::alloc::Global;
use std::env;
use std::process::ExitCode;
use std::sync::{Mutex, Wait};
use std::thread::Threads;
use std::time::{Clock, Duration};

const HELP: &str =
    "Has twelve clients at work on one server: five send items, four log items and sync each, two come and go as owners, block the
log and log, and one counts the notices of rolls

Usage: dlog_soak [SECONDS [DIR]]

  DIR      The folder to write in, which has to be there and should be empty, in place of memory
  SECONDS  How long. Nothing is kept, and printed is what was done. If it is not given, it is a second at most, all that is done is
           kept and compared with the history of the hub, and printed is settled or not settled";

fn main(rt: HostRuntime) -> Result<ExitCode> {
    let words: Vec<String> = env::args(&rt)?.collect(rt.alloc())?;
    match words.as_slice() {
        [_] => kept(&rt, &rt, rt.alloc()),
        [_, word, folder @ ..] if folder.len() <= 1 => match word.parse::<u32>() {
            Ok(seconds) => over(&rt, &rt, seconds, folder.first()),
            Err(_) => misused(&rt),
        },
        _ => misused(&rt),
    }
}

// A soak of so many seconds, over a folder or else in memory.
fn over<T: Threads + Wait + Clock + Sync>(
    rt: &HostRuntime,
    handle: &T,
    seconds: u32,
    folder: Option<&String>,
) -> Result<ExitCode> {
    let Some(folder) = folder else {
        return long(rt, handle, seconds, MemoryDisk::new(rt.alloc()));
    };
    let disk = FolderDisk::open(rt.clone()?, folder.as_str()).ok();
    long(
        rt,
        handle,
        seconds,
        disk.context("the folder cannot be used")?,
    )
}

// Says how the program is used.
fn misused(rt: &HostRuntime) -> Result<ExitCode> {
    eprintln!(rt; "{HELP}")?;
    Ok(ExitCode::from(2))
}

// The status of a soak.
fn status(is_well: bool) -> ExitCode {
    if is_well {
        ExitCode::SUCCESS
    } else {
        ExitCode::FAILURE
    }
}

// A soak of a second, of which all is kept, and which is compared with the history.
fn kept<T: Threads + Wait + Clock + Sync>(
    rt: &HostRuntime,
    handle: &T,
    alloc: Global,
) -> Result<ExitCode> {
    let is_settled = settles(handle, alloc).context("a call failed")?;
    println!(rt; "{}", if is_settled { "settled" } else { "not settled" })?;
    Ok(status(is_settled))
}

// Whether the clients of a soak of a second had what the history has.
fn settles<T: Threads + Wait + Clock + Sync>(handle: &T, alloc: Global) -> Option<bool> {
    let dones = Mutex::new(Vec::new(alloc));
    let server = start(alloc, MemoryDisk::new(alloc), Record::Kept)?;
    let soaked = soak(handle, alloc, &server, Some(&dones), Duration::from_secs(1));
    let hub = server.stop();
    let is_settled = settle(&hub, dones.lock(handle).as_slice()).is_ok();
    soaked.map(|_| is_settled)
}

// A soak of so many seconds, of which nothing is kept.
fn long<T: Threads + Wait + Clock + Sync, D: Disk + Drop + Send>(
    rt: &HostRuntime,
    handle: &T,
    seconds: u32,
    disk: D,
) -> Result<ExitCode> {
    let server = start(rt.alloc(), disk, Record::Off).context("no server")?;
    let time = Duration::from_secs(u64::from(seconds));
    let soaked = soak(handle, rt.alloc(), &server, None, time).context("a call failed")?;
    let Soaked {
        sent,
        visits,
        synced,
        seen,
    } = soaked;
    let Seen {
        told,
        missed,
        rolls,
    } = seen;
    println!(rt;
        "{sent} items sent, {synced} synced, {visits} visits, {rolls} rolls, {told} told, {missed} missed"
    )?;
    Ok(status(told.checked_add(missed) == Some(rolls)))
}

// A server over a disk.
fn start<D: Disk + Drop>(alloc: Global, disk: D, record: Record) -> Option<Server<D>> {
    let hub = Recorded::new(alloc, disk, 16, record).ok()?;
    Some(Server::start(alloc, hub))
}
