// The client that counts the notices of rolls.
use crate::clients::{is_done, log_args};
use dl_disk::Disk;
use dl_server::{Client, Server};
use dl_types::{Change, Extent, Name, Notice, Reply};
use std::sync::Wait;
use std::thread;
use std::time::{Clock, Duration};

// How many milliseconds pass between two looks.
const PAUSE: u64 = 1;

/// Opens the logs as an owner that is notified of their rolls.
pub fn open_all<R: Wait, D: Disk + Drop>(
    rt: &R,
    server: &Server<D>,
    client: &mut Client<'_>,
    logs: &[Name],
) -> Option<()> {
    for log in logs {
        is_done(server.open(rt, client, *log, log_args()))?;
    }
    Some(())
}

/// Counts the rolls that the client is notified of, for this time.
pub fn watch<R: Wait + Clock>(rt: &R, client: &mut Client<'_>, time: Duration) -> Option<u64> {
    let end = rt.monotonic().ok()?.checked_add(time)?;
    let mut told: u64 = 0;
    for _ in rt.forever() {
        told = told.saturating_add(count(client));
        if rt.monotonic().ok()? >= end {
            break;
        }
        thread::sleep(rt, Duration::from_millis(PAUSE));
    }
    Some(told)
}

/// Counts the rolls that the client was notified of and has not seen.
pub fn count(client: &mut Client<'_>) -> u64 {
    let mut told: u64 = 0;
    for _ in 0..u64::MAX {
        let Some(delivery) = client.notice() else {
            break;
        };
        if let Notice::Change(Change::Wrap(_)) = delivery.notice() {
            told = told.saturating_add(1);
        }
    }
    told
}

/// How often the logs rolled since they were opened.
pub fn rolls<R: Wait, D: Disk + Drop>(
    rt: &R,
    server: &Server<D>,
    client: &mut Client<'_>,
    logs: &[Name],
) -> Option<u64> {
    let mut rolls: u64 = 0;
    for log in logs {
        let Reply::Info(info) = server.info(rt, client, *log) else {
            return None;
        };
        match &info.as_info().writing.as_ref()?.extent {
            Extent::Wrap { overflows, .. } => rolls = rolls.saturating_add(overflows.since_open),
            Extent::Halt { .. } => return None,
        }
    }
    Some(rolls)
}
