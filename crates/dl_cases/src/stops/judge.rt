// What a log may have in the files that a stop leaves.
use super::Plan;
use super::history::History;
use crate::case::Line;
use crate::fault::CaseFault;
use crate::probe::{PARTED, Probe, Seen, items_of};
use crate::script::tell;
use crate::words::{is_call_on, verb_of};
use dl_disk::MemoryDisk;
use std::alloc::{AllocError, Global};

/// Opens each log on the files that a stop within a line left, and judges what it has.
pub fn judge_logs(
    plan: &Plan<'_>,
    at: usize,
    files: &MemoryDisk,
    told: &mut String,
) -> Result<(), CaseFault> {
    for log in &plan.logs {
        if log.opened <= at {
            judge_log(plan, log, at, files, told)?;
        }
    }
    Ok(())
}

// Opens a log on the files that a stop within a line left, and the log that they are moved to if the line moves them.
fn judge_log(
    plan: &Plan<'_>,
    log: &History,
    at: usize,
    files: &MemoryDisk,
    told: &mut String,
) -> Result<(), CaseFault> {
    let target = plan.lines.get(at).and_then(|line| target_of(*line, log));
    let seen = log.probe.look_at(plan.alloc, files, plan.blocks)?;
    judge_seen(plan, log, at, &seen, target.is_some(), told)?;
    match target {
        None => Ok(()),
        Some(target) => judge_target(plan, log, at, files, target, told),
    }
}

// Judges what a log has that is opened again. Where its files were being moved they may lie at two bases.
fn judge_seen(
    plan: &Plan<'_>,
    log: &History,
    at: usize,
    seen: &Seen,
    is_moved: bool,
    told: &mut String,
) -> Result<(), CaseFault> {
    if is_moved && seen.opened.as_str() == PARTED {
        return Ok(());
    }
    let has = items_of(plan.alloc, seen.items.as_str())?;
    if seen.is_read() && log.may_have(at, has.as_slice()) {
        return Ok(());
    }
    refuse(plan, at, seen, told)
}

// Opens what a log was being moved to, and judges it: all that the log had, with nothing to repair, or nothing.
fn judge_target(
    plan: &Plan<'_>,
    log: &History,
    at: usize,
    files: &MemoryDisk,
    target: &str,
    told: &mut String,
) -> Result<(), CaseFault> {
    let probe = target_probe(plan.alloc, log, target)?;
    let seen = probe.look_at(plan.alloc, files, plan.blocks)?;
    let has = items_of(plan.alloc, seen.items.as_str())?;
    if seen.is_whole() && (has.is_empty() || log.had(at, has.as_slice())) {
        return Ok(());
    }
    refuse(plan, at, &seen, told)
}

// The probe of the log that a log is moved to: its first open, of that log, which is not to be repaired.
fn target_probe(alloc: Global, log: &History, target: &str) -> Result<Probe, AllocError> {
    let mut open = format!(in alloc; "1 open {target}")?;
    for word in log.open.as_str().split(' ').skip(3) {
        open.push(' ')?;
        open.push_str(word)?;
    }
    open.push_str(" repair=no")?;
    Probe::new(alloc, open.as_str(), target)
}

// Says what an open answered and what its log had, which may not be after a stop within a line.
fn refuse(plan: &Plan<'_>, at: usize, seen: &Seen, told: &mut String) -> Result<(), CaseFault> {
    tell(told, "\n  opened: ", seen.opened.as_bytes())?;
    tell(told, "\n  got:    ", seen.items.as_bytes())?;
    let line = plan.lines.get(at).map_or(plan.number, |line| line.number);
    Err(CaseFault::StopLoses(line))
}

// The base that a line moves the files of a log to, if it does.
fn target_of<'a>(line: Line<'a>, log: &History) -> Option<&'a str> {
    if !is_call_on(line, log.name.as_str()) || verb_of(line.text) != Some("reopen") {
        return None;
    }
    line.text.split(' ').skip(3).next()
}
