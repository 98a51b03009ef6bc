// A case that is stopped at each call of the device in turn.
mod history;
mod judge;

use self::history::History;
use self::judge::judge_logs;
use crate::case::{Failure, Line, Step};
use crate::fault::{CaseFault, How};
use crate::memory::{MemoryHub, hub_over, laid_files};
use crate::order::may_be_repeated;
use crate::script::{answers_to, lines_of, script_of};
use crate::trial::Trial;
use crate::words::first_opened;
use dl_disk::{Fuse, MemoryDisk};
use std::alloc::Global;

// How many calls a run may have before it is stopped.
const CALLS_LIMIT: u64 = 100_000;

/// What is stopped: the lines of a case on the files that its steps lay down.
#[derive(Drop)]
pub struct Plan<'a> {
    pub alloc: Global,
    pub blocks: u32,
    /// The number of the line that asks for the stops.
    pub number: u64,
    pub lines: Vec<Line<'a>>,
    pub script: String,
    pub files: MemoryDisk,
    /// How many calls of the device are made up to the end of each line.
    pub calls: Vec<u64>,
    pub logs: Vec<History>,
}

/// Runs a case, if it asks for that, and stops the process at each call of the device in turn. Opens each log again
/// on the files that are left.
pub fn run_stops(alloc: Global, steps: &[Step<'_>], trial: &mut Trial) -> Result<(), CaseFault> {
    let asked = steps.iter().find_map(|step| match step {
        Step::Stops(number) => Some(*number),
        _ => None,
    });
    let Some(number) = asked else {
        return Ok(());
    };
    if !steps.iter().all(|step| may_be_repeated(*step)) {
        return Err(CaseFault::BadOrder(number));
    }
    let plan = plan_of(alloc, steps, number, trial.blocks)?;
    stop_each(&plan, trial)
}

// What a case stops.
fn plan_of<'a>(
    alloc: Global,
    steps: &[Step<'a>],
    number: u64,
    blocks: u32,
) -> Result<Plan<'a>, CaseFault> {
    let lines = lines_of(alloc, steps)?;
    let script = script_of(alloc, lines.as_slice())?;
    let files = laid_files(alloc, steps)?;
    let calls = calls_of(alloc, blocks, &files, lines.as_slice())?;
    let logs = histories_of(alloc, blocks, lines.as_slice(), &files, number)?;
    Ok(Plan {
        alloc,
        blocks,
        number,
        lines,
        script,
        files,
        calls,
        logs,
    })
}

// How many calls of the device are made up to the end of each line, if none of them is stopped.
fn calls_of(
    alloc: Global,
    blocks: u32,
    files: &MemoryDisk,
    lines: &[Line<'_>],
) -> Result<Vec<u64>, CaseFault> {
    let mut hub = hub_over(alloc, files.copy()?, None, blocks)?;
    count_calls(alloc, &mut hub, lines)
}

// Runs lines on a hub, and counts the calls of its device up to the end of each.
fn count_calls(
    alloc: Global,
    hub: &mut MemoryHub,
    lines: &[Line<'_>],
) -> Result<Vec<u64>, CaseFault> {
    let mut counts = Vec::new(alloc);
    for line in lines {
        answers_to(alloc, hub, line.text)?;
        counts.push(hub.disk().passed())?;
    }
    Ok(counts)
}

// What each log that the lines open holds after each of them.
fn histories_of(
    alloc: Global,
    blocks: u32,
    lines: &[Line<'_>],
    files: &MemoryDisk,
    number: u64,
) -> Result<Vec<History>, CaseFault> {
    let mut logs = Vec::new(alloc);
    for (at, line) in lines.iter().enumerate() {
        if let Some(log) = first_opened(lines.get(..at).unwrap_or(&[]), *line) {
            let mut history = History::new(alloc, log, line.text, at)?;
            history.run(alloc, blocks, files, lines, number)?;
            logs.push(history)?;
        }
    }
    Ok(logs)
}

// Stops the process before its first call, before the second and so on, until no call is left.
fn stop_each(plan: &Plan<'_>, trial: &mut Trial) -> Result<(), CaseFault> {
    for calls in 0..CALLS_LIMIT {
        trial.how = How::Stopped { calls };
        let Some(at) = plan.calls.iter().position(|made| *made > calls) else {
            return Ok(());
        };
        let files = files_of_stop(plan, calls)?;
        judge_logs(plan, at, &files, &mut trial.told)?;
    }
    Err(CaseFault::NoEnd(plan.number))
}

// The files that are left if no call is made after so many.
fn files_of_stop(plan: &Plan<'_>, calls: u64) -> Result<MemoryDisk, CaseFault> {
    let stop = Failure {
        base: None,
        calls,
        fuse: Fuse::All,
    };
    let mut hub = hub_over(plan.alloc, plan.files.copy()?, Some(stop), plan.blocks)?;
    files_after(plan, &mut hub)
}

// The files that a hub leaves on which the lines are run.
fn files_after(plan: &Plan<'_>, hub: &mut MemoryHub) -> Result<MemoryDisk, CaseFault> {
    answers_to(plan.alloc, hub, plan.script.as_str())?;
    Ok(hub.disk().inner().copy()?)
}
