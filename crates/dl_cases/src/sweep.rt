// A case with a device that fails at each of its calls in turn, whose logs keep what was logged.
mod logged;

use self::logged::{Answered, may_have};
use crate::case::{Failure, Line, Step, Sweep};
use crate::fault::{CaseFault, How};
use crate::memory::{MemoryHub, hub_over, laid_files};
use crate::order::may_be_repeated;
use crate::probe::{PARTED, Probe, Seen, items_of};
use crate::script::{answers_to, lines_of, script_of, tell};
use crate::trial::Trial;
use crate::words::{first_opened, is_call_on, is_fault, verb_of};
use dl_disk::{Fuse, MemoryDisk};
use std::alloc::{AllocError, Global};

// How many calls a run may have before its device fails.
const CALLS_LIMIT: u64 = 100_000;

// How many turns may be made until none is left to make.
const TURNS_LIMIT: u64 = 100_000;

// What is swept: the lines of a case on the files that its steps lay down.
#[derive(Drop)]
struct Plan<'a> {
    alloc: Global,
    blocks: u32,
    sweep: Sweep,
    lines: Vec<Line<'a>>,
    script: String,
    files: MemoryDisk,
    logs: Vec<Log<'a>>,
}

// A log that the lines open.
#[derive(Drop)]
struct Log<'a> {
    name: &'a str,
    // Its first open.
    probe: Probe,
    // What that open finds if no call fails.
    begun: Seen,
}

/// Runs a case with a device that fails at each of its calls in turn, for each base that its steps name.
pub fn run_sweeps(alloc: Global, steps: &[Step<'_>], trial: &mut Trial) -> Result<(), CaseFault> {
    for step in steps {
        if let Step::Sweep(sweep) = step {
            let plan = plan_of(alloc, steps, *sweep, trial.blocks)?;
            sweep_fuse(&plan, Fuse::One, trial)?;
            sweep_fuse(&plan, Fuse::All, trial)?;
        }
    }
    Ok(())
}

// What is swept at a base.
fn plan_of<'a>(
    alloc: Global,
    steps: &[Step<'a>],
    sweep: Sweep,
    blocks: u32,
) -> Result<Plan<'a>, CaseFault> {
    if !steps.iter().all(|step| may_be_repeated(*step)) {
        return Err(CaseFault::BadOrder(sweep.number));
    }
    let lines = lines_of(alloc, steps)?;
    let script = script_of(alloc, lines.as_slice())?;
    let files = laid_files(alloc, steps)?;
    let logs = logs_of(alloc, lines.as_slice(), &files, blocks)?;
    Ok(Plan {
        alloc,
        blocks,
        sweep,
        lines,
        script,
        files,
        logs,
    })
}

// The logs that lines open, each by its first open.
fn logs_of<'a>(
    alloc: Global,
    lines: &[Line<'a>],
    files: &MemoryDisk,
    blocks: u32,
) -> Result<Vec<Log<'a>>, CaseFault> {
    let mut logs = Vec::new(alloc);
    for (at, line) in lines.iter().enumerate() {
        if let Some(name) = first_opened(lines.get(..at).unwrap_or(&[]), *line) {
            let probe = Probe::new(alloc, line.text, name)?;
            let begun = probe.look_at(alloc, files, blocks)?;
            logs.push(Log { name, probe, begun })?;
        }
    }
    Ok(logs)
}

// Lets the device fail after no call, after one and so on, until no call is left to fail.
fn sweep_fuse(plan: &Plan<'_>, fuse: Fuse, trial: &mut Trial) -> Result<(), CaseFault> {
    let base = plan.sweep.base;
    for calls in 0..CALLS_LIMIT {
        trial.how = How::Failing { base, calls, fuse };
        let failure = Failure {
            base: Some(base),
            calls,
            fuse,
        };
        if run_failing(plan, failure, &mut trial.told)? <= calls {
            return if calls == 0 {
                Err(CaseFault::NoCall(plan.sweep.number))
            } else {
                Ok(())
            };
        }
    }
    Err(CaseFault::NoEnd(plan.sweep.number))
}

// Runs all lines with a device that fails so, and judges what each log has then. Returns how many calls the device counted.
fn run_failing(plan: &Plan<'_>, failure: Failure, told: &mut String) -> Result<u64, CaseFault> {
    let files = plan.files.copy()?;
    let mut hub = hub_over(plan.alloc, files, Some(failure), plan.blocks)?;
    run_on(plan, failure.fuse, &mut hub, told)
}

// Runs all lines on a hub, and judges what a stop would leave. Then mends the device, lets turns write what waits, and judges what each
// log has. Returns how many calls the device counted in the lines.
fn run_on(
    plan: &Plan<'_>,
    fuse: Fuse,
    hub: &mut MemoryHub,
    told: &mut String,
) -> Result<u64, CaseFault> {
    let answers = answers_to(plan.alloc, hub, plan.script.as_str())?;
    let answered = answered_in(plan, answers.as_str())?;
    let calls = hub.disk().passed();
    judge_files(plan, answered.as_slice(), hub.disk().inner(), told)?;
    hub.mend();
    turn_until_idle(plan, hub)?;
    judge_logs(plan, fuse, answered.as_slice(), hub, told)?;
    Ok(calls)
}

// Makes turns until nothing waits.
fn turn_until_idle(plan: &Plan<'_>, hub: &mut MemoryHub) -> Result<(), CaseFault> {
    for _ in 0..TURNS_LIMIT {
        let answer = answers_to(plan.alloc, hub, "flush")?;
        if answer.as_str() == "turn idle\n" {
            return Ok(());
        }
    }
    Err(CaseFault::NotIdle(plan.sweep.number))
}

// The lines, each with its answer.
fn answered_in<'a>(plan: &'a Plan<'_>, answers: &'a str) -> Result<Vec<Answered<'a>>, AllocError> {
    let mut answered = Vec::new(plan.alloc);
    for (line, answer) in plan.lines.iter().zip(answers.lines()) {
        answered.push(Answered {
            line: *line,
            answer,
        })?;
    }
    Ok(answered)
}

// Opens each log on a copy of the files that the lines left, and reads it to its end.
fn judge_files(
    plan: &Plan<'_>,
    answered: &[Answered<'_>],
    files: &MemoryDisk,
    told: &mut String,
) -> Result<(), CaseFault> {
    for log in &plan.logs {
        let seen = log.probe.look_at(plan.alloc, files, plan.blocks)?;
        if !seen.is_read() && !is_parted(log, answered, &seen) {
            return Err(refused(&seen, CaseFault::NotOpened, told)?);
        }
    }
    Ok(())
}

// Opens each log again, and judges what it has.
fn judge_logs(
    plan: &Plan<'_>,
    fuse: Fuse,
    answered: &[Answered<'_>],
    hub: &mut MemoryHub,
    told: &mut String,
) -> Result<(), CaseFault> {
    for log in &plan.logs {
        let seen = log.probe.look(plan.alloc, hub)?;
        if !is_parted(log, answered, &seen) && !is_kept(plan, log, fuse, answered, &seen)? {
            return Err(refused(&seen, CaseFault::Loses(plan.sweep.number), told)?);
        }
    }
    Ok(())
}

// Whether a log has what its lines logged.
fn is_kept(
    plan: &Plan<'_>,
    log: &Log<'_>,
    fuse: Fuse,
    answered: &[Answered<'_>],
    seen: &Seen,
) -> Result<bool, AllocError> {
    if !seen.is_read() {
        return Ok(false);
    }
    let begun = items_of(plan.alloc, log.begun.items.as_str())?;
    let has = items_of(plan.alloc, seen.items.as_str())?;
    may_have(
        plan.alloc,
        log.name,
        begun.as_slice(),
        answered,
        fuse,
        has.as_slice(),
    )
}

// Whether the files of a log are at two bases, since a move of them has failed.
fn is_parted(log: &Log<'_>, answered: &[Answered<'_>], seen: &Seen) -> bool {
    seen.opened.as_str() == PARTED && answered.iter().any(|done| parts(*done, log.name))
}

// Whether a line is a move of a log's files that met a fault.
fn parts(done: Answered<'_>, log: &str) -> bool {
    is_call_on(done.line, log) && verb_of(done.line.text) == Some("reopen") && is_fault(done.answer)
}

// Why a case fails, with what was seen that may not be.
fn refused(seen: &Seen, fault: CaseFault, told: &mut String) -> Result<CaseFault, CaseFault> {
    tell(told, "\n  opened: ", seen.opened.as_bytes())?;
    tell(told, "\n  got:    ", seen.items.as_bytes())?;
    Ok(fault)
}
