// After how many calls a device fails that fails after some lines.
use crate::case::{Failure, LateFailure, Step};
use crate::fault::CaseFault;
use crate::memory::{MemoryHub, hub_over, laid};
use crate::script::run_lines;
use crate::trial::Trial;
use dl_disk::MemoryDisk;
use std::alloc::{AllocError, Global};

/// The steps of a hub that begins on these files, with each failure by its number of calls.
pub fn counted<'a>(
    alloc: Global,
    files: &MemoryDisk,
    life: &[Step<'a>],
    trial: &mut Trial,
) -> Result<Vec<Step<'a>>, CaseFault> {
    let mut steps = Vec::new(alloc);
    for step in life {
        steps.push(counted_step(alloc, files, life, *step, trial)?)?;
    }
    Ok(steps)
}

// A step of a hub, with its number of calls if it is a failure.
fn counted_step<'a>(
    alloc: Global,
    files: &MemoryDisk,
    life: &[Step<'_>],
    step: Step<'a>,
    trial: &mut Trial,
) -> Result<Step<'a>, CaseFault> {
    match step {
        Step::FailAfter(late) => {
            let calls = calls_before(alloc, files, life, late, trial)?;
            Ok(Step::Fail(Failure {
                base: late.base,
                calls,
                fuse: late.fuse,
            }))
        }
        other => Ok(other),
    }
}

// How many calls pass before a device is to fail: those of the first lines of its hub, if none of them fails.
fn calls_before(
    alloc: Global,
    files: &MemoryDisk,
    life: &[Step<'_>],
    late: LateFailure,
    trial: &mut Trial,
) -> Result<u64, CaseFault> {
    let first = first_lines(alloc, life, late.lines)?;
    if first.len() < late.lines {
        return Err(CaseFault::BadOrder(late.number));
    }
    let none = Failure {
        base: late.base,
        calls: u64::MAX,
        fuse: late.fuse,
    };
    let mut hub = hub_over(alloc, laid(alloc, files, life)?, Some(none), trial.blocks)?;
    calls_of(alloc, &mut hub, first.as_slice(), trial)
}

// How many calls lines make on a hub.
fn calls_of(
    alloc: Global,
    hub: &mut MemoryHub,
    lines: &[Step<'_>],
    trial: &mut Trial,
) -> Result<u64, CaseFault> {
    run_lines(alloc, hub, lines, &mut trial.told)?;
    Ok(hub.disk().passed())
}

// The first lines of a hub, at most so many.
fn first_lines<'a>(
    alloc: Global,
    life: &[Step<'a>],
    count: usize,
) -> Result<Vec<Step<'a>>, AllocError> {
    life.iter()
        .filter(|step| matches!(step, Step::Line(_)))
        .take(count)
        .copied()
        .collect(alloc)
}
