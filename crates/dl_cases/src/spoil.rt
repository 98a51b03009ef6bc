// A case one of whose files is changed at each of its bytes, and cut at each of its places.
use crate::case::{Spoil, Step};
use crate::fault::{CaseFault, How};
use crate::memory::laid_files;
use crate::probe::{NO_LOG, PARTED, Probe, Seen};
use crate::script::{lines_of, tell};
use crate::trial::Trial;
use crate::words::opened_by;
use dl_disk::MemoryDisk;
use std::alloc::Global;

// What is spoilt: a file among those that the steps lay down, before a log is opened.
#[derive(Drop)]
struct Plan {
    alloc: Global,
    blocks: u32,
    spoil: Spoil,
    files: MemoryDisk,
    bytes: Vec<u8>,
    probe: Probe,
}

/// Opens the log of a case on each change of the files that it asks for, and reads it to its end.
pub fn run_spoils(alloc: Global, steps: &[Step<'_>], trial: &mut Trial) -> Result<(), CaseFault> {
    for step in steps {
        if let Step::Spoil(spoil) = step {
            let plan = plan_of(alloc, steps, *spoil, trial.blocks)?;
            cut_each(&plan, trial)?;
            change_each(&plan, trial)?;
        }
    }
    Ok(())
}

// What a case spoils.
fn plan_of(
    alloc: Global,
    steps: &[Step<'_>],
    spoil: Spoil,
    blocks: u32,
) -> Result<Plan, CaseFault> {
    let number = spoil.number;
    let lines = lines_of(alloc, steps)?;
    let line = lines.first().ok_or(CaseFault::BadOrder(number))?;
    let log = opened_by(*line).ok_or(CaseFault::BadOrder(number))?;
    let files = laid_files(alloc, steps)?;
    let bytes = files.get(spoil.file).ok_or(CaseFault::BadOrder(number))?;
    let bytes = Vec::from_slice(alloc, bytes)?;
    Ok(Plan {
        alloc,
        blocks,
        spoil,
        files,
        bytes,
        probe: Probe::new(alloc, line.text, log)?,
    })
}

// Cuts the file at each of its places.
fn cut_each(plan: &Plan, trial: &mut Trial) -> Result<(), CaseFault> {
    for length in 0..plan.bytes.len() {
        trial.how = How::Cut {
            file: plan.spoil.file,
            length,
        };
        let text = plan.bytes.as_slice().get(..length).unwrap_or(&[]);
        try_text(plan, text, &mut trial.told)?;
    }
    Ok(())
}

// Sets each byte of the file to each value.
fn change_each(plan: &Plan, trial: &mut Trial) -> Result<(), CaseFault> {
    for at in 0..plan.bytes.len() {
        change_one(plan, at, trial)?;
    }
    Ok(())
}

// Sets a byte of the file to each value.
fn change_one(plan: &Plan, at: usize, trial: &mut Trial) -> Result<(), CaseFault> {
    let mut text = plan.bytes.clone()?;
    for value in 0..=u8::MAX {
        trial.how = How::Changed {
            file: plan.spoil.file,
            at,
            value,
        };
        if let Some(byte) = text.get_mut(at) {
            *byte = value;
        }
        try_text(plan, text.as_slice(), &mut trial.told)?;
    }
    Ok(())
}

// Opens the log on files one of which has this text, and reads it.
fn try_text(plan: &Plan, text: &[u8], told: &mut String) -> Result<(), CaseFault> {
    let mut files = plan.files.copy()?;
    files.set(plan.spoil.file, Vec::from_slice(plan.alloc, text)?)?;
    let seen = plan.probe.look_at(plan.alloc, &files, plan.blocks)?;
    judge(plan, &seen, told)
}

// Judges what is answered on spoilt files. A log that is open is read to its end, or to bad bytes of an older file.
fn judge(plan: &Plan, seen: &Seen, told: &mut String) -> Result<(), CaseFault> {
    let (opened, items) = (seen.opened.as_str(), seen.items.as_str());
    let is_cut = seen.is_open() && items.starts_with("E23 ");
    if seen.is_read() || is_cut || is_refused(opened) && items == NO_LOG {
        return Ok(());
    }
    tell(told, "\n  opened: ", opened.as_bytes())?;
    tell(told, "\n  got:    ", items.as_bytes())?;
    Err(CaseFault::Differs(plan.spoil.number))
}

// Whether an open says that files are none of a log.
fn is_refused(answer: &str) -> bool {
    answer == PARTED || answer.starts_with("E10 ")
}
