// A case over the disk in memory, under a fuse.
use crate::alone::{alone, private_logs};
use crate::answer::bytes_of;
use crate::case::{Failure, Step, Tool};
use crate::fault::{CaseFault, How};
use crate::fuse::counted;
use crate::job::Job;
use crate::script::run_lines;
use crate::trial::Trial;
use dl_disk::{Fuse, FuseDisk, MemoryDisk};
use dl_hub::Hub;
use dl_tool::LogFiles;
use std::alloc::Global;
use std::mem;

/// A hub over the disk in memory, under a fuse.
pub type MemoryHub = Hub<FuseDisk<MemoryDisk>>;

/// Runs a case in memory, and each log of each hub alone on the files that the hub began with.
pub fn run_in_memory(
    alloc: Global,
    steps: &[Step<'_>],
    trial: &mut Trial,
) -> Result<(), CaseFault> {
    let mut files = MemoryDisk::new(alloc);
    let mut left = MemoryDisk::new(alloc);
    run_lives_in_memory(alloc, steps, &mut files, &mut left, trial)
}

// Runs the hubs of a case one after another, the first on `files`, and each on what the one before left. `left` is room for that.
fn run_lives_in_memory(
    alloc: Global,
    steps: &[Step<'_>],
    files: &mut MemoryDisk,
    left: &mut MemoryDisk,
    trial: &mut Trial,
) -> Result<(), CaseFault> {
    trial.logs = 0;
    for life in steps.split(|step| matches!(step, Step::Again)) {
        trial.how = How::Memory;
        let life = counted(alloc, files, life, trial)?;
        live_in_memory(alloc, files, life.as_slice(), left, trial)?;
        run_each_alone(alloc, files, life.as_slice(), trial)?;
        mem::swap(files, left);
    }
    Ok(())
}

// Runs each log of a hub alone.
fn run_each_alone(
    alloc: Global,
    files: &MemoryDisk,
    life: &[Step<'_>],
    trial: &mut Trial,
) -> Result<(), CaseFault> {
    let logs = private_logs(alloc, life)?;
    for log in &logs {
        trial.how = How::alone(log);
        trial.logs = trial.logs.saturating_add(1);
        run_alone(alloc, files, life, log, trial)?;
    }
    Ok(())
}

// Runs a log of a hub alone.
fn run_alone(
    alloc: Global,
    files: &MemoryDisk,
    life: &[Step<'_>],
    log: &str,
    trial: &mut Trial,
) -> Result<(), CaseFault> {
    let own = alone(alloc, life, log)?;
    let mut left = MemoryDisk::new(alloc);
    live_in_memory(alloc, files, own.as_slice(), &mut left, trial)
}

/// Runs a hub on a copy of these files. Replaces `left` with the files that the hub and the commands after it leave.
pub fn live_in_memory(
    alloc: Global,
    files: &MemoryDisk,
    life: &[Step<'_>],
    left: &mut MemoryDisk,
    trial: &mut Trial,
) -> Result<(), CaseFault> {
    run_in_memory_hub(alloc, files, life, left, trial)?;
    use_in_memory(alloc, life, left, trial)
}

// Runs the lines of a hub on a copy of these files, and puts the files that it leaves in the place of `left`.
fn run_in_memory_hub(
    alloc: Global,
    files: &MemoryDisk,
    life: &[Step<'_>],
    left: &mut MemoryDisk,
    trial: &mut Trial,
) -> Result<(), CaseFault> {
    let mut hub = memory_hub(alloc, files, life, trial.blocks)?;
    run_scripts(alloc, &mut hub, life, left, trial)
}

// A hub on a copy of these files and of those that the steps lay down.
fn memory_hub(
    alloc: Global,
    files: &MemoryDisk,
    life: &[Step<'_>],
    blocks: u32,
) -> Result<MemoryHub, CaseFault> {
    Hub::new(alloc, disk_under(alloc, files, life)?, blocks).map_err(CaseFault::Hub)
}

/// A disk with a copy of these files and of those that the steps lay down. It fails as the steps say.
pub fn disk_under(
    alloc: Global,
    files: &MemoryDisk,
    life: &[Step<'_>],
) -> Result<FuseDisk<MemoryDisk>, CaseFault> {
    let files = laid(alloc, files, life)?;
    Ok(fused(alloc, files, failure_in(life)))
}

/// A hub on these files whose device fails so.
pub fn hub_over(
    alloc: Global,
    files: MemoryDisk,
    failure: Option<Failure>,
    blocks: u32,
) -> Result<MemoryHub, CaseFault> {
    Hub::new(alloc, fused(alloc, files, failure), blocks).map_err(CaseFault::Hub)
}

// Uses the commands among the steps of a hub on the files that it left, the first over a device that fails as the steps say.
fn use_in_memory(
    alloc: Global,
    life: &[Step<'_>],
    files: &mut MemoryDisk,
    trial: &mut Trial,
) -> Result<(), CaseFault> {
    let mut failure = failure_in(life);
    for (at, step) in life.iter().enumerate() {
        if let Step::Tool(tool) = step {
            let after = life.get(at + 1..).unwrap_or(&[]);
            use_one_in_memory(alloc, files, failure, *tool, after, trial)?;
            failure = None;
        }
    }
    Ok(())
}

// Uses a command that is followed by these steps on files, and leaves in their place those that it leaves.
fn use_one_in_memory(
    alloc: Global,
    files: &mut MemoryDisk,
    failure: Option<Failure>,
    tool: Tool<'_>,
    after: &[Step<'_>],
    trial: &mut Trial,
) -> Result<(), CaseFault> {
    let mut job = Job::new(alloc, tool, after)?;
    do_in_memory(alloc, files, failure, trial.blocks, &mut job)?;
    job.compare(alloc, after, &mut trial.told)
}

// Does a job on files.
fn do_in_memory(
    alloc: Global,
    files: &mut MemoryDisk,
    failure: Option<Failure>,
    blocks: u32,
    job: &mut Job<'_>,
) -> Result<(), CaseFault> {
    match tell_in_memory(alloc, files, failure, job)? {
        Some(log) => work_in_memory(alloc, files, failure, blocks, log, job),
        None => Ok(()),
    }
}

// Reports on files, or returns the log that the job is on.
fn tell_in_memory(
    alloc: Global,
    files: &MemoryDisk,
    failure: Option<Failure>,
    job: &mut Job<'_>,
) -> Result<Option<LogFiles>, CaseFault> {
    let mut disk = fused(alloc, files.copy()?, failure);
    job.tell(alloc, &mut disk)
}

// Does a job on a log of these files, and leaves in their place those that it leaves.
fn work_in_memory(
    alloc: Global,
    files: &mut MemoryDisk,
    failure: Option<Failure>,
    blocks: u32,
    log: LogFiles,
    job: &mut Job<'_>,
) -> Result<(), CaseFault> {
    let mut hub = hub_over(alloc, files.copy()?, failure, blocks)?;
    work_on_hub(alloc, &mut hub, log, job, files)
}

// Does a job on a log of a hub, and puts the files that the hub leaves in the place of `left`.
fn work_on_hub(
    alloc: Global,
    hub: &mut MemoryHub,
    log: LogFiles,
    job: &mut Job<'_>,
    left: &mut MemoryDisk,
) -> Result<(), CaseFault> {
    job.work(alloc, hub, log)?;
    *left = hub.disk().inner().copy()?;
    Ok(())
}

/// A copy of these files, and with it those that the steps lay down.
pub fn laid(alloc: Global, files: &MemoryDisk, life: &[Step<'_>]) -> Result<MemoryDisk, CaseFault> {
    let mut own = files.copy()?;
    lay_in_memory(alloc, &mut own, life)?;
    Ok(own)
}

/// The files that the steps lay down.
pub fn laid_files(alloc: Global, steps: &[Step<'_>]) -> Result<MemoryDisk, CaseFault> {
    laid(alloc, &MemoryDisk::new(alloc), steps)
}

// Lays down the files of a hub.
fn lay_in_memory(
    alloc: Global,
    files: &mut MemoryDisk,
    life: &[Step<'_>],
) -> Result<(), CaseFault> {
    for step in life {
        if let Step::File(file) = step {
            files.set(file.name, bytes_of(alloc, file.digits)?)?;
        }
    }
    Ok(())
}

// How the steps say that the device fails, if they do.
fn failure_in(life: &[Step<'_>]) -> Option<Failure> {
    life.iter().find_map(|step| match step {
        Step::Fail(failure) => Some(*failure),
        _ => None,
    })
}

// A disk that fails so.
fn fused(alloc: Global, files: MemoryDisk, failure: Option<Failure>) -> FuseDisk<MemoryDisk> {
    let (base, calls, fuse) = match failure {
        None => (None, u64::MAX, Fuse::One),
        Some(failure) => (failure.base, failure.calls, failure.fuse),
    };
    FuseDisk::new(alloc, files, base, calls, fuse)
}

// Runs the scripts of a hub, and mends its device before each but the first. Puts the files that the hub leaves in the place of
// `left`.
fn run_scripts(
    alloc: Global,
    hub: &mut MemoryHub,
    life: &[Step<'_>],
    left: &mut MemoryDisk,
    trial: &mut Trial,
) -> Result<(), CaseFault> {
    let mut is_first = true;
    for script in life.split(|step| matches!(step, Step::Mend)) {
        if !is_first {
            hub.mend();
        }
        is_first = false;
        run_lines(alloc, hub, script, &mut trial.told)?;
    }
    *left = hub.disk().inner().copy()?;
    Ok(())
}
