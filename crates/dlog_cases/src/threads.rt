// The scripts of a case with a thread for each client.
use crate::folder::{lay_in_folder, open_folder};
use dl_cases::{
    BAD_LINE, CaseFault, How, Line, Step, Trial, counted, disk_under, has_failure, lines_of,
    live_in_memory, script_of,
};
use dl_disk::{Disk, MemoryDisk};
use dl_threads::threads_script;
use dl_trail::{Record, Recorded};
use std::alloc::{AllocError, Global};
use std::path::Path;
use std::sync::Wait;
use std::thread::Threads;
use std::time::Clock;
use std::{fs, mem};

// What is written of a script whose clients had what the history has.
const SETTLED: &[u8] = b"settled\n";

/// Runs the lines of each hub of a case with a thread for each client: in memory with the first of these numbers of blocks and, if the
/// device does not fail, in a new folder at this path with the last one. The lines are one script, without those of no form.
pub fn run_with_threads<T: Threads + Wait + Clock + Sync>(
    rt: &HostRuntime,
    handle: &T,
    steps: &[Step<'_>],
    path: Path<'_>,
    blocks: &[u32],
    trial: &mut Trial,
) -> Result<(), CaseFault> {
    trial.settled = 0;
    trial.how = How::MemoryThreads;
    trial.blocks = blocks.first().copied().unwrap_or(trial.blocks);
    run_lives_in_memory(handle, rt.alloc(), steps, trial)?;
    if has_failure(steps) {
        return Ok(());
    }
    trial.how = How::FolderThreads;
    trial.blocks = blocks.last().copied().unwrap_or(trial.blocks);
    fs::create_dir(rt, path)?;
    let ran = run_lives_in_folder(rt, handle, steps, path, trial);
    fs::remove_dir_all(rt, path)?;
    ran
}

// Runs the hubs of a case, each on the files that the one before leaves without threads.
fn run_lives_in_memory<T: Threads + Wait + Clock + Sync>(
    handle: &T,
    alloc: Global,
    steps: &[Step<'_>],
    trial: &mut Trial,
) -> Result<(), CaseFault> {
    let mut files = MemoryDisk::new(alloc);
    let mut left = MemoryDisk::new(alloc);
    for life in steps.split(|step| matches!(step, Step::Again)) {
        let life = counted(alloc, &files, life, trial)?;
        let disk = disk_under(alloc, &files, life.as_slice())?;
        run_on(handle, alloc, disk, life.as_slice(), trial)?;
        live_in_memory(alloc, &files, life.as_slice(), &mut left, trial)?;
        mem::swap(&mut files, &mut left);
    }
    Ok(())
}

// Runs the hubs of a case on the files of a folder, each on those that the one before leaves.
fn run_lives_in_folder<T: Threads + Wait + Clock + Sync>(
    rt: &HostRuntime,
    handle: &T,
    steps: &[Step<'_>],
    path: Path<'_>,
    trial: &mut Trial,
) -> Result<(), CaseFault> {
    for life in steps.split(|step| matches!(step, Step::Again)) {
        lay_in_folder(rt, life, path)?;
        let disk = open_folder(rt, path)?;
        run_on(handle, rt.alloc(), disk, life, trial)?;
    }
    Ok(())
}

// Runs the lines of a hub on a disk.
fn run_on<D: Disk + Drop + Send, T: Threads + Wait + Clock + Sync>(
    handle: &T,
    alloc: Global,
    disk: D,
    life: &[Step<'_>],
    trial: &mut Trial,
) -> Result<(), CaseFault> {
    let script = script_in(alloc, life)?;
    let mut input = script.as_bytes();
    let mut output = Vec::new(alloc);
    let hub = Recorded::new(alloc, disk, trial.blocks, Record::Kept).map_err(CaseFault::Hub)?;
    let settled = threads_script(handle, alloc, &mut input, &mut output, hub).map_err(
        CaseFault::Script,
    )?;
    if !settled || output.as_slice() != SETTLED {
        return Err(CaseFault::NotSettled);
    }
    trial.settled = trial.settled.saturating_add(1);
    Ok(())
}

// The lines of a hub as a script, without those of no form.
fn script_in(alloc: Global, life: &[Step<'_>]) -> Result<String, AllocError> {
    let mut lines: Vec<Line<'_>> = Vec::new(alloc);
    for line in lines_of(alloc, life)?.as_slice() {
        if line.answer != BAD_LINE {
            lines.push(*line)?;
        }
    }
    script_of(alloc, lines.as_slice())
}
