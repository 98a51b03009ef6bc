// A case over a folder.
use dl_cases::{CaseFault, How, Job, Step, Tool, Trial, bytes_of, run_lines};
use dl_disk::{FolderDisk, OpenFault};
use dl_hub::Hub;
use dl_tool::LogFiles;
use std::fs;
use std::path::Path;

/// Runs a case whose device does not fail in a new folder at this path, and removes the folder.
pub fn run_in_folder(
    rt: &HostRuntime,
    steps: &[Step<'_>],
    path: Path<'_>,
    trial: &mut Trial,
) -> Result<(), CaseFault> {
    trial.how = How::Folder;
    fs::create_dir(rt, path)?;
    let ran = run_lives(rt, steps, path, trial);
    fs::remove_dir_all(rt, path)?;
    ran
}

// Runs the hubs of a case one after another on the files of a folder.
fn run_lives(
    rt: &HostRuntime,
    steps: &[Step<'_>],
    path: Path<'_>,
    trial: &mut Trial,
) -> Result<(), CaseFault> {
    for life in steps.split(|step| matches!(step, Step::Again)) {
        lay_in_folder(rt, life, path)?;
        live_in_folder(rt, life, path, trial)?;
    }
    Ok(())
}

/// Lays down the files of a hub in a folder.
pub fn lay_in_folder(rt: &HostRuntime, life: &[Step<'_>], path: Path<'_>) -> Result<(), CaseFault> {
    for step in life {
        if let Step::File(file) = step {
            let name = file.name.to_string(rt.alloc())?;
            let path = path.join(rt.alloc(), name.as_str())?;
            let bytes = bytes_of(rt.alloc(), file.digits)?;
            fs::write(rt, path.as_path(), bytes.as_slice())?;
        }
    }
    Ok(())
}

// Runs a hub on the files of a folder.
fn live_in_folder(
    rt: &HostRuntime,
    life: &[Step<'_>],
    path: Path<'_>,
    trial: &mut Trial,
) -> Result<(), CaseFault> {
    run_in_hub(rt, life, path, trial)?;
    for (at, step) in life.iter().enumerate() {
        if let Step::Tool(tool) = step {
            let after = life.get(at + 1..).unwrap_or(&[]);
            use_in_folder(rt, path, *tool, after, trial)?;
        }
    }
    Ok(())
}

// Runs the lines of a hub on the files of a folder.
fn run_in_hub(
    rt: &HostRuntime,
    life: &[Step<'_>],
    path: Path<'_>,
    trial: &mut Trial,
) -> Result<(), CaseFault> {
    let mut hub = folder_hub(rt, path, trial.blocks)?;
    run_lines(rt.alloc(), &mut hub, life, &mut trial.told)
}

// A hub on the files of a folder.
fn folder_hub(
    rt: &HostRuntime,
    path: Path<'_>,
    blocks: u32,
) -> Result<Hub<FolderDisk<HostRuntime>>, CaseFault> {
    let disk = open_folder(rt, path)?;
    Hub::new(rt.alloc(), disk, blocks).map_err(CaseFault::Hub)
}

// Uses a command that is followed by these steps on the files of a folder.
fn use_in_folder(
    rt: &HostRuntime,
    path: Path<'_>,
    tool: Tool<'_>,
    after: &[Step<'_>],
    trial: &mut Trial,
) -> Result<(), CaseFault> {
    let mut job = Job::new(rt.alloc(), tool, after)?;
    do_in_folder(rt, path, trial.blocks, &mut job)?;
    job.compare(rt.alloc(), after, &mut trial.told)
}

// Does a job on the files of a folder.
fn do_in_folder(
    rt: &HostRuntime,
    path: Path<'_>,
    blocks: u32,
    job: &mut Job<'_>,
) -> Result<(), CaseFault> {
    match tell_in_folder(rt, path, job)? {
        Some(log) => work_in_folder(rt, path, blocks, log, job),
        None => Ok(()),
    }
}

// Reports on the files of a folder, or returns the log that the job is on.
fn tell_in_folder(
    rt: &HostRuntime,
    path: Path<'_>,
    job: &mut Job<'_>,
) -> Result<Option<LogFiles>, CaseFault> {
    let mut disk = open_folder(rt, path)?;
    job.tell(rt.alloc(), &mut disk)
}

// Does a job on a log of a folder.
fn work_in_folder(
    rt: &HostRuntime,
    path: Path<'_>,
    blocks: u32,
    log: LogFiles,
    job: &mut Job<'_>,
) -> Result<(), CaseFault> {
    let mut hub = folder_hub(rt, path, blocks)?;
    job.work(rt.alloc(), &mut hub, log)
}

/// The disk over a folder.
pub fn open_folder(rt: &HostRuntime, path: Path<'_>) -> Result<FolderDisk<HostRuntime>, CaseFault> {
    let own = rt.clone()?;
    FolderDisk::open(own, path.as_str()).map_err(|fault| match fault {
        OpenFault::InUse | OpenFault::Device => CaseFault::Folder,
        OpenFault::OutOfMemory => CaseFault::OutOfMemory,
    })
}
