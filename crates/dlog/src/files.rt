// Files of a folder that a check reports beside its logs.
use crate::faults::{advise_on_file, is_refused};
use crate::folder::{FolderOfLogs, tell_unlisted};
use crate::{UNREAD, tell};
use dl_disk::Disk;
use dl_tool::{
    LogFiles, Losses, ReportFault, Style, find_losses, find_strays, is_newer, push_losses,
    push_stray,
};
use dl_types::FileName;
use std::alloc::AllocError;
use std::io;
use std::io::Write;
use std::process::ExitCode;

/// Reports the numbered files of a folder that no index names, or those of them that have a base of these logs. Returns whether
/// there are any.
pub fn tell_strays(
    rt: &HostRuntime,
    disk: &mut FolderOfLogs,
    logs: Option<&[LogFiles]>,
    style: Style,
) -> Result<bool, ExitCode> {
    let strays = match find_strays(rt.alloc(), disk) {
        Ok(strays) => strays,
        Err(fault) => return Err(tell(rt, fault, UNREAD)),
    };
    let mut is_there = false;
    for file in &strays {
        if is_asked(*file, logs) {
            tell_stray(rt, disk, *file, style)?;
            is_there = true;
        }
    }
    Ok(is_there)
}

// Reports a file that no index names, and whether it is newer than the index of its base.
fn tell_stray(
    rt: &HostRuntime,
    disk: &mut FolderOfLogs,
    file: FileName,
    style: Style,
) -> Result<(), ExitCode> {
    let newer = match is_newer(rt.alloc(), disk, file) {
        Ok(newer) => newer,
        Err(fault) => return Err(tell(rt, fault, UNREAD)),
    };
    let mut text = Vec::new(rt.alloc());
    let told = push_stray(&mut text, style, file, newer);
    print(rt, told, &text)
}

// Whether a file has the base of one of these logs, or is to be reported whatever its base is.
fn is_asked(file: FileName, logs: Option<&[LogFiles]>) -> bool {
    match logs {
        None => true,
        Some(logs) => logs.iter().any(|log| log.base == file.base),
    }
}

/// Reports what these files, the last ones of logs that need a repair, show of items that were lost.
pub fn tell_losses(
    rt: &HostRuntime,
    disk: &mut FolderOfLogs,
    files: &[FileName],
    style: Style,
) -> Result<(), ExitCode> {
    for file in files {
        match find_losses(rt.alloc(), disk, *file) {
            Ok(losses) => tell_loss(rt, *file, losses, style)?,
            Err(fault) => return Err(tell(rt, fault, UNREAD)),
        }
    }
    Ok(())
}

/// Reports what a file shows of items that were lost.
pub fn tell_loss(
    rt: &HostRuntime,
    file: FileName,
    losses: Losses,
    style: Style,
) -> Result<(), ExitCode> {
    let mut text = Vec::new(rt.alloc());
    let told = push_losses(&mut text, style, file, losses);
    print(rt, told, &text)
}

// Prints lines that were made, or says why they were not.
fn print(rt: &HostRuntime, made: Result<(), AllocError>, text: &[u8]) -> Result<(), ExitCode> {
    if made.is_err() {
        return Err(tell(rt, ReportFault::OutOfMemory, UNREAD));
    }
    match io::writer(rt).write_all(text) {
        Ok(()) => Ok(()),
        Err(error) => Err(tell(rt, format_args!("standard output: {error}"), UNREAD)),
    }
}

/// Says which files of these logs the system refuses, and why.
pub fn tell_odd(
    rt: &HostRuntime,
    path: &str,
    disk: &mut FolderOfLogs,
    logs: &[LogFiles],
) -> Result<(), ExitCode> {
    let mut names = match disk.list(rt.alloc()) {
        Ok(names) => names,
        Err(fault) => return Err(tell_unlisted(rt, path, fault)),
    };
    names.sort_unstable();
    for file in &names {
        if is_asked(*file, Some(logs)) && is_refused(rt, path, *file) {
            advise_on_file(rt, path, *file, false);
        }
    }
    Ok(())
}
