// Whether a log may be begun.
use crate::faults::Place;
use crate::folder::{FolderOfLogs, tell_unlisted};
use crate::{FAILED, UNREAD, tell};
use dl_tool::{LogFiles, files_in_way, find_strays_of, is_newer, last_file};
use dl_types::{Base, FileName, Kind, Part};
use std::process::ExitCode;

/// Whether a log may be opened to be written, which begins it if it is not there. It may not be begun where a log of
/// the other kind has its name, or where files that no index names have it. It may not be written where such files
/// are newer than its index. An `Err` is the status after a message on these files.
pub fn may_open(
    rt: &HostRuntime,
    disk: &mut FolderOfLogs,
    place: Place<'_>,
    kind: Kind,
) -> Result<(), ExitCode> {
    let log = LogFiles {
        base: Base::of(place.log),
        kind,
    };
    let files = match files_in_way(rt.alloc(), disk, log) {
        Ok(files) => files,
        Err(fault) => return Err(tell_unlisted(rt, place.folder, fault)),
    };
    match files.as_slice() {
        [] => none_is_newer(rt, disk, place, log, "logged"),
        [first, ..] => Err(tell_in_way(rt, place, *first, &files)),
    }
}

/// Whether no file is newer than the index of a wrap log. Where one is, the index may be an older one, and its log would write over
/// that file: an `Err` is the status after a message that nothing is done, as logged. If the index or the last file cannot be read,
/// the open reports that, with its reason.
pub fn none_is_newer(
    rt: &HostRuntime,
    disk: &mut FolderOfLogs,
    place: Place<'_>,
    log: LogFiles,
    done: &str,
) -> Result<(), ExitCode> {
    let Kind::Wrap = log.kind else {
        return Ok(());
    };
    if let Ok(Some(last)) = last_file(rt.alloc(), disk, log) {
        if let Ok(true) = is_newer(rt.alloc(), disk, last.file) {
            return Err(tell_newer(rt, place, last.file, done));
        }
    }
    let Ok(strays) = find_strays_of(rt.alloc(), disk, log.base) else {
        return Ok(());
    };
    for file in &strays {
        match is_newer(rt.alloc(), disk, *file) {
            Ok(false) => {}
            Ok(true) => return Err(tell_newer(rt, place, *file, done)),
            Err(fault) => return Err(tell(rt, fault, UNREAD)),
        }
    }
    Ok(())
}

// Says that a file is newer than the index of its log.
fn tell_newer(rt: &HostRuntime, place: Place<'_>, file: FileName, done: &str) -> ExitCode {
    let Place { folder, log, .. } = place;
    tell(
        rt,
        format_args!(
            "{log}: {folder}/{file} is newer than the files that the index {log}.idx names, and nothing is {done} over it: the index may be an older one\nput the right index back, or move the file away: it can be read as a halt log under another name"
        ),
        FAILED,
    )
}

// Says which files are in the way of a log, by the first of them.
fn tell_in_way(
    rt: &HostRuntime,
    place: Place<'_>,
    first: FileName,
    files: &[FileName],
) -> ExitCode {
    let Place { folder, log, .. } = place;
    match first.part {
        Part::Halt => tell(
            rt,
            format_args!(
                "{log}: there is a halt log of this name, {folder}/{first}, and no wrap log is begun beside it\nleave --wrap out to append to it, or take another name"
            ),
            FAILED,
        ),
        Part::Index => tell(
            rt,
            format_args!(
                "{log}: there is a wrap log of this name, {folder}/{first}, and no halt log is begun beside it\nleave --size out to append to it, or take another name"
            ),
            FAILED,
        ),
        Part::Numbered(_) => tell_strays(rt, place, first, files),
    }
}

// Says that files of a wrap log are there and its index is not.
fn tell_strays(
    rt: &HostRuntime,
    place: Place<'_>,
    first: FileName,
    files: &[FileName],
) -> ExitCode {
    let Place { folder, log, .. } = place;
    let count = files.len();
    let last = files.last().copied().unwrap_or(first);
    if count == 1 {
        return tell(
            rt,
            format_args!(
                "{log}: {folder}/{first} is there, and no index {log}.idx that names it: no log is begun over it\nput the index back, or move the file away: it can be read as a halt log under another name"
            ),
            FAILED,
        );
    }
    tell(
        rt,
        format_args!(
            "{log}: {folder} has {count} numbered files of this name, {first} to {last}, and no index {log}.idx that names them: no log is begun over them\nput the index back, or move the files away: each can be read as a halt log under another name"
        ),
        FAILED,
    )
}
