// Messages about why the system refused a file.
use crate::faults::say;
use dl_disk::{Cause, Reason};
use std::io;
use std::io::ErrorKind;

// The system's number of a device that failed.
const INPUT_OUTPUT: i32 = 5;

// Its number of a file or a folder that has not its name any more.
const STALE: i32 = 116;

// Its numbers where too many files are open, in all programs or in this one.
const TOO_MANY_OPEN: [i32; 2] = [23, 24];

// What to do about a file that is not found under its name.
const MOVED: &str =
    "another program has moved, removed or replaced it or its folder: put it back under its name";

/// What a call of the device was to do with a file.
#[derive(Clone, Copy)]
pub enum Work {
    Look,
    Read,
    Write,
    Put,
    Cut,
    Rename,
    Remove,
    Sync,
}

impl Work {
    // What could not be done with the file.
    fn undone(self) -> &'static str {
        match self {
            Work::Look => "looked at",
            Work::Read => "read",
            Work::Write => "written",
            Work::Put => "made anew",
            Work::Cut => "cut off after its items",
            Work::Rename => "given its new name",
            Work::Remove => "removed",
            Work::Sync => "put on the device",
        }
    }

    // What is safe all the same.
    fn kept(self) -> &'static str {
        match self {
            Work::Look | Work::Read => "nothing has changed",
            Work::Write =>
                "what was answered as done and is not yet written, if there is any, waits in memory, and is tried again as long as dlog runs",
            Work::Put => "what had this name before is as it was",
            Work::Cut => "its items are there",
            Work::Rename => "each file is there, under the old name or the new one",
            Work::Remove => "it is there still",
            Work::Sync =>
                "up to the last sync that was done all is on the device, and what came after may be lost",
        }
    }
}

/// Says that a call on a file of a folder failed, and why; what is safe, and what to do.
pub fn tell_fault(rt: &HostRuntime, folder: &str, work: Work, reason: Reason) {
    let Reason { file, cause } = reason;
    let undone = work.undone();
    let kept = work.kept();
    let remedy = remedy_for(cause);
    let _ = eprintln!(rt; "dlog: {folder}/{file} could not be {undone}: {cause}\n{kept}: {remedy}");
}

/// Says why a file of a folder was refused, and what to do.
pub fn say_reason(rt: &HostRuntime, folder: &str, reason: Reason) {
    let Reason { file, cause } = reason;
    let remedy = remedy_for(cause);
    say(rt, format_args!("{folder}/{file}: {cause}: {remedy}"));
}

// What to do about a cause.
fn remedy_for(cause: Cause) -> &'static str {
    match cause {
        Cause::System(number) => remedy_for_number(number),
        Cause::OutOfMemory => "give dlog more memory",
        Cause::NotPlain => "move it away, or put the file itself in its place",
        Cause::Shorter =>
            "copy the folder before anything else, since another program has changed it",
        Cause::Lost =>
            "truncate or reopen the log, or start dlog anew and compare what is there with its source",
        Cause::Other => "look at the system's journal",
    }
}

// What to do about an error of this number.
fn remedy_for_number(number: i32) -> &'static str {
    match io::Error::from_raw_os_error(number).kind() {
        ErrorKind::StorageFull => "make room on its device",
        ErrorKind::QuotaExceeded => "make room, or raise the quota",
        ErrorKind::FileTooLarge =>
            "raise the limit on the size of a file (ulimit -f), or keep files below it by a wrap log",
        ErrorKind::ReadOnlyFilesystem =>
            "mount its file system to be written, and look at the system's journal if it was",
        ErrorKind::PermissionDenied =>
            "give dlog the right to read and to write the file and its folder",
        ErrorKind::NotFound => MOVED,
        _ if number == STALE => MOVED,
        _ if TOO_MANY_OPEN.contains(&number) => "raise the limit on open files (ulimit -n)",
        _ if number == INPUT_OUTPUT =>
            "look at the system's journal for its device, and copy the folder",
        _ => "look at the system's journal",
    }
}
