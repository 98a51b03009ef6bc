// Messages about a log that is followed.
use crate::faults::{Place, advise_on_file, say};
use crate::{FAILED, UNREAD, tell};
use dl_tail::{Position, TailFault};
use dl_types::Name;
use std::process::ExitCode;

/// Reports bytes that are no item's.
pub fn tell_torn(rt: &HostRuntime, log: Name, end: Position) {
    let Position {
        generation,
        passed,
        ..
    } = end;
    let _ = eprintln!(rt;
        "dlog: {log}: bad bytes after item {passed} of the file of generation {generation}"
    );
}

/// Reports that files were passed over.
pub fn tell_passed(rt: &HostRuntime, log: Name, next: Position, emptied: bool) {
    let generation = next.generation;
    let what = if emptied {
        "it was emptied or moved"
    } else {
        "files were replaced before they were read"
    };
    let _ = eprintln!(rt;
        "dlog: {log}: {what}: tail goes on with the file of generation {generation}, and items before it may be missing"
    );
}

/// Reports that the log is not there any more.
pub fn tell_gone(rt: &HostRuntime, log: Name) {
    let _ = eprintln!(rt; "dlog: {log}: the log is not there any more: tail waits for it");
}

/// Says that a file of the log is missing before its last items.
pub fn tell_missing(rt: &HostRuntime, place: Place<'_>) -> ExitCode {
    let Place { folder, log, .. } = place;
    let told = tell(
        rt,
        format_args!(
            "{log}: a file is missing, or is not the one that the index names, and the items after it are not written"
        ),
        FAILED,
    );
    say(
        rt,
        format_args!("dlog check {folder} {log} shows its state"),
    );
    told
}

/// Says why the files of the log were not read, and what to look at.
pub fn tell_tail(rt: &HostRuntime, place: Place<'_>, fault: TailFault) -> ExitCode {
    let Place { folder, log, .. } = place;
    let told = tell(rt, format_args!("{log}: {fault}"), UNREAD);
    if let TailFault::Device(file) = fault {
        advise_on_file(rt, folder, file, false);
    }
    told
}
