// Logs are held against digests that were taken of them before.
ghost use Rattle.std.specs.Prelude.{◌≡◌};
ghost use Rattle.dlog.specs.Status.{verdict_status};

use crate::by_log::LinesByLog;
use crate::faults::{Failure, Place, tell_failure};
use crate::folder::FolderOfLogs;
use crate::noted::{Noted, Why};
use crate::{BLOCKS, BUFFER_BYTES, MISUSED, UNCLEAN, UNREAD, tell};
use dl_digest::{Compared, DigestLine, Extent, ListFault, Verdict, compare_log, read_lines};
use dl_disk::Reason;
use dl_hub::Hub;
use dl_pipe::PipeFault;
use dl_tool::{LogFiles, ReportFault, Style};
use dl_types::{Name, Refusal};
use std::alloc::Global;
use std::fs::File;
use std::io;
use std::io::BufReader;
use std::process::ExitCode;

// The status if everything is as it was.
const CLEAN: u8 = 0;

/// The digests in the file at this path.
pub fn lines_in(rt: &HostRuntime, path: &str) -> Result<LinesByLog, ExitCode> {
    let file = match File::open(rt, path) {
        Ok(file) => file,
        Err(error) => return Err(tell(rt, format_args!("{path}: {error}"), UNREAD)),
    };
    let input = BufReader::with_capacity(rt.alloc(), BUFFER_BYTES, Noted::new(file));
    let Ok(mut input) = input else {
        return Err(tell(rt, ListFault::OutOfMemory, UNREAD));
    };
    match lines_by_log(rt.alloc(), &mut input) {
        Ok(lines) => Ok(lines),
        Err(fault) => Err(tell_unlisted(rt, path, input.get_ref().why(), fault)),
    }
}

// The digests of a text, by their logs.
fn lines_by_log(
    alloc: Global,
    input: &mut BufReader<Noted<File>>,
) -> Result<LinesByLog, ListFault> {
    let lines = read_lines(alloc, input)?;
    Ok(LinesByLog::of(alloc, &lines)?)
}

// Says why the digests in the file at this path were not read.
fn tell_unlisted(rt: &HostRuntime, path: &str, why: Why, fault: ListFault) -> ExitCode {
    match fault {
        ListFault::BadLine(_) => tell(rt, format_args!("{path}: {fault}"), MISUSED),
        ListFault::Read => tell(rt, format_args!("{path}: {why}"), UNREAD),
        ListFault::OutOfMemory => tell(rt, format_args!("{path}: {fault}"), UNREAD),
    }
}

/// These logs, and those that the lines name and that are not among them. The latter count as halt logs, which a
/// check then finds absent.
pub fn with_missing(
    rt: &HostRuntime,
    found: Vec<LogFiles>,
    lines: &LinesByLog,
) -> Result<Vec<LogFiles>, ExitCode> {
    let mut logs = found;
    match lines.add_missing(&mut logs) {
        Ok(()) => Ok(logs),
        Err(_) => Err(tell(rt, ReportFault::OutOfMemory, UNREAD)),
    }
}

/// Compares logs of a folder with these digests. Reports each difference, and returns the exit status.
pub fn compare_logs(
    rt: &HostRuntime,
    folder: &str,
    disk: FolderOfLogs,
    logs: &[LogFiles],
    lines: &LinesByLog,
    style: Style,
) -> u8 {
    match Hub::new(rt.alloc(), disk, BLOCKS) {
        Ok(mut hub) => compare_in(rt, folder, &mut hub, logs, lines, style),
        Err(fail) => {
            let _ = tell(rt, fail, UNREAD);
            UNREAD
        }
    }
}

// Compares each log of a hub, whatever became of those before it.
fn compare_in(
    rt: &HostRuntime,
    folder: &str,
    hub: &mut Hub<FolderOfLogs>,
    logs: &[LogFiles],
    lines: &LinesByLog,
    style: Style,
) -> u8 {
    let mut status = CLEAN;
    for files in logs {
        if let Some(log) = Name::parse(files.base.as_bytes()) {
            let done = compare_log(rt.alloc(), hub, log, files.kind, lines.of_log(log));
            let place = Place {
                folder,
                log,
                writes: false,
            };
            status = status.max(end(rt, place, done, hub.reason(), style));
        }
    }
    status
}

// Tells what became of the lines of a log, or why it was not read.
fn end(
    rt: &HostRuntime,
    place: Place<'_>,
    done: Result<Vec<Compared>, PipeFault>,
    reason: Option<Reason>,
    style: Style,
) -> u8 {
    match done {
        Ok(compared) => tell_each(rt, &compared, style),
        // The check has reported that the log is absent.
        Err(PipeFault::Refused(Refusal::NoFile)) => UNCLEAN,
        Err(fault) => {
            let status = fault_status(fault);
            let _ = tell_failure(rt, place, Failure::of(fault, reason), status);
            status
        }
    }
}

// The status if a log was not read.
fn fault_status(fault: PipeFault) -> u8 {
    match fault {
        PipeFault::Refused(Refusal::DeviceFault(_)) | PipeFault::OutOfMemory => UNREAD,
        _ => UNCLEAN,
    }
}

// Tells what does not hold.
fn tell_each(rt: &HostRuntime, compared: &[Compared], style: Style) -> u8 {
    let mut status = CLEAN;
    for one in compared {
        if let Err(error) = tell_one(rt, *one, style) {
            let _ = tell(rt, format_args!("standard output: {error}"), UNREAD);
            return UNREAD;
        }
        status = status.max(verdict_status(one.verdict));
    }
    status
}

// Tells what became of the items of a line, unless they are the same.
fn tell_one(rt: &HostRuntime, one: Compared, style: Style) -> io::Result<()> {
    let DigestLine {
        log,
        extent,
        digest,
    } = one.line;
    let Some(word) = word_of(one.verdict) else {
        return Ok(());
    };
    let items = digest.items;
    match (style, extent) {
        (Style::Line, Extent::File(generation)) => {
            println!(rt; "{log} {generation} {word}, of {items} items")
        }
        (Style::Line, Extent::All) => println!(rt; "{log} all {word}, of {items} items"),
        (Style::Json, Extent::File(generation)) => println!(rt;
            "{{\"name\":\"{log}\",\"generation\":{generation},\"state\":\"{word}\",\"items\":{items}}}"
        ),
        (Style::Json, Extent::All) => println!(rt;
            "{{\"name\":\"{log}\",\"state\":\"{word}\",\"items\":{items}}}"
        ),
    }
}

// The word for what does not hold.
fn word_of(verdict: Verdict) -> Option<&'static str> {
    match verdict {
        Verdict::Same => None,
        Verdict::Gone => Some("gone"),
        Verdict::Shorter => Some("shorter"),
        Verdict::Changed => Some("changed"),
    }
}

// The status that says what became of items. A file that gave way to another is no fault.
fn verdict_status(verdict: Verdict) -> u8
    ensures { result ≡ verdict_status verdict }
{
    match verdict {
        Verdict::Same | Verdict::Gone => CLEAN,
        Verdict::Shorter | Verdict::Changed => UNCLEAN,
    }
}
