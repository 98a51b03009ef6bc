// Messages about a fault of the work on a log.
ghost use Rattle.std.specs.Prelude.{◌≡◌};
ghost use Rattle.std.specs.Process.{exit_status};

use crate::noted::Why;
use crate::reasons::say_reason;
use crate::tell;
use dl_disk::Reason;
use dl_pipe::PipeFault;
use dl_types::{Base, FileName, Name, Part, Refusal};
use std::fmt::Display;
use std::fs::{OpenOptions, symlink_metadata};
use std::io::ErrorKind;
use std::process::ExitCode;
use std::{fmt, io};

/// A log at which a command works, and the path of its folder.
#[derive(Clone, Copy)]
pub struct Place<'a> {
    pub folder: &'a str,
    pub log: Name,
    /// Whether the command writes the log.
    pub writes: bool,
}

/// Why the system refused what a command asked of it, as far as that is known.
#[derive(Clone, Copy)]
pub struct Whys {
    /// Why it refused the stream that is read or written.
    pub stream: Why,
    /// Why it refused a file of a log last.
    pub file: Option<Reason>,
}

/// A fault of the work on a log, and why the system refused what was asked of it.
#[derive(Clone, Copy)]
pub struct Failure {
    pub fault: PipeFault,
    pub whys: Whys,
}

impl Failure {
    /// A fault that is none of a stream, by why the system refused a file last.
    pub fn of(fault: PipeFault, file: Option<Reason>) -> Failure {
        let stream = Why(None);
        Failure {
            fault,
            whys: Whys { stream, file },
        }
    }
}

impl Display for Failure {
    fn fmt<W: fmt::Write>(&self, f: &mut fmt::Formatter<W>) -> fmt::Result {
        let why = self.whys.stream;
        match self.fault {
            PipeFault::Refused(Refusal::NoFile) => write!(f, "no such log"),
            PipeFault::Read => write!(f, "standard input: {why}"),
            PipeFault::Write => write!(f, "standard output: {why}"),
            fault => write!(f, "{fault}"),
        }
    }
}

/// Says that the work on a log was not done, and what to do about it.
pub fn tell_failure(rt: &HostRuntime, place: Place<'_>, failure: Failure, status: u8) -> ExitCode
    ensures { exit_status result ≡ status }
{
    let log = place.log;
    let told = tell(rt, format_args!("{log}: {failure}"), status);
    advise(rt, place, failure);
    told
}

/// Says what to do about a fault, unless the fault says it all.
pub fn advise(rt: &HostRuntime, place: Place<'_>, failure: Failure) {
    match failure.fault {
        PipeFault::Refused(Refusal::DeviceFault(file)) => {
            advise_on_device(rt, place, file, failure.whys.file)
        }
        PipeFault::Refused(refusal) => advise_on_refusal(rt, place, refusal),
        PipeFault::Torn => say(rt, "dlog dump --raw writes what --raw reads"),
        PipeFault::NotEscaped => say(
            rt,
            "dlog dump writes what --escaped reads; else a line is an item as it is",
        ),
        _ => {}
    }
}

// The same for a file at which the device failed, by the reason of the last fault if it is one under the base of the file.
fn advise_on_device(rt: &HostRuntime, place: Place<'_>, file: FileName, reason: Option<Reason>) {
    match reason {
        Some(reason) if reason.file.base == file.base => say_reason(rt, place.folder, reason),
        _ => advise_on_file(rt, place.folder, file, place.writes),
    }
}

/// Says what to do about a refusal, unless the refusal says it all.
pub fn advise_on_refusal(rt: &HostRuntime, place: Place<'_>, refusal: Refusal) {
    let Place { folder, log, .. } = place;
    match refusal {
        Refusal::NoFile => say(
            rt,
            format_args!("dlog list {folder} shows which logs there are"),
        ),
        Refusal::StaleContinuation => say(
            rt,
            format_args!("dlog dump {folder} {log} --places shows the places that the log has"),
        ),
        Refusal::SizeMismatch(_, _) => {
            say(
                rt,
                "the log has the first of these sizes: say that one, or none",
            )
        }
        Refusal::Full => say(
            rt,
            "a greater --size, or none, gives it room; in a script of dlog run, truncate empties it",
        ),
        other => advise_on_files(rt, place, other),
    }
}

// The same for a refusal that is one of a file.
fn advise_on_files(rt: &HostRuntime, place: Place<'_>, refusal: Refusal) {
    let Place {
        folder,
        log,
        writes,
    } = place;
    match refusal {
        Refusal::NotALogFile(file) => advise_on_foreign_file(rt, place, file),
        Refusal::InvalidIndexFile => say(
            rt,
            format_args!(
                "{folder}/{log}.idx is damaged, or names a file that is missing or was replaced: put back what was there, or move the files of {log} away"
            ),
        ),
        Refusal::CorruptFile(number) => {
            let file = file_of(log, number);
            say(
                rt,
                format_args!(
                    "{folder}/{file} does not read back as it was written: copy the folder before anything else"
                ),
            )
        }
        Refusal::DeviceFault(file) => advise_on_file(rt, folder, file, writes),
        _ => {}
    }
}

// Says what to do about a file that is no file of a log. A wrap log is not opened without its numbered files.
fn advise_on_foreign_file(rt: &HostRuntime, place: Place<'_>, file: FileName) {
    let Place { folder, log, .. } = place;
    if let Part::Numbered(_) = file.part {
        return say(
            rt,
            format_args!(
                "{folder}/{file} is no file of a log: put back what was there, or move all files of {log} away"
            ),
        );
    }
    say(
        rt,
        format_args!("{folder}/{file} is no file of a log: move it away, or take another name"),
    )
}

// The file of a log that this number names in a refusal: 0 is that of a halt log.
fn file_of(log: Name, number: u32) -> FileName {
    let base = Base::of(log);
    if number == 0 {
        FileName::halt(base)
    } else {
        FileName::numbered(base, number)
    }
}

/// Says why the system refuses a file of a folder. Asks the system again. If that gives no reason, says what to look
/// at.
pub fn advise_on_file(rt: &HostRuntime, folder: &str, file: FileName, writes: bool) {
    match look_at(rt, folder, file, writes) {
        Ok(Look::Plain) => say(
            rt,
            format_args!(
                "the system refused {folder}/{file}: look at the room on its device, the limits of the process and the system's journal"
            ),
        ),
        Ok(Look::Other) => say(
            rt,
            format_args!("{folder}/{file} is a link, a folder or a pipe, and no plain file"),
        ),
        Err(error) if error.kind() == ErrorKind::NotFound => say(
            rt,
            format_args!(
                "{folder}/{file} is not there, or could not be made: look at the rights of {folder} and the room on its device"
            ),
        ),
        Err(error) => say(rt, format_args!("{folder}/{file}: {error}")),
    }
}

/// Whether the system does not let a file of a folder be read, or it is no plain file.
pub fn is_refused(rt: &HostRuntime, folder: &str, file: FileName) -> bool {
    !matches!(look_at(rt, folder, file, false), Ok(Look::Plain))
}

// What there is under the name of a file.
#[derive(Clone, Copy)]
enum Look {
    // A file that can be opened.
    Plain,
    // What is no plain file.
    Other,
}

// Opens a file of a folder to read it, and to write it if that is asked for.
fn look_at(rt: &HostRuntime, folder: &str, file: FileName, writes: bool) -> io::Result<Look> {
    let path = format!(in rt.alloc(); "{folder}/{file}")?;
    if !symlink_metadata(rt, path.as_str())?.is_file() {
        return Ok(Look::Other);
    }
    OpenOptions::new()
        .read(true)
        .write(writes)
        .open(rt, path.as_str())?;
    Ok(Look::Plain)
}

/// Writes a line of advice on standard error.
pub fn say(rt: &HostRuntime, what: impl Display + Drop) {
    let _ = eprintln!(rt; "{what}");
}
