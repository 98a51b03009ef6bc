// The folder of a command, and the logs in it.
use crate::disk::{open_folder, tell_unopened};
use crate::faults::Place;
use crate::watched::WatchedDisk;
use crate::{MISUSED, UNREAD, tell};
use clap::{Arg, ArgAction, ArgMatches, Command};
use dl_disk::{FolderDisk, ListFault, OpenFault};
use dl_tool::{LogFiles, find_logs, logs_named};
use dl_types::{Base, Kind, Name};
use std::alloc::{AllocError, Global};
use std::process::ExitCode;

/// The disk over a folder of logs, which reports the progress of the work on it.
pub type FolderOfLogs = WatchedDisk<FolderDisk<HostRuntime>>;

/// The word for the folder.
pub fn folder_word<'a>(alloc: Global) -> Arg<'a> {
    Arg::new(alloc, "folder")
        .value_name("FOLDER")
        .required(true)
        .help("The folder of the logs, which has to exist")
}

/// The word that has a wrap log go to its next file without a sync.
pub fn rolls_word<'a>(alloc: Global) -> Arg<'a> {
    Arg::new(alloc, "unsynced-rolls")
        .long("unsynced-rolls")
        .action(ArgAction::SetTrue)
        .help(
            "Let a wrap log in a folder begin its next file before the bytes of the last one are on the device. This takes less time, but a power cut can then take all items of the log",
        )
}

/// A command on a log of a folder, with the words for both.
pub fn log_command<'a>(alloc: Global, name: &'a str) -> Result<Command<'a>, AllocError> {
    let kind = Arg::new(alloc, "kind").long("kind").value_name("KIND").help(
        "halt or wrap, where the folder has a log of each kind with this name",
    );
    let log = Arg::new(alloc, "name")
        .value_name("NAME")
        .required(true)
        .help("The name of the log");
    Command::new(alloc, name)
        .arg(folder_word(alloc))?
        .arg(log)?
        .arg(kind)
}

/// A log of a folder, and the disk over the folder.
pub struct NamedLog {
    pub log: Name,
    pub kind: Kind,
    pub disk: FolderOfLogs,
}

/// The log that the words of such a command name, or the status after a message on what is wrong with them.
pub fn log_in(rt: &HostRuntime, options: &ArgMatches<'_>) -> Result<NamedLog, ExitCode> {
    let log = named(rt, options)?;
    let mut disk = opened(rt, options)?;
    let kind = kind_in(rt, options, &mut disk, log)?;
    Ok(NamedLog { log, kind, disk })
}

/// The disk over the folder that the words name, or the status after a message on what is wrong with it.
pub fn opened(rt: &HostRuntime, options: &ArgMatches<'_>) -> Result<FolderOfLogs, ExitCode> {
    let Some(path) = options.get_str("folder") else {
        return Err(ExitCode::from(MISUSED));
    };
    match open_folder(rt, options, path) {
        Ok(disk) => match rt.clone() {
            Ok(own) => Ok(WatchedDisk::new(own, disk)),
            Err(error) => Err(tell(rt, error, UNREAD)),
        },
        Err(fault) => Err(tell_unopened(rt, path, fault, UNREAD)),
    }
}

/// The path of the folder that the words name.
pub fn folder_in<'a>(options: &ArgMatches<'a>) -> &'a str {
    options.get_str("folder").unwrap_or("")
}

/// The log of this name in the folder that the words name.
pub fn place_of<'a>(options: &ArgMatches<'a>, log: Name, writes: bool) -> Place<'a> {
    Place {
        folder: folder_in(options),
        log,
        writes,
    }
}

/// The name of the log that the words name.
pub fn named(rt: &HostRuntime, options: &ArgMatches<'_>) -> Result<Name, ExitCode> {
    let Some(name) = options.get_str("name") else {
        return Err(ExitCode::from(MISUSED));
    };
    match Name::parse(name.as_bytes()) {
        Some(log) => Ok(log),
        None => Err(no_name(rt, name)),
    }
}

/// Says that no log can have this name.
pub fn no_name(rt: &HostRuntime, name: &str) -> ExitCode {
    tell(
        rt,
        format_args!(
            "no log can be called {name:?}: a name has 1 to 64 letters, digits, `_` and `-`"
        ),
        MISUSED,
    )
}

/// The logs of the folder at this path.
pub fn logs_in(
    rt: &HostRuntime,
    path: &str,
    disk: &mut FolderOfLogs,
) -> Result<Vec<LogFiles>, ExitCode> {
    match find_logs(rt.alloc(), disk) {
        Ok(found) => Ok(found),
        Err(fault) => Err(tell_unlisted(rt, path, fault)),
    }
}

/// Says why the files of the folder at this path were not listed.
pub fn tell_unlisted(rt: &HostRuntime, path: &str, fault: ListFault) -> ExitCode {
    tell_unopened(rt, path, OpenFault::from(fault), UNREAD)
}

// The kinds of the logs of this name that the folder has; that of a halt log if it has none.
fn kinds_of(
    rt: &HostRuntime,
    disk: &mut FolderOfLogs,
    place: Place<'_>,
) -> Result<Vec<Kind>, ExitCode> {
    let found = logs_in(rt, place.folder, disk)?;
    let own = match logs_named(rt.alloc(), &found, Base::of(place.log)) {
        Ok(own) => own,
        Err(error) => return Err(tell(rt, error, UNREAD)),
    };
    match own.iter().map(|files| files.kind).collect(rt.alloc()) {
        Ok(kinds) => Ok(kinds),
        Err(error) => Err(tell(rt, error, UNREAD)),
    }
}

/// The kind of the log of this name that the folder has, or halt if it has none. If it has one of each kind, the message asks
/// the user to say `what`.
pub fn kind_there(
    rt: &HostRuntime,
    disk: &mut FolderOfLogs,
    place: Place<'_>,
    what: &str,
) -> Result<Kind, ExitCode> {
    let log = place.log;
    match kinds_of(rt, disk, place)?.as_slice() {
        [kind] => Ok(*kind),
        _ => Err(tell(
            rt,
            format_args!("{log}: there is a halt log and a wrap log: say {what}"),
            MISUSED,
        )),
    }
}

// The kind that the words name, or else that of the log of this name.
fn kind_in(
    rt: &HostRuntime,
    options: &ArgMatches<'_>,
    disk: &mut FolderOfLogs,
    log: Name,
) -> Result<Kind, ExitCode> {
    match options.get_str("kind") {
        Some("halt") => Ok(Kind::Halt),
        Some("wrap") => Ok(Kind::Wrap),
        Some(_) => Err(tell(rt, "--kind is halt or wrap", MISUSED)),
        None => {
            let place = place_of(options, log, false);
            kind_there(rt, disk, place, "--kind halt or --kind wrap")
        }
    }
}
