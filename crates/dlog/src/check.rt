// The commands that report on the logs of a folder.
ghost use Rattle.std.specs.Prelude.{◌≡◌};
ghost use Rattle.std.specs.Process.{exit_status};
ghost use Rattle.dlog.specs.Status.{health_status};

use crate::by_log::{LinesByLog, base_of_both_kinds};
use crate::files::{tell_losses, tell_odd, tell_strays};
use crate::folder::{FolderOfLogs, folder_in, folder_word, logs_in, no_name, opened};
use crate::kept::{compare_logs, lines_in, with_missing};
use crate::{BUFFER_BYTES, MISUSED, UNCLEAN, UNREAD, tell};
use clap::{Arg, ArgAction, ArgMatches, Command};
use dl_tool::{Health, LogFiles, ReportFault, Style, check_logs, list_logs, logs_named};
use dl_types::{Base, FileName};
use std::alloc::{AllocError, Global};
use std::io;
use std::io::{BufWriter, Write};
use std::process::ExitCode;

/// The words of the command that checks logs.
pub fn check_command<'a>(alloc: Global) -> Result<Command<'a>, AllocError> {
    let digests = Arg::new(alloc, "digests")
        .long("digests")
        .value_name("FILE")
        .help("Also compare the logs with the lines in FILE, which dlog digest printed before");
    Command::new(alloc, "check")
        .about("Check the logs of a folder, and change nothing")
        .after_help(
            "Prints a line for each log: how much it has, and `clean`, `damaged` if older files of a wrap log have bad bytes, `miscounted` if some count another number of items than they have, or what an open would do. The last file of a log that needs a repair is reported as `miscounted` if it was closed with another number of items than it has, and as `zeros` if its last item has no byte but zeros. A numbered file that no index names is reported as `stray`, and as newer if it is newer than the files of its index.\nWith --digests it prints a line for each digest that does not hold: `changed` if the items have another one, `shorter` if there are fewer or none, and `gone` if neither their file nor an older one is there, since another file replaced it or the log was emptied. Items that came since are no change.\nThe status is 0 if all are clean, nothing is stray, and no digest says changed or shorter, 1 if not, 2 if FILE has a line that is no digest, and 3 if a log or FILE could not be read.\n\nExamples: dlog check logs audit\n          dlog check logs --digests audit.digests",
        )
        .arg(folder_word(alloc))?
        .arg(names_word(alloc))?
        .arg(json_word(alloc))?
        .arg(digests)
}

/// The words of the command that lists logs.
pub fn list_command<'a>(alloc: Global) -> Result<Command<'a>, AllocError> {
    Command::new(alloc, "list")
        .about("List the logs of a folder, and change nothing")
        .after_help(
            "Prints a table: a head, a row for each log, and a last row for all logs.\nThe status is that of check, except that stray files are reported with --json alone.\n\nExample: dlog list logs",
        )
        .arg(folder_word(alloc))?
        .arg(names_word(alloc))?
        .arg(json_word(alloc))
}

/// The word for the logs.
pub fn names_word<'a>(alloc: Global) -> Arg<'a> {
    Arg::new(alloc, "names")
        .value_name("NAME")
        .action(ArgAction::Append)
        .num_args(0..)
        .help("The bases of the logs; all logs of the folder if none is given")
}

/// The word that asks for JSON.
pub fn json_word<'a>(alloc: Global) -> Arg<'a> {
    Arg::new(alloc, "json")
        .long("json")
        .action(ArgAction::SetTrue)
        .help("Print a JSON object for each log, one a line")
}

/// Checks the logs that the words name.
pub fn check(rt: &HostRuntime, options: &ArgMatches<'_>) -> ExitCode {
    let style = style_in(options);
    let checked = match options.get_str("digests") {
        None => try_check(rt, options, style),
        Some(path) => try_compare(rt, options, path, style),
    };
    match checked {
        Ok(status) | Err(status) => status,
    }
}

/// Lists the logs that the words name.
pub fn list(rt: &HostRuntime, options: &ArgMatches<'_>) -> ExitCode {
    let listed = match style_in(options) {
        Style::Line => try_list(rt, options),
        Style::Json => try_check(rt, options, Style::Json),
    };
    match listed {
        Ok(status) | Err(status) => status,
    }
}

// The style of the report that the words ask for.
fn style_in(options: &ArgMatches<'_>) -> Style {
    if options.get_flag("json") {
        Style::Json
    } else {
        Style::Line
    }
}

// Checks the logs, or says why the words do not name any.
fn try_check(
    rt: &HostRuntime,
    options: &ArgMatches<'_>,
    style: Style,
) -> Result<ExitCode, ExitCode> {
    let mut disk = opened(rt, options)?;
    let logs = logs_asked(rt, options, &mut disk)?;
    check_folder(rt, options, &mut disk, &logs, style)
}

// Checks the logs, and holds them against the digests in the file at this path, or says why the words do not name any.
fn try_compare(
    rt: &HostRuntime,
    options: &ArgMatches<'_>,
    path: &str,
    style: Style,
) -> Result<ExitCode, ExitCode> {
    let lines = lines_in(rt, path)?;
    let mut disk = opened(rt, options)?;
    let logs = logs_to_compare(rt, options, &mut disk, &lines)?;
    let checked = check_folder(rt, options, &mut disk, &logs, style)?;
    let compared = compare_logs(rt, folder_in(options), disk, &logs, &lines, style);
    Ok(worse(checked, compared))
}

// The logs that the words name, or all of the folder and those that lines name and the folder does not have.
fn logs_to_compare(
    rt: &HostRuntime,
    options: &ArgMatches<'_>,
    disk: &mut FolderOfLogs,
    lines: &LinesByLog,
) -> Result<Vec<LogFiles>, ExitCode> {
    let logs = logs_of_one_kind(rt, options, disk)?;
    if options.get_strs("names").is_some() {
        return Ok(logs);
    }
    with_missing(rt, logs, lines)
}

// The status of both: that a log could not be read comes first.
fn worse(checked: ExitCode, compared: u8) -> ExitCode {
    if checked == ExitCode::SUCCESS || compared == UNREAD {
        ExitCode::from(compared)
    } else {
        checked
    }
}

// Checks these logs of a folder and what the last items of torn ones have, and finds files that no index names: those of the logs
// that the words name, or all of the folder.
fn check_folder(
    rt: &HostRuntime,
    options: &ArgMatches<'_>,
    disk: &mut FolderOfLogs,
    logs: &[LogFiles],
    style: Style,
) -> Result<ExitCode, ExitCode> {
    let mut torn = Vec::new(rt.alloc());
    let status = check_these(rt, disk, logs, style, &mut torn)?;
    if status == ExitCode::from(UNREAD) {
        tell_odd(rt, folder_in(options), disk, logs)?;
    }
    tell_losses(rt, disk, torn.as_slice(), style)?;
    let asked = match options.get_strs("names") {
        None => None,
        Some(_) => Some(logs),
    };
    if tell_strays(rt, disk, asked, style)? {
        return Ok(worse(status, UNCLEAN));
    }
    Ok(status)
}

/// Checks these logs. The last files of those that need a repair are added to `torn`, if they may show losses.
pub fn check_these(
    rt: &HostRuntime,
    disk: &mut FolderOfLogs,
    logs: &[LogFiles],
    style: Style,
    torn: &mut Vec<FileName>,
) -> Result<ExitCode, ExitCode> {
    let Ok(mut output) = BufWriter::with_capacity(rt.alloc(), BUFFER_BYTES, io::writer(rt)) else {
        return Err(tell(rt, ReportFault::OutOfMemory, UNREAD));
    };
    let checked = check_logs(rt.alloc(), disk, logs, style, torn, &mut output);
    let written = output.flush();
    Ok(end(rt, checked, written))
}

// Lists the logs, or says why the words do not name any.
fn try_list(rt: &HostRuntime, options: &ArgMatches<'_>) -> Result<ExitCode, ExitCode> {
    let mut disk = opened(rt, options)?;
    list_folder(rt, options, &mut disk)
}

// Lists the logs of a folder that the words name.
fn list_folder(
    rt: &HostRuntime,
    options: &ArgMatches<'_>,
    disk: &mut FolderOfLogs,
) -> Result<ExitCode, ExitCode> {
    let logs = logs_asked(rt, options, disk)?;
    let Ok(mut output) = BufWriter::with_capacity(rt.alloc(), BUFFER_BYTES, io::writer(rt)) else {
        return Err(tell(rt, ReportFault::OutOfMemory, UNREAD));
    };
    let listed = list_logs(rt.alloc(), disk, &logs, &mut output);
    let written = output.flush();
    Ok(end(rt, listed, written))
}

/// The logs that the words name. Two logs of the same name are refused, since a digest does not state the kind.
pub fn logs_of_one_kind(
    rt: &HostRuntime,
    options: &ArgMatches<'_>,
    disk: &mut FolderOfLogs,
) -> Result<Vec<LogFiles>, ExitCode> {
    let logs = logs_asked(rt, options, disk)?;
    match base_of_both_kinds(rt.alloc(), &logs) {
        Ok(None) => Ok(logs),
        Ok(Some(base)) => Err(tell(
            rt,
            format_args!(
                "{base}: there is a halt log and a wrap log, and a digest does not state the kind: name other logs"
            ),
            MISUSED,
        )),
        Err(_) => Err(tell(rt, ReportFault::OutOfMemory, UNREAD)),
    }
}

// The logs that the words name: those of these bases, or all of the folder.
fn logs_asked(
    rt: &HostRuntime,
    options: &ArgMatches<'_>,
    disk: &mut FolderOfLogs,
) -> Result<Vec<LogFiles>, ExitCode> {
    let found = logs_in(rt, folder_in(options), disk)?;
    match options.get_strs("names") {
        None => Ok(found),
        Some(names) => logs_of(rt, &found, names),
    }
}

// Those of the logs that have one of these bases.
fn logs_of(
    rt: &HostRuntime,
    found: &[LogFiles],
    names: &[&str],
) -> Result<Vec<LogFiles>, ExitCode> {
    let mut logs = Vec::new(rt.alloc());
    for name in names {
        let Some(base) = Base::parse(name.as_bytes()) else {
            return Err(no_name(rt, name));
        };
        let added = match logs_named(rt.alloc(), found, base) {
            Ok(own) => logs.extend_from_slice(&own),
            Err(error) => Err(error),
        };
        if added.is_err() {
            return Err(tell(rt, ReportFault::OutOfMemory, UNREAD));
        }
    }
    Ok(logs)
}

// Returns the status of a report, or says why it was not written to its end.
fn end(rt: &HostRuntime, told: Result<Health, ReportFault>, written: io::Result<()>) -> ExitCode {
    if let Err(error) = written {
        return tell(rt, format_args!("standard output: {error}"), UNREAD);
    }
    match told {
        Ok(health) => status_of(health),
        Err(fault) => tell(rt, fault, UNREAD),
    }
}

// The status that says how logs stand.
fn status_of(health: Health) -> ExitCode
    ensures { exit_status result ≡ health_status health }
{
    match health {
        Health::Clean => ExitCode::SUCCESS,
        Health::Unclean => ExitCode::from(UNCLEAN),
        Health::Unread => ExitCode::from(UNREAD),
    }
}
