// The commands on a folder of logs, as a case uses them after the lines of a hub.
use crate::case::Tool;
use crate::checked::{style_of, tell_losses, tell_strays};
use crate::fault::CaseFault;
use dl_disk::{Disk, ListFault};
use dl_hub::Hub;
use dl_pipe::{
    AppendArgs, Appended, Closing, Cut, DumpArgs, Form, Gap, Mended, PipeFault, Source, Spot,
    Syncs, append_items, dump_log, repair_log,
};
use dl_tool::{LogFiles, check_logs, describe_log, find_logs, list_logs, logs_named};
use dl_types::{Base, Item, Kind, Name, Size};
use std::alloc::Global;
use std::io;
use std::io::Write;

/// Reports on a disk if the command does that, or returns the log that the command works on.
pub fn tell_of<D: Disk>(
    alloc: Global,
    disk: &mut D,
    tool: Tool<'_>,
    output: &mut Vec<u8>,
) -> Result<Option<LogFiles>, CaseFault> {
    let found = find_logs(alloc, disk)?;
    let others = tool.others;
    match tool.verb {
        "check" => {
            let style = style_of(others);
            let mut torn = Vec::new(alloc);
            check_logs(alloc, disk, &found, style, &mut torn, output)?;
            tell_losses(alloc, disk, torn.as_slice(), style, output)?;
            tell_strays(alloc, disk, style, output)?;
            Ok(None)
        }
        "list" => {
            list_logs(alloc, disk, &found, output)?;
            Ok(None)
        }
        "info" => {
            describe_log(alloc, disk, log_of(alloc, &found, others)?, output)?;
            Ok(None)
        }
        _ => Ok(Some(log_of(alloc, &found, others)?)),
    }
}

// The log that the words begin with: it has the kind that the words or the files say, or is a halt log.
fn log_of(alloc: Global, found: &[LogFiles], others: &str) -> Result<LogFiles, CaseFault> {
    let name = others.split(' ').next().unwrap_or(others);
    let base = Base::parse(name.as_bytes()).ok_or(CaseFault::BadTool)?;
    let own = logs_named(alloc, found, base)?;
    let mut log = *own.first().ok_or(CaseFault::BadTool)?;
    if others.contains(" --wrap ") {
        log.kind = Kind::Wrap;
    }
    Ok(log)
}

/// Does what a command does with a log.
pub fn work_on<D: Disk + Drop>(
    alloc: Global,
    hub: &mut Hub<D>,
    log: LogFiles,
    tool: Tool<'_>,
    input: &str,
    output: &mut Vec<u8>,
) -> Result<(), CaseFault> {
    let LogFiles { base, kind } = log;
    let name = Name::parse(base.as_bytes()).ok_or(CaseFault::BadTool)?;
    match tool.verb {
        "append" => {
            let mut input = input.as_bytes();
            let args = append_of(alloc, kind, tool.others)?;
            let done = append_items(alloc, hub, name, args, &mut input);
            tell_append(done, output)
        }
        "dump" => {
            let done = dump_log(alloc, hub, name, dump_of(kind, tool.others)?, output);
            tell_dump(done, output)
        }
        "repair" => tell_repair(repair_log(hub, name, kind), output),
        _ => Err(CaseFault::BadTool),
    }
}

// How the words say that items are logged to a log of this kind.
fn append_of(alloc: Global, kind: Kind, others: &str) -> Result<AppendArgs, CaseFault> {
    let head = match value_of(others, " --head ") {
        Some(text) => Some(item_of(alloc, text)?),
        None => None,
    };
    let syncs = match value_of(others, " --sync-every ") {
        Some(text) => Syncs::Every(number_of(text)?),
        None => Syncs::Never,
    };
    Ok(AppendArgs {
        kind,
        size: size_of(others)?,
        head,
        syncs,
        source: if others.contains(" --escaped") {
            Source::Escaped
        } else {
            Source::Lines
        },
    })
}

// Which items of a log of this kind the words ask for, and how they are written.
fn dump_of(kind: Kind, others: &str) -> Result<DumpArgs, CaseFault> {
    let from = match value_of(others, " --from ") {
        Some(text) => Some(spot_of(text)?),
        None => None,
    };
    let most = match value_of(others, " --most ") {
        Some(text) => number_of(text)?,
        None => u64::MAX,
    };
    Ok(DumpArgs {
        kind,
        from,
        most,
        form: if others.contains(" --hex") {
            Form::Hex
        } else {
            Form::Escaped
        },
        places: others.contains(" --places"),
    })
}

// The word after an option, if the option is there.
fn value_of<'t>(others: &'t str, option: &str) -> Option<&'t str> {
    let (_, behind) = others.split_once(option)?;
    Some(behind.split(' ').next().unwrap_or(behind))
}

fn number_of(text: &str) -> Result<u64, CaseFault> {
    text.parse().map_err(|_| CaseFault::BadTool)
}

// A place of the form GENERATION:ITEMS.
fn spot_of(text: &str) -> Result<Spot, CaseFault> {
    let (generation, before) = text.split_once(':').ok_or(CaseFault::BadTool)?;
    Ok(Spot {
        generation: number_of(generation)?,
        before: number_of(before)?,
    })
}

fn item_of(alloc: Global, text: &str) -> Result<Item, CaseFault> {
    Item::of(text.as_bytes().to_vec(alloc)?).map_err(|_| CaseFault::BadTool)
}

// The size that the words ask for.
fn size_of(others: &str) -> Result<Option<Size>, CaseFault> {
    if let Some(text) = value_of(others, " --size ") {
        return Ok(Some(Size::Limit(number_of(text)?)));
    }
    let Some(text) = value_of(others, " --wrap ") else {
        return Ok(None);
    };
    let (bytes, files) = text.split_once('x').ok_or(CaseFault::BadTool)?;
    let bytes = number_of(bytes)?;
    let files = files.parse().map_err(|_| CaseFault::BadTool)?;
    Ok(Some(Size::Wrap { bytes, files }))
}

// Writes what an append came to.
fn tell_append(done: Result<Appended, PipeFault>, output: &mut Vec<u8>) -> Result<(), CaseFault> {
    let appended = match done {
        Ok(appended) => appended,
        Err(fault) => return tell_fault(fault, output),
    };
    if let Some(cut) = appended.repair {
        tell_cut(cut, output)?;
    }
    let taken = appended.items;
    writeln!(output, "{taken} taken")?;
    tell_closing(appended.closing, output)?;
    match appended.stopped {
        Some(stop) => tell_fault(stop.fault, output),
        None => Ok(()),
    }
}

// Writes what a dump came to, after its items.
fn tell_dump(done: Result<Vec<Gap>, PipeFault>, output: &mut Vec<u8>) -> Result<(), CaseFault> {
    let gaps = match done {
        Ok(gaps) => gaps,
        Err(fault) => return tell_fault(fault, output),
    };
    for gap in &gaps {
        let Gap { after, bytes } = *gap;
        writeln!(output, "{bytes} bad bytes after item {after}")?;
    }
    Ok(())
}

// Writes what a repair came to.
fn tell_repair(done: Result<Mended, PipeFault>, output: &mut Vec<u8>) -> Result<(), CaseFault> {
    let mended = match done {
        Ok(mended) => mended,
        Err(fault) => return tell_fault(fault, output),
    };
    if let Some(cut) = mended.cut {
        tell_cut(cut, output)?;
    }
    tell_closing(mended.closing, output)?;
    match mended.closing.fault() {
        Some(fault) => tell_fault(fault, output),
        None => Ok(()),
    }
}

// Writes that turns finished a log at whose close the device failed, or that the log lingers.
fn tell_closing(closing: Closing, output: &mut Vec<u8>) -> io::Result<()> {
    match closing {
        Closing::Finished(file) => writeln!(output, "finished after a fault at {file}"),
        Closing::Lingers(_) => writeln!(output, "lingers"),
        Closing::Closed | Closing::Refused(_) => Ok(()),
    }
}

fn tell_cut(cut: Cut, output: &mut Vec<u8>) -> Result<(), CaseFault> {
    let Cut { kept, bytes } = cut;
    writeln!(output, "repaired: {kept} items kept, {bytes} bytes cut")?;
    Ok(())
}

fn tell_fault(fault: PipeFault, output: &mut Vec<u8>) -> Result<(), CaseFault> {
    writeln!(output, "{fault}")?;
    Ok(())
}
