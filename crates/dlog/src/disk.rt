// The disk over which a command works.
use crate::folder::rolls_word;
use crate::reporting::ReportingDisk;
use crate::{FAILED, MISUSED, tell};
use clap::{Arg, ArgMatches, Command, value_parser};
use dl_disk::{FolderDisk, MemoryDisk, OpenFault, Syncs};
use std::alloc::{AllocError, Global};
use std::fs::{File, metadata, read_dir};
use std::io;
use std::io::ErrorKind;
use std::process::ExitCode;

/// A command with the options that say where the files are, how many blocks the cache has, and when bytes are synced.
pub fn on_disk<'a>(alloc: Global, command: Command<'a>) -> Result<Command<'a>, AllocError> {
    let folder = Arg::new(alloc, "folder")
        .long("folder")
        .value_name("DIR")
        .help(
            "Keep the files in the folder DIR, which has to exist, and open those that it has. Without --folder they are in memory",
        );
    let blocks = Arg::new(alloc, "blocks")
        .long("blocks")
        .value_name("N")
        .value_parser(value_parser!(u32).range(1..=65_536))
        .default_value("16")
        .help("Let items wait in N blocks of 4096 bytes before they are written, from 1 to 65536");
    command.arg(folder)?.arg(blocks)?.arg(rolls_word(alloc))
}

/// A disk that the options of a command name.
pub enum ChosenDisk {
    /// Its files are in memory.
    Memory(MemoryDisk),
    /// Its files are those of a folder.
    Folder(ReportingDisk<FolderDisk<HostRuntime>>),
}

/// The disk of a command, and the blocks of its cache.
pub struct Chosen {
    pub disk: ChosenDisk,
    pub blocks: u32,
}

/// The disk and the blocks that the options name, or the status after a message on what is wrong with them.
pub fn choose(rt: &HostRuntime, options: &ArgMatches<'_>) -> Result<Chosen, ExitCode> {
    let Some(blocks) = options.get_one("blocks") else {
        return Err(ExitCode::from(MISUSED));
    };
    let disk = match options.get_str("folder") {
        None => ChosenDisk::Memory(MemoryDisk::new(rt.alloc())),
        Some(path) => match open_reporting(rt, options, path) {
            Ok(disk) => ChosenDisk::Folder(disk),
            Err(fault) => return Err(tell_unopened(rt, path, fault, FAILED)),
        },
    };
    Ok(Chosen { disk, blocks })
}

// The disk over the folder at this path, which says why its calls fail.
fn open_reporting(
    rt: &HostRuntime,
    options: &ArgMatches<'_>,
    path: &str,
) -> Result<ReportingDisk<FolderDisk<HostRuntime>>, OpenFault> {
    let disk = open_folder(rt, options, path)?;
    let own = rt.clone().map_err(|_| OpenFault::OutOfMemory)?;
    let folder = String::from_str(rt.alloc(), path)?;
    Ok(ReportingDisk::new(own, disk, folder))
}

/// The disk over the folder at this path.
pub fn open_folder(
    rt: &HostRuntime,
    options: &ArgMatches<'_>,
    path: &str,
) -> Result<FolderDisk<HostRuntime>, OpenFault> {
    let own = rt.clone().map_err(|_| OpenFault::OutOfMemory)?;
    let syncs = if options.get_flag("unsynced-rolls") {
        Syncs::OnlyWhenAsked
    } else {
        Syncs::AtRolls
    };
    FolderDisk::open_with(own, path, syncs)
}

/// Says why the folder at this path was not opened.
pub fn tell_unopened(rt: &HostRuntime, path: &str, fault: OpenFault, status: u8) -> ExitCode {
    match fault {
        OpenFault::InUse => tell(
            rt,
            format_args!("{path}: another program uses the folder: stop it first, or take a copy"),
            status,
        ),
        OpenFault::Device => match look_at(rt, path) {
            Err(error) => tell(rt, format_args!("{path}: {error}"), status),
            Ok(()) => tell(
                rt,
                format_args!("{path}: the folder cannot be read"),
                status,
            ),
        },
        OpenFault::OutOfMemory => tell(rt, "out of memory", status),
    }
}

// Asks the system for the folder at this path, as an open does. An `Err` says why it has none there.
fn look_at(rt: &HostRuntime, path: &str) -> io::Result<()> {
    if !metadata(rt, path)?.is_dir() {
        return Err(ErrorKind::NotADirectory.into());
    }
    File::open(rt, path)?.try_lock().map_err(io::Error::from)?;
    read_dir(rt, path)?;
    Ok(())
}
