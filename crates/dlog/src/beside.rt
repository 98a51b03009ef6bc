// A log that is read beside the program that writes it.
use crate::disk::tell_unopened;
use crate::faults::Place;
use crate::told::tell_tail;
use crate::{MISUSED, UNREAD, tell};
use clap::ArgMatches;
use dl_tail::{Folder, Follower, ReadFolder, TailFault};
use dl_types::{Base, FileName, Kind, Part};
use std::process::ExitCode;

/// The folder that the words name, to be read alone.
pub fn opened_to_read(
    rt: &HostRuntime,
    options: &ArgMatches<'_>,
) -> Result<ReadFolder<HostRuntime>, ExitCode> {
    let Some(path) = options.get_str("folder") else {
        return Err(ExitCode::from(MISUSED));
    };
    let own = match rt.clone() {
        Ok(own) => own,
        Err(error) => return Err(tell(rt, error, UNREAD)),
    };
    match ReadFolder::open(own, path) {
        Ok(folder) => Ok(folder),
        Err(fault) => Err(tell_unopened(rt, path, fault, UNREAD)),
    }
}

/// The kind that the words name, or else that of the log of this name. It is halt if there is none.
pub fn kind_in(
    rt: &HostRuntime,
    options: &ArgMatches<'_>,
    folder: &mut ReadFolder<HostRuntime>,
    place: Place<'_>,
) -> Result<Kind, ExitCode> {
    let log = place.log;
    match options.get_str("kind") {
        Some("halt") => return Ok(Kind::Halt),
        Some("wrap") => return Ok(Kind::Wrap),
        Some(_) => return Err(tell(rt, "--kind is halt or wrap", MISUSED)),
        None => {}
    }
    let halt = is_there(rt, folder, place, Part::Halt)?;
    let wrap = is_there(rt, folder, place, Part::Index)?;
    match (halt, wrap) {
        (true, true) => Err(tell(
            rt,
            format_args!(
                "{log}: there is a halt log and a wrap log: say --kind halt or --kind wrap"
            ),
            MISUSED,
        )),
        (false, true) => Ok(Kind::Wrap),
        _ => Ok(Kind::Halt),
    }
}

// Whether there is this file of a log.
fn is_there(
    rt: &HostRuntime,
    folder: &mut ReadFolder<HostRuntime>,
    place: Place<'_>,
    part: Part,
) -> Result<bool, ExitCode> {
    let file = FileName {
        base: Base::of(place.log),
        part,
    };
    match folder.read(file, &mut [], 0, &mut []) {
        Ok(found) => Ok(found.is_some()),
        Err(_) => Err(tell_tail(rt, place, TailFault::Device(file))),
    }
}

/// The generation of the newest file of a wrap log, and 0 of a halt log, which has one file.
pub fn newest_in(
    rt: &HostRuntime,
    folder: &mut ReadFolder<HostRuntime>,
    place: Place<'_>,
    kind: Kind,
) -> Result<u64, ExitCode> {
    if let Kind::Halt = kind {
        return Ok(0);
    }
    match Follower::start(rt.alloc(), folder, Base::of(place.log), kind, 0) {
        Ok(end) => Ok(end.map_or(0, |end| end.position().generation)),
        Err(fault) => Err(tell_tail(rt, place, fault)),
    }
}
