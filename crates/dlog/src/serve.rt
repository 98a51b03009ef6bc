// The command that serves the logs of a folder to the program that started it.
ghost use Rattle.std.specs.Prelude.{◌≡◌};
ghost use Rattle.std.specs.Process.{exit_status};
ghost use Rattle.dlog.specs.Status.{left_status, served_status};

use crate::disk::{Chosen, ChosenDisk, choose, on_disk};
use crate::noted::{Noted, tell_unread, tell_unwritten};
use crate::{FAILED, tell};
use clap::{ArgMatches, Command};
use dl_disk::Disk;
use dl_hub::Hub;
use dl_serve::{Ended, Left, ServeFault, Served, serve};
use std::alloc::{AllocError, Global};
use std::io;
use std::process::ExitCode;

/// The words of the command.
pub fn command<'a>(alloc: Global) -> Result<Command<'a>, AllocError> {
    let command = Command::new(alloc, "serve")
        .about("Answer the frames of a program on standard input and output")
        .after_help(
            "Each frame is a length in four bytes, greatest first, and that many bytes; docs/PROTOCOL.md has their form. When the input ends, dlog serve closes the logs, and tries again a few times what the device does not take.\nThe status is 0 if the input was served to its end and nothing was left unwritten, 1 if not, and 2 for wrong words.",
        );
    on_disk(alloc, command)
}

/// Serves the program on standard input and output over the disk that the words name.
pub fn run(rt: &HostRuntime, options: &ArgMatches<'_>) -> ExitCode {
    match choose(rt, options) {
        Err(status) => status,
        Ok(Chosen { disk, blocks }) => match disk {
            ChosenDisk::Memory(disk) => run_over(rt, disk, blocks),
            ChosenDisk::Folder(disk) => run_over(rt, disk, blocks),
        },
    }
}

// Serves the program over a disk.
fn run_over<D: Disk + Drop>(rt: &HostRuntime, disk: D, blocks: u32) -> ExitCode {
    match Hub::new(rt.alloc(), disk, blocks) {
        Ok(mut hub) => run_on(rt, &mut hub),
        Err(fail) => tell(rt, fail, FAILED),
    }
}

// Serves the program on a hub.
fn run_on<D: Disk + Drop>(rt: &HostRuntime, hub: &mut Hub<D>) -> ExitCode {
    let mut input = Noted::new(rt.reader());
    let mut output = Noted::new(io::writer(rt));
    match serve(rt.alloc(), &mut input, &mut output, hub) {
        Ok(served) => tell_served(rt, served),
        Err(ServeFault::Read) => tell_unread(rt, input.why(), FAILED),
        Err(ServeFault::Write) => tell_unwritten(rt, output.why(), FAILED),
        Err(fault) => tell(rt, fault, FAILED),
    }
}

// Says what was not written as the stream ended, and whether a frame was too long.
fn tell_served(rt: &HostRuntime, served: Served) -> ExitCode
    ensures { exit_status result ≡ served_status served }
{
    let written = tell_left(rt, served.left);
    match served.ended {
        Ended::Input => written,
        Ended::LongFrame => tell(rt, "a frame is too long", FAILED),
    }
}

// Says what was not written, if anything was not.
fn tell_left(rt: &HostRuntime, left: Left) -> ExitCode
    ensures { exit_status result ≡ left_status left }
{
    match left {
        Left::Nothing => ExitCode::SUCCESS,
        Left::Unwritten(log) => tell(
            rt,
            format_args!(
                "{log}: the device failed as the logs were closed: what waited of {log}, and behind it, is lost"
            ),
            FAILED,
        ),
        Left::NoMemory => tell(
            rt,
            "out of memory: not all was written as the logs were closed",
            FAILED,
        ),
    }
}
