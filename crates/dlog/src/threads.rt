// The command that runs a script with a thread for each client.
ghost use Rattle.std.specs.Prelude.{◌≡◌};
ghost use Rattle.std.specs.Process.{exit_status};
ghost use Rattle.dlog.specs.Status.{settled_status};

use crate::disk::{Chosen, ChosenDisk, choose, on_disk};
use crate::noted::Noted;
use crate::script::{Streams, tell_stopped};
use crate::{BUFFER_BYTES, FAILED, tell};
use clap::{ArgMatches, Command};
use dl_app::ScriptFault;
use dl_disk::Disk;
use dl_threads::threads_script;
use dl_trail::{Record, Recorded};
use std::alloc::{AllocError, Global};
use std::io;
use std::io::{BufReader, Read};
use std::process::ExitCode;
use std::sync::Wait;
use std::thread::Threads;
use std::time::Clock;

/// The words of the command.
pub fn command<'a>(alloc: Global) -> Result<Command<'a>, AllocError> {
    let command = Command::new(alloc, "threads")
        .about(
            "Run a script from standard input with a thread for each client, and print whether each got what the history of the logs has",
        )
        .after_help(
            "The script is read to its end before a client starts. Each client makes the calls of its lines in order and exits, while another thread writes what waits. The lines flush and file, and those of a client after its exit, are skipped. A call that a block suspends waits until the block ends. So a script can block itself, as where each of two clients waits for the other's block to end: dlog threads then hangs.\nIt prints settled or not settled, and nothing else. All that is done is kept in memory until then.\nThe status is 0 if it is settled, 1 if not or if the script could not be run, and 2 for wrong words or a line of no form.\n\nExample: dlog threads --blocks 1 < calls.script",
        );
    on_disk(alloc, command)
}

/// Runs the script on standard input over the disk that the options name. The handle starts the threads.
pub fn run<T: Threads + Wait + Clock + Sync>(
    rt: &HostRuntime,
    handle: &T,
    options: &ArgMatches<'_>,
) -> ExitCode {
    match choose(rt, options) {
        Err(status) => status,
        Ok(Chosen { disk, blocks }) => match disk {
            ChosenDisk::Memory(disk) => run_over(rt, handle, disk, blocks),
            ChosenDisk::Folder(disk) => run_over(rt, handle, disk, blocks),
        },
    }
}

// Runs the script on standard input over a disk.
fn run_over<D: Disk + Drop + Send, T: Threads + Wait + Clock + Sync>(
    rt: &HostRuntime,
    handle: &T,
    disk: D,
    blocks: u32,
) -> ExitCode {
    match Recorded::new(rt.alloc(), disk, blocks, Record::Kept) {
        Ok(hub) => run_on(rt, handle, hub),
        Err(fail) => tell(rt, fail, FAILED),
    }
}

// Runs the script on standard input on a hub.
fn run_on<D: Disk + Drop + Send, T: Threads + Wait + Clock + Sync>(
    rt: &HostRuntime,
    handle: &T,
    hub: Recorded<D>,
) -> ExitCode {
    match BufReader::with_capacity(rt.alloc(), BUFFER_BYTES, Noted::new(rt.reader())) {
        Ok(mut input) => run_read(rt, handle, &mut input, hub),
        Err(_) => tell(rt, ScriptFault::OutOfMemory, FAILED),
    }
}

// Runs the script of an input on a hub.
fn run_read<D: Disk + Drop + Send, T: Threads + Wait + Clock + Sync, I: Read>(
    rt: &HostRuntime,
    handle: &T,
    input: &mut BufReader<Noted<I>>,
    hub: Recorded<D>,
) -> ExitCode {
    let mut output = Noted::new(io::writer(rt));
    let done = threads_script(handle, rt.alloc(), input, &mut output, hub);
    let streams = Streams {
        input: input.get_ref().why(),
        output: output.why(),
    };
    end(rt, streams, done)
}

// The status of a script that was run, or says why it was not.
fn end(rt: &HostRuntime, streams: Streams, done: Result<bool, ScriptFault>) -> ExitCode
    ensures { exit_status result ≡ settled_status done }
{
    match done {
        Ok(true) => ExitCode::SUCCESS,
        Ok(false) => ExitCode::from(FAILED),
        Err(fault) => tell_stopped(rt, streams, fault),
    }
}
