// The command that runs a script, and what the commands on scripts tell at their ends.
ghost use Rattle.std.specs.Prelude.{◌≡◌};
ghost use Rattle.std.specs.Process.{exit_status};
ghost use Rattle.dlog.specs.Status.{status_of, status_after};

use crate::disk::{Chosen, ChosenDisk, choose, on_disk};
use crate::noted::{Noted, Why, tell_unread, tell_unwritten};
use crate::{BUFFER_BYTES, FAILED, MISUSED, tell};
use clap::{ArgMatches, Command};
use dl_app::{LINE_LIMIT, LINES_LIMIT, ScriptFault, run_script};
use dl_disk::Disk;
use dl_hub::Hub;
use std::alloc::{AllocError, Global};
use std::io;
use std::io::{BufReader, BufWriter};
use std::process::ExitCode;

/// The words of the command.
pub fn command<'a>(alloc: Global) -> Result<Command<'a>, AllocError> {
    let command = Command::new(alloc, "run").about(
        "Run a script from standard input and print its answers",
    );
    on_disk(alloc, command)
}

/// Runs the script on standard input over the disk that the options name.
pub fn run(rt: &HostRuntime, options: &ArgMatches<'_>) -> ExitCode {
    match choose(rt, options) {
        Err(status) => status,
        Ok(Chosen { disk, blocks }) => match disk {
            ChosenDisk::Memory(disk) => run_over(rt, disk, blocks),
            ChosenDisk::Folder(disk) => run_over(rt, disk, blocks),
        },
    }
}

// Runs the script on standard input over a disk.
fn run_over<D: Disk + Drop>(rt: &HostRuntime, disk: D, blocks: u32) -> ExitCode {
    match Hub::new(rt.alloc(), disk, blocks) {
        Ok(mut hub) => run_on(rt, &mut hub),
        Err(fail) => tell(rt, fail, FAILED),
    }
}

// Runs the script on standard input on a hub.
fn run_on<D: Disk + Drop>(rt: &HostRuntime, hub: &mut Hub<D>) -> ExitCode {
    let alloc = rt.alloc();
    let input = BufReader::with_capacity(alloc, BUFFER_BYTES, Noted::new(rt.reader()));
    let output = BufWriter::with_capacity(alloc, BUFFER_BYTES, Noted::new(io::writer(rt)));
    let (Ok(mut input), Ok(mut output)) = (input, output) else {
        return tell(rt, ScriptFault::OutOfMemory, FAILED);
    };
    let done = run_script(alloc, &mut input, &mut output, hub);
    let streams = Streams {
        input: input.get_ref().why(),
        output: output.get_ref().why(),
    };
    end(rt, streams, done)
}

/// Why the system refused the streams of a script, where it did.
#[derive(Clone, Copy)]
pub struct Streams {
    pub input: Why,
    pub output: Why,
}

// Says why a script was not run to its end, if it was not.
fn end(rt: &HostRuntime, streams: Streams, done: Result<(), ScriptFault>) -> ExitCode
    ensures { exit_status result ≡ status_after done }
{
    match done {
        Ok(()) => ExitCode::SUCCESS,
        Err(fault) => tell_stopped(rt, streams, fault),
    }
}

/// Says why a script was not run to its end.
pub fn tell_stopped(rt: &HostRuntime, streams: Streams, fault: ScriptFault) -> ExitCode
    ensures { exit_status result ≡ status_of fault }
{
    match fault {
        ScriptFault::BadLine(line) => tell_bad_line(rt, line),
        ScriptFault::Read => tell_unread(rt, streams.input, FAILED),
        ScriptFault::Write => tell_unwritten(rt, streams.output, FAILED),
        ScriptFault::OutOfMemory => tell(rt, fault, FAILED),
    }
}

// Says why a line, by its number, is none of a script.
fn tell_bad_line(rt: &HostRuntime, line: u64) -> ExitCode
    ensures { exit_status result ≡ 2 }
{
    if line > LINES_LIMIT {
        return tell(
            rt,
            format_args!("bad line {line}: a script has at most {LINES_LIMIT} lines"),
            MISUSED,
        );
    }
    tell(
        rt,
        format_args!(
            "bad line {line}: it has no form of a call, or more than {LINE_LIMIT} bytes\ndocs/SCRIPTS.md has the forms"
        ),
        MISUSED,
    )
}
