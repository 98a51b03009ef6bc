//! The program: a script of calls on standard input, and its answers on standard output; what the logs of a folder are, and a
//! repair; the items of a log; and lines that are logged.
#![tactic(auto)]

ghost use Rattle.std.specs.Prelude.{◌≡◌};
ghost use Rattle.std.specs.Process.{exit_status};

mod append;
mod appended;
mod begin;
mod beside;
mod by_log;
mod check;
mod closed;
mod digest;
mod disk;
mod dump;
mod faults;
mod files;
mod folder;
mod info;
mod kept;
mod noted;
mod reasons;
mod repair;
mod reporting;
mod script;
mod serve;
mod standard;
mod tail;
mod threads;
mod told;
mod watched;

use anyhow::Result;
use clap::error::ErrorKind;
use clap::{ArgMatches, Command, Error};
use standard::filled_streams;
use std::alloc::{AllocError, Global};
use std::fmt::Display;
use std::process::ExitCode;
use std::sync::Wait;
use std::thread::Threads;
use std::time::Clock;
use std::{env, io};

// The bytes that are read, and written, at a time.
const BUFFER_BYTES: usize = 65_536;

// The blocks of the cache of a command that opens one log.
const BLOCKS: u32 = 16;

// The status if the program could not do its work, and if what it was given is wrong.
const FAILED: u8 = 1;

const MISUSED: u8 = 2;

// The status if a log that was checked is not clean, and if it could not be read.
const UNCLEAN: u8 = 1;

const UNREAD: u8 = 3;

fn main(rt: HostRuntime) -> Result<ExitCode> {
    // Without `/dev/null` the streams stay as they are.
    let _filled = filled_streams(&rt);
    run(&rt, &rt)
}

// Runs the command that the words name.
fn run<T: Threads + Wait + Clock + Sync>(rt: &HostRuntime, handle: &T) -> Result<ExitCode> {
    let args = match env::args(rt) {
        Ok(args) => args,
        Err(error) => return Ok(tell_unread_words(rt, error)),
    };
    let words: Vec<String> = args.collect(rt.alloc())?;
    let command = command(rt.alloc())?;
    let matches = match command.try_get_matches_from(words.as_slice()) {
        Ok(matches) => matches,
        Err(error) => return Ok(show(rt, &error)),
    };
    match matches.subcommand() {
        Some(("threads", options)) => Ok(threads::run(rt, handle, options)),
        Some((name, options)) => Ok(run_command(rt, name, options)),
        None => Ok(ExitCode::from(MISUSED)),
    }
}

// Says why the words could not be read.
fn tell_unread_words(rt: &HostRuntime, error: io::Error) -> ExitCode {
    if error.kind() == io::ErrorKind::InvalidData {
        return tell(rt, "a word of the command is no UTF-8 text", MISUSED);
    }
    tell(rt, error, MISUSED)
}

// Runs the command of this name.
fn run_command(rt: &HostRuntime, name: &str, options: &ArgMatches<'_>) -> ExitCode {
    match name {
        "check" => check::check(rt, options),
        "list" => check::list(rt, options),
        "info" => info::run(rt, options),
        "repair" => repair::run(rt, options),
        "serve" => serve::run(rt, options),
        "append" => append::run(rt, options),
        "dump" => dump::run(rt, options),
        "digest" => digest::run(rt, options),
        "tail" => tail::run(rt, options),
        _ => script::run(rt, options),
    }
}

// Shows what was asked for, as the help, or what is wrong with the words.
fn show(rt: &HostRuntime, error: &Error) -> ExitCode {
    if error.kind() == ErrorKind::OutOfMemory {
        return tell(rt, "out of memory", FAILED);
    }
    match error.print(rt) {
        Ok(()) => ExitCode::from(error.exit_code() as u8),
        Err(error) => tell(rt, format_args!("standard output: {error}"), FAILED),
    }
}

// The command line.
fn command<'a>(alloc: Global) -> Result<Command<'a>, AllocError> {
    let command = Command::new(alloc, "dlog")
        .version("0.1.0")
        .about("A server of logs that keep their items in order and give them back in chunks")
        .subcommand_required(true)
        .subcommand(script::command(alloc)?)?
        .subcommand(threads::command(alloc)?)?;
    with_work(alloc, with_reports(alloc, command)?)
}

// The command line with the commands that report on logs.
fn with_reports<'a>(alloc: Global, command: Command<'a>) -> Result<Command<'a>, AllocError> {
    command
        .subcommand(check::check_command(alloc)?)?
        .subcommand(check::list_command(alloc)?)?
        .subcommand(info::command(alloc)?)?
        .subcommand(digest::command(alloc)?)
}

// The command line with the commands that work on a log.
fn with_work<'a>(alloc: Global, command: Command<'a>) -> Result<Command<'a>, AllocError> {
    command
        .subcommand(repair::command(alloc)?)?
        .subcommand(dump::command(alloc)?)?
        .subcommand(tail::command(alloc)?)?
        .subcommand(serve::command(alloc)?)?
        .subcommand(append::command(alloc)?)
}

// Says what went wrong on standard error. If that is closed too, the status alone says it.
fn tell(rt: &HostRuntime, what: impl Display + Drop, status: u8) -> ExitCode
    ensures { exit_status result ≡ status }
{
    let _ = eprintln!(rt; "dlog: {what}");
    ExitCode::from(status)
}
