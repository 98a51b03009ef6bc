//! Runs worked cases: scripts with the answers that they are to get.
#![tactic(auto)]

mod fault;
mod folder;
mod suite;
mod threads;

use fault::Stop;
use std::env;
use std::process::ExitCode;
use std::sync::Wait;
use std::thread::Threads;
use std::time::Clock;
use suite::{Tally, run_suite};

const HELP: &str =
    "Runs the worked cases of the folder DIR and compares each answer with the one that is written

Usage: dlog_cases DIR

  DIR            The folder with the cases, the files whose names end in .case
  -h, --help     Print help
  -V, --version  Print version";

fn main(rt: HostRuntime) -> ExitCode {
    match run(&rt, &rt) {
        Ok(true) => ExitCode::SUCCESS,
        Ok(false) => ExitCode::FAILURE,
        Err(stop) => tell(&rt, stop),
    }
}

// Says on standard error why the program stops. If that is closed too, the status alone says it.
fn tell(rt: &HostRuntime, stop: Stop) -> ExitCode {
    let _ = eprintln!(rt; "dlog_cases: {stop}");
    match stop {
        Stop::Misused => ExitCode::from(2),
        Stop::System(_) => ExitCode::FAILURE,
    }
}

// Reads the one word after the name of the program. The handle starts the threads of the cases.
fn run<T: Threads + Wait + Clock + Sync>(rt: &HostRuntime, handle: &T) -> Result<bool, Stop> {
    let mut words = env::args(rt).map_err(|_| Stop::Misused)?.skip(1);
    match (words.next(), words.next()) {
        (Some(word), None) => run_word(rt, handle, word.as_str()),
        _ => Err(Stop::Misused),
    }
}

// Does what a word asks for, and returns whether no case failed.
fn run_word<T: Threads + Wait + Clock + Sync>(
    rt: &HostRuntime,
    handle: &T,
    word: &str,
) -> Result<bool, Stop> {
    let mut tally = Tally::default();
    match word {
        "-h" | "--help" => println!(rt; "{HELP}")?,
        "-V" | "--version" => println!(rt; "dlog_cases 0.1.0")?,
        _ if word.starts_with('-') => return Err(Stop::Misused),
        folder => run_suite(rt, handle, folder, &mut tally)?,
    }
    Ok(tally.failed == 0)
}
