//! The benchmark: how fast items are logged, read back and found again, over a folder and over memory.
#![tactic(auto)]

mod alone;
mod bench;
mod beside;
mod client;
mod fault;
mod measures;
mod readers;
mod rounds;
mod syncs;
mod threads;
mod waits;
mod writer;

use bench::Bench;
use fault::Fault;
use measures::measure_all;
use readers::{CHUNKS, measure_chunks};
use rounds::{is_of_rounds, measure_rounds};
use std::env;
use std::process::ExitCode;
use std::sync::Wait;
use std::thread::Threads;
use std::time::Clock;
use syncs::{is_of_syncs, measure_syncs};

// The blocks of a hub's cache, as many as the program has by default.
const BLOCKS: u32 = 16;

// The most threads that share a server.
const MOST_THREADS: u32 = 64;

const HELP: &str =
    "Measures dlog over the folder DIR and over memory. The files that it makes in DIR begin with bench_:
those of an earlier run are removed before and its own after, and nothing else is

Usage: dlog_bench [--counts] [--blocks=B] [--threads=T [--only=NAME]] DIR N

  DIR            The folder to write in, which has to be there and should be empty
  N              How many items of 100 bytes a measure logs, from 1 to 100000000
  --blocks=B     The blocks of 4,096 bytes in which items wait, from 1 to 65536; 16 if it is not given
  --threads=T    Measure also what T threads log through one server, from 1 to 64
  --only=NAME    Take the one measure with threads of this name alone, as threads_sync of the line dlog_threads_sync_folder
  --counts       Print what was logged and read back in place of how fast
  -h, --help     Print help
  -V, --version  Print version";

fn main(rt: HostRuntime) -> ExitCode {
    let Err(fault) = run(&rt, &rt) else {
        return ExitCode::SUCCESS;
    };
    // If standard error is closed too, the status alone says it.
    let _ = eprintln!(rt; "dlog_bench: {fault}");
    match fault {
        Fault::Misused => ExitCode::from(2),
        _ => ExitCode::FAILURE,
    }
}

// Does what the words of the program ask for. The runtime comes once more for what starts threads.
fn run<R: Threads + Wait + Clock + Sync>(host: &HostRuntime, rt: &R) -> Result<(), Fault> {
    let words = env::args(host).map_err(|_| Fault::Misused)?;
    let words: Vec<String> = words.collect(host.alloc())?;
    let Some(bench) = read_words(host, words.as_slice())? else {
        return Ok(());
    };
    if bench.only.is_none() {
        measure_all(bench)?;
    }
    if bench.threads > 0 {
        measure_rounds(rt, bench)?;
        measure_syncs(rt, bench)?;
        measure_chunks(rt, bench)?;
    }
    Ok(())
}

// Whether there is a measure with threads of this name.
fn is_measure(name: &str) -> bool {
    is_of_rounds(name) || is_of_syncs(name) || name == CHUNKS
}

// What the words ask for, the first of which is the name of the program. Help and version are printed here.
fn read_words<'a>(rt: &'a HostRuntime, words: &'a [String]) -> Result<Option<Bench<'a>>, Fault> {
    let (mut folder, mut number, mut counts) = (None, None, false);
    let (mut blocks, mut threads, mut only) = (BLOCKS, 0, None);
    for word in words.iter().skip(1) {
        match word.as_str() {
            "-h" | "--help" => return show(rt, HELP),
            "-V" | "--version" => return show(rt, "dlog_bench 0.1.0"),
            "--counts" if !counts => counts = true,
            word if word.starts_with("--blocks=") => blocks = value(word, "--blocks=")?,
            word if word.starts_with("--threads=") => threads = value(word, "--threads=")?,
            word if word.starts_with("--only=") => only = word.strip_prefix("--only="),
            word if word.starts_with('-') => return Err(Fault::Misused),
            word if folder.is_none() => folder = Some(word),
            word if number.is_none() => number = Some(word),
            _ => return Err(Fault::Misused),
        }
    }
    let (Some(folder), Some(number)) = (folder, number) else {
        return Err(Fault::Misused);
    };
    let Ok(items @ 1..=100_000_000) = number.parse() else {
        return Err(Fault::Misused);
    };
    if threads > MOST_THREADS || only.is_some_and(|name| threads == 0 || !is_measure(name)) {
        return Err(Fault::Misused);
    }
    Ok(Some(Bench {
        rt,
        folder,
        place: "folder",
        items,
        counts,
        blocks,
        threads,
        only,
    }))
}

// Prints a text in place of measuring.
fn show<'a>(rt: &HostRuntime, text: &str) -> Result<Option<Bench<'a>>, Fault> {
    println!(rt; "{text}")?;
    Ok(None)
}

// The number that a word gives after the name of an option.
fn value(word: &str, option: &str) -> Result<u32, Fault> {
    let number = word
        .strip_prefix(option)
        .and_then(|number| number.parse().ok());
    number.ok_or(Fault::Misused)
}
