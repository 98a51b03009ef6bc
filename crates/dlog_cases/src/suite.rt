// All cases of a folder, one after another.
use crate::folder::run_in_folder;
use crate::threads::run_with_threads;
use dl_cases::{
    CaseFault, How, Step, Trial, blocks_of, count_answers, has_failure, run_trials, steps_of,
};
use std::path::{Path, PathBuf};
use std::sync::Wait;
use std::thread::Threads;
use std::time::Clock;
use std::{env, fs, io, process};

// What the name of a case's file ends in.
const ENDING: &str = ".case";

/// How many cases were run, with how many answers, how many logs alone and how many scripts with threads, and how many cases failed.
#[derive(Clone, Copy, Default)]
pub struct Tally {
    pub cases: u64,
    pub answers: u64,
    pub logs: u64,
    pub settled: u64,
    pub failed: u64,
}

/// Runs all cases of a folder in the order of their names, and prints a line for each and one for all.
pub fn run_suite<T: Threads + Wait + Clock + Sync>(
    rt: &HostRuntime,
    handle: &T,
    folder: &str,
    tally: &mut Tally,
) -> io::Result<()> {
    let names = case_names(rt, folder)?;
    let room = room_of(rt)?;
    for name in &names {
        run_file(rt, handle, folder, name.as_str(), room.as_path(), tally)?;
    }
    let Tally {
        cases,
        answers,
        logs,
        settled,
        failed,
    } = *tally;
    println!(rt;
        "{cases} cases, {answers} answers, {logs} logs alone, {settled} with threads, {failed} failed"
    )
}

// The folder in which the folders of the cases are made, one after another.
fn room_of(rt: &HostRuntime) -> io::Result<PathBuf> {
    let name = format!(in rt.alloc(); "dlog_cases-{}", process::id(rt.process()))?;
    let path = env::temp_dir(rt)?.join(rt.alloc(), name.as_str())?;
    Ok(path)
}

// The names of the files that are cases, sorted.
fn case_names(rt: &HostRuntime, folder: &str) -> io::Result<Vec<String>> {
    let mut names = Vec::new(rt.alloc());
    for entry in fs::read_dir(rt, folder)? {
        let entry = entry?;
        if entry.file_name().ends_with(ENDING) {
            names.push(entry.file_name().to_string(rt.alloc())?)?;
        }
    }
    names.sort()?;
    Ok(names)
}

// Runs the case of a file, and prints what became of it.
fn run_file<T: Threads + Wait + Clock + Sync>(
    rt: &HostRuntime,
    handle: &T,
    folder: &str,
    name: &str,
    room: Path<'_>,
    tally: &mut Tally,
) -> io::Result<()> {
    let text = read_case(rt, folder, name)?;
    let mut trial = Trial {
        blocks: 0,
        how: How::Memory,
        logs: 0,
        settled: 0,
        told: String::new(rt.alloc()),
    };
    let ran = run_case(rt, handle, text.as_str(), room, &mut trial);
    tell(
        rt,
        name.strip_suffix(ENDING).unwrap_or(name),
        ran,
        &trial,
        tally,
    )
}

fn read_case(rt: &HostRuntime, folder: &str, name: &str) -> io::Result<String> {
    let path = Path::new(folder).join(rt.alloc(), name)?;
    fs::read_to_string(rt, path.as_path())
}

// Prints a line for a case, and counts it.
fn tell(
    rt: &HostRuntime,
    title: &str,
    ran: Result<u64, CaseFault>,
    trial: &Trial,
    tally: &mut Tally,
) -> io::Result<()> {
    tally.cases = tally.cases.saturating_add(1);
    let Trial {
        blocks,
        how,
        logs,
        settled,
        told,
    } = trial;
    match ran {
        Ok(answers) => {
            tally.answers = tally.answers.saturating_add(answers);
            tally.logs = tally.logs.saturating_add(*logs);
            tally.settled = tally.settled.saturating_add(*settled);
            println!(rt; "{title}: {answers} answers, {logs} logs alone, {settled} with threads")
        }
        Err(fault) => {
            tally.failed = tally.failed.saturating_add(1);
            println!(rt; "{title}: {fault} ({how}, {blocks} blocks){told}")
        }
    }
}

// Runs a case, and returns how many answers it has.
fn run_case<T: Threads + Wait + Clock + Sync>(
    rt: &HostRuntime,
    handle: &T,
    text: &str,
    room: Path<'_>,
    trial: &mut Trial,
) -> Result<u64, CaseFault> {
    let steps = steps_of(rt.alloc(), text)?;
    let blocks = blocks_of(rt.alloc(), steps.as_slice())?;
    for number in &blocks {
        trial.blocks = *number;
        run_steps(rt, steps.as_slice(), room, trial)?;
    }
    run_with_threads(rt, handle, steps.as_slice(), room, blocks.as_slice(), trial)?;
    Ok(count_answers(steps.as_slice()))
}

// Runs the steps of a case in memory, in each way that they ask for, and in a folder if its device does not fail.
fn run_steps(
    rt: &HostRuntime,
    steps: &[Step<'_>],
    room: Path<'_>,
    trial: &mut Trial,
) -> Result<(), CaseFault> {
    run_trials(rt.alloc(), steps, trial)?;
    if has_failure(steps) {
        return Ok(());
    }
    run_in_folder(rt, steps, room, trial)
}
