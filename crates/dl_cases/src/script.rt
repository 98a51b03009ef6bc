// A script that is run on a hub, and its answers one by one.
use crate::answer::{expanded, heard_of};
use crate::case::{BAD_LINE, Line, Step};
use crate::fault::CaseFault;
use dl_app::{ScriptFault, run_script};
use dl_disk::Disk;
use dl_hub::Hub;
use std::alloc::{AllocError, Global};

// How many bytes of an answer are shown if it differs.
const SHOWN_BYTES: usize = 200;

/// Runs the lines among these steps on a hub, as one script, and finds the first line whose answer is not the wanted
/// one. Adds the wanted and the actual answer to the report.
///
/// A bad line ends a script, so the lines after it are run as another one.
pub fn run_lines<D: Disk + Drop>(
    alloc: Global,
    hub: &mut Hub<D>,
    steps: &[Step<'_>],
    told: &mut String,
) -> Result<(), CaseFault> {
    let lines = lines_of(alloc, steps)?;
    let mut left = lines.as_slice();
    for _ in steps {
        if left.is_empty() {
            break;
        }
        let count = run_some(alloc, hub, left, told)?;
        left = left.get(count..).unwrap_or(&[]);
    }
    Ok(())
}

/// The lines among these steps.
pub fn lines_of<'a>(alloc: Global, steps: &[Step<'a>]) -> Result<Vec<Line<'a>>, AllocError> {
    steps
        .iter()
        .filter_map(|step| match step {
            Step::Line(line) => Some(*line),
            _ => None,
        })
        .collect(alloc)
}

// Runs lines up to the first bad one, and returns how many have an answer, each of which is the wanted one.
fn run_some<D: Disk + Drop>(
    alloc: Global,
    hub: &mut Hub<D>,
    lines: &[Line<'_>],
    told: &mut String,
) -> Result<usize, CaseFault> {
    let script = script_of(alloc, lines)?;
    let mut output = Vec::new(alloc);
    answer(alloc, hub, script.as_bytes(), &mut output)?;
    compare(alloc, lines, output.as_slice(), told)
}

// What a script answers, a line each. The answer to a bad line comes last.
fn answer<D: Disk + Drop>(
    alloc: Global,
    hub: &mut Hub<D>,
    script: &[u8],
    output: &mut Vec<u8>,
) -> Result<(), CaseFault> {
    let mut input = script;
    match run_script(alloc, &mut input, output, hub) {
        Ok(()) => Ok(()),
        Err(ScriptFault::BadLine(_)) => {
            output.extend_from_slice(BAD_LINE.as_bytes())?;
            Ok(())
        }
        Err(fault) => Err(CaseFault::Script(fault)),
    }
}

/// What a script answers on a hub.
pub fn answers_to<D: Disk + Drop>(
    alloc: Global,
    hub: &mut Hub<D>,
    script: &str,
) -> Result<String, CaseFault> {
    let mut input = script.as_bytes();
    let mut output = Vec::new(alloc);
    run_script(alloc, &mut input, &mut output, hub).map_err(CaseFault::Script)?;
    String::from_utf8(output).map_err(|_| CaseFault::NoText)
}

/// The text of a script with these lines.
pub fn script_of(alloc: Global, lines: &[Line<'_>]) -> Result<String, AllocError> {
    let mut text = String::new(alloc);
    for line in lines {
        text.push_str(line.text)?;
        text.push('\n')?;
    }
    Ok(text)
}

// Compares answers with those that are wanted, and returns how many there are.
fn compare(
    alloc: Global,
    lines: &[Line<'_>],
    output: &[u8],
    told: &mut String,
) -> Result<usize, CaseFault> {
    let mut count = 0usize;
    for (line, given) in lines.iter().zip(output.split(|byte| *byte == b'\n')) {
        compare_one(alloc, *line, given, told)?;
        count = count.saturating_add(1);
    }
    Ok(count)
}

// The answer that a line is to get.
fn wanted_of(alloc: Global, line: Line<'_>) -> Result<String, AllocError> {
    let answer = expanded(alloc, line.answer)?;
    match line.alone {
        None => Ok(answer),
        Some(log) => heard_of(alloc, answer.as_str(), log),
    }
}

/// Compares the answer to a line with the one that is wanted.
pub fn compare_one(
    alloc: Global,
    line: Line<'_>,
    given: &[u8],
    told: &mut String,
) -> Result<(), CaseFault> {
    let wanted = wanted_of(alloc, line)?;
    if wanted.as_bytes() == given {
        return Ok(());
    }
    tell(told, "\n  wanted: ", wanted.as_bytes())?;
    tell(told, "\n  got:    ", given)?;
    Err(CaseFault::Differs(line.number))
}

/// Adds the first bytes of an answer to a text.
pub fn tell(text: &mut String, title: &str, answer: &[u8]) -> Result<(), AllocError> {
    text.push_str(title)?;
    for byte in answer.iter().take(SHOWN_BYTES) {
        text.push(char::from(*byte))?;
    }
    if answer.len() > SHOWN_BYTES {
        text.push_str("..")?;
    }
    Ok(())
}
