// A case as its file writes it.
use crate::fault::CaseFault;
use crate::order::{is_late, order_of};
use dl_disk::Fuse;
use dl_types::{Base, FileName};
use std::alloc::Global;

// The numbers of blocks that a case is run with if it names none.
const BLOCKS: &str = "1 2 16";

/// The answer to a line that has no form of a script.
pub const BAD_LINE: &str = "bad line";

/// A line of a script, and the answer that it is to get.
#[derive(Clone, Copy)]
pub struct Line<'a> {
    /// The number of the line in the case's file, counted from 1.
    pub number: u64,
    pub text: &'a str,
    pub answer: &'a str,
    /// The log that is run by itself, if one is: the answer then has its notices and no others.
    pub alone: Option<&'a str>,
}

/// A file that is there before a hub begins.
#[derive(Clone, Copy)]
pub struct LaidFile<'a> {
    pub name: FileName,
    /// Its bytes in hexadecimal, as an answer writes them.
    pub digits: &'a str,
}

/// A failure of the device: after `calls` calls on the files of a base, or on all files, one call fails, or each.
#[derive(Clone, Copy)]
pub struct Failure {
    pub base: Option<Base>,
    pub calls: u64,
    pub fuse: Fuse,
}

/// A failure of the device after the calls that the first lines of its hub make on the files of a base, or on all files: one call
/// fails, or each.
#[derive(Clone, Copy)]
pub struct LateFailure {
    /// The number of the line in the case's file, counted from 1.
    pub number: u64,
    pub base: Option<Base>,
    /// How many lines of the hub that is.
    pub lines: usize,
    pub fuse: Fuse,
}

/// A sweep: the case is also run with a device that fails at each of its calls on the files of a base in turn, and its logs keep what was
/// logged.
#[derive(Clone, Copy)]
pub struct Sweep {
    /// The number of the line in the case's file, counted from 1.
    pub number: u64,
    pub base: Base,
}

/// A file that is also changed at each of its bytes, and cut at each of its places, before the log is opened.
#[derive(Clone, Copy)]
pub struct Spoil {
    /// The number of the line in the case's file, counted from 1.
    pub number: u64,
    pub file: FileName,
}

/// A command on the files that a hub leaves.
#[derive(Clone, Copy)]
pub struct Tool<'a> {
    /// The number of the line in the case's file, counted from 1.
    pub number: u64,
    pub verb: &'a str,
    pub others: &'a str,
}

/// What a case does next.
#[derive(Clone, Copy)]
pub enum Step<'a> {
    /// The case is run with these numbers of blocks.
    Blocks(&'a str),
    Sweep(Sweep),
    /// The case is also stopped at each call of the device. The number is that of the line in the case's file.
    Stops(u64),
    Spoil(Spoil),
    /// The case is also run with each call refused memory until it has enough. The number is that of the line in the case's
    /// file.
    Refuse(u64),
    File(LaidFile<'a>),
    Fail(Failure),
    FailAfter(LateFailure),
    Line(Line<'a>),
    /// The hub ends, and a command is used on its files.
    Tool(Tool<'a>),
    /// A line of the command's standard input.
    Input(&'a str),
    /// A line that the command is to write.
    Told(&'a str),
    /// The device no longer fails, and the next line begins a new script.
    Mend,
    /// The hub ends, and a new one begins on the same files.
    Again,
}

// A line of a case's file.
#[derive(Clone, Copy)]
enum Form<'a> {
    Comment,
    // What the script line before it answers.
    Answer(&'a str),
    // What the runner is to do.
    Order(&'a str),
    // A line of a command's standard input.
    Input(&'a str),
    Script(&'a str),
}

// What the next line may belong to.
#[derive(Clone, Copy)]
enum Asked<'a> {
    Nothing,
    // A line of the script that has no answer yet, and its number.
    Line(u64, &'a str),
    // A command, whose input and answers may go on.
    Tool,
}

/// Reads the text of a case.
pub fn steps_of(alloc: Global, text: &str) -> Result<Vec<Step<'_>>, CaseFault> {
    let mut steps = Vec::new(alloc);
    let mut asked = Asked::Nothing;
    let mut number = 0u64;
    for line in text.lines() {
        number = number.saturating_add(1);
        asked = take_line(&mut steps, number, line, asked)?;
    }
    match asked {
        Asked::Line(number, _) => Err(CaseFault::NoAnswer(number)),
        Asked::Nothing | Asked::Tool => Ok(steps),
    }
}

// Takes a line after what was asked before it. Returns what is asked then.
fn take_line<'a>(
    steps: &mut Vec<Step<'a>>,
    number: u64,
    line: &'a str,
    asked: Asked<'a>,
) -> Result<Asked<'a>, CaseFault> {
    match (form_of(line), asked) {
        (Form::Comment, asked) => Ok(asked),
        (Form::Answer(answer), Asked::Line(number, text)) => {
            let line = Line {
                number,
                text,
                answer,
                alone: None,
            };
            push(steps, Step::Line(line), Asked::Nothing)
        }
        (Form::Answer(answer), Asked::Tool) => push(steps, Step::Told(answer), Asked::Tool),
        (Form::Input(text), Asked::Tool) => push(steps, Step::Input(text), Asked::Tool),
        (Form::Answer(_) | Form::Input(_), _) => Err(CaseFault::NoLine(number)),
        (_, Asked::Line(number, _)) => Err(CaseFault::NoAnswer(number)),
        (Form::Script(text), Asked::Nothing) => Ok(Asked::Line(number, text)),
        (Form::Script(_), Asked::Tool) => Err(CaseFault::LateLine(number)),
        (Form::Order(words), asked) => take_order(steps, number, words, asked),
    }
}

// Takes an order after what was asked before it. Returns what is asked then.
fn take_order<'a>(
    steps: &mut Vec<Step<'a>>,
    number: u64,
    words: &'a str,
    asked: Asked<'a>,
) -> Result<Asked<'a>, CaseFault> {
    let step = order_of(words, number).ok_or(CaseFault::BadOrder(number))?;
    match (step, asked) {
        (Step::Tool(_), _) => push(steps, step, Asked::Tool),
        (Step::Again, _) => push(steps, step, Asked::Nothing),
        (_, Asked::Tool) => Err(CaseFault::LateOrder(number)),
        _ if is_late(steps.as_slice(), step) => Err(CaseFault::LateOrder(number)),
        _ => push(steps, step, Asked::Nothing),
    }
}

// Adds a step, after which this is asked.
fn push<'a>(
    steps: &mut Vec<Step<'a>>,
    step: Step<'a>,
    asked: Asked<'a>,
) -> Result<Asked<'a>, CaseFault> {
    steps.push(step)?;
    Ok(asked)
}

// The form of a line.
fn form_of(line: &str) -> Form<'_> {
    if line.is_empty() || line.starts_with('#') {
        return Form::Comment;
    }
    match line.split_once(' ') {
        Some(("=", answer)) => Form::Answer(answer),
        Some(("!", words)) => Form::Order(words),
        Some((">", text)) => Form::Input(text),
        _ => Form::Script(line),
    }
}

/// The numbers of blocks that a case is run with.
pub fn blocks_of(alloc: Global, steps: &[Step<'_>]) -> Result<Vec<u32>, CaseFault> {
    let words = steps.iter().find_map(|step| match step {
        Step::Blocks(words) => Some(*words),
        _ => None,
    });
    let mut numbers = Vec::new(alloc);
    for word in words.unwrap_or(BLOCKS).split(' ') {
        let number = word.parse::<u32>().map_err(|_| CaseFault::BadBlocks)?;
        numbers.push(number)?;
    }
    Ok(numbers)
}

/// How many answers a case has.
pub fn count_answers(steps: &[Step<'_>]) -> u64 {
    steps
        .iter()
        .filter(|step| matches!(step, Step::Line(_) | Step::Told(_)))
        .count() as u64
}

/// Whether the device fails.
pub fn has_failure(steps: &[Step<'_>]) -> bool {
    steps
        .iter()
        .any(|step| matches!(step, Step::Fail(_) | Step::FailAfter(_)))
}
