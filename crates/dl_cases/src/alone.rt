// The logs of a hub, and what each does by itself.
use crate::case::{BAD_LINE, Line, Step};
use std::alloc::{AllocError, Global};

/// What a line is to a log.
#[derive(Clone, Copy)]
pub enum Deed<'a> {
    Call { client: &'a str, log: &'a str },
    Exit { client: &'a str },
    /// A bad line ends the script for every log.
    BadLine,
    /// A flush, or a file that is shown.
    Other,
}

// A base that a call on a log names.
#[derive(Clone, Copy)]
struct NamedBase<'a> {
    log: &'a str,
    base: &'a str,
}

/// What a line does.
pub fn deed_of(line: Line<'_>) -> Deed<'_> {
    if line.answer == BAD_LINE {
        return Deed::BadLine;
    }
    let mut words = line.text.split(' ');
    match (words.next(), words.next(), words.next()) {
        (Some(client), Some("exit"), None) => Deed::Exit { client },
        (Some(client), Some(_), Some(log)) => Deed::Call { client, log },
        _ => Deed::Other,
    }
}

// The base that a step names, if it is a call that names one: an open without a base names the log's name, and a reopen
// its target.
fn named_base(step: Step<'_>) -> Option<NamedBase<'_>> {
    let Step::Line(line) = step else {
        return None;
    };
    let mut words = line.text.split(' ').skip(1);
    let verb = words.next()?;
    let log = words.next()?;
    if line.answer == BAD_LINE {
        return None;
    }
    let base = match verb {
        "open" => words
            .find_map(|word| word.strip_prefix("base="))
            .unwrap_or(log),
        "reopen" => words.next()?,
        _ => return None,
    };
    Some(NamedBase { log, base })
}

/// The base at which a step opens a log, if it does.
pub fn opened_base(step: Step<'_>) -> Option<&str> {
    let Step::Line(line) = step else {
        return None;
    };
    if line.text.split(' ').skip(1).next() != Some("open") {
        return None;
    }
    named_base(step).map(|named| named.base)
}

// The log that a step calls on, if it is a call.
fn called_log(step: Step<'_>) -> Option<&str> {
    let Step::Line(line) = step else {
        return None;
    };
    match deed_of(line) {
        Deed::Call { log, .. } => Some(log),
        Deed::Exit { .. } | Deed::BadLine | Deed::Other => None,
    }
}

/// The logs of a hub that the theorem is about, each once: no call on another log names one of their bases, and the
/// device does not fail at one.
pub fn private_logs<'a>(alloc: Global, life: &[Step<'a>]) -> Result<Vec<&'a str>, AllocError> {
    let mut logs: Vec<&'a str> = Vec::new(alloc);
    for step in life {
        if let Some(log) = called_log(*step) {
            if logs.iter().all(|other| *other != log) && is_private(life, log) {
                logs.push(log)?;
            }
        }
    }
    Ok(logs)
}

// Whether no other log names a base of this one, and the device does not fail at one.
fn is_private(life: &[Step<'_>], log: &str) -> bool {
    life.iter()
        .filter_map(|step| named_base(*step))
        .filter(|own| own.log == log)
        .all(|own| !life.iter().any(|step| disturbs(*step, own)))
}

// Whether a step names the base of another log, or lets the device fail there.
fn disturbs(step: Step<'_>, own: NamedBase<'_>) -> bool {
    if let Step::Fail(failure) = step {
        return failure
            .base
            .is_none_or(|base| base.as_bytes() == own.base.as_bytes());
    }
    named_base(step).is_some_and(|other| other.log != own.log && other.base == own.base)
}

/// The steps of a hub that concern one log: the calls that name it, and the exits of clients that called on it
/// before. Their answers have the notices of this log only.
pub fn alone<'a>(
    alloc: Global,
    life: &[Step<'a>],
    log: &'a str,
) -> Result<Vec<Step<'a>>, AllocError> {
    let mut own = Vec::new(alloc);
    for (at, step) in life.iter().enumerate() {
        if is_own(life.get(..at).unwrap_or(life), *step, log) {
            own.push(heard_alone(*step, log))?;
        }
    }
    Ok(own)
}

// A step of a log that is run by itself.
fn heard_alone<'a>(step: Step<'a>, log: &'a str) -> Step<'a> {
    match step {
        Step::Line(line) => Step::Line(Line {
            alone: Some(log),
            ..line
        }),
        other => other,
    }
}

// Whether a step is a log's own, after these steps. Steps that say how a hub begins stay, and commands are left out.
fn is_own(before: &[Step<'_>], step: Step<'_>, log: &str) -> bool {
    let line = match step {
        Step::Line(line) => line,
        Step::Tool(_) | Step::Input(_) | Step::Told(_) => return false,
        _ => return true,
    };
    match deed_of(line) {
        Deed::Call { log: called, .. } => called == log,
        Deed::Exit { client } => before.iter().any(|step| is_call_by(*step, client, log)),
        Deed::BadLine => true,
        Deed::Other => false,
    }
}

// Whether a step is a call of this client on this log.
fn is_call_by(step: Step<'_>, client: &str, log: &str) -> bool {
    let Step::Line(line) = step else {
        return false;
    };
    match deed_of(line) {
        Deed::Call {
            client: caller,
            log: called,
        } => caller == client && called == log,
        Deed::Exit { .. } | Deed::BadLine | Deed::Other => false,
    }
}
