// What a case asks of the runner.
use crate::alone::{Deed, deed_of};
use crate::case::{Failure, LaidFile, LateFailure, Spoil, Step, Sweep, Tool};
use dl_disk::Fuse;
use dl_types::{Base, FileName};

/// Parses the words of an order, or returns `None` if they are no order.
pub fn order_of(text: &str, number: u64) -> Option<Step<'_>> {
    let (order, others) = text.split_once(' ').unwrap_or((text, ""));
    match order {
        "blocks" => Some(Step::Blocks(others)),
        "sweep" => Some(Step::Sweep(Sweep {
            number,
            base: Base::parse(others.as_bytes())?,
        })),
        "stops" if others.is_empty() => Some(Step::Stops(number)),
        "refuse" if others.is_empty() => Some(Step::Refuse(number)),
        "spoil" => Some(Step::Spoil(Spoil {
            number,
            file: FileName::parse(others.as_bytes())?,
        })),
        "file" => Some(Step::File(file_of(others)?)),
        "fail" => failing_of(others, number),
        "mend" => Some(Step::Mend),
        "again" => Some(Step::Again),
        "append" | "check" | "dump" | "info" | "list" | "repair" => Some(Step::Tool(Tool {
            number,
            verb: order,
            others,
        })),
        _ => None,
    }
}

fn file_of(text: &str) -> Option<LaidFile<'_>> {
    let (name, digits) = text.split_once(' ')?;
    let name = FileName::parse(name.as_bytes())?;
    Some(LaidFile { name, digits })
}

// Parses a failure of the device: BASE K FUSE, or BASE after N FUSE. `*` means all bases.
fn failing_of(text: &str, number: u64) -> Option<Step<'_>> {
    let (base, others) = text.split_once(' ')?;
    let base = match base {
        "*" => None,
        _ => Some(Base::parse(base.as_bytes())?),
    };
    match others.strip_prefix("after ") {
        None => failure_of(base, others),
        Some(others) => late_failure_of(base, others, number),
    }
}

fn failure_of(base: Option<Base>, text: &str) -> Option<Step<'_>> {
    let (calls, fuse) = text.split_once(' ')?;
    Some(Step::Fail(Failure {
        base,
        calls: calls.parse::<u64>().ok()?,
        fuse: fuse_of(fuse)?,
    }))
}

fn late_failure_of(base: Option<Base>, text: &str, number: u64) -> Option<Step<'_>> {
    let (lines, fuse) = text.split_once(' ')?;
    Some(Step::FailAfter(LateFailure {
        number,
        base,
        lines: lines.parse::<usize>().ok()?,
        fuse: fuse_of(fuse)?,
    }))
}

fn fuse_of(word: &str) -> Option<Fuse> {
    if word == "one" {
        Some(Fuse::One)
    } else if word == "all" {
        Some(Fuse::All)
    } else {
        None
    }
}

/// Whether a step comes after a line of its hub, although it has to come before all of them.
pub fn is_late(steps: &[Step<'_>], step: Step<'_>) -> bool {
    if is_of_the_case(step) {
        return steps.iter().any(|step| !is_setting(*step));
    }
    if !is_setting(step) {
        return false;
    }
    let begun = steps.iter().rev().find(|step| !is_setting(**step));
    begun.is_some_and(|step| !matches!(step, Step::Again))
}

/// Whether a case that is run again and again may have this step. Such a case has one hub whose device does not fail,
/// no command and no bad line.
pub fn may_be_repeated(step: Step<'_>) -> bool {
    match step {
        Step::File(_) => true,
        Step::Line(line) => !matches!(deed_of(line), Deed::BadLine),
        other => is_of_the_case(other),
    }
}

// Whether a step says how the whole case is run.
fn is_of_the_case(step: Step<'_>) -> bool {
    matches!(
        step,
        Step::Blocks(_) | Step::Sweep(_) | Step::Stops(_) | Step::Spoil(_) | Step::Refuse(_)
    )
}

// Whether a step says how a hub begins.
fn is_setting(step: Step<'_>) -> bool {
    is_of_the_case(step) || matches!(step, Step::File(_) | Step::Fail(_) | Step::FailAfter(_))
}
