// What the words of a line say, and those of its answer.
use crate::alone::{Deed, deed_of};
use crate::answer::expanded;
use crate::case::Line;
use std::alloc::{AllocError, Global};

/// The call that a line makes, if it makes one.
pub fn verb_of(line: &str) -> Option<&str> {
    line.split(' ').skip(1).next()
}

/// Whether a line is a call on this log.
pub fn is_call_on(line: Line<'_>, log: &str) -> bool {
    matches!(deed_of(line), Deed::Call { log: called, .. } if called == log)
}

/// The log that a line opens, if it opens one.
pub fn opened_by(line: Line<'_>) -> Option<&str> {
    match deed_of(line) {
        Deed::Call { log, .. } if verb_of(line.text) == Some("open") => Some(log),
        _ => None,
    }
}

/// The log that a line opens, if no line before it does.
pub fn first_opened<'a>(before: &[Line<'_>], line: Line<'a>) -> Option<&'a str> {
    let log = opened_by(line)?;
    before
        .iter()
        .all(|other| opened_by(*other) != Some(log))
        .then_some(log)
}

/// The items that a line sends, as answers write them.
pub fn sent_by(alloc: Global, line: Line<'_>) -> Result<Vec<String>, AllocError> {
    let mut sent = Vec::new(alloc);
    for word in line.text.split(' ').skip(3) {
        sent.push(item_text(alloc, word)?)?;
    }
    Ok(sent)
}

/// An item of a script as answers write it.
pub fn item_text(alloc: Global, word: &str) -> Result<String, AllocError> {
    let item = expanded(alloc, word)?;
    if item.is_empty() {
        return String::from_str(alloc, "-");
    }
    hex::encode(alloc, item.as_str())
}

/// Whether an answer is `done`, maybe with notices.
pub fn is_done(answer: &str) -> bool {
    answer == "done" || answer.starts_with("done | ")
}

/// Whether an answer is a fault of the device.
pub fn is_fault(answer: &str) -> bool {
    answer.starts_with("E24 device_fault ")
}
