// Answers as a case writes them.
use crate::fault::CaseFault;
use hex::FromHexError;
use std::alloc::{AllocError, Global};

// How many copies a piece may ask for: the digits of the longest item.
const COPIES_LIMIT: u64 = 2_097_152;

/// Expands an answer: `K*TEXT` means K copies of TEXT, and `+` joins pieces into one word.
pub fn expanded(alloc: Global, answer: &str) -> Result<String, AllocError> {
    let mut text = String::new(alloc);
    for (at, word) in answer.split(' ').enumerate() {
        if at > 0 {
            text.push(' ')?;
        }
        for piece in word.split('+') {
            push_piece(&mut text, piece)?;
        }
    }
    Ok(text)
}

/// An answer with the notices of this log alone.
pub fn heard_of(alloc: Global, answer: &str, log: &str) -> Result<String, AllocError> {
    let mut text = String::new(alloc);
    for (at, part) in answer.split('|').enumerate() {
        let part = part.strip_suffix(" ").unwrap_or(part);
        if at == 0 {
            text.push_str(part)?;
        } else if is_notice_of(part, log) {
            text.push_str(" |")?;
            text.push_str(part)?;
        }
    }
    Ok(text)
}

// Whether this is a notice of this log. A notice names its client and, after a space, its log.
fn is_notice_of(notice: &str, log: &str) -> bool {
    notice
        .split(' ')
        .skip(2)
        .next()
        .is_some_and(|word| word == log)
}

// Adds a piece of a word.
fn push_piece(text: &mut String, piece: &str) -> Result<(), AllocError> {
    let Some((count, copied)) = copies_of(piece) else {
        text.push_str(piece)?;
        return Ok(());
    };
    for _ in 0..count {
        text.push_str(copied)?;
    }
    Ok(())
}

// How many copies of what a piece asks for.
fn copies_of(piece: &str) -> Option<(u64, &str)> {
    let (count, copied) = piece.split_once('*')?;
    let count = count.parse::<u64>().ok()?;
    (count <= COPIES_LIMIT).then_some((count, copied))
}

/// The bytes that are written in hexadecimal, in the form of an answer; `-` is no bytes.
pub fn bytes_of(alloc: Global, digits: &str) -> Result<Vec<u8>, CaseFault> {
    if digits == "-" {
        return Ok(Vec::new(alloc));
    }
    let text = expanded(alloc, digits)?;
    hex::decode(alloc, text.as_str()).map_err(|error| match error {
        FromHexError::OutOfMemory => CaseFault::OutOfMemory,
        _ => CaseFault::BadBytes,
    })
}
