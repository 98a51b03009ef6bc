// What a log has, by an open and by chunks up to its end.
use crate::fault::CaseFault;
use crate::memory::{MemoryHub, hub_over};
use crate::script::answers_to;
use dl_disk::MemoryDisk;
use std::alloc::{AllocError, Global};
use std::fmt::Write;

/// The answer to a chunk of a log that is not open.
pub const NO_LOG: &str = "E2 no_such_log";

/// The answer to an open if files that an index names are missing.
pub const PARTED: &str = "E11 invalid_index_file";

// The answer to an open of a log that needs no repair.
const OPENED: &str = "opened";

// How many chunks are read. A log is read to its end if it has one file fewer, of at most 65,536 bytes each.
const CHUNKS: usize = 6;

// How many items a chunk reads at most.
const MOST_ITEMS: u32 = 1_000_000;

// The client that reads, which has no part in the log.
const STRANGER: u32 = u32::MAX;

// What precedes the items that were read.
const ITEMS: &str = "items";

/// The lines that open a log and read it to its end.
#[derive(Drop)]
pub struct Probe {
    // An open, and the same with no size.
    opens: String,
    chunks: String,
}

/// The answer to an open of a log, and what the log had then.
#[derive(Drop)]
pub struct Seen {
    pub opened: String,
    /// `items` and the items in hexadecimal, or what a chunk was refused as.
    pub items: String,
}

impl Probe {
    /// The probe of a log that this line opens.
    pub fn new(alloc: Global, open: &str, log: &str) -> Result<Probe, AllocError> {
        Ok(Probe {
            opens: opens_of(alloc, open)?,
            chunks: chunks_of(alloc, log)?,
        })
    }

    /// Opens the log on a hub, with the size that it has, and reads it.
    pub fn look(&self, alloc: Global, hub: &mut MemoryHub) -> Result<Seen, CaseFault> {
        let answers = answers_to(alloc, hub, self.opens.as_str())?;
        let opened = String::from_str(alloc, opened_in(answers.as_str()))?;
        let items = self.read(alloc, hub)?;
        Ok(Seen { opened, items })
    }

    /// Opens the log and reads it, as `look` does, on a new hub over a copy of these files.
    pub fn look_at(
        &self,
        alloc: Global,
        files: &MemoryDisk,
        blocks: u32,
    ) -> Result<Seen, CaseFault> {
        let mut hub = hub_over(alloc, files.copy()?, None, blocks)?;
        self.look(alloc, &mut hub)
    }

    /// Reads the log as it is on a hub.
    pub fn read(&self, alloc: Global, hub: &mut MemoryHub) -> Result<String, CaseFault> {
        let answers = answers_to(alloc, hub, self.chunks.as_str())?;
        items_in(alloc, answers.as_str())
    }
}

impl Seen {
    /// Whether the log was opened and needed no repair.
    pub fn is_whole(&self) -> bool {
        self.opened.as_str() == OPENED
    }

    /// Whether the log was opened, and repaired if it had to be.
    pub fn is_open(&self) -> bool {
        is_opened(self.opened.as_str())
    }

    /// Whether the log was opened and read to its end.
    pub fn is_read(&self) -> bool {
        self.is_open() && self.items.as_str().starts_with(ITEMS)
    }
}

/// Whether an open answered that a log is open, and repaired if it had to be.
pub fn is_opened(answer: &str) -> bool {
    answer == OPENED || answer.starts_with("repaired ")
}

/// The items that were read, one by one.
pub fn items_of(alloc: Global, items: &str) -> Result<Vec<&str>, AllocError> {
    items.split(' ').skip(1).collect(alloc)
}

// An open, and the same with no size.
fn opens_of(alloc: Global, open: &str) -> Result<String, AllocError> {
    let client = open.split(' ').next().unwrap_or("");
    let mut text = format!(in alloc; "{open}\n{client}")?;
    for word in open.split(' ').skip(1) {
        if !word.starts_with("size=") {
            text.push(' ')?;
            text.push_str(word)?;
        }
    }
    text.push('\n')?;
    Ok(text)
}

// The chunks that read all items of a log.
fn chunks_of(alloc: Global, log: &str) -> Result<String, AllocError> {
    let mut text = String::new(alloc);
    for at in 0..CHUNKS {
        let place = if at == 0 { "start" } else { "next" };
        writeln!(text, "{STRANGER} chunk {log} {place} {MOST_ITEMS}")?;
    }
    Ok(text)
}

// The answer to the first of two opens, or to the second if the log has another size than the first asks for.
fn opened_in(answers: &str) -> &str {
    let mut lines = answers.lines();
    let first = lines.next().unwrap_or("");
    if first.starts_with("E5 ") {
        return lines.next().unwrap_or("");
    }
    first
}

// What the answers to chunks say that a log has.
fn items_in(alloc: Global, answers: &str) -> Result<String, CaseFault> {
    let mut text = String::from_str(alloc, ITEMS)?;
    for answer in answers.lines() {
        if answer == "eof" {
            return Ok(text);
        }
        match answer.strip_prefix("items ") {
            Some(others) => push_items(&mut text, others)?,
            None => return refused(alloc, answer),
        }
    }
    Err(CaseFault::Unread)
}

// What is read if a chunk is refused: the refusal.
fn refused(alloc: Global, answer: &str) -> Result<String, CaseFault> {
    Ok(String::from_str(alloc, answer)?)
}

// Adds the items of an answer, which stand after the number of bad bytes.
fn push_items(text: &mut String, others: &str) -> Result<(), AllocError> {
    for word in others.split(' ').skip(1) {
        text.push(' ')?;
        text.push_str(word)?;
    }
    Ok(())
}
