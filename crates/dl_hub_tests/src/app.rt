// Scripts whose reader or writer fails, the limits of a script, and lines that no text file holds.
use dl_app::{ScriptFault, run_script};
use dl_disk::MemoryDisk;
use dl_hub::Hub;
use std::alloc::{AllocError, Global};
use std::io::{BufRead, Write};
use std::process::Abort;

mod faults;
mod forms;
mod limits;
mod pieces;
mod reads;

// A hub over a disk in memory.
type MemoryHub = Hub<MemoryDisk<Global>, Global>;

// A hub with no file.
fn new_hub<R: Abort + AllocGlobal>(rt: &R) -> MemoryHub {
    let alloc = rt.alloc();
    Hub::new(alloc, MemoryDisk::new(alloc), 16).expect(rt, "a hub")
}

// Runs a script on a hub with no file.
fn run_alone<R: Abort + AllocGlobal, I: BufRead, O: Write>(
    rt: &R,
    input: &mut I,
    output: &mut O,
) -> Result<(), ScriptFault> {
    run_in(rt.alloc(), input, output, new_hub(rt))
}

// The one call of the function under test, so that its contract is read once.
fn run_in<I: BufRead, O: Write>(
    alloc: Global,
    input: &mut I,
    output: &mut O,
    mut hub: MemoryHub,
) -> Result<(), ScriptFault> {
    run_script(alloc, input, output, &mut hub)
}

// Whether the script that a reader gives ends as it is to, and answers this text.
fn is_answered<R: Abort + AllocGlobal, I: BufRead>(
    rt: &R,
    input: &mut I,
    text: &[u8],
    ended: Result<(), ScriptFault>,
) -> bool {
    let mut output = Vec::new(rt.alloc());
    let end = run_alone(rt, input, &mut output);
    end == ended && output.as_slice() == text
}

// Whether a script ends as it is to, and answers this text.
fn answers<R: Abort + AllocGlobal>(
    rt: &R,
    script: &[u8],
    text: &[u8],
    ended: Result<(), ScriptFault>,
) -> bool {
    let mut input = script;
    is_answered(rt, &mut input, text, ended)
}

// A text of `count` copies of a byte, between two others.
fn filled(
    alloc: Global,
    before: &[u8],
    count: usize,
    byte: u8,
    after: &[u8],
) -> Result<Vec<u8>, AllocError> {
    let mut text = Vec::from_slice(alloc, before)?;
    for _ in 0..count {
        text.push(byte)?;
    }
    text.extend_from_slice(after)?;
    Ok(text)
}
