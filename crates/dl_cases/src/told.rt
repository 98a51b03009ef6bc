// The input of a command, and the output that is wanted.
use crate::case::{Step, Tool};
use crate::fault::CaseFault;
use crate::script::tell;
use std::alloc::{AllocError, Global};

/// The standard input of a command: the lines of input among the steps after it, up to the next command.
pub fn input_of(alloc: Global, after: &[Step<'_>]) -> Result<String, AllocError> {
    let mut text = String::new(alloc);
    for step in own(after) {
        if let Step::Input(line) = step {
            text.push_str(line)?;
            text.push('\n')?;
        }
    }
    Ok(text)
}

/// Compares what a command wrote with the lines that are wanted.
pub fn compare_told(
    alloc: Global,
    tool: Tool<'_>,
    after: &[Step<'_>],
    output: &[u8],
    told: &mut String,
) -> Result<(), CaseFault> {
    let wanted = wanted_of(alloc, after)?;
    if wanted.as_bytes() == output {
        return Ok(());
    }
    tell(told, "\n  wanted:\n", wanted.as_bytes())?;
    tell(told, "\n  got:\n", output)?;
    Err(CaseFault::Differs(tool.number))
}

// The lines that a command is to write.
fn wanted_of(alloc: Global, after: &[Step<'_>]) -> Result<String, AllocError> {
    let mut text = String::new(alloc);
    for step in own(after) {
        if let Step::Told(line) = step {
            text.push_str(line)?;
            text.push('\n')?;
        }
    }
    Ok(text)
}

// The steps that belong to a command: those up to the next one.
fn own<'a>(after: &'a [Step<'a>]) -> &'a [Step<'a>] {
    let end = after
        .iter()
        .position(|step| matches!(step, Step::Tool(_)))
        .unwrap_or(after.len());
    after.get(..end).unwrap_or(after)
}
