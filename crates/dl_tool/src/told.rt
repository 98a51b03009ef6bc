// What is found of a log, as it is reported.
ghost use Rattle.std.specs.Prelude.{◌≡◌, ◌++◌, List, ℕ, OnOk};
ghost use Rattle.dl_tool.specs.Told.{IsTold};

use crate::finding::Finding;
use crate::json::push_json;
use crate::line::{LogFiles, push_line};
use std::alloc::{AllocError, Allocator};

/// How what is found is reported.
#[derive(Clone, Copy, Debug, PartialEq, Eq)]
pub enum Style {
    /// As a line for people.
    Line,
    /// As a JSON object on a line of its own.
    Json,
}

/// Adds what was found of a log.
pub fn push_told<A: Allocator + Copy>(
    text: &mut Vec<u8, A>,
    style: Style,
    log: LogFiles,
    found: Finding,
) -> Result<(), AllocError>
    ensures { OnOk result ((line : List ℕ) × IsTold style log found line × (text.new.items ≡ text.old.items ++ line)) }
{
    match style {
        Style::Line => push_line(text, log, found),
        Style::Json => push_json(text, log, found),
    }
}
