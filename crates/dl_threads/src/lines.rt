// The lines of a script.
ghost use Rattle.std.specs.Prelude.{◌≡◌, ◌≢◌, ◌+◌, ◌≤◌, ◌++◌, ◌∷◌, [], ℕ, List, Err, IfOk, OnOk, IsTrue, IsFalse, length};
ghost use Rattle.dl_lines.specs.Lines.{HasLines};
ghost use Rattle.dl_app.specs.Script.{HasNoForm, IsBadLine};
ghost use Rattle.dl_threads.specs.Lines.{HasForm, HaveForms, texts_of};

use dl_app::{LINE_LIMIT, LINES_LIMIT, ScriptFault, command_of, is_passed_over};
use dl_lines::{NextLine, next_line};
use std::alloc::Global;
use std::io::BufRead;

/// Reads the lines that the input has left, up to the first that has no form of a script.
pub(crate) fn read_lines<R: BufRead>(
    alloc: Global,
    input: &mut R,
) -> Result<Vec<Vec<u8>>, ScriptFault>
    ensures whole { IfOk result (λ lines. HasLines (R.remaining input.old) (texts_of lines.items) × (length lines.items ≤ LINES_LIMIT) × HaveForms (texts_of lines.items)) }
    ensures bad_line { (k : ℕ) → result ≡ Err (ScriptFault.BadLine k) → (before : List (List ℕ)) × (line : List ℕ) × (others : List (List ℕ))
        × HasLines (R.remaining input.old) (before ++ line ∷ others) × (length before ≤ LINES_LIMIT) × HaveForms before × (k ≡ length before + 1) × IsBadLine k line }
    ensures unread { result ≡ Err ScriptFault.Read → (before : List (List ℕ)) × (others : List (List ℕ)) × HasLines (R.remaining input.old) (before ++ others)
        × (length before ≤ LINES_LIMIT) × HaveForms before }
    ensures write { result ≢ Err ScriptFault.Write }
{
    let mut lines = Vec::new(alloc);
    for number in 1..=LINES_LIMIT {
        let mut line = Vec::new(alloc);
        match next_line(input, LINE_LIMIT, &mut line)? {
            NextLine::Read => keep(&mut lines, number, line)?,
            NextLine::TooLong => return Err(ScriptFault::BadLine(number)),
            NextLine::End => return Ok(lines),
        }
    }
    let mut line = Vec::new(alloc);
    match next_line(input, LINE_LIMIT, &mut line)? {
        NextLine::End => Ok(lines),
        NextLine::Read | NextLine::TooLong => Err(ScriptFault::BadLine(LINES_LIMIT + 1)),
    }
}

// Keeps the line of this number, unless it has no form.
fn keep(lines: &mut Vec<Vec<u8>>, number: u64, line: Vec<u8>) -> Result<(), ScriptFault>
    ensures kept { OnOk result ((texts_of lines.new.items ≡ texts_of lines.old.items ++ line.items ∷ []) × HasForm line.items) }
    ensures bad { (k : ℕ) → result ≡ Err (ScriptFault.BadLine k) → (k ≡ number) × HasNoForm line.items }
    ensures read { result ≢ Err ScriptFault.Read }
    ensures write { result ≢ Err ScriptFault.Write }
{
    if !has_form(line.as_slice()) {
        return Err(ScriptFault::BadLine(number));
    }
    lines.push(line)?;
    Ok(())
}

// Whether a line is passed over or has a form.
fn has_form(line: &[u8]) -> bool
    ensures form { IsTrue result → HasForm line.now }
    ensures none { IsFalse result → HasNoForm line.now }
{
    is_passed_over(line) || command_of(line).is_some()
}
