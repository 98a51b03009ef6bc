// The lines of a table of logs, whose columns are as wide as their longest cells.
ghost use Rattle.std.specs.Prelude.{◌≡◌, ◌++◌, IfOk, OnOk, replicate};
ghost use Rattle.dl_tool.specs.Table.{width_of, widths_of, left_cell, right_cell, last_text, names_text, counts_text, cell, entry_line, entries_of, lines_of, table_text};
ghost use Rattle.dl_tool.specs.declared.table.Column.TheVariants as column;

use crate::line::push_bytes;
use crate::table::{Column, Entry, Row, Widths, push_cell, total_of};
use std::alloc::{AllocError, Allocator};

/// The table of these logs.
pub fn table_text<A: Allocator + Copy>(alloc: A, rows: &[Row]) -> Result<Vec<u8, A>, AllocError>
    ensures { IfOk result (λ text. text.items ≡ table_text rows.now) }
{
    let entries = entries_of(alloc, rows)?;
    let widths = widths_of(alloc, entries.as_slice())?;
    lines_of(alloc, widths, entries.as_slice())
}

// The lines of a table.
fn entries_of<A: Allocator>(alloc: A, rows: &[Row]) -> Result<Vec<Entry, A>, AllocError>
    ensures { IfOk result (λ entries. entries.items ≡ entries_of rows.now) }
{
    let mut entries = Vec::new(alloc);
    entries.push(Entry::Head)?;
    for row in rows {
        entries.push(Entry::Log(*row))?;
    }
    entries.push(Entry::Total(total_of(rows)))?;
    Ok(entries)
}

// How wide each column is.
fn widths_of<A: Allocator + Copy>(alloc: A, entries: &[Entry]) -> Result<Widths, AllocError>
    ensures { IfOk result (λ widths. widths ≡ widths_of entries.now) }
{
    Ok(Widths {
        name: width_of(alloc, Column::Name, entries)?,
        kind: width_of(alloc, Column::Kind, entries)?,
        files: width_of(alloc, Column::Files, entries)?,
        items: width_of(alloc, Column::Items, entries)?,
        bytes: width_of(alloc, Column::Bytes, entries)?,
        bad: width_of(alloc, Column::Bad, entries)?,
    })
}

// The length of the longest cell of a column.
fn width_of<A: Allocator>(alloc: A, column: Column, entries: &[Entry]) -> Result<usize, AllocError>
    ensures { IfOk result (λ width. width ≡ width_of column entries.now) }
{
    let mut text = Vec::new(alloc);
    let mut width: usize = 0;
    for entry in entries {
        text.clear();
        push_cell(&mut text, column, *entry)?;
        width = width.max(text.len());
    }
    Ok(width)
}

// The text of these lines.
fn lines_of<A: Allocator + Copy>(
    alloc: A,
    widths: Widths,
    entries: &[Entry],
) -> Result<Vec<u8, A>, AllocError>
    ensures { IfOk result (λ text. text.items ≡ lines_of widths entries.now) }
{
    let mut text = Vec::new(alloc);
    for entry in entries {
        push_entry(&mut text, widths, *entry)?;
    }
    Ok(text)
}

// Adds a line.
fn push_entry<A: Allocator + Copy>(
    text: &mut Vec<u8, A>,
    widths: Widths,
    entry: Entry,
) -> Result<(), AllocError>
    ensures { OnOk result (text.new.items ≡ text.old.items ++ entry_line widths entry) }
{
    push_names(text, widths, entry)?;
    push_counts(text, widths, entry)?;
    push_last(text, entry)?;
    push_bytes(text, b"\n")
}

// Adds the columns that are no numbers.
fn push_names<A: Allocator + Copy>(
    text: &mut Vec<u8, A>,
    widths: Widths,
    entry: Entry,
) -> Result<(), AllocError>
    ensures { OnOk result (text.new.items ≡ text.old.items ++ names_text widths entry) }
{
    push_left(text, Column::Name, widths.name, entry)?;
    push_bytes(text, b"  ")?;
    push_left(text, Column::Kind, widths.kind, entry)
}

// Adds the columns of numbers.
fn push_counts<A: Allocator + Copy>(
    text: &mut Vec<u8, A>,
    widths: Widths,
    entry: Entry,
) -> Result<(), AllocError>
    ensures { OnOk result (text.new.items ≡ text.old.items ++ counts_text widths entry) }
{
    push_right(text, Column::Files, widths.files, entry)?;
    push_right(text, Column::Items, widths.items, entry)?;
    push_right(text, Column::Bytes, widths.bytes, entry)?;
    push_right(text, Column::Bad, widths.bad, entry)
}

// Adds a cell at the left of its column.
fn push_left<A: Allocator + Copy>(
    text: &mut Vec<u8, A>,
    column: Column,
    width: usize,
    entry: Entry,
) -> Result<(), AllocError>
    ensures { OnOk result (text.new.items ≡ text.old.items ++ left_cell column width entry) }
{
    let mut own = Vec::new(*text.allocator());
    push_cell(&mut own, column, entry)?;
    push_bytes(text, own.as_slice())?;
    push_blanks(text, width.saturating_sub(own.len()))
}

// Adds a gap, and a cell at the right of its column.
fn push_right<A: Allocator + Copy>(
    text: &mut Vec<u8, A>,
    column: Column,
    width: usize,
    entry: Entry,
) -> Result<(), AllocError>
    ensures { OnOk result (text.new.items ≡ text.old.items ++ right_cell column width entry) }
{
    let mut own = Vec::new(*text.allocator());
    push_cell(&mut own, column, entry)?;
    push_bytes(text, b"  ")?;
    push_blanks(text, width.saturating_sub(own.len()))?;
    push_bytes(text, own.as_slice())
}

// Adds a gap and the last cell, or nothing if it is empty.
fn push_last<A: Allocator + Copy>(text: &mut Vec<u8, A>, entry: Entry) -> Result<(), AllocError>
    ensures { OnOk result (text.new.items ≡ text.old.items ++ last_text (cell column.State entry)) }
{
    let mut own = Vec::new(*text.allocator());
    push_cell(&mut own, Column::State, entry)?;
    if own.is_empty() {
        return Ok(());
    }
    push_bytes(text, b"  ")?;
    push_bytes(text, own.as_slice())
}

// Adds `count` blanks.
fn push_blanks<A: Allocator + Copy>(text: &mut Vec<u8, A>, count: usize) -> Result<(), AllocError>
    ensures { OnOk result (text.new.items ≡ text.old.items ++ replicate count 32) }
{
    let blanks = Vec::from_elem(*text.allocator(), b' ', count)?;
    push_bytes(text, blanks.as_slice())
}
