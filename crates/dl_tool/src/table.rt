// The cells of a table of logs.
ghost use Rattle.std.specs.Prelude.{◌≡◌, ◌++◌, OnOk};
ghost use Rattle.dl_tool.specs.Table.{amount_in, share_of, total_with, total_of, state_word, head_cell, amount_cell, total_cell, known_cell, log_cell, cell};

use crate::finding::{Amount, Finding};
use crate::line::{LogFiles, push_bytes, whole_word};
use std::alloc::{AllocError, Allocator};
use std::io::Write;

/// A log, and what was found of it.
#[derive(Clone, Copy)]
pub struct Row {
    pub log: LogFiles,
    pub found: Finding,
}

/// A line of the table.
#[derive(Clone, Copy)]
pub enum Entry {
    /// What the columns are.
    Head,
    Log(Row),
    /// How much the logs have together.
    Total(Amount),
}

/// A column of the table.
#[derive(Clone, Copy)]
pub enum Column {
    Name,
    Kind,
    Files,
    Items,
    Bytes,
    Bad,
    State,
}

/// The widths of all columns but the last one.
#[derive(Clone, Copy)]
pub struct Widths {
    pub name: usize,
    pub kind: usize,
    pub files: usize,
    pub items: usize,
    pub bytes: usize,
    pub bad: usize,
}

/// How much these logs have together.
pub fn total_of(rows: &[Row]) -> Amount
    ensures { result ≡ total_of rows.now }
{
    let mut total = share_of(None);
    for row in rows {
        total = total_with(total, share_of(amount_in(row.found)));
    }
    total
}

// How much there is with one log more.
fn total_with(total: Amount, share: Amount) -> Amount
    ensures { result ≡ total_with total share }
{
    Amount {
        files: total.files.saturating_add(share.files),
        items: total.items.saturating_add(share.items),
        bytes: total.bytes.saturating_add(share.bytes),
        bad: total.bad.saturating_add(share.bad),
        miscounted: total.miscounted.saturating_add(share.miscounted),
        stored: total.stored,
    }
}

// How much a log adds to a total.
fn share_of(amount: Option<Amount>) -> Amount
    ensures { result ≡ share_of amount }
{
    match amount {
        Some(amount) => amount,
        None => Amount {
            files: 0,
            items: 0,
            bytes: 0,
            bad: 0,
            miscounted: 0,
            stored: None,
        },
    }
}

// How much a log has, if that is known.
fn amount_in(found: Finding) -> Option<Amount>
    ensures { result ≡ amount_in found }
{
    match found {
        Finding::Clean(amount) => Some(amount),
        Finding::Torn { amount, .. } => Some(amount),
        _ => None,
    }
}

/// Adds the cell of a line in a column.
pub fn push_cell<A: Allocator>(
    text: &mut Vec<u8, A>,
    column: Column,
    entry: Entry,
) -> Result<(), AllocError>
    ensures { OnOk result (text.new.items ≡ text.old.items ++ cell column entry) }
{
    match entry {
        Entry::Head => push_bytes(text, head_cell(column).as_bytes()),
        Entry::Log(row) => push_log_cell(text, column, row),
        Entry::Total(total) => push_total_cell(text, column, total),
    }
}

// What a column is called.
fn head_cell(column: Column) -> &'static str
    ensures { result.now ≡ head_cell column }
{
    match column {
        Column::Name => "name",
        Column::Kind => "kind",
        Column::Files => "files",
        Column::Items => "items",
        Column::Bytes => "bytes",
        Column::Bad => "bad",
        Column::State => "state",
    }
}

// Adds the cell of a log.
fn push_log_cell<A: Allocator>(
    text: &mut Vec<u8, A>,
    column: Column,
    row: Row,
) -> Result<(), AllocError>
    ensures { OnOk result (text.new.items ≡ text.old.items ++ log_cell column row) }
{
    match column {
        Column::Name => {
            let base = row.log.base;
            push_bytes(text, base.as_bytes())
        }
        Column::Kind => push_bytes(text, row.log.kind.word().as_bytes()),
        Column::Files | Column::Items | Column::Bytes | Column::Bad => {
            push_known_cell(text, column, amount_in(row.found))
        }
        Column::State => push_bytes(text, state_word(row.found).as_bytes()),
    }
}

// Adds a number of a log, or a dash if it is not known.
fn push_known_cell<A: Allocator>(
    text: &mut Vec<u8, A>,
    column: Column,
    amount: Option<Amount>,
) -> Result<(), AllocError>
    ensures { OnOk result (text.new.items ≡ text.old.items ++ known_cell column amount) }
{
    match amount {
        None => push_bytes(text, b"-"),
        Some(amount) => push_amount_cell(text, column, amount),
    }
}

// Adds a number, if the column is one of numbers.
fn push_amount_cell<A: Allocator>(
    text: &mut Vec<u8, A>,
    column: Column,
    amount: Amount,
) -> Result<(), AllocError>
    ensures { OnOk result (text.new.items ≡ text.old.items ++ amount_cell column amount) }
{
    let number = match column {
        Column::Files => amount.files,
        Column::Items => amount.items,
        Column::Bytes => amount.bytes,
        Column::Bad => amount.bad,
        Column::Name | Column::Kind | Column::State => return Ok(()),
    };
    write!(text, "{number}").map_err(|_| AllocError)
}

// Adds the cell of the line of totals.
fn push_total_cell<A: Allocator>(
    text: &mut Vec<u8, A>,
    column: Column,
    total: Amount,
) -> Result<(), AllocError>
    ensures { OnOk result (text.new.items ≡ text.old.items ++ total_cell column total) }
{
    match column {
        Column::Name => push_bytes(text, b"total"),
        _ => push_amount_cell(text, column, total),
    }
}

// The word of a state.
fn state_word(found: Finding) -> &'static str
    ensures { result.now ≡ state_word found }
{
    match found {
        Finding::Absent => "no such log",
        Finding::Clean(amount) => whole_word(amount),
        Finding::Torn { .. } => "needs repair",
        Finding::Refused(_) => "refused",
        Finding::Unread(_) => "unread",
    }
}
