// What is found of files beside their logs, as it is reported.
ghost use Rattle.std.specs.Prelude.{◌≡◌, ◌++◌, OnOk};
ghost use Rattle.dl_tool.specs.Notes.{front_text, stray_text, closed_text, count_text, zeros_text, losses_text};

use crate::losses::Losses;
use crate::told::Style;
use dl_types::FileName;
use std::alloc::{AllocError, Allocator};
use std::io::Write;

/// Adds the line of a stray file, which may be newer than the index of its base.
pub fn push_stray<A: Allocator>(
    text: &mut Vec<u8, A>,
    style: Style,
    file: FileName,
    is_newer: bool,
) -> Result<(), AllocError>
    ensures { OnOk result (text.new.items ≡ text.old.items ++ stray_text style file is_newer) }
{
    match (style, is_newer) {
        (Style::Line, false) => write!(text, "{file} stray: no index names it\n"),
        (Style::Line, true) => write!(
            text,
            "{file} stray: no index names it, and it is newer than the files of its index\n"
        ),
        (Style::Json, false) => write!(text, "{{\"file\":\"{file}\",\"state\":\"stray\"}}\n"),
        (Style::Json, true) => write!(
            text,
            "{{\"file\":\"{file}\",\"state\":\"stray\",\"newer\":true}}\n"
        ),
    }
    .map_err(|_| AllocError)
}

/// Adds a line for each sign of lost items that a file shows. There may be none.
pub fn push_losses<A: Allocator>(
    text: &mut Vec<u8, A>,
    style: Style,
    file: FileName,
    losses: Losses,
) -> Result<(), AllocError>
    ensures { OnOk result (text.new.items ≡ text.old.items ++ losses_text style file losses) }
{
    if let Some(counted) = losses.counted {
        push_count(text, style, file, counted, losses.items)?;
    }
    if losses.zeros {
        push_zeros(text, style, file)?;
    }
    Ok(())
}

// Adds the line of a file that was closed with another number of items than it has.
fn push_count<A: Allocator>(
    text: &mut Vec<u8, A>,
    style: Style,
    file: FileName,
    counted: u64,
    items: u64,
) -> Result<(), AllocError>
    ensures { OnOk result (text.new.items ≡ text.old.items ++ count_text style file counted items) }
{
    match style {
        Style::Line => push_count_line(text, file, counted, items),
        Style::Json => push_count_json(text, file, counted, items),
    }
}

fn push_count_line<A: Allocator>(
    text: &mut Vec<u8, A>,
    file: FileName,
    counted: u64,
    items: u64,
) -> Result<(), AllocError>
    ensures { OnOk result (text.new.items ≡ text.old.items ++ count_text Style.Line file counted items) }
{
    push_front(text, file, "miscounted")?;
    push_closed(text, counted, items)
}

// Adds the front of the line of a file in a state.
fn push_front<A: Allocator>(
    text: &mut Vec<u8, A>,
    file: FileName,
    state: &str,
) -> Result<(), AllocError>
    ensures { OnOk result (text.new.items ≡ text.old.items ++ front_text file state.now) }
{
    write!(text, "{file} {state}: ").map_err(|_| AllocError)
}

// Adds with how many items a file was closed, and how many it has.
fn push_closed<A: Allocator>(
    text: &mut Vec<u8, A>,
    counted: u64,
    items: u64,
) -> Result<(), AllocError>
    ensures { OnOk result (text.new.items ≡ text.old.items ++ closed_text counted items) }
{
    write!(text, "it was closed with {counted} items and has {items}\n").map_err(|_| AllocError)
}

fn push_count_json<A: Allocator>(
    text: &mut Vec<u8, A>,
    file: FileName,
    counted: u64,
    items: u64,
) -> Result<(), AllocError>
    ensures { OnOk result (text.new.items ≡ text.old.items ++ count_text Style.Json file counted items) }
{
    write!(
        text,
        "{{\"file\":\"{file}\",\"state\":\"miscounted\",\"counted\":{counted},\"items\":{items}}}\n"
    )
    .map_err(|_| AllocError)
}

// Adds the line of a file whose last item has no byte but zeros.
fn push_zeros<A: Allocator>(
    text: &mut Vec<u8, A>,
    style: Style,
    file: FileName,
) -> Result<(), AllocError>
    ensures { OnOk result (text.new.items ≡ text.old.items ++ zeros_text style file) }
{
    match style {
        Style::Line => write!(text, "{file} zeros: its last item has no byte but zeros\n"),
        Style::Json => write!(text, "{{\"file\":\"{file}\",\"state\":\"zeros\"}}\n"),
    }
    .map_err(|_| AllocError)
}
