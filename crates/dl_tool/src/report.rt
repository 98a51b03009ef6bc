// The logs of a folder are checked and reported one by one.
ghost use Rattle.std.specs.Prelude.{◌≡◌, ◌&&◌, ◌||◌, ◌++◌, List, ℕ, IsTrue, IfOk, OnOk};
ghost use Rattle.std.specs.List.{flat_map};
ghost use Rattle.std.specs.Io.KnownBytes.{Appends};
ghost use Rattle.dl_tool.specs.declared.finding.Finding.{Finding};
ghost use Rattle.dl_tool.specs.Report.{health_of, health_by, is_clean, is_unread, FindsLog, Tells};
ghost use Rattle.dl_tool.specs.Told.{IsTold};
ghost use Rattle.dl_tool.specs.Losses.{torn_file};

use crate::check::check_log;
use crate::finding::Finding;
use crate::line::LogFiles;
use crate::told::{Style, push_told};
use dl_disk::Disk;
use dl_types::FileName;
use std::alloc::{AllocError, Allocator};
use std::io::Write;
use thiserror::Error;

/// The overall state of logs.
#[derive(Clone, Copy, Debug, PartialEq, Eq)]
pub enum Health {
    /// Each is clean: it is opened as it is, and no file has bad bytes or a wrong count.
    Clean,
    /// Some log is not, or is not there.
    Unclean,
    /// Some log could not be read.
    Unread,
}

/// Why a report ends before its end.
#[derive(Clone, Copy, Debug, PartialEq, Eq, Error)]
pub enum ReportFault {
    /// A line could not be written.
    #[error("write")]
    Write,
    #[error("out of memory")]
    OutOfMemory,
}

impl From<AllocError> for ReportFault {
    fn from(_: AllocError) -> ReportFault {
        ReportFault::OutOfMemory
    }
}

/// Checks each of these logs, which are not open, and writes what it finds of each, in their order. Some logs need a
/// repair, and their last files may show losses ([`find_losses`](crate::find_losses)): these files are added to
/// `torn`. Nothing is changed.
pub fn check_logs<D: Disk, W: Write, A: Allocator + Copy>(
    alloc: A,
    disk: &mut D,
    logs: &[LogFiles],
    style: Style,
    torn: &mut Vec<FileName, A>,
    output: &mut W,
) -> Result<Health, ReportFault>
    ensures same { IsTrue (D.state disk.new).honest → (D.state disk.new).content ≡ (D.state disk.old).content }
    ensures stayed { IsTrue (D.state disk.new).honest → IsTrue (D.state disk.old).honest }
    ensures told { IfOk result (λ health. (found : List Finding) × (health ≡ health_of found) × (torn.new.items ≡ torn.old.items ++ flat_map torn_file found)
        × Tells A style (D.state disk.old) (D.state disk.new) logs.now found (W.contents output.old) (W.contents output.new)) }
{
    let mut tally = Tally {
        clean: true,
        unread: false,
    };
    for log in logs {
        let found = check_next(alloc, disk, *log, style, output)?;
        push_torn(torn, found)?;
        tally = tally_with(tally, found);
    }
    Ok(health_by(tally))
}

/// What was found so far: whether each log is clean, and whether some could not be read.
#[derive(Clone, Copy)]
pub struct Tally {
    pub clean: bool,
    pub unread: bool,
}

// Checks a log and writes what it finds.
fn check_next<D: Disk, W: Write, A: Allocator + Copy>(
    alloc: A,
    disk: &mut D,
    log: LogFiles,
    style: Style,
    output: &mut W,
) -> Result<Finding, ReportFault>
    ensures same { IsTrue (D.state disk.new).honest → (D.state disk.new).content ≡ (D.state disk.old).content }
    ensures stayed { IsTrue (D.state disk.new).honest → IsTrue (D.state disk.old).honest }
    ensures finds { IfOk result (λ found. IsTrue (D.state disk.new).honest → FindsLog A (D.state disk.old).content log found) }
    ensures line { IfOk result (λ found. (line : List ℕ) × IsTold style log found line × Appends (W.contents output.old) (W.contents output.new) line) }
{
    let found = check_log(alloc, disk, log.base, log.kind)?;
    let mut text = Vec::new(alloc);
    push_told(&mut text, style, log, found)?;
    write_text(text.as_slice(), output)?;
    Ok(found)
}

// Adds the last file of a log that needs a repair, if it may show losses.
fn push_torn<A: Allocator>(torn: &mut Vec<FileName, A>, found: Finding) -> Result<(), AllocError>
    ensures { OnOk result (torn.new.items ≡ torn.old.items ++ torn_file found) }
{
    if let Some(file) = found.torn_file() {
        torn.push(file)?;
    }
    Ok(())
}

/// Writes a text.
pub fn write_text<W: Write>(text: &[u8], output: &mut W) -> Result<(), ReportFault>
    ensures { OnOk result (Appends (W.contents output.old) (W.contents output.new) text.now) }
{
    output.write_all(text).map_err(|_| ReportFault::Write)
}

/// What was found, and one more.
pub fn tally_with(tally: Tally, found: Finding) -> Tally
    ensures { result ≡ record { clean = tally.clean && is_clean found; unread = tally.unread || is_unread found } }
{
    Tally {
        clean: tally.clean && is_clean(found),
        unread: tally.unread || is_unread(found),
    }
}

/// The overall state of logs, by what was found of them.
pub fn health_by(tally: Tally) -> Health
    ensures { result ≡ health_by tally.unread tally.clean }
{
    match (tally.unread, tally.clean) {
        (true, _) => Health::Unread,
        (false, true) => Health::Clean,
        (false, false) => Health::Unclean,
    }
}

// Whether a log is opened as it is, with no bad bytes and no wrong count.
fn is_clean(found: Finding) -> bool
    ensures { result ≡ is_clean found }
{
    match found {
        Finding::Clean(amount) => amount.bad == 0 && amount.miscounted == 0,
        _ => false,
    }
}

// Whether a log could not be read.
fn is_unread(found: Finding) -> bool
    ensures { result ≡ is_unread found }
{
    match found {
        Finding::Unread(_) => true,
        _ => false,
    }
}
