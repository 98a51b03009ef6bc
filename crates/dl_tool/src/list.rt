// The logs of a folder are listed.
ghost use Rattle.std.specs.Prelude.{◌≡◌, List, IsTrue, IfOk, map as mapped};
ghost use Rattle.dl_tool.specs.declared.table.Row.{Row};
ghost use Rattle.dl_tool.specs.List.{Lists};
ghost use Rattle.dl_tool.specs.Report.{health_of, AreFound};

use crate::check::check_log;
use crate::columns::table_text;
use crate::line::LogFiles;
use crate::report::{Health, ReportFault, Tally, health_by, tally_with, write_text};
use crate::table::Row;
use dl_disk::Disk;
use std::alloc::{AllocError, Allocator};
use std::io::Write;

/// Checks each of these logs, which are not open, and writes a table of them with their sums. Nothing is changed.
pub fn list_logs<D: Disk, W: Write, A: Allocator + Copy>(
    alloc: A,
    disk: &mut D,
    logs: &[LogFiles],
    output: &mut W,
) -> Result<Health, ReportFault>
    ensures same { IsTrue (D.state disk.new).honest → (D.state disk.new).content ≡ (D.state disk.old).content }
    ensures stayed { IsTrue (D.state disk.new).honest → IsTrue (D.state disk.old).honest }
    ensures listed { IfOk result (λ health. (rows : List Row) × (health ≡ health_of (mapped (λ r. r.found) rows))
        × Lists A (D.state disk.old) (D.state disk.new) logs.now rows (W.contents output.old) (W.contents output.new)) }
{
    let rows = check_each(alloc, disk, logs)?;
    let text = table_text(alloc, rows.as_slice())?;
    write_text(text.as_slice(), output)?;
    Ok(health_in(rows.as_slice()))
}

// Checks each of these logs.
fn check_each<D: Disk, A: Allocator + Copy>(
    alloc: A,
    disk: &mut D,
    logs: &[LogFiles],
) -> Result<Vec<Row, A>, AllocError>
    ensures same { IsTrue (D.state disk.new).honest → (D.state disk.new).content ≡ (D.state disk.old).content }
    ensures stayed { IsTrue (D.state disk.new).honest → IsTrue (D.state disk.old).honest }
    ensures logs { IfOk result (λ rows. mapped (λ r. r.log) rows.items ≡ logs.now) }
    ensures finds { IfOk result (λ rows. IsTrue (D.state disk.new).honest → AreFound A (D.state disk.old).content logs.now (mapped (λ r. r.found) rows.items)) }
{
    let mut rows = Vec::new(alloc);
    for log in logs {
        let found = check_log(alloc, disk, log.base, log.kind)?;
        rows.push(Row { log: *log, found })?;
    }
    Ok(rows)
}

// How these logs stand.
fn health_in(rows: &[Row]) -> Health
    ensures { result ≡ health_of (mapped (λ r. r.found) rows.now) }
{
    let mut tally = Tally {
        clean: true,
        unread: false,
    };
    for row in rows {
        tally = tally_with(tally, row.found);
    }
    health_by(tally)
}
