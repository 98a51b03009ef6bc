// The logs of a folder.
ghost use Rattle.std.specs.Prelude.{◌≡◌, ◌↔◌, Contains, IsSome, IsTrue, IfOk};
ghost use Rattle.std.specs.FinMap as map;
ghost use Rattle.std.specs.List.{filter_map};
ghost use Rattle.dl_types.specs.declared.file.FileName.{FileName};
ghost use Rattle.dl_disk.specs.Disk.{IsUncounted};
ghost use Rattle.dl_tool.specs.Folder.{log_of, named_in, AreLogs};

use crate::line::LogFiles;
use dl_disk::{Disk, ListFault};
use dl_types::{Base, FileName, Kind, Part};
use std::alloc::{AllocError, Allocator};

/// The logs of a folder in order of base. There is a halt log if its file is there, and a wrap log if its index is.
pub fn find_logs<D: Disk, A: Allocator + Copy>(
    alloc: A,
    disk: &mut D,
) -> Result<Vec<LogFiles, A>, ListFault>
    ensures device { IsUncounted (D.state disk.old) (D.state disk.new) }
    ensures content { IsTrue (D.state disk.new).honest → (D.state disk.new).content ≡ (D.state disk.old).content }
    ensures logs { IsTrue (D.state disk.new).honest → IfOk result (λ logs. AreLogs (D.state disk.old).content logs.items) }
{
    let names = sorted_names(alloc, disk)?;
    let Ok(logs) = logs_of(alloc, &names) else {
        return Err(ListFault::OutOfMemory);
    };
    Ok(logs)
}

/// The names of the files of a folder, in order of base.
pub fn sorted_names<D: Disk, A: Allocator + Copy>(
    alloc: A,
    disk: &mut D,
) -> Result<Vec<FileName, A>, ListFault>
    ensures device { IsUncounted (D.state disk.old) (D.state disk.new) }
    ensures content { IsTrue (D.state disk.new).honest → (D.state disk.new).content ≡ (D.state disk.old).content }
    ensures names { IsTrue (D.state disk.new).honest → IfOk result (λ names. (f : FileName) → Contains names.items f ↔ IsSome (map.get (D.state disk.old).content f)) }
{
    let mut names = disk.list(alloc)?;
    names.sort_unstable();
    Ok(names)
}

/// Those of the logs that have this base. If none has it, a halt log of the base, which a check then finds absent.
pub fn logs_named<A: Allocator + Copy>(
    alloc: A,
    logs: &[LogFiles],
    base: Base,
) -> Result<Vec<LogFiles, A>, AllocError>
    ensures { IfOk result (λ own. own.items ≡ named_in base logs.now) }
{
    let mut own = Vec::new(alloc);
    for log in logs {
        if log.base == base {
            own.push(*log)?;
        }
    }
    if own.is_empty() {
        own.push(LogFiles {
            base,
            kind: Kind::Halt,
        })?;
    }
    Ok(own)
}

// The logs whose main files are among these files.
fn logs_of<A: Allocator>(alloc: A, names: &[FileName]) -> Result<Vec<LogFiles, A>, AllocError>
    ensures { IfOk result (λ logs. logs.items ≡ filter_map log_of names.now) }
{
    let mut logs = Vec::new(alloc);
    for name in names {
        if let Some(log) = log_of(*name) {
            logs.push(log)?;
        }
    }
    Ok(logs)
}

// The log whose main file this is, if it is one.
fn log_of(file: FileName) -> Option<LogFiles>
    ensures { result ≡ log_of file }
{
    let base = file.base;
    match file.part {
        Part::Halt => Some(LogFiles {
            base,
            kind: Kind::Halt,
        }),
        Part::Index => Some(LogFiles {
            base,
            kind: Kind::Wrap,
        }),
        Part::Numbered(_) => None,
    }
}
