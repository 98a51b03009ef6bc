// Files that are in the way of a log that is to be begun.
ghost use Rattle.std.specs.Prelude.{◌≡◌, IsTrue, IfOk, filter};
ghost use Rattle.dl_types.specs.Name.{same_base};
ghost use Rattle.dl_disk.specs.Disk.{IsUncounted};
ghost use Rattle.dl_tool.specs.Begin.{AreInWay};
ghost use Rattle.dl_tool.specs.Folder.{main_file};

use crate::folder::sorted_names;
use crate::line::LogFiles;
use dl_disk::{Disk, ListFault};
use dl_types::{Base, FileName, Kind};
use std::alloc::{AllocError, Allocator};

/// The files that are in the way of a log that is not there: all files of its base, first that of a log of the other
/// kind, and then the numbered ones in their order. To begin the log beside them would hide them, or write over them.
/// If the log is there, no file is in its way. Nothing is changed.
pub fn files_in_way<D: Disk, A: Allocator + Copy>(
    alloc: A,
    disk: &mut D,
    log: LogFiles,
) -> Result<Vec<FileName, A>, ListFault>
    ensures device { IsUncounted (D.state disk.old) (D.state disk.new) }
    ensures content { IsTrue (D.state disk.new).honest → (D.state disk.new).content ≡ (D.state disk.old).content }
    ensures files { IsTrue (D.state disk.new).honest → IfOk result (λ files. AreInWay (D.state disk.old).content log files.items) }
{
    let names = sorted_names(alloc, disk)?;
    if names.contains(&main_file(log)) {
        return Ok(Vec::new(alloc));
    }
    let Ok(files) = of_base(alloc, names.as_slice(), log.base) else {
        return Err(ListFault::OutOfMemory);
    };
    Ok(files)
}

// The main file of a log.
fn main_file(log: LogFiles) -> FileName
    ensures { result ≡ main_file log }
{
    match log.kind {
        Kind::Halt => FileName::halt(log.base),
        Kind::Wrap => FileName::index(log.base),
    }
}

/// Those of these files that have this base.
pub(crate) fn of_base<A: Allocator>(
    alloc: A,
    names: &[FileName],
    base: Base,
) -> Result<Vec<FileName, A>, AllocError>
    ensures { IfOk result (λ files. files.items ≡ filter (λ f. same_base f.base base) names.now) }
{
    let mut files = Vec::new(alloc);
    for name in names {
        if name.base == base {
            files.push(*name)?;
        }
    }
    Ok(files)
}
