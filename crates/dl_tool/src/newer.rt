// Files that are newer than the index of their base.
ghost use Rattle.std.specs.Prelude.{◌↔◌, IsTrue, IfOk};
ghost use Rattle.dl_tool.specs.Newer.{IsNewer};
ghost use Rattle.dl_tool.specs.Reads.{ReadsLog};

use crate::finding::CheckFault;
use crate::head::head_of;
use crate::named::{Named, known_of};
use dl_disk::Disk;
use dl_types::FileName;
use std::alloc::Allocator;

/// Whether a file is newer than all files that the index of its base names: it begins with a head of a greater
/// generation. False if there is no index. Nothing is changed.
///
/// A log writes its index before it begins the file that the index names last. So such an index is an older one that
/// was put back, or was begun anew after the right one was lost.
pub fn is_newer<D: Disk, A: Allocator + Copy>(
    alloc: A,
    disk: &mut D,
    file: FileName,
) -> Result<bool, CheckFault>
    ensures reads { ReadsLog file.base (D.state disk.old) (D.state disk.new) result }
    ensures newer { IsTrue (D.state disk.new).honest → IfOk result (λ newer. IsTrue newer ↔ IsNewer (D.state disk.old).content file) }
{
    let known = known_of(alloc, disk, None, file.base)?;
    let Named::Index(index) = &known.named else {
        return Ok(false);
    };
    let newest = index.current().generation;
    let Some(head) = head_of(disk, file)? else {
        return Ok(false);
    };
    Ok(head.generation > newest)
}
