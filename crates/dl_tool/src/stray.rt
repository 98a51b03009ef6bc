// Files of a folder that belong to no log.
ghost use Rattle.std.specs.Prelude.{◌≡◌, ◌↔◌, ◌++◌, ◌∷◌, [], IsTrue, IfOk, IfSome, OnOk, Err, if◌then◌else◌};
ghost use Rattle.dl_types.specs.declared.file.FileName.{FileName};
ghost use Rattle.dl_disk.specs.Disk.{Rises};
ghost use Rattle.dl_tool.specs.declared.stray.StrayFault.TheVariants as stray;
ghost use Rattle.dl_tool.specs.Named.{index_of, IsLeftOut, Knows};
ghost use Rattle.dl_tool.specs.Reads.{OnlyReads, ReadsLog};
ghost use Rattle.dl_tool.specs.Stray.{list_fault, stray_fault, ArePicked, AreStrays, AreStraysOf};

use crate::begin::of_base;
use crate::finding::CheckFault;
use crate::folder::sorted_names;
use crate::named::{Known, known_of, leaves_out};
use dl_disk::{Disk, ListFault};
use dl_types::{Base, FileName, Part};
use std::alloc::{AllocError, Allocator};
use thiserror::Error;

/// Why the files that belong to no log were not found.
#[derive(Clone, Copy, Debug, PartialEq, Eq, Error)]
pub enum StrayFault {
    #[error("the folder cannot be listed")]
    List,
    /// The device failed at this index.
    #[error("cannot read {0}")]
    Device(FileName),
    #[error("out of memory")]
    OutOfMemory,
}

impl From<AllocError> for StrayFault {
    ghost from_gives = { λ _ e. e ≡ stray.OutOfMemory };

    fn from(_: AllocError) -> StrayFault {
        StrayFault::OutOfMemory
    }
}

impl From<CheckFault> for StrayFault {
    ghost from_gives = { λ fault e. e ≡ stray_fault fault };

    fn from(fault: CheckFault) -> StrayFault {
        match fault {
            CheckFault::Device(file) => StrayFault::Device(file),
            CheckFault::OutOfMemory => StrayFault::OutOfMemory,
        }
    }
}

impl From<ListFault> for StrayFault {
    ghost from_gives = { λ fault e. e ≡ list_fault fault };

    fn from(fault: ListFault) -> StrayFault {
        match fault {
            ListFault::Device => StrayFault::List,
            ListFault::OutOfMemory => StrayFault::OutOfMemory,
        }
    }
}

/// The numbered files of a folder that belong to no log, in order of base and number: the index of their base does
/// not name them, or there is no index. A wrap log that comes to such a number replaces the file. If the text of an
/// index is no index, the files of its base are left out. Each index is read once, and nothing is changed.
pub fn find_strays<D: Disk, A: Allocator + Copy>(
    alloc: A,
    disk: &mut D,
) -> Result<Vec<FileName, A>, StrayFault>
    ensures reads { OnlyReads (D.state disk.old) (D.state disk.new) }
    ensures device { (f : FileName) → result ≡ Err (StrayFault.Device f) → Rises ((D.state disk.old).faults f.base) ((D.state disk.new).faults f.base) }
    ensures strays { IsTrue (D.state disk.new).honest → IfOk result (λ files. AreStrays (D.state disk.old).content files.items) }
{
    let names = sorted_names(alloc, disk)?;
    strays_in(alloc, disk, names.as_slice())
}

/// The strays of a folder that have this base, in order of number. The index of the base alone is read.
pub fn find_strays_of<D: Disk, A: Allocator + Copy>(
    alloc: A,
    disk: &mut D,
    base: Base,
) -> Result<Vec<FileName, A>, StrayFault>
    ensures reads { OnlyReads (D.state disk.old) (D.state disk.new) }
    ensures device { (f : FileName) → result ≡ Err (StrayFault.Device f) → Rises ((D.state disk.old).faults f.base) ((D.state disk.new).faults f.base) }
    ensures strays { IsTrue (D.state disk.new).honest → IfOk result (λ files. AreStraysOf (D.state disk.old).content base files.items) }
{
    let names = sorted_names(alloc, disk)?;
    let own = of_base(alloc, names.as_slice(), base)?;
    strays_in(alloc, disk, own.as_slice())
}

// The strays of these files.
fn strays_in<D: Disk, A: Allocator + Copy>(
    alloc: A,
    disk: &mut D,
    names: &[FileName],
) -> Result<Vec<FileName, A>, StrayFault>
    ensures reads { OnlyReads (D.state disk.old) (D.state disk.new) }
    ensures device { (f : FileName) → result ≡ Err (StrayFault.Device f) → Rises ((D.state disk.old).faults f.base) ((D.state disk.new).faults f.base) }
    ensures strays { IsTrue (D.state disk.new).honest → IfOk result (λ files. ArePicked (D.state disk.old).content names.now files.items) }
{
    let mut known = None;
    let mut files = Vec::new(alloc);
    for name in names {
        let judged = judge(alloc, disk, known, *name)?;
        push_if(&mut files, *name, judged.is_stray)?;
        known = judged.known;
    }
    Ok(files)
}

// Whether a file is a stray, and what is known of the last index that was read.
#[derive(Drop)]
struct Judged<A: Allocator> {
    known: Option<Known<A>>,
    is_stray: bool,
}

// Finds whether a file is a numbered one that its index does not name. The index is read, unless it is known already.
fn judge<D: Disk, A: Allocator + Copy>(
    alloc: A,
    disk: &mut D,
    known: Option<Known<A>>,
    file: FileName,
) -> Result<Judged<A>, CheckFault>
    requires { IsTrue (D.state disk.old).honest → IfSome known (Knows (D.state disk.old).content) }
    ensures reads { ReadsLog file.base (D.state disk.old) (D.state disk.new) result }
    ensures knows { IsTrue (D.state disk.new).honest → IfOk result (λ judged. IfSome judged.known (Knows (D.state disk.old).content)) }
    ensures stray { IsTrue (D.state disk.new).honest → IfOk result (λ judged. IsTrue judged.is_stray ↔ IsLeftOut (index_of (D.state disk.old).content file.base) file.part) }
{
    let Part::Numbered(number) = file.part else {
        return Ok(Judged {
            known,
            is_stray: false,
        });
    };
    let own = known_of(alloc, disk, known, file.base)?;
    let is_stray = leaves_out(&own.named, number);
    Ok(Judged {
        known: Some(own),
        is_stray,
    })
}

// Adds a file if it is to be there.
fn push_if<A: Allocator>(
    files: &mut Vec<FileName, A>,
    file: FileName,
    is_there: bool,
) -> Result<(), AllocError>
    ensures { OnOk result (files.new.items ≡ files.old.items ++ (if is_there then file ∷ [] else [])) }
{
    if is_there {
        files.push(file)?;
    }
    Ok(())
}
