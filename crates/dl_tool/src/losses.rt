// What the last file of a log that needs a repair shows of items that were lost.
ghost use Rattle.std.specs.Prelude.{◌≡◌, ◌≤◌, ℕ, List, IsTrue, IfOk, length};
ghost use Rattle.dl_types.specs.declared.limits.TheConstants.{FILE_LIMIT};
ghost use Rattle.dl_types.specs.declared.head.Head.{Head};
ghost use Rattle.dl_types.specs.Frame.{Reads};
ghost use Rattle.dl_disk.specs.Disk.{text_at};
ghost use Rattle.dl_tool.specs.Losses.{counted_other, losses_of};
ghost use Rattle.dl_tool.specs.Reads.{ReadsLog};

use crate::check::spare_chain;
use crate::finding::CheckFault;
use crate::zeros::last_is_zeros;
use dl_disk::Disk;
use dl_file::{Found, ItemFile, ReadFault};
use dl_types::{FileName, Head};
use std::alloc::Allocator;

/// What a file shows of items that were lost.
#[derive(Clone, Copy, Debug, PartialEq, Eq)]
pub struct Losses {
    /// How many items the file has.
    pub items: u64,
    /// How many items the file counts, if it was closed with another number of them than it has.
    pub counted: Option<u64>,
    /// Whether the last item has bytes, none of them other than zero.
    pub zeros: bool,
}

/// What a file shows of items that were lost, for example because a machine stopped before the device had them. The
/// file is read piece by piece, its last item twice, and nothing is changed.
pub fn find_losses<D: Disk, A: Allocator + Copy>(
    alloc: A,
    disk: &mut D,
    file: FileName,
) -> Result<Losses, CheckFault>
    ensures reads { ReadsLog file.base (D.state disk.old) (D.state disk.new) result }
    ensures losses { IsTrue (D.state disk.new).honest → (says : Head) (items : List (List ℕ)) (bad : ℕ) → length (text_at (D.state disk.old).content file) ≤ FILE_LIMIT
        → Reads (text_at (D.state disk.old).content file) says items bad → IfOk result (λ losses. losses ≡ losses_of says items) }
{
    let Ok(chain) = spare_chain(alloc) else {
        return Err(CheckFault::OutOfMemory);
    };
    let Ok(()) = disk.know(file.base) else {
        return Err(CheckFault::OutOfMemory);
    };
    let found = match ItemFile::open(alloc, disk, file, chain) {
        Err(ReadFault::Device) => return Err(CheckFault::Device(file)),
        Err(ReadFault::OutOfMemory) => return Err(CheckFault::OutOfMemory),
        Ok(found) => found,
    };
    match found {
        Found::File {
            file: mut opened,
            head,
            ..
        } => {
            let items = opened.count();
            Ok(Losses {
                items,
                counted: counted_other(head, items),
                zeros: last_is_zeros(alloc, disk, file, &mut opened)?,
            })
        }
        _ => Ok(Losses {
            items: 0,
            counted: None,
            zeros: false,
        }),
    }
}

// How many items the head of a file with this many counts, if the file was closed with another number of them.
fn counted_other(head: Head, items: u64) -> Option<u64>
    ensures { result ≡ counted_other head items }
{
    if !head.is_miscounted(items) {
        return None;
    }
    Some(head.count)
}
