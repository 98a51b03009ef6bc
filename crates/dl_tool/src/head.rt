// The head of a file.
ghost use Rattle.std.specs.Prelude.{◌≡◌, ◌↔◌, Some, IsTrue, IfOk};
ghost use Rattle.dl_types.specs.declared.head.Head.{Head};
ghost use Rattle.dl_types.specs.Frame.{IsHead};
ghost use Rattle.dl_disk.specs.Disk.{text_at};
ghost use Rattle.dl_tool.specs.Reads.{ReadsLog};

use crate::finding::CheckFault;
use dl_disk::Disk;
use dl_frame::read_head;
use dl_types::{FileName, HEAD_LIMIT, Head};

/// The head that a file begins with. None if there is no such file, or it begins with none. No other byte is read.
pub(crate) fn head_of<D: Disk>(disk: &mut D, file: FileName) -> Result<Option<Head>, CheckFault>
    ensures reads { ReadsLog file.base (D.state disk.old) (D.state disk.new) result }
    ensures head { IsTrue (D.state disk.new).honest → IfOk result (λ found. (says : Head) → (found ≡ Some says) ↔ IsHead (text_at (D.state disk.old).content file) says) }
{
    let Ok(()) = disk.know(file.base) else {
        return Err(CheckFault::OutOfMemory);
    };
    let mut start = [0; HEAD_LIMIT as usize];
    match disk.read_at(file, 0, &mut start) {
        Err(_) => Err(CheckFault::Device(file)),
        Ok(n) => Ok(read_head(&start[..n])),
    }
}
