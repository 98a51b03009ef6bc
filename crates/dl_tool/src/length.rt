// How long a file is.
ghost use Rattle.std.specs.Prelude.{◌≡◌, IsTrue, IfOk, length};
ghost use Rattle.dl_disk.specs.Disk.{text_at};
ghost use Rattle.dl_tool.specs.Reads.{ReadsLog};

use crate::finding::CheckFault;
use dl_disk::Disk;
use dl_types::FileName;

/// The length of a file in bytes, 0 if there is no such file.
pub fn length_of<D: Disk>(disk: &mut D, file: FileName) -> Result<u64, CheckFault>
    requires { IsTrue ((D.state disk.old).known file.base) }
    ensures reads { ReadsLog file.base (D.state disk.old) (D.state disk.new) result }
    ensures same { IsTrue (D.state disk.new).honest → IfOk result (λ n. n ≡ length (text_at (D.state disk.old).content file)) }
{
    let size = disk.size(file).map_err(|_| CheckFault::Device(file))?;
    Ok(size.unwrap_or(0))
}
