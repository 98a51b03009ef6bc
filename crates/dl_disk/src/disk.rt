// A disk, by what its files hold and how often it failed.
ghost use Rattle.std.specs.Prelude.{◌≡◌, ◌≢◌, ◌≤◌, ◌↔◌, ◌∷◌, ℕ, List, Bool, IsTrue, IsSome, Some, OnOk, OnErr, IfOk, Contains, length, take, drop, option_map};
ghost use Rattle.std.specs.FinMap as map;
ghost use Rattle.dl_types.specs.declared.name.Base.{Base};
ghost use Rattle.dl_types.specs.declared.file.FileName.{FileName};
ghost use Rattle.dl_disk.specs.Disk.{DiskState, IsCallOn, IsUncounted, written, TornAt, text_at, IsOnce};

use crate::fault::{Fault, ListFault};
use crate::reason::Reason;
use crate::syncing::Syncing;
use dl_types::{Base, FileName};
use std::alloc::{AllocError, Allocator};

/// The device that keeps the files of all logs.
///
/// Contracts see its files as a finite map from names to bytes, and its faults as a count by base. What they say
/// about files holds for an honest disk: one that returns what was written. A disk that was dishonest once stays so.
///
/// `put`, `rename` and `remove` may succeed before the new name is durable: for a new file, and where the device
/// failed after the change. The disk remembers that. The next change of names under the file's base and the next
/// `sync` of any file make the name durable, or are a fault.
pub trait Disk {
    /// What the disk is seen as: its files, whether it was honest so far, and its counts of faults.
    ghost state: { Self → DiskState };

    /// Starts counting the faults of a base, unless they are counted already. This does not call the device.
    fn know(&mut self, base: Base) -> Result<(), AllocError>
        ensures known { OnOk result (IsTrue ((state self.new).known base)) }
        ensures device { IsUncounted (state self.old) (state self.new) }
        ensures content { (state self.new).content ≡ (state self.old).content };

    /// The length of a file in bytes, or `None` if there is no such file.
    fn size(&mut self, file: FileName) -> Result<Option<u64>, Fault>
        requires { IsTrue ((state self.old).known file.base) }
        ensures device { IsCallOn file.base (state self.old) (state self.new) result }
        ensures content { IsTrue (state self.new).honest → (state self.new).content ≡ (state self.old).content }
        ensures value { IsTrue (state self.new).honest → IfOk result (λ size. size ≡ option_map length (map.get (state self.old).content file)) };

    /// Reads from an offset on, as many bytes as fit in the buffer and the file has. A missing file has none.
    fn read_at(&mut self, file: FileName, at: u64, buffer: &mut [u8]) -> Result<usize, Fault>
        requires { IsTrue ((state self.old).known file.base) }
        ensures device { IsCallOn file.base (state self.old) (state self.new) result }
        ensures content { IsTrue (state self.new).honest → (state self.new).content ≡ (state self.old).content }
        ensures within { IfOk result (λ n. n ≤ length buffer.old) }
        ensures read { IsTrue (state self.new).honest → IfOk result (λ n. take n buffer.new ≡ take (length buffer.old) (drop at (text_at (state self.old).content file))) };

    /// Writes bytes from an offset on, over what is there and past the end. An offset past the end is a fault.
    fn write_at(&mut self, file: FileName, at: u64, bytes: &[u8]) -> Result<(), Fault>
        requires { IsTrue ((state self.old).known file.base) }
        ensures device { IsCallOn file.base (state self.old) (state self.new) result }
        ensures ok { IsTrue (state self.new).honest → OnOk result ((text : List ℕ) × (map.get (state self.old).content file ≡ Some text) × (at ≤ length text)
            × ((state self.new).content ≡ map.insert (state self.old).content file (written text at bytes.now))) }
        ensures torn { IsTrue (state self.new).honest → OnErr result (TornAt (map.get (state self.old).content file) at (length bytes.now) (map.get (state self.new).content file)) }
        ensures others { IsTrue (state self.new).honest → (f : FileName) → f ≢ file → map.get (state self.new).content f ≡ map.get (state self.old).content f };

    /// Creates a file with these bytes, or replaces the whole file that is there. Its bytes are durable then. After a
    /// fault the file is as it was.
    fn put(&mut self, file: FileName, bytes: &[u8]) -> Result<(), Fault>
        requires { IsTrue ((state self.old).known file.base) }
        ensures device { IsCallOn file.base (state self.old) (state self.new) result }
        ensures ok { IsTrue (state self.new).honest → OnOk result ((state self.new).content ≡ map.insert (state self.old).content file bytes.now) }
        ensures err { IsTrue (state self.new).honest → OnErr result ((state self.new).content ≡ (state self.old).content) };

    /// Cuts a file to a length that it has. It is a fault if there is no such file, or it is shorter.
    fn cut(&mut self, file: FileName, size: u64) -> Result<(), Fault>
        requires { IsTrue ((state self.old).known file.base) }
        ensures device { IsCallOn file.base (state self.old) (state self.new) result }
        ensures ok { IsTrue (state self.new).honest → OnOk result ((text : List ℕ) × (map.get (state self.old).content file ≡ Some text) × (size ≤ length text)
            × ((state self.new).content ≡ map.insert (state self.old).content file (take size text))) }
        ensures err { IsTrue (state self.new).honest → OnErr result ((state self.new).content ≡ (state self.old).content) };

    /// Renames a file, replacing the file that had the new name. If there is no such file it is a fault, counted
    /// under the old name's base. After a fault both names are as they were.
    fn rename(&mut self, from: FileName, to: FileName) -> Result<(), Fault>
        requires { IsTrue ((state self.old).known from.base) }
        ensures device { IsCallOn from.base (state self.old) (state self.new) result }
        ensures ok { IsTrue (state self.new).honest → OnOk result ((text : List ℕ) × (map.get (state self.old).content from ≡ Some text)
            × ((state self.new).content ≡ map.insert (map.remove (state self.old).content from) to text)) }
        ensures err { IsTrue (state self.new).honest → OnErr result ((state self.new).content ≡ (state self.old).content) };

    /// Removes a file. It succeeds if there is no such file. After a fault the file is still there.
    fn remove(&mut self, file: FileName) -> Result<(), Fault>
        requires { IsTrue ((state self.old).known file.base) }
        ensures device { IsCallOn file.base (state self.old) (state self.new) result }
        ensures ok { IsTrue (state self.new).honest → OnOk result ((state self.new).content ≡ map.remove (state self.old).content file) }
        ensures err { IsTrue (state self.new).honest → OnErr result ((state self.new).content ≡ (state self.old).content) };

    /// Makes durable what was written to a file, and changes of names that are not durable yet. It is a fault if
    /// there is no such file.
    fn sync(&mut self, file: FileName) -> Result<(), Fault>
        requires { IsTrue ((state self.old).known file.base) }
        ensures device { IsCallOn file.base (state self.old) (state self.new) result }
        ensures content { IsTrue (state self.new).honest → (state self.new).content ≡ (state self.old).content }
        ensures there { IsTrue (state self.new).honest → OnOk result (IsSome (map.get (state self.old).content file)) };

    /// Whether a sync can be waited for without the disk, as one of a folder can.
    fn syncs_apart(&self) -> bool {
        false
    }

    /// Begins a sync of a file that the caller waits for without the disk. Returns `None` if the disk cannot do that,
    /// if the file owes nothing, is missing or is already being synced in this way, and if a sync of it failed: then
    /// call `sync`.
    fn begin_sync(&mut self, file: FileName) -> Option<Syncing>
        ensures { state self.new ≡ state self.old }
    {
        let _ = file;
        None
    }

    /// Records how a sync that `begin_sync` began has ended. If it failed, each later `sync` of the file is a fault,
    /// until the file is put anew. If it succeeded and the file was not changed meanwhile, the next `sync` of the
    /// file does not call the device.
    fn end_sync(&mut self, syncing: Syncing, synced: bool)
        ensures { state self.new ≡ state self.old }
    {
        let _ = syncing;
        let _ = synced;
    }

    /// Returns the names of all files, each once. A fault is counted under no base.
    fn list<A: Allocator>(&mut self, alloc: A) -> Result<Vec<FileName, A>, ListFault>
        ensures device { IsUncounted (state self.old) (state self.new) }
        ensures content { IsTrue (state self.new).honest → (state self.new).content ≡ (state self.old).content }
        ensures names { IsTrue (state self.new).honest → IfOk result (λ names. IsOnce names.items
            × ((f : FileName) → Contains names.items f ↔ IsSome (map.get (state self.old).content f))) };

    /// Why the last failed call failed, and on which file, as far as the disk knows. A disk in memory knows no
    /// reason.
    fn reason(&self) -> Option<Reason> {
        None
    }
}
