// Which files may have bytes that are not on the device.
ghost use Rattle.std.specs.Prelude.{◌≡◌, ◌≢◌, ◌≤◌, ◌<◌, [], false, IsTrue, IfSome, IfNone, OnOk, OnErr};
ghost use Rattle.indexmap.specs.IndexSet.{spare};
ghost use Rattle.dl_types.specs.declared.file.FileName.{FileName};
ghost use Rattle.dl_disk.specs.Owed.{IsSettledBeside, KeepsLost, KeepsSettled, count_under, is_beside, is_clean, is_lost, is_running, is_unchanged, owes};

use super::by_base::{FileSet, FilesByBase};
use dl_types::FileName;
use indexmap::IndexSet;
use std::alloc::{AllocError, Global};

// How many files are known to be unchanged at most. A name takes some 90 bytes.
const UNCHANGED_FILES: usize = 65_536;

/// The files whose bytes may not be on the device, as far as one disk wrote and synced them.
#[derive(Drop)]
pub(crate) struct Owed {
    // Those that were written since they were last synced.
    pub(crate) files: FilesByBase,
    // Those at which a sync failed since they were put, and those that are synced without the disk.
    pub(crate) doubtful: FileSet,
    // Of these, those whose sync without the disk has not ended.
    pub(crate) running: FileSet,
    // Those that were not written since they were synced or put, or since their sync without the disk began. Some may be left out.
    pub(crate) unchanged: FileSet,
}

impl Owed {
    /// Nothing was written yet.
    pub(crate) fn new(alloc: Global) -> Owed
        ensures files { (file : FileName) → owes result file ≡ false }
        ensures doubtful { result.doubtful.keys ≡ [] }
    {
        Owed {
            files: FilesByBase::new(alloc),
            doubtful: IndexSet::new(alloc),
            running: IndexSet::new(alloc),
            unchanged: IndexSet::new(alloc),
        }
    }

    /// Notes that a file is written.
    pub(crate) fn write(&mut self, file: FileName) -> Result<(), AllocError>
        ensures owes { OnOk result (IsTrue (owes self.new file)) }
        ensures kept { (other : FileName) → IsTrue (owes self.old other) → IsTrue (owes self.new other) }
        ensures changed { is_unchanged self.new file ≡ false }
        ensures rest { self.new ≡ record self.old { files = self.new.files; unchanged = self.new.unchanged } }
        ensures err { OnErr result ((other : FileName) → owes self.new other ≡ owes self.old other) }
    {
        let _ = self.unchanged.swap_remove(&file);
        self.files.insert(file)?;
        Ok(())
    }

    /// Another file under the base of a file that owes bytes.
    pub(crate) fn beside(&self, file: FileName) -> Option<FileName>
        ensures some { IfSome result (λ other. IsTrue (owes self.now other) × IsTrue (is_beside file other)) }
        ensures none { IfNone result (IsSettledBeside self.now file) }
    {
        self.files.beside(file)
    }

    /// Whether a file owes bytes.
    pub(crate) fn owes(&self, file: FileName) -> bool
        ensures { result ≡ owes self.now file }
    {
        self.files.contains(file)
    }

    /// Notes that the bytes of a file are on the device.
    pub(crate) fn settle(&mut self, file: FileName)
        ensures settled { owes self.new file ≡ false }
        ensures fewer { IsTrue (owes self.old file) → count_under self.new.files file.base < count_under self.old.files file.base }
        ensures others { KeepsSettled self.old self.new }
        ensures rest { self.new ≡ record self.old { files = self.new.files } }
    {
        self.files.remove(file);
    }

    /// Notes that all bytes of a file are on the device, so that its next sync needs no device. Without memory for that the next
    /// sync asks the device.
    pub(crate) fn keep_unchanged(&mut self, file: FileName)
        ensures rest { self.new ≡ record self.old { unchanged = self.new.unchanged } }
    {
        if self.unchanged.len() >= UNCHANGED_FILES {
            self.unchanged.clear();
        }
        let _ = self.unchanged.insert(file);
    }

    /// Whether all bytes of a file are known to be on the device.
    pub(crate) fn is_clean(&self, file: FileName) -> bool
        ensures { result ≡ is_clean self.now file }
    {
        self.unchanged.contains(&file)
            && !self.files.contains(file)
            && !self.doubtful.contains(&file)
    }

    /// Takes memory to note one file at which a sync fails.
    pub(crate) fn ready_loss(&mut self) -> Result<(), AllocError>
        ensures ready { OnOk result (0 < spare self.new.doubtful) }
        ensures lost { self.new.doubtful.keys ≡ self.old.doubtful.keys }
        ensures rest { self.new ≡ record self.old { doubtful = self.new.doubtful } }
    {
        self.doubtful.reserve(1)
    }

    /// Notes that a sync of a file failed.
    pub(crate) fn lose(&mut self, file: FileName)
        requires { 0 < spare self.old.doubtful }
        ensures lost { IsTrue (is_lost self.new file) }
        ensures others { KeepsLost self.old self.new }
        ensures files { self.new.files ≡ self.old.files }
    {
        let _ = self.doubtful.insert(file);
        let _ = self.running.swap_remove(&file);
    }

    /// Whether a sync of a file failed.
    pub(crate) fn is_lost(&self, file: FileName) -> bool
        ensures { result ≡ is_lost self.now file }
    {
        self.doubtful.contains(&file) && !self.running.contains(&file)
    }

    /// Notes that a file is not there any more, or was put anew.
    pub(crate) fn forget(&mut self, file: FileName)
        ensures settled { owes self.new file ≡ false }
        ensures found { is_lost self.new file ≡ false }
        ensures others { KeepsSettled self.old self.new }
        ensures room { spare self.old.doubtful ≤ spare self.new.doubtful }
    {
        self.settle(file);
        let _ = self.doubtful.swap_remove(&file);
        let _ = self.running.swap_remove(&file);
        let _ = self.unchanged.swap_remove(&file);
    }

    /// Notes that a file was renamed, replacing the file that had the new name. If a sync of it is running without
    /// the disk, that sync counts as failed, since its end will be noted under the old name.
    pub(crate) fn rename(&mut self, from: FileName, to: FileName)
        requires { 0 < spare self.old.doubtful }
        ensures others { KeepsSettled self.old self.new }
        ensures lost { IsTrue (is_lost self.old from) → IsTrue (is_lost self.new to) }
        ensures running { from ≢ to → IsTrue (is_running self.old from) → IsTrue (is_lost self.new to) }
    {
        if from == to {
            return;
        }
        let is_doubtful = self.doubtful.contains(&from);
        self.forget(from);
        self.forget(to);
        if is_doubtful {
            self.lose(to);
        }
    }
}

impl Owed {
    /// Notes that a sync of a file begins that is not waited for. It is refused if a sync of the file failed or is
    /// running so already, and if there is no memory for it.
    pub(crate) fn begin(&mut self, file: FileName) -> Result<(), AllocError>
        ensures running { OnOk result (IsTrue (is_running self.new file)) }
        ensures files { self.new.files ≡ self.old.files }
        ensures lost { KeepsLost self.old self.new }
    {
        if self.doubtful.contains(&file) {
            return Err(AllocError);
        }
        self.unchanged.insert(file)?;
        self.running.insert(file)?;
        self.doubtful.insert(file)?;
        Ok(())
    }

    /// Notes how a sync of a file that was not waited for has ended. A file that was put anew meanwhile has nothing to do with it.
    pub(crate) fn end(&mut self, file: FileName, synced: bool)
        ensures failed { synced ≡ false → IsTrue (is_running self.old file) → IsTrue (is_lost self.new file) }
        ensures settled { IsTrue synced → IsTrue (is_running self.old file) → IsTrue (is_unchanged self.old file) → owes self.new file ≡ false }
        ensures changed { is_unchanged self.old file ≡ false → self.new.files ≡ self.old.files }
        ensures others { KeepsSettled self.old self.new }
        ensures lost { KeepsLost self.old self.new }
    {
        if !self.running.swap_remove(&file) || !synced {
            return;
        }
        let _ = self.doubtful.swap_remove(&file);
        if self.unchanged.contains(&file) {
            self.settle(file);
        }
    }
}
