// The syncs of a folder, and of its files.
ghost use Rattle.std.specs.Prelude.{◌≡◌, ◌≤◌, ◌<◌, false, IsTrue, IsErr, IfSome, OnOk, OnErr};
ghost use Rattle.indexmap.specs.IndexSet.{spare};
ghost use Rattle.dl_types.specs.declared.file.FileName.{FileName};
ghost use Rattle.dl_disk.specs.declared.syncs.Syncs.TheVariants.{AtRolls};
ghost use Rattle.dl_disk.specs.Folder.{IsClosed, known_length};
ghost use Rattle.dl_disk.specs.Owed.{IsSettledBeside, KeepsLost, KeepsSettled, OwesNoName, count_under, is_lost, is_running, is_unchanged, owes};

use super::calls::{Folder, if_there};
use super::opened::Access;
use crate::syncing::Syncing;
use crate::syncs::Syncs;
use dl_types::FileName;
use std::fs::File;
use std::io;
use std::io::ErrorKind;
use std::rt::Files;

impl<R: Files<File = File> + AllocGlobal + Clone + Drop> Folder<R> {
    // Syncs a file that is kept open, and notes how that ended.
    fn sync_kept(&mut self, file: FileName) -> io::Result<()>
        requires { 0 < spare self.old.owed.doubtful }
        ensures ok { OnOk result (owes self.new.owed file ≡ false) }
        ensures fewer { OnOk result (IsTrue (owes self.old.owed file) → count_under self.new.owed.files file.base < count_under self.old.owed.files file.base) }
        ensures others { KeepsSettled self.old.owed self.new.owed }
        ensures lost { KeepsLost self.old.owed self.new.owed }
        ensures err { OnErr result (IsTrue (is_lost self.new.owed file) × IsClosed self.new.kept.files.entries file) }
        ensures length { OnOk result (known_length self.new.kept.files.entries file ≡ known_length self.old.kept.files.entries file) }
        ensures rest { self.new ≡ record self.old { kept = self.new.kept; owed = self.new.owed } }
    {
        let answer = self.kept.sync(file);
        if answer.is_ok() {
            self.owed.settle(file);
            self.owed.keep_unchanged(file);
        } else {
            self.owed.lose(file);
        }
        answer
    }

    /// Makes a file durable that was cut and is kept open.
    pub(crate) fn sync_cut(&mut self, file: FileName) -> io::Result<()>
        ensures ok { OnOk result (owes self.new.owed file ≡ false) }
        ensures err { OnErr result (IsClosed self.new.kept.files.entries file) }
        ensures length { OnOk result (known_length self.new.kept.files.entries file ≡ known_length self.old.kept.files.entries file) }
    {
        if let Err(error) = self.owed.ready_loss() {
            self.kept.close(file);
            return Err(error.into());
        }
        self.sync_kept(file)
    }

    // Makes the bytes of a file durable, if it is there.
    fn settle_bytes(&mut self, file: FileName) -> io::Result<()>
        ensures ok { OnOk result (owes self.new.owed file ≡ false) }
        ensures others { KeepsSettled self.old.owed self.new.owed }
        ensures fewer { OnOk result (IsTrue (owes self.old.owed file) → count_under self.new.owed.files file.base < count_under self.old.owed.files file.base) }
        ensures lost { KeepsLost self.old.owed self.new.owed }
        ensures rest { self.new ≡ record self.old { kept = self.new.kept; owed = self.new.owed } }
    {
        self.owed.ready_loss()?;
        match if_there(self.keep_open(file, Access::Read))? {
            Some(()) => self.sync_kept(file),
            None => {
                self.owed.settle(file);
                Ok(())
            }
        }
    }

    /// Makes the bytes of the other files under a file's base durable, unless syncs are made only when they are asked for.
    pub(crate) fn settle_beside(&mut self, file: FileName) -> io::Result<()>
        ensures ok { OnOk result (self.old.syncs ≡ AtRolls → IsSettledBeside self.new.owed file) }
        ensures lost { KeepsLost self.old.owed self.new.owed }
        ensures rest { self.new ≡ record self.old { kept = self.new.kept; owed = self.new.owed } }
    {
        if self.syncs == Syncs::OnlyWhenAsked {
            return Ok(());
        }
        'settling: while let Some(other) = self.owed.beside(file) {
            self.settle_bytes(other)?;
        }
        Ok(())
    }

    /// Makes the bytes of all files under a file's base durable, unless syncs are made only when they are asked for.
    pub(crate) fn settle_base(&mut self, file: FileName) -> io::Result<()>
        ensures beside { OnOk result (self.old.syncs ≡ AtRolls → IsSettledBeside self.new.owed file) }
        ensures own { OnOk result (self.old.syncs ≡ AtRolls → owes self.new.owed file ≡ false) }
        ensures lost { KeepsLost self.old.owed self.new.owed }
        ensures rest { self.new ≡ record self.old { kept = self.new.kept; owed = self.new.owed } }
    {
        self.settle_beside(file)?;
        if self.syncs == Syncs::AtRolls && self.owed.owes(file) {
            self.settle_bytes(file)?;
        }
        Ok(())
    }

    /// Makes the names of the folder durable, unless they are.
    pub(crate) fn sync_names(&mut self) -> io::Result<()>
        ensures durable { OnOk result (OwesNoName self.new.names) }
        ensures rest { self.new ≡ record self.old { own = self.new.own; names = self.new.names } }
    {
        if self.names.is_owed() {
            self.own.sync_all()?;
            self.names.settle();
        }
        Ok(())
    }

    /// Makes names durable that have just changed. If the device fails at that, the next call that needs them durable tries again.
    pub(crate) fn settle_names(&mut self)
        ensures { self.new ≡ record self.old { own = self.new.own; names = self.new.names } }
    {
        self.names.change();
        let _ = self.sync_names();
    }

    /// Notes that a file was put under a new name. The name is made durable with others, by the next sync or the next change of
    /// names under its base. If it cannot be noted, it is made durable now.
    pub(crate) fn begin_name(&mut self, file: FileName)
        ensures { self.new ≡ record self.old { own = self.new.own; names = self.new.names } }
    {
        if self.names.begin(file.base).is_err() {
            self.settle_names();
        }
    }

    // Makes the bytes of a file durable, unless they are, and the names of the folder if they are owed.
    fn sync_both(&mut self, file: FileName) -> io::Result<()>
        ensures bytes { OnOk result (owes self.new.owed file ≡ false) }
        ensures names { OnOk result (OwesNoName self.new.names) }
        ensures lost { KeepsLost self.old.owed self.new.owed }
    {
        if !self.owed.is_clean(file) {
            self.owed.ready_loss()?;
            self.keep_open(file, Access::Read)?;
            self.check_kept(file)?;
            self.sync_kept(file)?;
        }
        self.sync_names()
    }

    /// Makes what was written to a file durable, and the names of the folder if they are owed. A file that is known to owe nothing
    /// is not asked for. A file at which a sync failed before is synced, and is a fault until it is put anew, since bytes of it may
    /// be gone. So is one that has not its name any more.
    pub(crate) fn sync(&mut self, file: FileName) -> io::Result<()>
        ensures bytes { OnOk result (owes self.new.owed file ≡ false) }
        ensures names { OnOk result (OwesNoName self.new.names) }
        ensures lost { IsTrue (is_lost self.old.owed file) → IsErr result }
        ensures err { OnErr result (IsClosed self.new.kept.files.entries file) }
    {
        let mut answer = self.sync_both(file);
        if answer.is_ok() && self.owed.is_lost(file) {
            answer = Err(ErrorKind::Other.into());
        }
        if answer.is_err() {
            self.kept.close(file);
        }
        answer
    }
}

impl<R: Files<File = File> + AllocGlobal + Clone + Drop> Folder<R> {
    // A handle of a file whose sync is then running without the disk.
    fn begin_handle(&mut self, file: FileName) -> io::Result<File>
        ensures running { OnOk result (IsTrue (is_running self.new.owed file)) }
        ensures owed { self.new.owed.files ≡ self.old.owed.files }
        ensures lost { KeepsLost self.old.owed self.new.owed }
    {
        self.keep_open(file, Access::Read)?;
        self.check_kept(file)?;
        let handle = self.kept.handle(file)?;
        self.owed.begin(file)?;
        Ok(handle)
    }

    /// Begins a sync of the bytes of a file that the caller waits for without the disk. Returns `None` if the file
    /// owes none, if a sync of it failed or is running, and if the system has no second handle of it.
    pub(crate) fn begin_sync(&mut self, file: FileName) -> Option<Syncing>
        ensures running { IfSome result (λ syncing. (syncing.file ≡ file) × IsTrue (is_running self.new.owed file)) }
        ensures owed { self.new.owed.files ≡ self.old.owed.files }
        ensures lost { KeepsLost self.old.owed self.new.owed }
    {
        if self.owed.is_clean(file) {
            return None;
        }
        let handle = self.begin_handle(file).ok()?;
        Some(Syncing::of(file, handle))
    }

    /// Notes how a sync that was not waited for has ended.
    pub(crate) fn end_sync(&mut self, syncing: Syncing, synced: bool)
        ensures failed { synced ≡ false → IsTrue (is_running self.old.owed syncing.file) → IsTrue (is_lost self.new.owed syncing.file) }
        ensures settled { IsTrue synced → IsTrue (is_running self.old.owed syncing.file) → IsTrue (is_unchanged self.old.owed syncing.file) → owes self.new.owed syncing.file ≡ false }
        ensures changed { is_unchanged self.old.owed syncing.file ≡ false → self.new.owed.files ≡ self.old.owed.files }
        ensures others { KeepsSettled self.old.owed self.new.owed }
        ensures lost { KeepsLost self.old.owed self.new.owed }
    {
        let file = syncing.file();
        if !synced {
            self.kept.close(file);
        }
        self.owed.end(file, synced);
    }
}
