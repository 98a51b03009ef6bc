// The calls of the system that change which files a folder has.
ghost use Rattle.std.specs.Prelude.{◌≡◌, ◌<◌, false, IfOk, IsTrue, OnOk, OnErr};
ghost use Rattle.std.specs.Path.{path_buf_bytes, path_join};
ghost use Rattle.dl_types.specs.declared.file.FileName.{FileName};
ghost use Rattle.dl_disk.specs.declared.syncs.Syncs.TheVariants.{AtRolls};
ghost use Rattle.dl_disk.specs.Folder.{IsClosed, draft_name};
ghost use Rattle.dl_disk.specs.Owed.{IsSettledBeside, is_lost, owes, owes_name};

use super::calls::{Folder, if_there, is_crowded};
use super::opened::Access;
use crate::fault::ListFault;
use dl_types::{Base, FileName};
use std::alloc::Allocator;
use std::fs::{DirEntry, File};
use std::io::{ErrorKind, Write};
use std::path::{Path, PathBuf};
use std::rt::Files;
use std::{fs, io};

impl<R: Files<File = File> + AllocGlobal + Clone + Drop> Folder<R> {
    // The path of a file's draft, to which its new bytes are written first.
    fn draft_of(&self, file: FileName) -> io::Result<PathBuf>
        ensures { IfOk result (λ path. path_buf_bytes path ≡ path_join (path_buf_bytes self.now.path) (draft_name file)) }
    {
        let name = format!(in self.rt.alloc(); "{file}.new")?;
        Ok(self.path.join(self.rt.alloc(), name.as_str())?)
    }

    // Writes a draft, and renames it to a path. Where that fails no draft is left.
    fn put_draft(&mut self, draft: Path<'_>, path: Path<'_>, bytes: &[u8]) -> io::Result<()>
        ensures closed { (other : FileName) → IsClosed self.old.kept.files.entries other → IsClosed self.new.kept.files.entries other }
        ensures rest { self.new ≡ record self.old { kept = self.new.kept } }
    {
        if_there(fs::remove_file(&self.rt, draft))?;
        let opened = self.open_at(draft, Access::Draft)?;
        let put = write_whole(opened, bytes).and_then(|()| fs::rename(&self.rt, draft, path));
        if put.is_err() {
            let _ = fs::remove_file(&self.rt, draft);
        }
        put
    }

    // Makes names durable that may not become so after those which are about to change under a base.
    fn settle_names_for(&mut self, base: Base) -> io::Result<()>
        ensures durable { OnOk result (owes_name self.new.names base ≡ false) }
        ensures rest { self.new ≡ record self.old { own = self.new.own; names = self.new.names } }
    {
        if self.names.is_owed_under(base) {
            self.sync_names()?;
        }
        Ok(())
    }

    /// Creates a file with these bytes, or replaces the whole file that is there. A stop leaves either the old file
    /// or the new one.
    ///
    /// Names under its base that are owed from an earlier change are made durable first, and so is what other files
    /// under its base owe. The name of a new file becomes durable later, with others, unless a file of its base was
    /// moved away before.
    pub(crate) fn put(&mut self, file: FileName, bytes: &[u8]) -> io::Result<()>
        ensures closed { IsClosed self.new.kept.files.entries file }
        ensures beside { OnOk result (self.old.syncs ≡ AtRolls → IsSettledBeside self.new.owed file) }
        ensures settled { OnOk result ((owes self.new.owed file ≡ false) × (is_lost self.new.owed file ≡ false)) }
    {
        let settled = self.settle_beside(file);
        self.kept.close(file);
        settled?;
        let is_new = self.size(file)?.is_none();
        let path = self.path_of(file)?;
        let draft = self.draft_of(file)?;
        self.settle_names_for(file.base)?;
        self.put_draft(draft.as_path(), path.as_path(), bytes)?;
        self.owed.forget(file);
        self.owed.keep_unchanged(file);
        if is_new {
            self.begin_name(file);
        } else {
            self.settle_names();
        }
        Ok(())
    }

    /// Renames a file, replacing the file that had the new name. Names that are owed from an earlier change are made
    /// durable first. So is what the file and other files under its base owe: the rename closes their log, and nobody
    /// could ask for a sync of them.
    pub(crate) fn rename(&mut self, from: FileName, to: FileName) -> io::Result<()>
        ensures from { IsClosed self.new.kept.files.entries from }
        ensures to { IsClosed self.new.kept.files.entries to }
        ensures settled { OnOk result (self.old.syncs ≡ AtRolls → IsSettledBeside self.new.owed from × (owes self.new.owed from ≡ false)) }
        ensures lost { OnOk result (IsTrue (is_lost self.old.owed from) → IsTrue (is_lost self.new.owed to)) }
    {
        let settled = self.settle_base(from);
        self.kept.close(from);
        self.kept.close(to);
        settled?;
        self.size(from)?;
        self.size(to)?;
        let old = self.path_of(from)?;
        let new = self.path_of(to)?;
        self.sync_names()?;
        self.owed.ready_loss()?;
        fs::rename(&self.rt, old.as_path(), new.as_path())?;
        self.names.move_from(from.base);
        self.owed.rename(from, to);
        self.settle_names();
        Ok(())
    }

    /// Removes a file, if there is one. Names that are owed from an earlier change are made durable first.
    pub(crate) fn remove(&mut self, file: FileName) -> io::Result<()>
        ensures closed { IsClosed self.new.kept.files.entries file }
        ensures settled { OnOk result ((owes self.new.owed file ≡ false) × (is_lost self.new.owed file ≡ false)) }
    {
        self.kept.close(file);
        if self.size(file)?.is_some() {
            let path = self.path_of(file)?;
            self.sync_names()?;
            fs::remove_file(&self.rt, path.as_path())?;
            self.settle_names();
        }
        self.owed.forget(file);
        Ok(())
    }

    /// The names of the files that are there.
    pub(crate) fn names<A: Allocator>(&mut self, alloc: A) -> Result<Vec<FileName, A>, ListFault> {
        let mut names = Vec::new(alloc);
        let mut entries = fs::read_dir(&self.rt, self.path.as_path());
        if is_crowded(&entries) && self.kept.close_oldest() {
            entries = fs::read_dir(&self.rt, self.path.as_path());
        }
        for entry in entries? {
            if let Some(name) = name_of(entry)? {
                names.push(name).map_err(|_| ListFault::OutOfMemory)?;
            }
        }
        Ok(names)
    }
}

// Writes the bytes of a new file, and makes them durable.
fn write_whole(mut file: File, bytes: &[u8]) -> io::Result<()> {
    file.write_all(bytes)?;
    file.sync_all()
}

// The name of a file, if an entry of the folder has the form of one. A name that is not UTF-8 has not.
fn name_of<R: Files + Drop>(entry: io::Result<DirEntry<R>>) -> io::Result<Option<FileName>> {
    match entry {
        Ok(entry) => Ok(FileName::parse(entry.file_name().as_bytes())),
        Err(error) if error.kind() == ErrorKind::InvalidFilename => Ok(None),
        Err(error) => Err(error),
    }
}
