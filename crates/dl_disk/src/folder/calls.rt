// The calls of the system on the bytes of a folder's files.
ghost use Rattle.std.specs.Prelude.{◌≡◌, ◌≤◌, ◌+◌, ℕ, [], false, max, length, Ok, Some, IsTrue, IfSome, IfOk, OnOk, OnErr};
ghost use Rattle.std.specs.Path.{path_buf_bytes, path_join};
ghost use Rattle.dl_types.specs.declared.file.FileName.{FileName};
ghost use Rattle.dl_types.specs.Printed.{printed_file};
ghost use Rattle.dl_disk.specs.Folder.{IsClosed, IsKept, known_length};
ghost use Rattle.dl_disk.specs.declared.syncs.Syncs.TheVariants.{AtRolls, OnlyWhenAsked};
ghost use Rattle.dl_disk.specs.Owed.{owes};

use super::identity::Identity;
use super::kept::Kept;
use super::opened::{Access, Opened, length_at};
use super::owed::Owed;
use super::owed_names::OwedNames;
use crate::fault::OpenFault;
use crate::syncs::Syncs;
use dl_types::FileName;
use std::fs::File;
use std::io::ErrorKind;
use std::path::{Path, PathBuf};
use std::rt::Files;
use std::{fs, io};

// The system's numbers of an open that is refused since too many files are open, in all programs or in this one.
const TOO_MANY_OPEN: [i32; 2] = [23, 24];

/// A folder of the system.
#[derive(Drop)]
pub(crate) struct Folder<R: Files<File = File> + AllocGlobal + Clone + Drop> {
    pub(crate) rt: R,
    pub(crate) path: PathBuf,
    // The folder itself, open and locked.
    pub(crate) own: File,
    pub(crate) identity: Identity,
    pub(crate) kept: Kept,
    pub(crate) syncs: Syncs,
    pub(crate) owed: Owed,
    pub(crate) names: OwedNames,
}

impl<R: Files<File = File> + AllocGlobal + Clone + Drop> Folder<R> {
    /// Opens the folder at this path and locks it, until this is dropped.
    pub(crate) fn open(rt: R, path: &str, syncs: Syncs) -> Result<Folder<R>, OpenFault>
        ensures kept { IfOk result (λ folder. folder.kept.files.entries ≡ []) }
        ensures syncs { IfOk result (λ folder. folder.syncs ≡ syncs) }
    {
        let path = PathBuf::from_str(rt.alloc(), path)?;
        if !fs::metadata(&rt, path.as_path())?.is_dir() {
            return Err(OpenFault::Device);
        }
        let own = File::open(&rt, path.as_path())?;
        own.try_lock()?;
        let identity = Identity::of(&own.metadata()?);
        let kept = Kept::new(rt.alloc())?;
        let owed = Owed::new(rt.alloc());
        let names = OwedNames::new(rt.alloc());
        Ok(Folder {
            rt,
            path,
            own,
            identity,
            kept,
            syncs,
            owed,
            names,
        })
    }

    // Refuses a path that does not lead to the open folder, which was moved, or whose path has changed.
    fn check_path(&self) -> io::Result<()> {
        let found = fs::metadata(&self.rt, self.path.as_path());
        self.identity.expect(found)
    }

    /// Refuses a kept file that has not its name any more, since another program has moved, removed or replaced it.
    pub(crate) fn check_kept(&self, file: FileName) -> io::Result<()> {
        let path = self.path_of(file)?;
        let kept = self.kept.identity(file)?;
        kept.expect(fs::symlink_metadata(&self.rt, path.as_path()))
    }

    /// The path of a file. It is refused as stale if the folder's path does not lead to the open folder any more.
    pub(crate) fn path_of(&self, file: FileName) -> io::Result<PathBuf>
        ensures { IfOk result (λ path. path_buf_bytes path ≡ path_join (path_buf_bytes self.now.path) (printed_file file)) }
    {
        self.check_path()?;
        let name = file.to_string(self.rt.alloc())?;
        Ok(self.path.join(self.rt.alloc(), name.as_str())?)
    }

    /// Opens the file at a path. If too many files are open for that, those that are kept are closed, the least recently
    /// used one first.
    pub(crate) fn open_at(&mut self, path: Path<'_>, access: Access) -> io::Result<File>
        ensures closed { (other : FileName) → IsClosed self.old.kept.files.entries other → IsClosed self.new.kept.files.entries other }
        ensures rest { self.new ≡ record self.old { kept = self.new.kept } }
    {
        let mut answer = access.open(&self.rt, path);
        'crowded: while is_crowded(&answer) && self.kept.close_oldest() {
            answer = access.open(&self.rt, path);
        }
        answer
    }

    /// Opens the file of this name, unless it is kept open for this access.
    pub(crate) fn keep_open(&mut self, name: FileName, access: Access) -> io::Result<()>
        ensures ok { OnOk result (IsKept self.new.kept.files.entries name) }
        ensures err { OnErr result (IsClosed self.new.kept.files.entries name) }
        ensures rest { self.new ≡ record self.old { kept = self.new.kept } }
    {
        if self.kept.serves(name, access) {
            return Ok(());
        }
        self.kept.close(name);
        let path = self.path_of(name)?;
        let length = length_at(&self.rt, path.as_path())?;
        let file = self.open_at(path.as_path(), access)?;
        self.kept.add(Opened {
            name,
            access,
            length,
            file,
        })
    }

    // Opens a file that is about to be written, and notes that it will owe bytes.
    fn open_to_write(&mut self, file: FileName) -> io::Result<()>
        ensures ok { OnOk result (IsKept self.new.kept.files.entries file) }
        ensures err { OnErr result (IsClosed self.new.kept.files.entries file) }
        ensures owes { OnOk result (IsTrue (owes self.new.owed file)) }
        ensures rest { self.new ≡ record self.old { kept = self.new.kept; owed = self.new.owed } }
    {
        self.keep_open(file, Access::Change)?;
        if self.owed.write(file).is_err() {
            self.kept.close(file);
            return Err(ErrorKind::OutOfMemory.into());
        }
        Ok(())
    }

    /// The length of a file in bytes.
    pub(crate) fn size(&self, file: FileName) -> io::Result<Option<u64>>
        ensures { IfSome (known_length self.now.kept.files.entries file) (λ n. result ≡ Ok (Some n)) }
    {
        if let Some(length) = self.kept.length_of(file) {
            return Ok(Some(length));
        }
        let path = self.path_of(file)?;
        if_there(length_at(&self.rt, path.as_path()))
    }

    /// Reads as many bytes as the buffer takes and the file has.
    pub(crate) fn read_at(
        &mut self,
        file: FileName,
        at: u64,
        buffer: &mut [u8],
    ) -> io::Result<usize>
        ensures { IfOk result (λ n. n ≤ length buffer.old) }
    {
        match if_there(self.keep_open(file, Access::Read))? {
            Some(()) => self.kept.read_at(file, at, buffer),
            None => Ok(0),
        }
    }

    /// Writes over the bytes from an offset on that the file has, and past its end.
    pub(crate) fn write_at(&mut self, file: FileName, at: u64, bytes: &[u8]) -> io::Result<()>
        ensures ok { OnOk result ((was : ℕ) × (at ≤ was)
            × (known_length self.new.kept.files.entries file ≡ Some (max was (at + length bytes.now)))) }
        ensures err { OnErr result (IsClosed self.new.kept.files.entries file) }
        ensures owes { OnOk result (IsTrue (owes self.new.owed file)) }
    {
        self.open_to_write(file)?;
        self.kept.write_at(file, at, bytes)
    }

    /// Cuts a file off at a length that it has. The cut is durable then, unless syncs are made only when they are asked for: a
    /// power cut could give back what was cut, behind other bytes that were written since.
    pub(crate) fn cut(&mut self, file: FileName, size: u64) -> io::Result<()>
        ensures ok { OnOk result (known_length self.new.kept.files.entries file ≡ Some size) }
        ensures err { OnErr result (IsClosed self.new.kept.files.entries file) }
        ensures durable { OnOk result (self.old.syncs ≡ AtRolls → owes self.new.owed file ≡ false) }
        ensures owes { OnOk result (self.old.syncs ≡ OnlyWhenAsked → IsTrue (owes self.new.owed file)) }
    {
        self.open_to_write(file)?;
        self.kept.cut(file, size)?;
        if self.syncs == Syncs::OnlyWhenAsked {
            return Ok(());
        }
        self.sync_cut(file)
    }
}

/// Whether an open was refused since too many files are open.
pub(crate) fn is_crowded<T>(answer: &io::Result<T>) -> bool {
    match answer {
        Ok(_) => false,
        Err(error) => match error.raw_os_error() {
            Some(code) => TOO_MANY_OPEN.contains(&code),
            None => false,
        },
    }
}

/// An answer in which a missing file is `None` and no error.
pub(crate) fn if_there<T>(answer: io::Result<T>) -> io::Result<Option<T>> {
    match answer {
        Ok(value) => Ok(Some(value)),
        Err(error) if error.kind() == ErrorKind::NotFound => Ok(None),
        Err(error) => Err(error),
    }
}
