// A file that is open, by its name and with its length.
ghost use Rattle.std.specs.Prelude.{◌≡◌, ◌≤◌, ◌+◌, ◌⊎◌, max, length, IfOk, OnOk, OnErr, IsTrue};

use dl_types::FileName;
use std::fs::{File, Files, OpenOptions, symlink_metadata};
use std::io;
use std::io::ErrorKind;
use std::os::unix::fs::FileExt;
use std::path::Path;

/// What a file is opened for. A draft is made anew.
#[derive(Clone, Copy, PartialEq, Eq)]
pub(crate) enum Access {
    Read,
    Change,
    Draft,
}

impl Access {
    /// Opens the file at a path.
    pub(crate) fn open<R: Files<File = File>>(self, rt: &R, path: Path<'_>) -> io::Result<File> {
        OpenOptions::new()
            .read(true)
            .write(self != Access::Read)
            .create_new(self == Access::Draft)
            .open(rt, path)
    }
}

/// A file that was opened under its name, and its length in bytes.
#[derive(Drop)]
pub(crate) struct Opened {
    pub(crate) name: FileName,
    pub(crate) access: Access,
    pub(crate) length: u64,
    pub(crate) file: File,
}

impl Opened {
    /// Whether this is the file of this name, and open for this access.
    pub(crate) fn serves(&self, name: FileName, access: Access) -> bool
        ensures named { IsTrue result → self.now.name ≡ name }
        ensures open { IsTrue result → (self.now.access ≡ Access.Change) ⊎ (access ≡ Access.Read) }
    {
        self.name == name && (self.access == Access::Change || access == Access::Read)
    }

    /// Reads as many bytes as the buffer takes and the file has.
    pub(crate) fn read_at(&self, at: u64, buffer: &mut [u8]) -> io::Result<usize>
        ensures { IfOk result (λ n. n ≤ length buffer.old) }
    {
        let left = self.length.saturating_sub(at);
        let count = left.min(buffer.len() as u64) as usize;
        self.file.read_exact_at(&mut buffer[..count], at)?;
        Ok(count)
    }

    /// Writes over the bytes from an offset on that the file has, and past its end.
    pub(crate) fn write_at(&mut self, at: u64, bytes: &[u8]) -> io::Result<()>
        ensures ok { OnOk result ((at ≤ self.old.length) × (self.new.length ≡ max self.old.length (at + length bytes.now))) }
        ensures err { OnErr result (self.new.length ≡ self.old.length) }
        ensures name { self.new.name ≡ self.old.name }
    {
        let Some(end) = at.checked_add(bytes.len() as u64) else {
            return Err(ErrorKind::InvalidInput.into());
        };
        if at > self.length {
            return Err(ErrorKind::InvalidInput.into());
        }
        self.file.write_all_at(bytes, at)?;
        self.length = self.length.max(end);
        Ok(())
    }

    /// Cuts the file off at a length that it has.
    pub(crate) fn cut(&mut self, size: u64) -> io::Result<()>
        ensures ok { OnOk result ((size ≤ self.old.length) × (self.new.length ≡ size)) }
        ensures err { OnErr result (self.new.length ≡ self.old.length) }
        ensures name { self.new.name ≡ self.old.name }
    {
        if size > self.length {
            return Err(ErrorKind::InvalidInput.into());
        }
        self.file.set_len(size)?;
        self.length = size;
        Ok(())
    }
}

/// The length in bytes of the file at a path, which has to be a plain file, and no link to one.
pub(crate) fn length_at<R: Files>(rt: &R, path: Path<'_>) -> io::Result<u64> {
    let found = symlink_metadata(rt, path)?;
    if found.is_file() {
        Ok(found.len())
    } else {
        Err(ErrorKind::Unsupported.into())
    }
}
