// The files of a folder that are kept open.
ghost use Rattle.std.specs.Prelude.{◌≡◌, ◌≤◌, ◌<◌, ◌+◌, ℕ, [], max, length, Some, IsTrue, IfOk, OnOk, OnErr};
ghost use Rattle.dl_types.specs.declared.file.FileName.{FileName};
ghost use Rattle.dl_disk.specs.Folder.{IsClosed, IsKept, kept_as, known_length};

use super::identity::Identity;
use super::opened::{Access, Opened};
use dl_types::FileName;
use lru::LruCache;
use std::alloc::{AllocError, Global};
use std::fs::File;
use std::io;
use std::io::ErrorKind;
use std::num::NonZeroUsize;

// How many files are kept open: a process usually may have 1,024 descriptors.
const OPEN_FILES: usize = 128;

/// The files that are kept open, each under its name.
#[derive(Drop)]
pub(crate) struct Kept {
    pub(crate) files: LruCache<FileName, Opened>,
}

impl Kept {
    /// No file is kept open to begin with. Room for all that may be kept is reserved here.
    pub(crate) fn new(alloc: Global) -> Result<Kept, AllocError>
        ensures { IfOk result (λ kept. kept.files.entries ≡ []) }
    {
        Ok(Kept {
            files: LruCache::new(alloc, NonZeroUsize::new(OPEN_FILES).unwrap())?,
        })
    }

    /// Whether a file of this name is kept, and open for this access. It is then the most recently used one.
    pub(crate) fn serves(&mut self, name: FileName, access: Access) -> bool
        ensures { IsTrue result → IsKept self.new.files.entries name }
    {
        match self.files.get(&name) {
            Some(opened) => opened.serves(name, access),
            None => false,
        }
    }

    /// Keeps a file. If that is one too many, the least recently used one is closed.
    pub(crate) fn add(&mut self, opened: Opened) -> io::Result<()>
        ensures ok { OnOk result (kept_as self.new.files.entries opened.name ≡ Some opened) }
        ensures err { OnErr result (self.new ≡ self.old) }
    {
        self.files.put(opened.name, opened)?;
        Ok(())
    }

    /// The length of the file of this name, if it is kept.
    pub(crate) fn length_of(&self, name: FileName) -> Option<u64>
        ensures { result ≡ known_length self.now.files.entries name }
    {
        self.files.peek(&name).map(|opened| opened.length)
    }

    /// Closes the file of this name, so that the next call opens what then has the name.
    pub(crate) fn close(&mut self, name: FileName)
        ensures closed { IsClosed self.new.files.entries name }
        ensures others { (other : FileName) → IsClosed self.old.files.entries other → IsClosed self.new.files.entries other }
    {
        if self.files.len() > 0 {
            let _ = self.files.pop(&name);
        }
    }

    // Returns the answer of a call on the file of this name. A fault closes the file.
    fn close_after<T>(&mut self, name: FileName, answer: io::Result<T>) -> io::Result<T>
        ensures same { result ≡ answer }
        ensures ok { OnOk result (self.new ≡ self.old) }
        ensures err { OnErr result (IsClosed self.new.files.entries name) }
    {
        if answer.is_err() {
            self.close(name);
        }
        answer
    }

    /// Closes the least recently used file, and returns whether there was one.
    pub(crate) fn close_oldest(&mut self) -> bool
        ensures fewer { IsTrue result → length self.new.files.entries < length self.old.files.entries }
        ensures others { (other : FileName) → IsClosed self.old.files.entries other → IsClosed self.new.files.entries other }
    {
        if self.files.is_empty() {
            return false;
        }
        let _ = self.files.pop_lru();
        true
    }

    /// Reads from a kept file. A fault closes it.
    pub(crate) fn read_at(
        &mut self,
        name: FileName,
        at: u64,
        buffer: &mut [u8],
    ) -> io::Result<usize>
        ensures ok { IfOk result (λ n. n ≤ length buffer.old) }
        ensures err { OnErr result (IsClosed self.new.files.entries name) }
    {
        let answer = match self.files.peek(&name) {
            Some(opened) => opened.read_at(at, buffer),
            None => Err(ErrorKind::NotFound.into()),
        };
        self.close_after(name, answer)
    }

    /// Writes into a kept file. A fault closes it, since its length is not known any more.
    pub(crate) fn write_at(&mut self, name: FileName, at: u64, bytes: &[u8]) -> io::Result<()>
        ensures ok { OnOk result ((was : ℕ) × (known_length self.old.files.entries name ≡ Some was) × (at ≤ was)
            × (known_length self.new.files.entries name ≡ Some (max was (at + length bytes.now)))) }
        ensures err { OnErr result (IsClosed self.new.files.entries name) }
    {
        let Some(opened) = self.files.peek_mut(&name) else {
            return Err(ErrorKind::NotFound.into());
        };
        let answer = opened.write_at(at, bytes);
        self.close_after(name, answer)
    }

    /// Cuts a kept file off at a length that it has. A fault closes it.
    pub(crate) fn cut(&mut self, name: FileName, size: u64) -> io::Result<()>
        ensures ok { OnOk result (known_length self.new.files.entries name ≡ Some size) }
        ensures err { OnErr result (IsClosed self.new.files.entries name) }
    {
        let Some(opened) = self.files.peek_mut(&name) else {
            return Err(ErrorKind::NotFound.into());
        };
        let answer = opened.cut(size);
        self.close_after(name, answer)
    }

    /// Makes what was written to a kept file durable. A fault closes it.
    pub(crate) fn sync(&mut self, name: FileName) -> io::Result<()>
        ensures err { OnErr result (IsClosed self.new.files.entries name) }
        ensures length { OnOk result (known_length self.new.files.entries name ≡ known_length self.old.files.entries name) }
    {
        let answer = match self.files.peek(&name) {
            Some(opened) => opened.file.sync_data(),
            None => Err(ErrorKind::NotFound.into()),
        };
        self.close_after(name, answer)
    }

    /// Which file is kept under this name.
    pub(crate) fn identity(&self, name: FileName) -> io::Result<Identity> {
        match self.files.peek(&name) {
            Some(opened) => Ok(Identity::of(&opened.file.metadata()?)),
            None => Err(ErrorKind::NotFound.into()),
        }
    }

    /// A second handle of a kept file.
    pub(crate) fn handle(&self, name: FileName) -> io::Result<File> {
        match self.files.peek(&name) {
            Some(opened) => opened.file.try_clone(),
            None => Err(ErrorKind::NotFound.into()),
        }
    }
}
