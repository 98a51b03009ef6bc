// The items of a log, file by file.
ghost use Rattle.std.specs.Prelude.{◌≡◌, ◌++◌, ◌∷◌, [], ℕ, List, OnOk, IfOk, map};
ghost use Rattle.dl_digest.specs.Digest.{Holds};
ghost use Rattle.dl_digest.specs.Files.{by_file, file_digest, FileItems, GoesOn, HoldsFiles};

use crate::digest::{Hashing, ItemsDigest};
use dl_types::Item;
use std::alloc::{AllocError, Allocator};

/// The digest of the items of one file.
#[derive(Clone, Copy, Debug, PartialEq, Eq)]
pub struct FileDigest {
    /// The generation of the file.
    pub generation: u64,
    pub digest: ItemsDigest,
}

/// The file whose items are taken.
#[derive(Drop)]
pub struct OpenFile {
    generation: u64,
    hashing: Hashing,
}

impl OpenFile {
    // A file of which no item was taken yet.
    fn new(generation: u64) -> OpenFile
        ensures generation { result.generation ≡ generation }
        ensures none { Holds result.hashing [] }
    {
        OpenFile {
            generation,
            hashing: Hashing::new(),
        }
    }

    // The digest of the items that were taken of the file.
    fn finish(self) -> FileDigest
        ensures { (items : List (List ℕ)) → Holds self.hashing items → result ≡ file_digest (record { generation = self.generation; items = items }) }
    {
        FileDigest {
            generation: self.generation,
            digest: self.hashing.finish(),
        }
    }
}

/// Digests in progress, one for each file of a log. Items are added in the order of the log. A file ends where an
/// item of another generation comes.
#[derive(Drop)]
pub struct FileDigests<A: Allocator> {
    done: Vec<FileDigest, A>,
    last: Option<OpenFile>,
}

impl<A: Allocator> FileDigests<A> {
    /// No items.
    pub fn new(alloc: A) -> FileDigests<A>
        ensures { HoldsFiles result [] }
    {
        FileDigests {
            done: Vec::new(alloc),
            last: None,
        }
    }

    /// Takes more items, which are of the file of this generation.
    pub fn add(&mut self, generation: u64, items: &[Item<A>]) -> Result<(), AllocError>
        ensures { OnOk result ((parts : List FileItems) → HoldsFiles self.old (by_file parts)
            → HoldsFiles self.new (by_file (parts ++ record { generation = generation; items = items.now } ∷ []))) }
    {
        let mut file = self.file_of(generation)?;
        file.hashing.add(items);
        self.last = Some(file);
        Ok(())
    }

    // The file that the next items go to: the last one, or one that begins here.
    fn file_of(&mut self, generation: u64) -> Result<OpenFile, AllocError>
        ensures { IfOk result (λ file. (parts : List FileItems) → HoldsFiles self.old (by_file parts) → GoesOn self.new.done.items file parts generation) }
    {
        match self.last.take() {
            Some(file) if file.generation == generation => Ok(file),
            Some(file) => {
                self.done.push(file.finish())?;
                Ok(OpenFile::new(generation))
            }
            None => Ok(OpenFile::new(generation)),
        }
    }

    /// The digests of all files.
    pub fn finish(self) -> Result<Vec<FileDigest, A>, AllocError>
        ensures { IfOk result (λ digests. (files : List FileItems) → HoldsFiles self files → digests.items ≡ map file_digest files) }
    {
        let mut done = self.done;
        if let Some(file) = self.last {
            done.push(file.finish())?;
        }
        Ok(done)
    }
}
