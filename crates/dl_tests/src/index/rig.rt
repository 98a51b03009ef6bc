// An index whose calls have no preconditions.
ghost use Rattle.std.specs.Prelude.{◌↔◌, IsTrue};
ghost use Rattle.dl_index.specs.Entries.{IsEntry};

use dl_index::{Agreement, Entry, Found, Index, Limits};
use dl_types::{Base, FILE_LIMIT, FILES_LIMIT, Fail, GENERATION_LIMIT, Refusal};
use std::alloc::{AllocError, Allocator, Global};

/// An index. The answer to a change that is not allowed is `false`.
#[derive(Drop)]
pub(crate) struct Rig<A: Allocator = Global> {
    index: Index<A>,
}

// Whether a file may have this number and this generation.
fn is_entry(entry: Entry) -> bool
    ensures { IsTrue result ↔ IsEntry entry }
{
    (1..=FILES_LIMIT).contains(&entry.number) && (1..=GENERATION_LIMIT).contains(&entry.generation)
}

impl<A: Allocator + Copy> Rig<A> {
    /// Reads an index.
    pub(crate) fn parse(alloc: A, text: &[u8]) -> Result<Rig<A>, Fail> {
        let index = Index::parse(alloc, text)?;
        Ok(Rig { index })
    }
}

impl<A: Allocator> Rig<A> {
    /// Reserves memory for `changes` changes.
    pub(crate) fn reserve(&mut self, changes: usize) -> Result<(), AllocError> {
        self.index.reserve(changes)
    }

    /// Sets other limits.
    pub(crate) fn set_limits(&mut self, bytes: u64, files: u32) -> bool {
        if bytes < 1 || bytes > FILE_LIMIT || files < 1 || files > FILES_LIMIT {
            return false;
        }
        self.index.set_limits(Limits { bytes, files });
        true
    }

    /// Rolls, if there is memory and a generation for it.
    pub(crate) fn roll(&mut self) -> bool {
        if self.index.reserve(1).is_err() || self.index.current().generation >= GENERATION_LIMIT {
            return false;
        }
        self.index.with_next();
        true
    }

    /// Begins again with a file.
    pub(crate) fn restart(&mut self, first: Entry) -> bool {
        if self.index.reserve(1).is_err() || !is_entry(first) {
            return false;
        }
        self.index.restart(first);
        true
    }

    /// Takes the last change back, if there was one.
    pub(crate) fn take_back(&mut self) -> bool {
        if self.index.before().is_empty() {
            return false;
        }
        self.index.take_back();
        true
    }

    /// The limits.
    pub(crate) fn limits(&self) -> Limits {
        self.index.limits()
    }

    /// The files by age.
    pub(crate) fn entries(&self) -> &[Entry] {
        self.index.entries()
    }

    /// The files before the last change.
    pub(crate) fn before(&self) -> &[Entry] {
        self.index.before()
    }

    /// The current file.
    pub(crate) fn current(&self) -> Entry {
        self.index.current()
    }

    /// The text.
    pub(crate) fn image(&self) -> &[u8] {
        self.index.image()
    }

    /// What a check answers, if there is something found for each file.
    pub(crate) fn check(&self, base: Base, found: &[Found]) -> Option<Result<Agreement, Refusal>> {
        if found.len() != self.index.entries().len() {
            return None;
        }
        Some(self.index.check(base, found))
    }
}

/// The text of the index of a log with one file.
pub(crate) fn text_of_new(alloc: Global, first: Entry) -> Result<Vec<u8>, AllocError> {
    let limits = Limits {
        bytes: 40,
        files: 3,
    };
    if !is_entry(first) {
        return Ok(Vec::new(alloc));
    }
    Index::new(alloc, limits, first)?.image().to_vec(alloc)
}
