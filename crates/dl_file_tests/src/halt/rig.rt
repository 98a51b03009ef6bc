// The file of one halt log, with calls that have no preconditions.
ghost use Rattle.std.specs.Prelude.{IsTrue, IfOk};
ghost use Rattle.dl_file.specs.File.{IsReady};

use crate::filled::{Filled, are, made};
use dl_cache::Cache;
use dl_disk::{Disk, FuseDisk, MemoryDisk};
use dl_halt::{BeginFault, HaltFiles, HaltReader, OpenAs, OpenFault, Opening};
use dl_reader::{Chunk, chunk};
use dl_types::{Base, Mode, Name, Place, Repair, Size};
use std::alloc::Global;
use std::marker::Model;
use std::test::Fail;

/// The file of a halt log, the disk that it is on, and the cache in which its last bytes wait. Calls may be made on it at
/// any time.
#[derive(Drop)]
pub struct Rig<D: Disk + Drop> {
    disk: D,
    cache: Cache,
    files: HaltFiles,
}

impl<D: Disk + Drop> Model for Rig<D> {
    ghost use Rattle.dl_file.specs.File.{IsReady};

    ghost Value = { Unit {0} };

    ghost view = { λ r. tt };

    ghost invariant = { λ r. IsReady (D.state r.disk) r.cache r.files.file };
}

/// What a log is opened with.
#[derive(Clone, Copy)]
pub struct Asked {
    pub mode: Mode,
    pub repair: Repair,
    pub size: Size,
    pub head: Option<Filled>,
}

impl Asked {
    /// A log that may be written, repaired if it needs that, with a limit in bytes.
    pub fn limited(limit: u64) -> Asked {
        Asked {
            mode: Mode::ReadWrite,
            repair: Repair::Yes,
            size: Size::Limit(limit),
            head: None,
        }
    }
}

/// A log that was opened, and the items kept and bytes cut by a repair, or why it was not opened, with the disk.
#[derive(Drop)]
pub enum Begun<D: Disk + Drop> {
    Open(Rig<D>, Option<(u64, u64)>),
    Refused(OpenFault, D),
}

// Opens the log of a base in a chain of its own.
fn opened<D: Disk>(
    alloc: Global,
    disk: &mut D,
    cache: &mut Cache,
    base: Base,
    asked: Asked,
) -> Result<Result<Opening, OpenFault>, Fail>
    ensures { IfOk result (λ opened. IfOk opened (λ o. IsReady (D.state disk.new) cache.new o.files.file)) }
{
    disk.know(base)?;
    let chain = cache.open_chain(None)?;
    let size = match asked.size {
        Size::Infinity => Size::Infinity,
        limited => Size::Limit(limited.limit().min(100_000)),
    };
    let asked = OpenAs {
        mode: asked.mode,
        repair: asked.repair,
        size,
        head: made(alloc, asked.head)?,
    };
    Ok(HaltFiles::open(alloc, disk, base, chain, asked))
}

impl<D: Disk + Drop> Rig<D> {
    /// Opens the log of a base, with one block.
    pub fn open(alloc: Global, mut disk: D, base: Base, asked: Asked) -> Result<Begun<D>, Fail> {
        let mut cache = Cache::new(alloc, 1)?;
        match opened(alloc, &mut disk, &mut cache, base, asked)? {
            Err(fault) => Ok(Begun::Refused(fault, disk)),
            Ok(Opening { files, repaired }) => {
                let told = repaired.map(|repaired| (repaired.recovered, repaired.bad));
                Ok(Begun::Open(Rig { disk, cache, files }, told))
            }
        }
    }

    /// Adds items. Returns how many were added, if the device did not fail.
    pub fn add(&mut self, alloc: Global, items: &[Filled]) -> Result<Option<usize>, Fail> {
        let mut made = Vec::new(alloc);
        for filled in items {
            made.push(filled.item(alloc)?)?;
        }
        Ok(
            self.files
                .add(&mut self.disk, &mut self.cache, made.as_slice())
                .ok(),
        )
    }

    /// Empties the log, with another head item if one is given.
    pub fn empty(
        &mut self,
        alloc: Global,
        other: Option<Filled>,
    ) -> Result<Result<(), BeginFault>, Fail> {
        let other = made(alloc, other)?;
        Ok(
            self.files
                .empty(alloc, &mut self.disk, &mut self.cache, &other),
        )
    }

    /// Gives the log another limit, or returns the size of the file in bytes if that is larger.
    pub fn change_size(&mut self, limit: u64) -> Result<(), u64> {
        self.files.change_size(Size::Limit(limit.min(100_000)))
    }

    /// Whether an item was refused.
    pub fn is_full(&self) -> bool {
        self.files.is_full()
    }

    /// The generation of the file.
    pub fn generation(&self) -> u64 {
        self.files.generation()
    }

    /// Writes all that waits, and returns whether that was done.
    pub fn drain(&mut self) -> bool {
        self.files
            .drain_all(&mut self.disk, &mut self.cache)
            .is_ok()
    }

    /// Writes all that waits and marks the file as whole. Returns whether both were done.
    pub fn close(&mut self) -> bool {
        self.files.close(&mut self.disk, &mut self.cache).is_ok()
    }

    /// Reads the items from the first on.
    pub fn chunk(&mut self, alloc: Global, mode: Mode) -> Option<Chunk> {
        let Some(log) = Name::parse(b"h") else {
            return None;
        };
        let mut reader = HaltReader::new(&mut self.files, &mut self.disk, &self.cache);
        chunk(alloc, &mut reader, log, mode, Place::Start, 99).ok()
    }

    /// Whether the file has these items and no others.
    pub fn has(&mut self, alloc: Global, items: &[Filled]) -> bool {
        if self.files.count() != items.len() as u64 {
            return false;
        }
        match self.chunk(alloc, Mode::ReadWrite) {
            None => false,
            Some(Chunk::Eof) => items.is_empty(),
            Some(Chunk::Items { items: found, .. }) => are(found.as_slice(), items),
        }
    }

    /// The disk.
    pub fn disk(&self) -> &D {
        &self.disk
    }

    /// Drops the file and what waits, as a program does that ends.
    pub fn into_disk(self) -> D {
        let Rig { disk, .. } = self;
        disk
    }
}

impl Rig<FuseDisk<MemoryDisk>> {
    /// Lets every call of the device pass from now on.
    pub fn mend(&mut self) {
        self.disk.mend();
    }
}
