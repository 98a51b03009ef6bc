// A disk and the calls on its files. Nothing is promised here, so that a test is a plain list of calls.
use dl_disk::{Disk, Fault, MemoryDisk};
use dl_types::{Base, FileName, Part};
use std::alloc::{AllocError, Allocator};
use std::test::Fail;

/// What a file holds to begin with.
pub(super) const TEXT: &[u8; 6] = b"abcdef";

/// A call on a file.
#[derive(Clone, Copy)]
pub(super) enum Call<'a> {
    Size,
    Read,
    Put(&'a [u8]),
    Write(u64, &'a [u8]),
    Cut(u64),
    Rename(Part),
    Remove,
    Sync,
}

/// A call on the file of this part, and whether it passes.
pub(super) type Row<'a> = (Part, Call<'a>, bool);

/// What a disk says of a file: its length, and what is read from its third byte on.
#[derive(Clone, Copy, PartialEq, Eq)]
pub(super) struct Seen {
    pub(super) size: Result<Option<u64>, Fault>,
    pub(super) read: Result<usize, Fault>,
    pub(super) bytes: [u8; 4],
}

/// The base of the files that most tests use.
pub(super) fn queue() -> Result<Base, Fail> {
    Ok(Base::parse(b"queue").ok_or("a base")?)
}

/// A disk, and the base of the files that are used.
#[derive(Drop)]
pub(super) struct Rig<D: Disk + Drop> {
    pub(super) disk: D,
    pub(super) base: Base,
}

impl<D: Disk + Drop> Rig<D> {
    /// The file of this part.
    pub(super) fn file(&self, part: Part) -> FileName {
        FileName {
            base: self.base,
            part,
        }
    }

    /// Makes a call on the file of this part. The base is known from here on.
    pub(super) fn call(
        &mut self,
        part: Part,
        call: Call<'_>,
    ) -> Result<Result<(), Fault>, AllocError> {
        let file = self.file(part);
        let disk = &mut self.disk;
        disk.know(file.base)?;
        Ok(match call {
            Call::Size => disk.size(file).map(|_| ()),
            Call::Read => disk.read_at(file, 0, &mut [0; 4]).map(|_| ()),
            Call::Put(bytes) => disk.put(file, bytes),
            Call::Write(at, bytes) => disk.write_at(file, at, bytes),
            Call::Cut(size) => disk.cut(file, size),
            Call::Rename(part) => disk.rename(file, FileName { part, ..file }),
            Call::Remove => disk.remove(file),
            Call::Sync => disk.sync(file),
        })
    }

    /// Makes the calls of a table, and finds the first one that passes or fails other than its row says.
    pub(super) fn first_wrong(&mut self, rows: &[Row<'_>]) -> Result<Option<usize>, AllocError> {
        for (at, (part, call, passes)) in rows.iter().enumerate() {
            if self.call(*part, *call)?.is_ok() != *passes {
                return Ok(Some(at));
            }
        }
        Ok(None)
    }

    /// The length of the file of this part, and how many bytes are read from an offset on, into a buffer of four.
    pub(super) fn look(&mut self, part: Part, at: u64) -> Result<Seen, AllocError> {
        let file = self.file(part);
        let mut bytes = [0; 4];
        self.disk.know(file.base)?;
        let size = self.disk.size(file);
        self.disk.know(file.base)?;
        let read = self.disk.read_at(file, at, &mut bytes);
        Ok(Seen { size, read, bytes })
    }
}

impl<A: Allocator + Copy> Rig<MemoryDisk<A>> {
    /// A disk with no files.
    pub(super) fn empty(alloc: A) -> Result<Rig<MemoryDisk<A>>, Fail> {
        Ok(Rig {
            disk: MemoryDisk::new(alloc),
            base: queue()?,
        })
    }

    /// A disk whose halt log's file has `TEXT`.
    pub(super) fn with_text(alloc: A) -> Result<Rig<MemoryDisk<A>>, Fail> {
        let base = queue()?;
        let mut disk = MemoryDisk::new(alloc);
        disk.set(FileName::halt(base), TEXT.to_vec(alloc)?)?;
        Ok(Rig { disk, base })
    }

    /// Whether the file of this part is there with these bytes.
    pub(super) fn has(&self, part: Part, bytes: &[u8]) -> bool {
        has(&self.disk, self.file(part), bytes)
    }

    /// The faults counted under the base.
    pub(super) fn faults(&self) -> Option<u64> {
        self.disk.fault_count(self.base)
    }
}

/// Whether a file is there with these bytes.
pub(super) fn has<A: Allocator>(disk: &MemoryDisk<A>, file: FileName, bytes: &[u8]) -> bool {
    match disk.get(file) {
        None => false,
        Some(text) => text == bytes,
    }
}
