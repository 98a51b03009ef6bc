// A disk with a fuse: which calls fail, what they leave, and what is counted.
use super::rig::{Call, Rig, Row, TEXT, has, queue};
use dl_disk::{Disk, Fuse, FuseDisk, MemoryDisk};
use dl_types::{Base, FileName, Part};
use std::alloc::Global;
use std::test::Fail;

// A fuse before a disk with one file, that has `TEXT`.
fn fused(
    alloc: Global,
    base: Option<Base>,
    calls: u64,
    fuse: Fuse,
) -> Result<Rig<FuseDisk<MemoryDisk>>, Fail> {
    let below = Rig::with_text(alloc)?.disk;
    Ok(Rig {
        disk: FuseDisk::new(alloc, below, base, calls, fuse),
        base: queue()?,
    })
}

impl Rig<FuseDisk<MemoryDisk>> {
    // Whether the file of this part is there, below the fuse, with these bytes.
    fn holds(&self, part: Part, bytes: &[u8]) -> bool {
        has(self.disk.inner(), self.file(part), bytes)
    }

    // How many calls the fuse has met, and how many faults the base has had.
    fn counted(&self) -> (u64, Option<u64>) {
        (self.disk.passed(), self.disk.fault_count(self.base))
    }
}

// Each kind of call, after one that passes.
const KINDS: [Row<'static>; 9] = [
    (Part::Halt, Call::Sync, true),
    (Part::Halt, Call::Size, false),
    (Part::Halt, Call::Read, false),
    (Part::Halt, Call::Put(b"x"), false),
    (Part::Halt, Call::Write(0, b"x"), false),
    (Part::Halt, Call::Cut(1), false),
    (Part::Halt, Call::Rename(Part::Index), false),
    (Part::Halt, Call::Remove, false),
    (Part::Halt, Call::Sync, false),
];

// Makes each kind of call. Returns whether all but the first failed, were counted and changed nothing.
fn blows(rig: &mut Rig<FuseDisk<MemoryDisk>>) -> Result<bool, Fail> {
    let is_right = rig.first_wrong(&KINDS)?.is_none();
    Ok(is_right && rig.holds(Part::Halt, TEXT) && rig.counted() == (9, Some(8)))
}

// The same with a fuse that lets one call pass.
fn blows_after_a_call(alloc: Global) -> Result<bool, Fail> {
    let mut rig = fused(alloc, None, 1, Fuse::All)?;
    blows(&mut rig)
}

#[test]
fn every_kind_of_call_fails_once_the_fuse_has_blown(rt: HostRuntime) -> Result<(), Fail> {
    assert!(rt; blows_after_a_call(rt.alloc())?);
    Ok(())
}
