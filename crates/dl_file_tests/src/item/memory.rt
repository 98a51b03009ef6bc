// A disk in memory that has no room for what a drain writes.
use super::life::has_all;
use super::rig::Rig;
use crate::filled::Filled;
use dl_disk::MemoryDisk;
use dl_types::{Base, FileName, Name};
use linked_list_allocator::LocalHeap;
use std::alloc::Global;
use std::test::Fail;

const ITEMS: [Filled; 2] = [
    Filled {
        byte: b'a',
        count: 3_000,
    },
    Filled {
        byte: b'b',
        count: 3_000,
    },
];

// Whether the first block of two items is written. The items are there in any case.
fn is_drained(alloc: Global, rig: &mut Rig<MemoryDisk<&LocalHeap>>) -> Result<bool, Fail> {
    for item in ITEMS {
        if !rig.add(alloc, item.byte, item.count)? {
            return Err("no room in the cache".into());
        }
    }
    let is_written = rig.flush();
    if !has_all(alloc, rig, &ITEMS) {
        return Err("an item is gone".into());
    }
    Ok(is_written)
}

// The same over a disk that has a heap for its files.
fn is_drained_to(alloc: Global, heap: &LocalHeap, name: FileName) -> Result<bool, Fail> {
    let mut rig = Rig::begin(alloc, MemoryDisk::new(heap), name, 2)?;
    is_drained(alloc, &mut rig)
}

#[test]
fn each_growth_of_a_drain_is_refused_in_turn_and_no_item_is_lost(
    rt: HostRuntime,
) -> Result<(), Fail> {
    let log = Name::parse(b"queue").ok_or("a name")?;
    let mut written = 0u64;
    for step in 0..32 {
        let heap = LocalHeap::new(rt.alloc(), 1024 + 256 * step)?;
        if is_drained_to(rt.alloc(), &heap, FileName::halt(Base::of(log)))? {
            written = written.saturating_add(1);
        }
    }
    assert!(rt; 0 < written && written < 32);
    Ok(())
}
