// A disk in memory that is refused memory.
use super::rig::{Call, Rig, TEXT};
use dl_disk::{Disk, ListFault, MemoryDisk};
use dl_types::Part;
use linked_list_allocator::LocalHeap;
use std::alloc::Global;
use std::test::Fail;

// Writes and puts more than there is memory for. Returns whether both are counted as faults, and the file stays.
fn keeps_text(rig: &mut Rig<MemoryDisk<&LocalHeap>>, much: &[u8]) -> Result<bool, Fail> {
    let rows = [
        (Part::Halt, Call::Write(6, much), false),
        (Part::Halt, Call::Put(much), false),
    ];
    let is_right = rig.first_wrong(&rows)?.is_none();
    Ok(is_right && rig.faults() == Some(2) && rig.has(Part::Halt, TEXT))
}

// The same on a disk over a heap.
fn keeps_text_in(heap: &LocalHeap) -> Result<bool, Fail> {
    let mut rig = Rig::with_text(heap)?;
    keeps_text(&mut rig, &[7; 8192])
}

#[test]
fn a_growth_that_is_refused_is_a_fault_and_the_file_stays(rt: HostRuntime) -> Result<(), Fail> {
    let heap = LocalHeap::new(rt.alloc(), 4096)?;
    assert!(rt; keeps_text_in(&heap)?);
    Ok(())
}

// Whether the names of the files need more memory than a heap has.
fn want_more(disk: &mut MemoryDisk, heap: &LocalHeap) -> bool {
    matches!(disk.list(heap), Err(ListFault::OutOfMemory))
}

// The same for the names of a disk with a file.
fn want_more_than(alloc: Global, heap: &LocalHeap) -> Result<bool, Fail> {
    let mut rig = Rig::with_text(alloc)?;
    Ok(want_more(&mut rig.disk, heap))
}

#[test]
fn names_that_have_no_room_are_out_of_memory(rt: HostRuntime) -> Result<(), Fail> {
    let heap = LocalHeap::new(rt.alloc(), 32)?;
    assert!(rt; want_more_than(rt.alloc(), &heap)?);
    Ok(())
}

// Whether a disk knows its longest read: none, and of four bytes after its file was read.
fn knows_the_longest(rig: &mut Rig<MemoryDisk>) -> Result<bool, Fail> {
    let before = rig.disk.longest();
    rig.look(Part::Halt, 3)?;
    let _ = rig.call(Part::Halt, Call::Sync)?;
    let _ = rig.look(Part::Index, 0)?;
    Ok(before == 0 && rig.disk.longest() == 4 && rig.disk.copy()?.longest() == 4)
}

// The same on a disk with a file.
fn knows_the_longest_read(alloc: Global) -> Result<bool, Fail> {
    let mut rig = Rig::with_text(alloc)?;
    knows_the_longest(&mut rig)
}

#[test]
fn the_longest_read_is_remembered(rt: HostRuntime) -> Result<(), Fail> {
    assert!(rt; knows_the_longest_read(rt.alloc())?);
    Ok(())
}
