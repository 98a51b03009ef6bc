// A device that fails at one of its calls, once or until it is mended: the log has the items that were answered, before
// it is closed and after it is opened again.
use super::rig::{Asked, Begun, Rig};
use crate::filled::Filled;
use dl_disk::{Disk, Fuse, FuseDisk, MemoryDisk};
use dl_types::{Base, Mode, Repair, Size};
use std::alloc::Global;
use std::test::Fail;

// The disk of a test.
type Failing = FuseDisk<MemoryDisk>;

const HEAD: Filled = Filled {
    byte: b'h',
    count: 9,
};

// More than two blocks in all, and one item that has more than two by itself.
const COUNTS: [usize; 5] = [3_000, 2_000, 9_000, 0, 100];

// What the log is opened with.
const ASKED: Asked = Asked {
    mode: Mode::ReadWrite,
    repair: Repair::Yes,
    size: Size::Infinity,
    head: Some(HEAD),
};

// Opens the log.
fn open_now(alloc: Global, disk: Failing, base: Base) -> Result<Rig<Failing>, Fail> {
    match Rig::open(alloc, disk, base, ASKED)? {
        Begun::Open(rig, _) => Ok(rig),
        Begun::Refused(_, _) => Err("not opened".into()),
    }
}

// Opens the log. If that fails, a device that fails for good is mended, and the log is opened again.
fn open(alloc: Global, disk: Failing, base: Base, fuse: Fuse) -> Result<Rig<Failing>, Fail> {
    match Rig::open(alloc, disk, base, ASKED)? {
        Begun::Open(rig, _) => Ok(rig),
        Begun::Refused(_, mut disk) => {
            if fuse == Fuse::All {
                disk.mend();
            }
            open_now(alloc, disk, base)
        }
    }
}

// Adds items one by one, and keeps those that were added.
fn add_all(alloc: Global, rig: &mut Rig<Failing>, kept: &mut Vec<Filled>) -> Result<(), Fail> {
    let mut byte = b'a';
    for count in COUNTS {
        let item = Filled { byte, count };
        if rig.add(alloc, &[item])? == Some(1) {
            kept.push(item)?;
        }
        byte = byte.wrapping_add(1);
    }
    Ok(())
}

// Adds items, empties the log and adds items again. Returns the items that the log is to have.
fn live(alloc: Global, rig: &mut Rig<Failing>) -> Result<Vec<Filled>, Fail> {
    let mut kept = Vec::new(alloc);
    kept.push(HEAD)?;
    add_all(alloc, rig, &mut kept)?;
    if rig.empty(alloc, None)?.is_ok() {
        kept.clear();
        kept.push(HEAD)?;
    }
    add_all(alloc, rig, &mut kept)?;
    Ok(kept)
}

// Whether the log has these items, at the second attempt if a read fails.
fn has(alloc: Global, rig: &mut Rig<Failing>, items: &[Filled]) -> bool {
    rig.has(alloc, items) || rig.has(alloc, items)
}

// Closes a log, at the second attempt if the first fails. Returns whether it had these items and was closed.
fn ends(alloc: Global, rig: &mut Rig<Failing>, items: &[Filled]) -> bool {
    has(alloc, rig, items) && (rig.close() || rig.close())
}

// Runs a log until it is closed, over a device that is mended if it fails for good. Returns its items, if it had them.
fn ends_well(alloc: Global, rig: &mut Rig<Failing>, fuse: Fuse) -> Result<Vec<Filled>, Fail> {
    let items = live(alloc, rig)?;
    if fuse == Fuse::All {
        rig.mend();
    }
    if !ends(alloc, rig, items.as_slice()) {
        return Err("before the end".into());
    }
    Ok(items)
}

// How many calls there were over a log that was opened again, if it has these items.
fn passed_with(alloc: Global, rig: &mut Rig<Failing>, items: &[Filled]) -> Result<u64, Fail> {
    if !has(alloc, rig, items) {
        return Err("after the end".into());
    }
    Ok(rig.disk().passed())
}

// Opens a log again. Returns how many calls there were, if it has these items.
fn has_again(
    alloc: Global,
    disk: Failing,
    base: Base,
    fuse: Fuse,
    items: Vec<Filled>,
) -> Result<u64, Fail> {
    let mut rig = open(alloc, disk, base, fuse)?;
    passed_with(alloc, &mut rig, items.as_slice())
}

// Runs a log over a device that fails at a call. Returns how many calls there were, if it has its items at the end and again.
fn survives(alloc: Global, calls: u64, fuse: Fuse) -> Result<u64, Fail> {
    let base = Base::parse(b"h").ok_or("base")?;
    let disk = FuseDisk::new(alloc, MemoryDisk::new(alloc), None, calls, fuse);
    let mut rig = open(alloc, disk, base, fuse)?;
    let items = ends_well(alloc, &mut rig, fuse)?;
    has_again(alloc, rig.into_disk(), base, fuse, items)
}

// Lets each call of a log's life fail in turn. Returns how many calls a life has.
fn survives_all(alloc: Global, fuse: Fuse) -> Result<u64, Fail> {
    let all = survives(alloc, u64::MAX, fuse)?;
    for calls in 0..all {
        survives(alloc, calls, fuse)?;
    }
    Ok(all)
}

#[test]
fn items_stay_whichever_call_fails(rt: HostRuntime) -> Result<(), Fail> {
    assert!(rt; survives_all(rt.alloc(), Fuse::One)? > 12);
    Ok(())
}

#[test]
fn items_stay_when_a_device_is_mended(rt: HostRuntime) -> Result<(), Fail> {
    assert!(rt; survives_all(rt.alloc(), Fuse::All)? > 12);
    Ok(())
}
