// A limit, a head item, a repair and bad bytes, on a disk that does not fail.
use super::rig::{Asked, Begun, Rig};
use crate::filled::Filled;
use dl_disk::MemoryDisk;
use dl_halt::OpenFault;
use dl_reader::Chunk;
use dl_types::{Base, FileName, Mode, Repair};
use std::alloc::Global;
use std::test::Fail;

// `RDL1`, `OPEN` and generation 7, then the frames of `p` and `qq`, then five bytes of a third frame.
const DAMAGED: &[u8] =
    b"RDL1OPEN\0\0\0\0\0\0\0\x07\0\0\0\x01\xd1\x5c\x10\x60p\0\0\0\x02\xd1\x5c\x10\x60qq\0\0\0\x03\xd1";

// The same without these five, and marked as whole.
const WHOLE: &[u8] =
    b"RDL1SHUT\0\0\0\0\0\0\0\x07\0\0\0\x01\xd1\x5c\x10\x60p\0\0\0\x02\xd1\x5c\x10\x60qq";

// The same items in a file of the second layout that was left open, whatever its count says, then these five bytes.
const DAMAGED_2: &[u8] =
    b"RDL2OPEN\0\0\0\0\0\0\0\x07\0\0\0\0\0\0\0\x09\0\0\0\x01\xd1\x5c\x10\x60p\0\0\0\x02\xd1\x5c\x10\x60qq\0\0\0\x03\xd1";

// The same without these five, and marked as whole with a count of 3.
const MISCOUNTED: &[u8] =
    b"RDL2SHUT\0\0\0\0\0\0\0\x07\0\0\0\0\0\0\0\x03\0\0\0\x01\xd1\x5c\x10\x60p\0\0\0\x02\xd1\x5c\x10\x60qq";

// The same with a count of 2.
const WHOLE_2: &[u8] =
    b"RDL2SHUT\0\0\0\0\0\0\0\x07\0\0\0\0\0\0\0\x02\0\0\0\x01\xd1\x5c\x10\x60p\0\0\0\x02\xd1\x5c\x10\x60qq";

const P: Filled = Filled {
    byte: b'p',
    count: 1,
};

const QQ: Filled = Filled {
    byte: b'q',
    count: 2,
};

// The base of the log.
fn base() -> Result<Base, Fail> {
    Ok(Base::parse(b"h").ok_or("base")?)
}

// The file of the log.
fn file() -> Result<FileName, Fail> {
    Ok(FileName::halt(base()?))
}

// Copies of a byte.
fn filled(byte: u8, count: usize) -> Filled {
    Filled { byte, count }
}

// A disk whose file of the log has these bytes.
fn disk_with(alloc: Global, text: &[u8]) -> Result<MemoryDisk, Fail> {
    let mut disk = MemoryDisk::new(alloc);
    disk.set(file()?, text.to_vec(alloc)?)?;
    Ok(disk)
}

// A disk with the damaged file.
fn damaged(alloc: Global) -> Result<MemoryDisk, Fail> {
    disk_with(alloc, DAMAGED)
}

// The log that is opened, and what a repair found.
fn open(
    alloc: Global,
    disk: MemoryDisk,
    asked: Asked,
) -> Result<(Rig<MemoryDisk>, Option<(u64, u64)>), Fail> {
    match Rig::open(alloc, disk, base()?, asked)? {
        Begun::Open(rig, told) => Ok((rig, told)),
        Begun::Refused(_, _) => Err("not opened".into()),
    }
}

// Adds items of copies of a byte in turn. Returns whether as many were added, and the log is full after each, as the rows say.
fn adds(
    alloc: Global,
    rig: &mut Rig<MemoryDisk>,
    rows: &[(u8, usize, Option<usize>, bool)],
) -> Result<bool, Fail> {
    let mut is_right = true;
    for (byte, count, added, is_full) in rows.iter().copied() {
        let found = rig.add(alloc, &[filled(byte, count)])?;
        is_right = is_right && found == added && rig.is_full() == is_full;
    }
    Ok(is_right)
}

// Fills a log of at most 58 bytes: 42 of them, then an item too many, and then one that would fit.
fn fills(alloc: Global, rig: &mut Rig<MemoryDisk>) -> Result<bool, Fail> {
    let rows = [
        (b'a', 10, Some(1), false),
        (b'b', 10, Some(0), true),
        (b'c', 1, Some(0), true),
    ];
    let first = adds(alloc, rig, &rows)?;
    let larger = rig.change_size(68) == Ok(()) && !rig.is_full();
    let second = adds(alloc, rig, &[(b'c', 1, Some(1), false)])?;
    let smaller = rig.change_size(50) == Err(51) && rig.change_size(51) == Ok(());
    let third = adds(alloc, rig, &[(b'd', 0, Some(0), true)])?;
    let items = rig.has(alloc, &[filled(b'a', 10), filled(b'c', 1)]);
    Ok(first && larger && second && smaller && third && items)
}

// The same for a log that is begun.
fn fills_a_new_log(alloc: Global) -> Result<bool, Fail> {
    let (mut rig, _) = open(alloc, MemoryDisk::new(alloc), Asked::limited(58))?;
    fills(alloc, &mut rig)
}

#[test]
fn a_full_log_takes_nothing_until_it_has_another_limit(rt: HostRuntime) -> Result<(), Fail> {
    assert!(rt; fills_a_new_log(rt.alloc())?);
    Ok(())
}

// Whether the file on a disk has these bytes.
fn is_text(disk: &MemoryDisk, text: &[u8]) -> Result<bool, Fail> {
    Ok(disk.get(file()?) == Some(text))
}

// Closes the log of a repaired file. Returns whether it had the items, and its file has the bytes, that a repair is to leave.
fn is_repaired(alloc: Global, rig: &mut Rig<MemoryDisk>, whole: &[u8]) -> Result<bool, Fail> {
    let items = rig.has(alloc, &[P, QQ]) && rig.generation() == 7;
    let is_whole = rig.close() && is_text(rig.disk(), whole)?;
    Ok(items && is_whole)
}

// Repairs a file that has so many bad bytes, and closes it.
fn repairs(alloc: Global, text: &[u8], bad: u64, whole: &[u8]) -> Result<bool, Fail> {
    let (mut rig, told) = open(alloc, disk_with(alloc, text)?, Asked::limited(99))?;
    Ok(is_repaired(alloc, &mut rig, whole)? && told == Some((2, bad)))
}

#[test]
fn a_torn_file_is_repaired_and_closed(rt: HostRuntime) -> Result<(), Fail> {
    assert!(rt; repairs(rt.alloc(), DAMAGED, 5, WHOLE)?);
    Ok(())
}

#[test]
fn a_file_of_the_second_layout_is_repaired_and_counted(rt: HostRuntime) -> Result<(), Fail> {
    assert!(rt; repairs(rt.alloc(), DAMAGED_2, 5, WHOLE_2)?);
    assert!(rt; repairs(rt.alloc(), MISCOUNTED, 0, WHOLE_2)?);
    Ok(())
}

// The number of bad bytes that come with the items of a log, if these are two.
fn bad_of_two(alloc: Global, rig: &mut Rig<MemoryDisk>) -> u64 {
    match rig.chunk(alloc, Mode::ReadOnly) {
        Some(Chunk::Items { items, bad, .. }) if items.as_slice().len() == 2 => bad,
        _ => 0,
    }
}

// Whether the items of the damaged file come with the number of its bad bytes, and the file stays.
fn is_left(alloc: Global, rig: &mut Rig<MemoryDisk>) -> Result<bool, Fail> {
    Ok(bad_of_two(alloc, rig) == 5 && is_text(rig.disk(), DAMAGED)?)
}

// Opens the damaged file to read it.
fn reads(alloc: Global) -> Result<bool, Fail> {
    let asked = Asked {
        mode: Mode::ReadOnly,
        ..Asked::limited(99)
    };
    let (mut rig, told) = open(alloc, damaged(alloc)?, asked)?;
    match told {
        Some(_) => Ok(false),
        None => is_left(alloc, &mut rig),
    }
}

#[test]
fn bad_bytes_are_counted_in_read_only_mode(rt: HostRuntime) -> Result<(), Fail> {
    assert!(rt; reads(rt.alloc())?);
    Ok(())
}

// Opens the damaged file without a repair.
fn refuses(alloc: Global) -> Result<bool, Fail> {
    let asked = Asked {
        repair: Repair::No,
        ..Asked::limited(99)
    };
    let base = base()?;
    let disk = damaged(alloc)?;
    match Rig::open(alloc, disk, base, asked)? {
        Begun::Open(_, _) => Ok(false),
        Begun::Refused(fault, _) => Ok(fault == OpenFault::NeedRepair),
    }
}

#[test]
fn a_torn_file_is_refused_if_it_is_not_to_be_repaired(rt: HostRuntime) -> Result<(), Fail> {
    assert!(rt; refuses(rt.alloc())?);
    Ok(())
}

// A log with a head item, which is emptied, first with the log's own head item and then with another.
fn heads(alloc: Global, rig: &mut Rig<MemoryDisk>, head: Filled) -> Result<bool, Fail> {
    let other = filled(b'T', 3);
    let first = rig.add(alloc, &[P])? == Some(1) && rig.has(alloc, &[head, P]);
    let own = rig.empty(alloc, None)? == Ok(()) && rig.has(alloc, &[head]);
    let another = rig.empty(alloc, Some(other))? == Ok(()) && rig.has(alloc, &[other]);
    Ok(first && own && another && rig.generation() == 3)
}

// The same for a log that is begun.
fn heads_of_a_new_log(alloc: Global) -> Result<bool, Fail> {
    let head = filled(b'H', 1);
    let asked = Asked {
        head: Some(head),
        ..Asked::limited(99)
    };
    let (mut rig, _) = open(alloc, MemoryDisk::new(alloc), asked)?;
    heads(alloc, &mut rig, head)
}

#[test]
fn each_file_begins_with_its_head_item(rt: HostRuntime) -> Result<(), Fail> {
    assert!(rt; heads_of_a_new_log(rt.alloc())?);
    Ok(())
}
