// A disk over a folder of the system, call by call, beside a disk in memory.
use super::place::Place;
use super::rig::{Call, Rig, Row, TEXT};
use dl_disk::{Disk, Fault, FolderDisk, OpenFault};
use dl_types::Part;
use std::alloc::{AllocError, Global};
use std::fs;
use std::test::Fail;

// The calls that are made on a folder and on a disk in memory.
const CALLS: [Row<'static>; 23] = [
    (Part::Halt, Call::Sync, false),
    (Part::Halt, Call::Write(0, b"x"), false),
    (Part::Halt, Call::Cut(0), false),
    (Part::Halt, Call::Rename(Part::Index), false),
    (Part::Halt, Call::Remove, true),
    (Part::Halt, Call::Put(TEXT), true),
    (Part::Halt, Call::Write(4, b"XYZ"), true),
    (Part::Halt, Call::Write(8, b"!"), false),
    (Part::Halt, Call::Write(7, b"!"), true),
    (Part::Halt, Call::Put(b""), true),
    (Part::Halt, Call::Write(0, TEXT), true),
    (Part::Halt, Call::Sync, true),
    (Part::Halt, Call::Cut(7), false),
    (Part::Halt, Call::Cut(3), true),
    (Part::Halt, Call::Write(1, b"--"), true),
    (Part::Index, Call::Put(b"0123"), true),
    (Part::Index, Call::Write(4, b"4567"), true),
    (Part::Halt, Call::Rename(Part::Index), true),
    (Part::Halt, Call::Write(0, b"x"), false),
    (Part::Index, Call::Write(3, b"&"), true),
    (Part::Index, Call::Rename(Part::Index), true),
    (Part::Index, Call::Remove, true),
    (Part::Index, Call::Write(0, b"x"), false),
];

// Whether two disks say the same of both files.
fn agree<D: Disk + Drop, E: Disk + Drop>(
    one: &mut Rig<D>,
    other: &mut Rig<E>,
) -> Result<bool, AllocError> {
    let halt = one.look(Part::Halt, 2)? == other.look(Part::Halt, 2)?;
    let index = one.look(Part::Index, 2)? == other.look(Part::Index, 2)?;
    Ok(halt && index)
}

// Makes all calls on two disks by turns, and finds the first one after which they differ.
fn first_apart<D: Disk + Drop, E: Disk + Drop>(
    one: &mut Rig<D>,
    other: &mut Rig<E>,
) -> Result<Option<usize>, AllocError> {
    for (at, row) in CALLS.iter().enumerate() {
        let is_right = one.first_wrong(&[*row])?.is_none() && other.first_wrong(&[*row])?.is_none();
        if !is_right || !agree(one, other)? {
            return Ok(Some(at));
        }
    }
    Ok(None)
}

// Makes all calls on a folder and on a disk in memory, and finds the first one after which they differ, or the number of calls
// if they count other faults.
fn first_unlike_memory(
    rig: &mut Rig<FolderDisk<HostRuntime>>,
    alloc: Global,
) -> Result<Option<usize>, Fail> {
    let mut model = Rig::empty(alloc)?;
    let apart = first_apart(rig, &mut model)?;
    if rig.disk.fault_count(rig.base) != model.faults() {
        return Ok(Some(CALLS.len()));
    }
    Ok(apart)
}

// The same in a folder of a test.
fn first_unlike_call(place: &Place) -> Result<Option<usize>, Fail> {
    let mut rig = place.disk()?;
    first_unlike_memory(&mut rig, place.rt.alloc())
}

#[test]
fn a_folder_answers_as_a_disk_in_memory(rt: HostRuntime) -> Result<(), Fail> {
    let place = Place::new(&rt, "calls")?;
    assert_eq!(rt; first_unlike_call(&place)?, None);
    place.clear()?;
    Ok(())
}

// Puts a file beside those that are there, and sees whether it and the index are listed, and no other name.
fn lists_both(rig: &mut Rig<FolderDisk<HostRuntime>>, alloc: Global) -> Result<bool, Fail> {
    rig.first_wrong(&[(Part::Halt, Call::Put(TEXT), true)])?;
    let mut names = rig.disk.list(alloc)?;
    names.sort()?;
    let files = [rig.file(Part::Halt), rig.file(Part::Index)];
    Ok(names.as_slice() == files.as_slice())
}

// The same in a folder of a test.
fn lists_both_in(place: &Place) -> Result<bool, Fail> {
    let mut rig = place.disk()?;
    lists_both(&mut rig, place.rt.alloc())
}

#[test]
fn other_names_are_passed_over_and_no_draft_is_left(rt: HostRuntime) -> Result<(), Fail> {
    let place = Place::new(&rt, "names")?;
    place.lay_others()?;
    assert!(rt; lists_both_in(&place)?);
    assert!(rt; place.holds_text()?);
    place.clear()?;
    Ok(())
}

// Calls on a file in whose place there is a folder.
const ON_A_FOLDER: [Row<'static>; 6] = [
    (Part::Halt, Call::Size, false),
    (Part::Halt, Call::Read, false),
    (Part::Halt, Call::Put(TEXT), false),
    (Part::Halt, Call::Write(0, TEXT), false),
    (Part::Halt, Call::Remove, false),
    (Part::Halt, Call::Rename(Part::Index), false),
];

// Makes these calls, and finds the first one that ends otherwise, or their number if not each of them was counted as a fault.
fn first_uncounted(rig: &mut Rig<FolderDisk<HostRuntime>>) -> Result<Option<usize>, AllocError> {
    let wrong = rig.first_wrong(&ON_A_FOLDER)?;
    if rig.disk.fault_count(rig.base) != Some(ON_A_FOLDER.len() as u64) {
        return Ok(Some(ON_A_FOLDER.len()));
    }
    Ok(wrong)
}

// The same in a folder of a test, in which the halt log's file is a folder.
fn first_uncounted_in(place: &Place) -> Result<Option<usize>, Fail> {
    fs::create_dir(&place.rt, place.at("queue.log")?)?;
    let mut rig = place.disk()?;
    Ok(first_uncounted(&mut rig)?)
}

#[test]
fn a_folder_in_the_place_of_a_file_is_a_counted_fault(rt: HostRuntime) -> Result<(), Fail> {
    let place = Place::new(&rt, "no_file")?;
    assert_eq!(rt; first_uncounted_in(&place)?, None);
    assert!(rt; !place.has("queue.log.new")?);
    place.clear()?;
    Ok(())
}

// Whether a path is refused as that of no folder.
fn is_no_folder(rt: &HostRuntime, path: &str) -> Result<bool, Fail> {
    let disk = FolderDisk::open(rt.clone()?, path);
    Ok(matches!(disk, Err(OpenFault::Device)))
}

// The same for an entry of a test's folder.
fn is_no_folder_at(place: &Place, name: &str) -> Result<bool, Fail> {
    let path = place.at(name)?;
    is_no_folder(&place.rt, path.as_str())
}

#[test]
fn a_path_that_is_no_folder_is_refused(rt: HostRuntime) -> Result<(), Fail> {
    let place = Place::new(&rt, "no_folder")?;
    place.lay("plain", "")?;
    assert!(rt; is_no_folder_at(&place, "missing")?);
    assert!(rt; is_no_folder_at(&place, "plain")?);
    assert!(rt; is_no_folder(&rt, "")?);
    place.clear()?;
    Ok(())
}

// Whether the folder is refused as in use.
fn is_in_use(place: &Place) -> Result<bool, Fail> {
    let disk = FolderDisk::open(place.rt.clone()?, place.path.as_str());
    Ok(matches!(disk, Err(OpenFault::InUse)))
}

// Whether the folder is refused while a disk over it is open, and that disk goes on.
fn is_refused_meanwhile(place: &Place) -> Result<bool, Fail> {
    let mut first = place.disk()?;
    let refused = is_in_use(place)?;
    let wrong = first.first_wrong(&[(Part::Halt, Call::Put(TEXT), true)])?;
    Ok(refused && wrong.is_none() && place.holds_text()?)
}

#[test]
fn a_folder_has_one_disk_at_a_time(rt: HostRuntime) -> Result<(), Fail> {
    let place = Place::new(&rt, "locked")?;
    assert!(rt; is_refused_meanwhile(&place)?);
    assert!(rt; !is_in_use(&place)?);
    place.clear()?;
    Ok(())
}

// More files than are kept open at a time.
const MANY: u32 = 140;

// Makes a call on many files by turns, and finds the first one at which the two disks differ.
fn first_unlike<D: Disk + Drop, E: Disk + Drop>(
    one: &mut Rig<D>,
    other: &mut Rig<E>,
    call: Call<'_>,
) -> Result<Option<u32>, AllocError> {
    for number in 1..=MANY {
        let part = Part::Numbered(number);
        let same = one.call(part, call)? == other.call(part, call)?;
        if !same || one.look(part, 2)? != other.look(part, 2)? {
            return Ok(Some(number));
        }
    }
    Ok(None)
}

// Writes and cuts many files by turns, and finds the first one that two disks have otherwise.
fn first_of_many<D: Disk + Drop, E: Disk + Drop>(
    one: &mut Rig<D>,
    other: &mut Rig<E>,
) -> Result<Option<u32>, AllocError> {
    let calls = [
        Call::Put(TEXT),
        Call::Write(6, b"ghi"),
        Call::Cut(5),
        Call::Write(3, b"XYZ"),
    ];
    for call in calls.iter() {
        let unlike = first_unlike(one, other, *call)?;
        if unlike.is_some() {
            return Ok(unlike);
        }
    }
    Ok(None)
}

// The same for a folder and a disk in memory.
fn first_beside_memory(
    rig: &mut Rig<FolderDisk<HostRuntime>>,
    alloc: Global,
) -> Result<Option<u32>, Fail> {
    let mut model = Rig::empty(alloc)?;
    Ok(first_of_many(rig, &mut model)?)
}

// The same in a folder of a test.
fn first_of_many_in(place: &Place) -> Result<Option<u32>, Fail> {
    let mut rig = place.disk()?;
    first_beside_memory(&mut rig, place.rt.alloc())
}

#[test]
fn more_files_than_are_kept_open_are_used_by_turns(rt: HostRuntime) -> Result<(), Fail> {
    let place = Place::new(&rt, "many")?;
    assert_eq!(rt; first_of_many_in(&place)?, None);
    place.clear()?;
    Ok(())
}
