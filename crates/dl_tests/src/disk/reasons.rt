// Why calls of a disk over a folder fail.
use super::place::Place;
use super::rig::{Call, Rig, TEXT};
use dl_disk::{Cause, Disk, FolderDisk};
use dl_types::Part;
use std::alloc::AllocError;
use std::fs;
use std::test::Fail;

// The system's number of a file that is not there.
const NO_FILE: i32 = 2;

// A call on the file of this part, and of which file the disk has a reason then.
type Row<'a> = (Part, Call<'a>, Option<(Part, Cause)>);

const CALLS: [Row<'static>; 6] = [
    (Part::Halt, Call::Put(TEXT), None),
    (
        Part::Halt,
        Call::Write(7, b"x"),
        Some((Part::Halt, Cause::Shorter)),
    ),
    (Part::Halt, Call::Sync, Some((Part::Halt, Cause::Shorter))),
    (
        Part::Index,
        Call::Sync,
        Some((Part::Index, Cause::System(NO_FILE))),
    ),
    (
        Part::Numbered(1),
        Call::Size,
        Some((Part::Numbered(1), Cause::NotPlain)),
    ),
    (
        Part::Halt,
        Call::Read,
        Some((Part::Numbered(1), Cause::NotPlain)),
    ),
];

// Makes the calls, and finds the first one after which the disk has another reason.
fn first_unlike(rig: &mut Rig<FolderDisk<HostRuntime>>) -> Result<Option<usize>, AllocError> {
    for (at, (part, call, wanted)) in CALLS.iter().enumerate() {
        let _ = rig.call(*part, *call)?;
        let reason = rig.disk.reason();
        if reason.map(|reason| (reason.file.part, reason.cause)) != *wanted {
            return Ok(Some(at));
        }
    }
    Ok(None)
}

// The same in a folder of a test, in which a folder has the name of a file.
fn first_unlike_in(place: &Place) -> Result<Option<usize>, Fail> {
    fs::create_dir(&place.rt, place.at("queue.1")?)?;
    let mut rig = place.disk()?;
    Ok(first_unlike(&mut rig)?)
}

#[test]
fn a_disk_over_a_folder_has_the_reason_of_the_last_call_that_failed(
    rt: HostRuntime,
) -> Result<(), Fail> {
    let place = Place::new(&rt, "reasons")?;
    assert_eq!(rt; first_unlike_in(&place)?, None);
    place.clear()?;
    Ok(())
}
