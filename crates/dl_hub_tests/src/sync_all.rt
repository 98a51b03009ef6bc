// Syncs of many logs of a hub at once.
use dl_disk::{Disk, MemoryDisk};
use dl_hub::Hub;
use dl_types::{Call, ClientId, Event, Kind, Name, OpenArgs, Reply};
use std::alloc::{AllocError, Global};
use std::process::Abort;
use std::test::Fail;

// The name of this one letter.
fn name(letter: u8) -> Option<Name> {
    Name::parse(&[letter])
}

fn open<D: Disk + Drop>(hub: &mut Hub<D>, log: Name) -> bool {
    let client = ClientId(1);
    let call = Call::Open(OpenArgs::of(Kind::Halt));
    matches!(
        hub.step(Event::Call { client, log, call }).reply,
        Reply::Opened
    )
}

// Has all open logs synced, and returns those that are not on the device.
fn sync_open<D: Disk + Drop>(alloc: Global, hub: &mut Hub<D>) -> Result<Vec<Name>, AllocError> {
    let logs = hub.all()?;
    let outcomes = hub.sync_all(ClientId(1), logs.as_slice())?;
    let mut failed = Vec::new(alloc);
    for (log, outcome) in logs.iter().zip(&outcomes) {
        if !matches!(outcome.reply, Reply::Done) {
            failed.push(*log)?;
        }
    }
    Ok(failed)
}

// Opens two logs, and whether a sync of all then leaves none out.
fn are_all_synced<D: Disk + Drop>(alloc: Global, hub: &mut Hub<D>) -> bool {
    for letter in [b'b', b'a'] {
        let Some(log) = name(letter) else {
            return false;
        };
        if !open(hub, log) {
            return false;
        }
    }
    match sync_open(alloc, hub) {
        Ok(failed) => failed.is_empty(),
        Err(_) => false,
    }
}

// Opens two of three logs, and whether a sync of the three refuses the other one alone.
fn are_others_synced<D: Disk + Drop>(hub: &mut Hub<D>) -> bool {
    let (Some(a), Some(b), Some(c)) = (name(b'a'), name(b'b'), name(b'c')) else {
        return false;
    };
    if !open(hub, a) || !open(hub, c) {
        return false;
    }
    let Ok(outcomes) = hub.sync_all(ClientId(1), &[a, b, c, a]) else {
        return false;
    };
    let done = outcomes
        .iter()
        .filter(|outcome| matches!(outcome.reply, Reply::Done));
    let refused = outcomes
        .iter()
        .filter(|outcome| matches!(outcome.reply, Reply::Refused(_)));
    done.count() == 3 && refused.count() == 1
}

#[test]
fn all_open_logs_are_synced(rt: HostRuntime) -> Result<(), Fail> {
    let Ok(mut hub) = Hub::new(rt.alloc(), MemoryDisk::new(rt.alloc()), 4) else {
        return Err(Fail::from("a hub"));
    };
    assert!(rt; are_all_synced(rt.alloc(), &mut hub));
    Ok(())
}

#[test]
fn a_log_that_is_not_open_keeps_no_other_from_its_sync(rt: HostRuntime) -> Result<(), Fail> {
    let Ok(mut hub) = Hub::new(rt.alloc(), MemoryDisk::new(rt.alloc()), 4) else {
        return Err(Fail::from("a hub"));
    };
    assert!(rt; are_others_synced(&mut hub));
    Ok(())
}
