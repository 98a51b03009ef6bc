// The digests of a log.
ghost use Rattle.std.specs.Prelude.{◌≡◌, ◌⊎◌, IfOk, IfErr};
ghost use Rattle.dl_pipe.specs.Dump.{IsUnopened};
ghost use Rattle.dl_digest.specs.Log.{whole_args, front_args, dump_args, IsDigested, IsCut};

use crate::digest::ItemsDigest;
use crate::files::FileDigest;
use crate::reading::Reading;
use dl_disk::Disk;
use dl_hub::Hub;
use dl_pipe::{Gap, PipeFault, READER, Spot, check_done, check_opened, reading_args};
use dl_types::{Call, Event, Kind, Name};
use std::alloc::Allocator;

/// Which items of a log are taken into digests.
#[derive(Clone, Copy)]
pub struct DigestArgs {
    /// The kind of the log.
    pub kind: Kind,
    /// The place of the first item; None is the oldest one.
    pub from: Option<Spot>,
    /// The most items that are taken.
    pub most: u64,
}

impl DigestArgs {
    /// All items of a log of this kind.
    pub fn of(kind: Kind) -> DigestArgs
        ensures { result ≡ whole_args kind }
    {
        DigestArgs {
            kind,
            from: None,
            most: u64::MAX,
        }
    }

    /// The first `items` items from the front of the file of this generation on.
    pub fn front(kind: Kind, generation: u64, items: u64) -> DigestArgs
        ensures { result ≡ front_args kind generation items }
    {
        let front = Spot {
            generation,
            before: 0,
        };
        DigestArgs {
            kind,
            from: Some(front),
            most: items,
        }
    }
}

/// The digests of a log.
#[derive(Drop)]
pub struct LogDigests<A: Allocator> {
    /// Of each file that gave an item or bad bytes, oldest first.
    pub files: Vec<FileDigest, A>,
    /// Of all items.
    pub all: ItemsDigest,
    /// The places of bytes that are no item's.
    pub gaps: Vec<Gap, A>,
}

/// Computes the digests of a log's items, oldest first. Opens the log to read alone, so no file changes. Reads chunks
/// until they gave as many items as are asked for, or the log ends.
pub fn digest_log<D: Disk + Drop, A: Allocator + Copy>(
    alloc: A,
    hub: &mut Hub<D, A>,
    log: Name,
    args: DigestArgs,
) -> Result<LogDigests<A>, PipeFault>
    ensures whole { IfOk result (λ digests. IsDigested D.state A log args digests hub.old hub.new) }
    ensures cut { IfErr result (λ stopped. IsUnopened D.state A log (dump_args args) stopped hub.old hub.new ⊎ IsCut D.state A log args stopped hub.old hub.new) }
{
    let opened = hub.step(Event::Call {
        client: READER,
        log,
        call: Call::Open(reading_args(args.kind)),
    });
    check_opened(&opened.reply)?;
    let mut reading = Reading::new(alloc, log, args);
    let read = reading.read_all(hub, log);
    let closed = hub.step(Event::Call {
        client: READER,
        log,
        call: Call::Close,
    });
    read?;
    check_done(&closed.reply)?;
    Ok(reading.finish()?)
}
