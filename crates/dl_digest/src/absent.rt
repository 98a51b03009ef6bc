// Items of which a digest was taken, and whose file gives none now.
ghost use Rattle.std.specs.Prelude.{◌≡◌, ◌↔◌, IfOk, IsTrue};
ghost use Rattle.dl_digest.specs.Compare.{has_older, IsAbsentCompared, IsNotThere, IsThere};

use crate::compare::Verdict;
use crate::files::FileDigest;
use crate::log::{DigestArgs, digest_log};
use dl_disk::Disk;
use dl_hub::Hub;
use dl_pipe::PipeFault;
use dl_types::{Kind, Name, Refusal};
use std::alloc::Allocator;

/// Returns the verdict on the items of a file that gives none now. `files` are the files that give items or bad
/// bytes.
///
/// A log removes its files oldest first. So if an older file is there, the log did not remove this one, and its items
/// are lost. Otherwise the log is asked for the front of the file, which is a place of the log as long as the file is
/// there.
pub fn compare_absent<D: Disk + Drop, A: Allocator + Copy>(
    alloc: A,
    hub: &mut Hub<D, A>,
    kind: Kind,
    log: Name,
    files: &[FileDigest],
    kept: FileDigest,
) -> Result<Verdict, PipeFault>
    ensures { IfOk result (λ verdict. IsAbsentCompared D.state A log kind files.now kept.digest kept.generation verdict hub.old hub.new) }
{
    let FileDigest { generation, digest } = kept;
    if digest.items == 0 {
        return Ok(Verdict::Gone);
    }
    if has_older(files, generation) {
        return Ok(Verdict::Shorter);
    }
    if is_there(alloc, hub, kind, log, generation)? {
        Ok(Verdict::Shorter)
    } else {
        Ok(Verdict::Gone)
    }
}

// Whether one of these files is older than that of a generation.
fn has_older(files: &[FileDigest], generation: u64) -> bool
    ensures { result ≡ has_older generation files.now }
{
    files.iter().any(|file| file.generation < generation)
}

// Whether the file of a generation is there, whose first item is asked for.
fn is_there<D: Disk + Drop, A: Allocator + Copy>(
    alloc: A,
    hub: &mut Hub<D, A>,
    kind: Kind,
    log: Name,
    generation: u64,
) -> Result<bool, PipeFault>
    ensures there { IfOk result (λ is_there. IsTrue is_there → IsThere D.state A log kind generation hub.old hub.new) }
    ensures absent { IfOk result (λ is_there. (IsTrue is_there → ⊥) → IsNotThere D.state A log kind generation hub.old hub.new) }
{
    let read = digest_log(alloc, hub, log, DigestArgs::front(kind, generation, 1));
    if let Err(PipeFault::Refused(Refusal::StaleContinuation)) = &read {
        return Ok(false);
    }
    read?;
    Ok(true)
}
