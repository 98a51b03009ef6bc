// What the last file of a log was closed with.
ghost use Rattle.std.specs.Prelude.{◌≡◌, ◌↔◌, Some, IsTrue, IfOk};
ghost use Rattle.dl_tool.specs.declared.closed.Closed.{Closed};
ghost use Rattle.dl_tool.specs.declared.closed.LastFile.{LastFile};
ghost use Rattle.dl_tool.specs.Closed.{closed_count, is_of, IsClosed, IsLast};
ghost use Rattle.dl_tool.specs.Reads.{ReadsLog};

use crate::finding::CheckFault;
use crate::head::head_of;
use crate::line::LogFiles;
use crate::named::{Named, known_of};
use dl_disk::Disk;
use dl_types::{FileName, Head, Kind, Mark, Version};
use std::alloc::Allocator;

/// The last file of a log, and how many items it was closed with.
#[derive(Clone, Copy, Debug, PartialEq, Eq)]
pub struct Closed {
    pub file: FileName,
    pub items: u64,
}

/// What the last file of a log was closed with, by its head alone. Returns `None` if there is no such file, a file of
/// another generation has its name, it is marked as that of an open log, or its layout counts no items. Nothing is
/// changed.
pub fn find_closed<D: Disk, A: Allocator + Copy>(
    alloc: A,
    disk: &mut D,
    log: LogFiles,
) -> Result<Option<Closed>, CheckFault>
    ensures reads { ReadsLog log.base (D.state disk.old) (D.state disk.new) result }
    ensures closed { IsTrue (D.state disk.new).honest → IfOk result (λ found. (closed : Closed) → (found ≡ Some closed) ↔ IsClosed (D.state disk.old).content log closed) }
{
    let Some(last) = last_file(alloc, disk, log)? else {
        return Ok(None);
    };
    let file = last.file;
    let Some(head) = head_of(disk, file)? else {
        return Ok(None);
    };
    let Some(items) = closed_count(head, last.generation) else {
        return Ok(None);
    };
    Ok(Some(Closed { file, items }))
}

/// The last file of a log, and the generation that it has to have, if its index says one.
#[derive(Clone, Copy)]
pub struct LastFile {
    pub file: FileName,
    pub generation: Option<u64>,
}

/// The last file of a log, whether it is there or not. None if the log's index is not there, or is none. Nothing is changed.
pub fn last_file<D: Disk, A: Allocator + Copy>(
    alloc: A,
    disk: &mut D,
    log: LogFiles,
) -> Result<Option<LastFile>, CheckFault>
    ensures reads { ReadsLog log.base (D.state disk.old) (D.state disk.new) result }
    ensures own { IfOk result (λ found. (last : LastFile) → found ≡ Some last → last.file.base ≡ log.base) }
    ensures last { IsTrue (D.state disk.new).honest → IfOk result (λ found. (last : LastFile) → (found ≡ Some last) ↔ IsLast (D.state disk.old).content log last) }
{
    let Kind::Wrap = log.kind else {
        return Ok(Some(LastFile {
            file: FileName::halt(log.base),
            generation: None,
        }));
    };
    let known = known_of(alloc, disk, None, log.base)?;
    let Named::Index(index) = &known.named else {
        return Ok(None);
    };
    let current = index.current();
    Ok(Some(LastFile {
        file: FileName::numbered(log.base, current.number),
        generation: Some(current.generation),
    }))
}

// How many items a file with this head was closed with, if it has the generation that it has to have.
fn closed_count(head: Head, generation: Option<u64>) -> Option<u64>
    ensures { result ≡ closed_count generation head }
{
    if !is_of(head, generation) {
        return None;
    }
    match (head.version, head.mark) {
        (Version::Second, Mark::Shut) => Some(head.count),
        _ => None,
    }
}

// Whether a file with this head has the generation that it has to have.
fn is_of(head: Head, generation: Option<u64>) -> bool
    ensures { result ≡ is_of generation head }
{
    match generation {
        None => true,
        Some(generation) => head.generation == generation,
    }
}
