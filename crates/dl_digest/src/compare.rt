// Digests that were taken before, and what is there now.
ghost use Rattle.std.specs.Prelude.{◌≡◌, ◌≢◌, ◌<◌, ◌↔◌, Some, IfOk, IsNone, IsTrue, count_by};
ghost use Rattle.std.specs.List.{filter};
ghost use Rattle.dl_types.specs.Name.{same_name};
ghost use Rattle.dl_digest.specs.Compare.{digest_at, is_file, Agrees, AreCompared, HasKept, IsCompared, IsFileCompared, IsGrown, IsHeld, IsLogCompared};

use crate::absent::compare_absent;
use crate::digest::ItemsDigest;
use crate::files::FileDigest;
use crate::line::{DigestLine, Extent};
use crate::log::{DigestArgs, LogDigests, digest_log};
use dl_disk::Disk;
use dl_hub::Hub;
use dl_pipe::PipeFault;
use dl_types::{Kind, Name};
use std::alloc::{AllocError, Allocator};

/// The result of comparing items with a digest that was taken of them before.
#[derive(Clone, Copy, Debug, PartialEq, Eq)]
pub enum Verdict {
    /// The items still have this digest.
    Same,
    /// Neither their file nor an older one is there: another file replaced it, or the log was emptied.
    Gone,
    /// There are fewer items, or none.
    Shorter,
    /// They have another digest.
    Changed,
}

/// A line, and the verdict on its items.
#[derive(Clone, Copy, Debug, PartialEq, Eq)]
pub struct Compared {
    pub line: DigestLine,
    pub verdict: Verdict,
}

/// Compares a log with those lines that name it, and returns each of them, in order, with its verdict. Opens the log
/// to read alone, and only if a line names it.
///
/// The line of all items is compared only if the log has exactly the files that its other lines name, with exactly
/// the numbers of items in these lines. Otherwise it counts as the same, since a log may have grown.
pub fn compare_log<D: Disk + Drop, A: Allocator + Copy>(
    alloc: A,
    hub: &mut Hub<D, A>,
    log: Name,
    kind: Kind,
    lines: &[DigestLine],
) -> Result<Vec<Compared, A>, PipeFault>
    ensures { IfOk result (λ compared. IsLogCompared D.state A log kind (filter (λ line. same_name line.log log) lines.now) compared.items hub.old hub.new) }
{
    let own = lines_of(alloc, log, lines)?;
    if own.is_empty() {
        return Ok(Vec::new(alloc));
    }
    let now = digest_log(alloc, hub, log, DigestArgs::of(kind))?;
    compare_lines(alloc, hub, log, kind, &now, own.as_slice())
}

// The lines that are of this log.
fn lines_of<A: Allocator>(
    alloc: A,
    log: Name,
    lines: &[DigestLine],
) -> Result<Vec<DigestLine, A>, AllocError>
    ensures { IfOk result (λ own. own.items ≡ filter (λ line. same_name line.log log) lines.now) }
{
    let mut own = Vec::new(alloc);
    for line in lines {
        if line.log == log {
            own.push(*line)?;
        }
    }
    Ok(own)
}

// Compares all lines that are of this log with its digests.
fn compare_lines<D: Disk + Drop, A: Allocator + Copy>(
    alloc: A,
    hub: &mut Hub<D, A>,
    log: Name,
    kind: Kind,
    now: &LogDigests<A>,
    lines: &[DigestLine],
) -> Result<Vec<Compared, A>, PipeFault>
    ensures { IfOk result (λ compared. AreCompared D.state A log kind now.now lines.now lines.now compared.items hub.old hub.new) }
{
    let mut compared = Vec::new(alloc);
    for line in lines {
        let verdict = compare_line(alloc, hub, log, kind, now, lines, *line)?;
        compared.push(Compared {
            line: *line,
            verdict,
        })?;
    }
    Ok(compared)
}

// Compares a line with the digests of its log. These are all lines of the log.
fn compare_line<D: Disk + Drop, A: Allocator + Copy>(
    alloc: A,
    hub: &mut Hub<D, A>,
    log: Name,
    kind: Kind,
    now: &LogDigests<A>,
    lines: &[DigestLine],
    line: DigestLine,
) -> Result<Verdict, PipeFault>
    ensures { IfOk result (λ verdict. IsCompared D.state A log kind now.now lines.now line.extent line.digest verdict hub.old hub.new) }
{
    match line.extent {
        Extent::All => Ok(compare_whole(now, lines, line.digest)),
        Extent::File(generation) => {
            let kept = FileDigest {
                generation,
                digest: line.digest,
            };
            compare_file(alloc, hub, kind, log, now.files.as_slice(), kept)
        }
    }
}

// Compares all items of a log, if it has just those that these lines of its files tell.
fn compare_whole<A: Allocator>(
    now: &LogDigests<A>,
    lines: &[DigestLine],
    kept: ItemsDigest,
) -> Verdict
    ensures kept { HasKept now.now.files.items lines.now → Agrees result kept now.now.all }
    ensures grown { (HasKept now.now.files.items lines.now → ⊥) → result ≡ Verdict.Same }
{
    if has_kept(now.files.as_slice(), lines) {
        compare_front(kept, now.all)
    } else {
        Verdict::Same
    }
}

// Compares the first items of a file with the digests of the files that its log has.
fn compare_file<D: Disk + Drop, A: Allocator + Copy>(
    alloc: A,
    hub: &mut Hub<D, A>,
    kind: Kind,
    log: Name,
    files: &[FileDigest],
    kept: FileDigest,
) -> Result<Verdict, PipeFault>
    ensures { IfOk result (λ verdict. IsFileCompared D.state A log kind files.now (digest_at kept.generation files.now) kept.digest kept.generation verdict hub.old hub.new) }
{
    let FileDigest { generation, digest } = kept;
    let Some(own) = digest_at(generation, files) else {
        return compare_absent(alloc, hub, kind, log, files, kept);
    };
    match compare(digest, own) {
        Some(verdict) => Ok(verdict),
        None => compare_grown(alloc, hub, kind, log, generation, digest),
    }
}

// Compares the first items of a file that has more of them now.
fn compare_grown<D: Disk + Drop, A: Allocator + Copy>(
    alloc: A,
    hub: &mut Hub<D, A>,
    kind: Kind,
    log: Name,
    generation: u64,
    kept: ItemsDigest,
) -> Result<Verdict, PipeFault>
    ensures { IfOk result (λ verdict. IsGrown D.state A log kind kept generation verdict hub.old hub.new) }
{
    let front = digest_log(
        alloc,
        hub,
        log,
        DigestArgs::front(kind, generation, kept.items),
    )?;
    Ok(compare_front(kept, front.all))
}

// The digest of the file of this generation.
fn digest_at(generation: u64, files: &[FileDigest]) -> Option<ItemsDigest>
    ensures { result ≡ digest_at generation files.now }
{
    for file in files {
        if file.generation == generation {
            return Some(file.digest);
        }
    }
    None
}

// What a digest says of all items that are there. None if there are more than it was taken of.
fn compare(kept: ItemsDigest, now: ItemsDigest) -> Option<Verdict>
    ensures longer { IsNone result ↔ (kept.items < now.items) }
    ensures shorter { (result ≡ Some Verdict.Shorter) ↔ (now.items < kept.items) }
    ensures same { (result ≡ Some Verdict.Same) ↔ (now ≡ kept) }
    ensures changed { (result ≡ Some Verdict.Changed) ↔ ((now.items ≡ kept.items) × (now.hash ≢ kept.hash)) }
    ensures there { result ≢ Some Verdict.Gone }
{
    if now.items > kept.items {
        return None;
    }
    if now.items < kept.items {
        return Some(Verdict::Shorter);
    }
    Some(compare_front(kept, now))
}

// What a digest says of as many items as it was taken of.
fn compare_front(kept: ItemsDigest, now: ItemsDigest) -> Verdict
    ensures { Agrees result kept now }
{
    if now == kept {
        Verdict::Same
    } else {
        Verdict::Changed
    }
}

// Whether a log has just the files with just the items that its lines tell.
fn has_kept(files: &[FileDigest], lines: &[DigestLine]) -> bool
    ensures { IsTrue result ↔ HasKept files.now lines.now }
{
    count_files(lines) == files.len() && lines.iter().all(|line| holds(files, *line))
}

// How many lines are of files.
fn count_files(lines: &[DigestLine]) -> usize
    ensures { result ≡ count_by (λ line. is_file line.extent) lines.now }
{
    lines.iter().filter(|line| is_file(line.extent)).count()
}

// Whether a line is of a file.
fn is_file(extent: Extent) -> bool
    ensures { result ≡ is_file extent }
{
    matches!(extent, Extent::File(_))
}

// Whether a file has exactly the items that its line states.
fn holds(files: &[FileDigest], line: DigestLine) -> bool
    ensures { IsTrue result ↔ IsHeld files.now line.extent line.digest }
{
    match line.extent {
        Extent::File(generation) => digest_at(generation, files) == Some(line.digest),
        Extent::All => true,
    }
}
