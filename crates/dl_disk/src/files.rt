// The files of a disk in memory, each a vector of bytes.
ghost use Rattle.std.specs.Prelude.{◌≡◌, ◌≤◌, ◌<◌, ◌+◌, ◌↔◌, ℕ, List, Some, IsSome, OnOk, OnErr, IfOk, Contains, length, take, drop};
ghost use Rattle.std.specs.Option.{option_copied};
ghost use Rattle.std.specs.FinMap as map;
ghost use Rattle.dl_types.specs.declared.file.FileName.{FileName};
ghost use Rattle.dl_disk.specs.Disk.{written, IsShorter, IsOnce};
ghost use Rattle.dl_disk.specs.Memory.{content_of};

use crate::fault::Fault;
use dl_types::FileName;
use indexmap::IndexMap;
use std::alloc::{AllocError, Allocator};
use std::hash::{BuildHasherDefault, FoldHasher};

/// The bytes of each file.
pub(crate) type Files<A> = IndexMap<FileName, Vec<u8, A>, BuildHasherDefault<FoldHasher>, A>;

/// The bytes of a file.
pub(crate) fn text_of<A: Allocator>(files: &Files<A>, file: FileName) -> Option<&[u8]>
    ensures { option_copied result ≡ map.get (content_of files.now.entries) file }
{
    match files.get(&file) {
        None => None,
        Some(text) => Some(text.as_slice()),
    }
}

/// Creates a file with these bytes, or replaces the whole file that is there.
pub(crate) fn lay<A: Allocator + Copy>(
    files: &mut Files<A>,
    file: FileName,
    bytes: Vec<u8, A>,
) -> Result<(), AllocError>
    ensures ok { OnOk result (content_of files.new.entries ≡ map.insert (content_of files.old.entries) file bytes.items) }
    ensures err { OnErr result (content_of files.new.entries ≡ content_of files.old.entries) }
{
    files.insert(file, bytes)?;
    Ok(())
}

// Writes over what is there and past the end. What can fail comes first.
fn write_over<A: Allocator>(
    text: &mut Vec<u8, A>,
    at: usize,
    bytes: &[u8],
) -> Result<(), AllocError>
    requires { at ≤ length text.old.items }
    ensures ok { OnOk result (text.new.items ≡ written text.old.items at bytes.now) }
    ensures err { OnErr result (text.new.items ≡ text.old.items) }
    ensures short { OnErr result (length text.old.items < at + length bytes.now) }
{
    let over = bytes.len().min(text.len() - at);
    text.extend_from_slice(&bytes[over..])?;
    text[at..at + over].copy_from_slice(&bytes[..over]);
    Ok(())
}

/// Writes into a file. If it fails, nothing has changed. Only bytes past the end take memory.
pub(crate) fn write<A: Allocator>(
    files: &mut Files<A>,
    file: FileName,
    at: usize,
    bytes: &[u8],
) -> Result<(), Fault>
    ensures ok { OnOk result ((text : List ℕ) × (map.get (content_of files.old.entries) file ≡ Some text) × (at ≤ length text)
        × (content_of files.new.entries ≡ map.insert (content_of files.old.entries) file (written text at bytes.now))) }
    ensures err { OnErr result (content_of files.new.entries ≡ content_of files.old.entries) }
    ensures short { OnErr result (IsShorter (map.get (content_of files.old.entries) file) (at + length bytes.now)) }
{
    let Some(text) = files.get_mut(&file) else {
        return Err(Fault);
    };
    if at > text.len() {
        return Err(Fault);
    }
    match write_over(text, at, bytes) {
        Ok(()) => Ok(()),
        Err(_) => Err(Fault),
    }
}

/// Cuts a file off at a length that it has.
pub(crate) fn cut<A: Allocator>(
    files: &mut Files<A>,
    file: FileName,
    size: usize,
) -> Result<(), Fault>
    ensures ok { OnOk result ((text : List ℕ) × (map.get (content_of files.old.entries) file ≡ Some text) × (size ≤ length text)
        × (content_of files.new.entries ≡ map.insert (content_of files.old.entries) file (take size text))) }
    ensures err { OnErr result (content_of files.new.entries ≡ content_of files.old.entries) }
    ensures short { OnErr result (IsShorter (map.get (content_of files.old.entries) file) size) }
{
    let Some(text) = files.get_mut(&file) else {
        return Err(Fault);
    };
    if size > text.len() {
        return Err(Fault);
    }
    text.truncate(size);
    Ok(())
}

/// Renames a file, replacing the file that had the new name. Its bytes are not copied.
pub(crate) fn rename<A: Allocator + Copy>(
    files: &mut Files<A>,
    from: FileName,
    to: FileName,
) -> Result<(), Fault>
    ensures ok { OnOk result ((text : List ℕ) × (map.get (content_of files.old.entries) from ≡ Some text)
        × (content_of files.new.entries ≡ map.insert (map.remove (content_of files.old.entries) from) to text)) }
    ensures err { OnErr result (content_of files.new.entries ≡ content_of files.old.entries) }
{
    if files.reserve(1).is_err() {
        return Err(Fault);
    }
    let Some(text) = files.swap_remove(&from) else {
        return Err(Fault);
    };
    let Ok(_) = files.insert(to, text) else {
        unreachable!()
    };
    Ok(())
}

/// Removes a file, if there is one. The order of the others may change.
pub(crate) fn remove<A: Allocator>(files: &mut Files<A>, file: FileName)
    ensures { content_of files.new.entries ≡ map.remove (content_of files.old.entries) file }
{
    let _ = files.swap_remove(&file);
}

/// The names of the files.
pub(crate) fn names<A: Allocator, B: Allocator>(
    files: &Files<A>,
    alloc: B,
) -> Result<Vec<FileName, B>, AllocError>
    ensures { IfOk result (λ names. IsOnce names.items
        × ((f : FileName) → Contains names.items f ↔ IsSome (map.get (content_of files.now.entries) f))) }
{
    files.keys().copied().collect(alloc)
}

/// Copies bytes from an offset on into a buffer, as many as there are and fit, and returns how many.
pub fn copy_from(text: &[u8], at: u64, buffer: &mut [u8]) -> usize
    ensures within { result ≤ length buffer.old }
    ensures read { take result buffer.new ≡ take (length buffer.old) (drop at text.now) }
{
    if at >= text.len() as u64 {
        return 0;
    }
    let at = at as usize;
    let n = buffer.len().min(text.len() - at);
    buffer[..n].copy_from_slice(&text[at..at + n]);
    n
}
