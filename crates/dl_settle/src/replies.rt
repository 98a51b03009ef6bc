// Whether two replies are the same.
ghost use Rattle.std.specs.Prelude.{◌≡◌, ◌↔◌, IsTrue};

use crate::events::{same_head, same_hold, same_list};
use dl_types::{Extent, Info, Overflows, Owner, Refusal, Reply, Writing};
use std::alloc::Allocator;

/// Whether two replies are the same.
pub fn same_reply<A: Allocator>(a: &Reply<A>, b: &Reply<A>) -> bool
    ensures { IsTrue result ↔ (a.now ≡ b.now) }
{
    match (a, b) {
        (Reply::Opened, Reply::Opened) => true,
        (
            Reply::Repaired { recovered, bad },
            Reply::Repaired {
                recovered: n,
                bad: m,
            },
        ) => recovered == n && bad == m,
        (Reply::Done, Reply::Done) => true,
        (Reply::Suspended, Reply::Suspended) => true,
        (Reply::Held, Reply::Held) => true,
        (
            Reply::Items { next, items, bad },
            Reply::Items {
                next: place,
                items: others,
                bad: n,
            },
        ) => next == place && same_list(items.as_slice(), others.as_slice()) && bad == n,
        (Reply::Eof, Reply::Eof) => true,
        (Reply::At(place), Reply::At(other)) => place == other,
        (Reply::Info(info), Reply::Info(other)) => same_info(info.as_info(), other.as_info()),
        (Reply::Turn(turn), Reply::Turn(other)) => turn == other,
        (Reply::Refused(refusal), Reply::Refused(other)) => same_refusal(*refusal, *other),
        (Reply::OutOfMemory, Reply::OutOfMemory) => true,
        _ => false,
    }
}

// Whether two refusals are the same.
fn same_refusal(a: Refusal, b: Refusal) -> bool
    ensures { IsTrue result ↔ (a ≡ b) }
{
    match a {
        Refusal::BadArg(x) => matches!(b, Refusal::BadArg(y) if x == y),
        Refusal::NoSuchLog => matches!(b, Refusal::NoSuchLog),
        Refusal::NameAlreadyOpen => matches!(b, Refusal::NameAlreadyOpen),
        Refusal::ArgMismatch(x) => matches!(b, Refusal::ArgMismatch(y) if x == y),
        Refusal::SizeMismatch(x, y) => matches!(b, Refusal::SizeMismatch(z, w) if x == z && y == w),
        Refusal::OpenReadWrite => matches!(b, Refusal::OpenReadWrite),
        Refusal::OpenReadOnly => matches!(b, Refusal::OpenReadOnly),
        Refusal::FileInUse(x) => matches!(b, Refusal::FileInUse(y) if x == y),
        Refusal::NoFile => matches!(b, Refusal::NoFile),
        Refusal::NotALogFile(x) => matches!(b, Refusal::NotALogFile(y) if x == y),
        Refusal::InvalidIndexFile => matches!(b, Refusal::InvalidIndexFile),
        Refusal::NeedRepair => matches!(b, Refusal::NeedRepair),
        Refusal::ReadOnlyMode => matches!(b, Refusal::ReadOnlyMode),
        Refusal::Full => matches!(b, Refusal::Full),
        Refusal::BlockedLog => matches!(b, Refusal::BlockedLog),
        Refusal::NotBlocked => matches!(b, Refusal::NotBlocked),
        Refusal::NotBlockedByCaller => matches!(b, Refusal::NotBlockedByCaller),
        Refusal::HaltLog => matches!(b, Refusal::HaltLog),
        Refusal::NewSizeTooSmall(x) => matches!(b, Refusal::NewSizeTooSmall(y) if x == y),
        Refusal::SameFileName => matches!(b, Refusal::SameFileName),
        Refusal::StaleContinuation => matches!(b, Refusal::StaleContinuation),
        Refusal::EndOfLog => matches!(b, Refusal::EndOfLog),
        Refusal::CorruptFile(x) => matches!(b, Refusal::CorruptFile(y) if x == y),
        Refusal::DeviceFault(x) => matches!(b, Refusal::DeviceFault(y) if x == y),
        Refusal::Exhausted => matches!(b, Refusal::Exhausted),
    }
}

// Whether two infos say the same.
fn same_info<A: Allocator>(a: &Info<A>, b: &Info<A>) -> bool
    ensures { IsTrue result ↔ (a.now ≡ b.now) }
{
    a.log == b.log
        && a.base == b.base
        && a.kind == b.kind
        && a.size == b.size
        && a.mode == b.mode
        && same_owners(a.owners.as_slice(), b.owners.as_slice())
        && a.users == b.users
        && same_block(a.blocked, b.blocked)
        && same_writing(&a.writing, &b.writing)
}

// Whether two lists have the same owners.
fn same_owners(a: &[Owner], b: &[Owner]) -> bool
    ensures { IsTrue result ↔ (a.now ≡ b.now) }
{
    if a.len() != b.len() {
        return false;
    }
    for i in 0..a.len() {
        if a[i] != b[i] {
            return false;
        }
    }
    true
}

// Whether two logs are blocked alike.
fn same_block(a: Option<bool>, b: Option<bool>) -> bool
    ensures { IsTrue result ↔ (a ≡ b) }
{
    match (a, b) {
        (Some(queue), Some(other)) => queue == other,
        (None, None) => true,
        _ => false,
    }
}

// Whether two infos say the same of a log in read-write mode.
fn same_writing<A: Allocator>(a: &Option<Writing<A>>, b: &Option<Writing<A>>) -> bool
    ensures { IsTrue result ↔ (a.now ≡ b.now) }
{
    match (a, b) {
        (Some(a), Some(b)) => {
            same_head(&a.head, &b.head)
                && a.written == b.written
                && same_extent(a.extent, b.extent)
                && same_hold(a.hold, b.hold)
        }
        (None, None) => true,
        _ => false,
    }
}

// Whether two logs have come equally far.
fn same_extent(a: Extent, b: Extent) -> bool
    ensures { IsTrue result ↔ (a ≡ b) }
{
    match (a, b) {
        (Extent::Halt { full }, Extent::Halt { full: other }) => full == other,
        (
            Extent::Wrap {
                bytes,
                items,
                all,
                file,
                overflows,
            },
            Extent::Wrap {
                bytes: other_bytes,
                items: other_items,
                all: other_all,
                file: other_file,
                overflows: other_overflows,
            },
        ) => {
            bytes == other_bytes
                && items == other_items
                && all == other_all
                && file == other_file
                && same_overflows(overflows, other_overflows)
        }
        _ => false,
    }
}

// Whether two wrap logs went to their next file equally often.
fn same_overflows(a: Overflows, b: Overflows) -> bool
    ensures { IsTrue result ↔ (a ≡ b) }
{
    a.since_open == b.since_open && a.since_info == b.since_info
}
