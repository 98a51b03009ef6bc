// Whether two events are the same.
ghost use Rattle.std.specs.Prelude.{◌≡◌, ◌↔◌, IsTrue};

use dl_types::{Act, Base, Call, Event, Item, Items, OpenArgs, Size};
use std::alloc::Allocator;

/// Whether two events are the same.
pub fn same_event<A: Allocator>(a: &Event<A>, b: &Event<A>) -> bool
    ensures { IsTrue result ↔ (a.now ≡ b.now) }
{
    match (a, b) {
        (
            Event::Call { client, log, call },
            Event::Call {
                client: other,
                log: name,
                call: asked,
            },
        ) => client == other && log == name && same_call(call, asked),
        (Event::Exit { client }, Event::Exit { client: other }) => client == other,
        (Event::Flush, Event::Flush) => true,
        _ => false,
    }
}

// Whether two calls are the same.
fn same_call<A: Allocator>(a: &Call<A>, b: &Call<A>) -> bool
    ensures { IsTrue result ↔ (a.now ≡ b.now) }
{
    match (a, b) {
        (Call::Open(args), Call::Open(others)) => same_args(args, others),
        (Call::Act(act), Call::Act(other)) => same_act(act, other),
        (Call::Alog(items), Call::Alog(others)) => same_items(items, others),
        (
            Call::Reopen { target, head },
            Call::Reopen {
                target: base,
                head: other,
            },
        ) => target == base && same_head(head, other),
        (Call::Block { queue }, Call::Block { queue: other }) => queue == other,
        (Call::Unblock, Call::Unblock) => true,
        (Call::Close, Call::Close) => true,
        _ => false,
    }
}

// Whether two acts are the same.
fn same_act<A: Allocator>(a: &Act<A>, b: &Act<A>) -> bool
    ensures { IsTrue result ↔ (a.now ≡ b.now) }
{
    match (a, b) {
        (Act::Log(items), Act::Log(others)) => same_items(items, others),
        (
            Act::Chunk { from, most },
            Act::Chunk {
                from: place,
                most: n,
            },
        ) => { from == place && most == n }
        (Act::ChunkStep { from, by }, Act::ChunkStep { from: place, by: n }) => {
            from == place && by == n
        }
        (Act::Truncate { head }, Act::Truncate { head: other }) => same_head(head, other),
        (Act::NextFile, Act::NextFile) => true,
        (Act::ChangeSize(size), Act::ChangeSize(other)) => size == other,
        (Act::Sync, Act::Sync) => true,
        (Act::Info, Act::Info) => true,
        _ => false,
    }
}

// Whether two opens ask for the same.
fn same_args<A: Allocator>(a: &OpenArgs<A>, b: &OpenArgs<A>) -> bool
    ensures { IsTrue result ↔ (a.now ≡ b.now) }
{
    same_base(a.base, b.base)
        && a.kind == b.kind
        && same_size(a.size, b.size)
        && a.mode == b.mode
        && a.repair == b.repair
        && same_head(&a.head, &b.head)
        && a.notify == b.notify
        && a.link == b.link
        && same_hold(a.hold, b.hold)
}

// Whether two opens ask for the same base.
fn same_base(a: Option<Base>, b: Option<Base>) -> bool
    ensures { IsTrue result ↔ (a ≡ b) }
{
    match (a, b) {
        (Some(base), Some(other)) => base == other,
        (None, None) => true,
        _ => false,
    }
}

// Whether two opens ask for the same size.
fn same_size(a: Option<Size>, b: Option<Size>) -> bool
    ensures { IsTrue result ↔ (a ≡ b) }
{
    match (a, b) {
        (Some(size), Some(other)) => size == other,
        (None, None) => true,
        _ => false,
    }
}

/// Whether two logs are held to the same number of blocks.
pub(crate) fn same_hold(a: Option<u32>, b: Option<u32>) -> bool
    ensures { IsTrue result ↔ (a ≡ b) }
{
    match (a, b) {
        (Some(blocks), Some(other)) => blocks == other,
        (None, None) => true,
        _ => false,
    }
}

/// Whether two head items are the same.
pub(crate) fn same_head<A: Allocator>(a: &Option<Item<A>>, b: &Option<Item<A>>) -> bool
    ensures { IsTrue result ↔ (a.now ≡ b.now) }
{
    match (a, b) {
        (Some(item), Some(other)) => same_item(item, other),
        (None, None) => true,
        _ => false,
    }
}

// Whether two items have the same bytes.
fn same_item<A: Allocator>(a: &Item<A>, b: &Item<A>) -> bool
    ensures { IsTrue result ↔ (a.now ≡ b.now) }
{
    a.as_bytes() == b.as_bytes()
}

/// Whether the items of two calls are the same.
pub(crate) fn same_items<A: Allocator>(a: &Items<A>, b: &Items<A>) -> bool
    ensures { IsTrue result ↔ (a.now ≡ b.now) }
{
    same_list(a.as_slice(), b.as_slice())
}

/// Whether two lists have the same items.
pub(crate) fn same_list<A: Allocator>(a: &[Item<A>], b: &[Item<A>]) -> bool
    ensures { IsTrue result ↔ (a.now ≡ b.now) }
{
    if a.len() != b.len() {
        return false;
    }
    for i in 0..a.len() {
        if !same_item(&a[i], &b[i]) {
            return false;
        }
    }
    true
}
