// A call that a block has suspended.
use dl_types::Event;
use std::alloc::{Allocator, Global};

/// A call that waits for a block to fall, and the tag of its request.
#[derive(Drop)]
pub struct Waiting<A: Allocator = Global> {
    pub tag: u32,
    pub event: Event<A>,
}
