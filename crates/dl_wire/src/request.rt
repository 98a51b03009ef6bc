// What a program asks for.
use crate::log_names::LogNames;
use dl_types::{ClientId, Event};
use std::alloc::{Allocator, Global};

/// What a program asks for in one frame.
#[derive(Drop)]
pub struct Request<A: Allocator = Global> {
    /// The number that the answer has. 0 asks for no answer.
    pub tag: u32,
    pub ask: Ask<A>,
}

/// What is asked for.
#[derive(Drop)]
pub enum Ask<A: Allocator = Global> {
    /// Which version of the frames the program speaks.
    Hello(u16),
    /// One step of the hub.
    Event(Event<A>),
    /// Everything that waits is written.
    All,
    /// A sync of each of these logs, or of all that are open if none is named, in one answer.
    SyncAll { client: ClientId, logs: LogNames<A> },
    /// Why the last call of the device that failed did.
    Reason,
    /// The names of the open logs.
    Logs,
}
