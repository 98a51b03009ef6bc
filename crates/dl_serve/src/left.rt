// What is left of what waited, after flushes.
ghost use Rattle.std.specs.Prelude.{◌≡◌};
ghost use Rattle.dl_serve.specs.Left.{is_nothing, left_of};

use dl_types::{Name, Reply, Turn};
use std::alloc::Allocator;

/// What a flush of all has left of what waits.
#[derive(Clone, Copy, Debug, PartialEq, Eq)]
pub enum Left {
    /// Nothing waits, and no log lingers.
    Nothing,
    /// The device failed at this log. What waits of it is in memory alone, and what waits behind that of other logs is too.
    Unwritten(Name),
    /// Memory for notices was refused. Blocks wait in memory alone.
    NoMemory,
}

impl Left {
    /// Whether nothing is left.
    pub fn is_nothing(self) -> bool
        ensures { result ≡ is_nothing self }
    {
        match self {
            Left::Nothing => true,
            Left::Unwritten(_) | Left::NoMemory => false,
        }
    }
}

/// What a turn has left that drained no log.
pub fn left_of<A: Allocator>(reply: &Reply<A>) -> Left
    ensures { result ≡ left_of reply.now }
{
    match reply {
        Reply::Turn(Turn::Idle) => Left::Nothing,
        Reply::Turn(Turn::Fault(log)) => Left::Unwritten(*log),
        _ => Left::NoMemory,
    }
}
