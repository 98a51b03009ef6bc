// Names of logs as one value.
ghost use Rattle.std.specs.Prelude.{◌≡◌};

use dl_types::Name;
use std::alloc::{Allocator, Global};
use std::marker::Model;

/// Names of logs, in their order.
#[derive(Drop)]
pub struct LogNames<A: Allocator = Global> {
    names: Vec<Name, A>,
}

impl<A: Allocator> Model for LogNames<A> {
    ghost use Rattle.std.specs.Prelude.{List};
    ghost use Rattle.dl_types.specs.declared.name.Name.{Name};

    ghost Value = { List Name };

    ghost view = { λ n. n.names.items };
}

impl<A: Allocator> LogNames<A> {
    /// These names.
    pub fn of(names: Vec<Name, A>) -> LogNames<A>
        ensures { result ≡ names.items }
    {
        LogNames { names }
    }

    /// The names in order.
    pub fn as_slice(&self) -> &[Name]
        ensures { result.now ≡ self.now }
    {
        self.names.as_slice()
    }
}
