// A list of logs that have something that most have not.
ghost use Rattle.std.specs.Prelude.{◌≡◌, ◌&&◌, ◌||◌, not, false, IsTrue, OnOk, OnErr};
ghost use Rattle.dl_types.specs.declared.name.Name.{Name};
ghost use Rattle.dl_types.specs.Members.{has_somebody};
ghost use Rattle.dl_types.specs.Name.{same_name};
ghost use Rattle.dl_owners.specs.Listed.{is_listed};
ghost use Rattle.dl_owners.specs.Table.{members_of};

use crate::log_table::LogTable;
use dl_types::Name;
use indexmap::IndexSet;
use std::alloc::{AllocError, Allocator};
use std::hash::{BuildHasherDefault, FoldHasher};

// The logs that may have something; no other log has it. While there are none, no log has to be looked up for it.
#[derive(Drop)]
pub struct LogSet<A: Allocator> {
    names: IndexSet<Name, BuildHasherDefault<FoldHasher>, A>,
}

impl<A: Allocator + Copy> LogSet<A> {
    // No log. It takes no memory.
    pub fn new(alloc: A) -> LogSet<A>
        ensures { (L : Name) → is_listed result.names.keys L ≡ false }
    {
        LogSet {
            names: IndexSet::new(alloc),
        }
    }
}

impl<A: Allocator> LogSet<A> {
    // Adds a log.
    pub fn list(&mut self, log: Name) -> Result<(), AllocError>
        ensures added { OnOk result ((L : Name) → is_listed self.new.names.keys L ≡ (same_name log L || is_listed self.old.names.keys L)) }
        ensures unchanged { OnErr result ((L : Name) → is_listed self.new.names.keys L ≡ is_listed self.old.names.keys L) }
    {
        self.names.insert(log)?;
        Ok(())
    }

    // Adds a log that has it.
    pub fn list_if(&mut self, has: bool, log: Name) -> Result<(), AllocError>
        ensures added { OnOk result ((L : Name) → is_listed self.new.names.keys L ≡ ((has && same_name log L) || is_listed self.old.names.keys L)) }
        ensures unchanged { OnErr result ((L : Name) → is_listed self.new.names.keys L ≡ is_listed self.old.names.keys L) }
    {
        if !has {
            return Ok(());
        }
        self.list(log)
    }

    // Removes a log.
    pub fn unlist(&mut self, log: Name)
        ensures { (L : Name) → is_listed self.new.names.keys L ≡ (not (same_name log L) && is_listed self.old.names.keys L) }
    {
        self.names.swap_remove(&log);
    }

    // Removes a log if nobody has a part in it.
    pub fn settle(&mut self, logs: &LogTable<A>, log: Name)
        ensures { (L : Name) → is_listed self.new.names.keys L ≡ (not (same_name log L && not (has_somebody (members_of logs.now log))) && is_listed self.old.names.keys L) }
    {
        if !logs.has_somebody(log) {
            self.unlist(log);
        }
    }

    // Whether no log is listed, so that none has it.
    pub fn is_empty(&self) -> bool
        ensures { IsTrue result → (L : Name) → is_listed self.now.names.keys L ≡ false }
    {
        self.names.is_empty()
    }
}
