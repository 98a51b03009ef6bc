// Which names of a folder may not be durable.
ghost use Rattle.std.specs.Prelude.{◌≡◌, ◌⊎◌, [], true, Some, IsTrue, IsErr, OnOk};
ghost use Rattle.dl_types.specs.declared.name.Base.{Base};
ghost use Rattle.dl_disk.specs.Owed.{OwesNoName, owes_name};

use dl_types::Base;
use indexmap::IndexSet;
use std::alloc::{AllocError, Global};
use std::hash::{BuildHasherDefault, FoldHasher};

// How many new names may wait to be made durable together.
const BEGUN_BASES: usize = 1_024;

type BaseSet = IndexSet<Base, BuildHasherDefault<FoldHasher>, Global>;

/// The names of a folder that may not be durable.
///
/// A file that is put under a new name replaces nothing. So its name may become durable before or after those of
/// files of other bases, and new names of many bases wait to be made durable together. This does not hold for a name
/// that replaces that of a file which was moved away: without it the log would begin anew.
#[derive(Drop)]
pub(crate) struct OwedNames {
    // Whether any name may not be durable but those of new files.
    pub(crate) changed: bool,
    // The bases under which new files were put since the names were durable.
    pub(crate) begun: BaseSet,
    // The base from which a file was moved last.
    pub(crate) moved: Option<Base>,
}

impl OwedNames {
    /// Of no name it is known that it is durable.
    pub(crate) fn new(alloc: Global) -> OwedNames
        ensures { result.changed ≡ true }
    {
        OwedNames {
            changed: true,
            begun: IndexSet::new(alloc),
            moved: None,
        }
    }

    /// Whether any name may not be durable.
    pub(crate) fn is_owed(&self) -> bool
        ensures { IsTrue result ⊎ OwesNoName self.now }
    {
        self.changed || !self.begun.is_empty()
    }

    /// Whether a name under this base may not be durable, or one that was not put as new.
    pub(crate) fn is_owed_under(&self, base: Base) -> bool
        ensures { result ≡ owes_name self.now base }
    {
        self.changed || self.begun.contains(&base)
    }

    /// Notes that names change.
    pub(crate) fn change(&mut self)
        ensures { (base : Base) → IsTrue (owes_name self.new base) }
    {
        self.changed = true;
    }

    /// Notes that a file of this base is moved away.
    pub(crate) fn move_from(&mut self, base: Base)
        ensures { (self.new.moved ≡ Some base) × (self.new.changed ≡ self.old.changed) × (self.new.begun ≡ self.old.begun) }
    {
        self.moved = Some(base);
    }

    /// Notes that a file was put under a new name of this base. It is refused if a file of the base was moved away, if there are too
    /// many such names, or no memory for one.
    pub(crate) fn begin(&mut self, base: Base) -> Result<(), AllocError>
        ensures noted { OnOk result (IsTrue (owes_name self.new base)) }
        ensures moved { self.old.moved ≡ Some base → IsErr result }
    {
        if self.moved == Some(base) || self.begun.len() >= BEGUN_BASES {
            return Err(AllocError);
        }
        self.begun.insert(base)?;
        Ok(())
    }

    /// Notes that all names are durable.
    pub(crate) fn settle(&mut self)
        ensures { OwesNoName self.new }
    {
        self.changed = false;
        self.begun.clear();
    }
}
