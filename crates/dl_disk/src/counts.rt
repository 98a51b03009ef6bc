// How many faults each base has had.
ghost use Rattle.std.specs.Prelude.{◌≡◌, IsTrue, OnOk};
ghost use Rattle.dl_types.specs.declared.name.Base.{Base};
ghost use Rattle.dl_disk.specs.Disk.{Counts};
ghost use Rattle.dl_disk.specs.Memory.{count_of, has_count};

use dl_types::Base;
use indexmap::IndexMap;
use std::alloc::{AllocError, Allocator};
use std::hash::{BuildHasherDefault, FoldHasher};

/// A count for each base that is known.
pub(crate) type FaultCounts<A> = IndexMap<Base, u64, BuildHasherDefault<FoldHasher>, A>;

/// Starts counting the faults of a base, unless they are counted already.
pub(crate) fn know<A: Allocator + Copy>(
    counts: &mut FaultCounts<A>,
    base: Base,
) -> Result<(), AllocError>
    ensures known { OnOk result (IsTrue (has_count counts.new.entries base)) }
    ensures others { (b : Base) → IsTrue (has_count counts.old.entries b) → IsTrue (has_count counts.new.entries b) }
    ensures same { (b : Base) → count_of counts.new.entries b ≡ count_of counts.old.entries b }
{
    if !counts.contains_key(&base) {
        counts.insert(base, 0)?;
    }
    Ok(())
}

/// Counts an answer that is a fault, and returns the answer. A count stays at the greatest number.
pub(crate) fn counted<T, E, A: Allocator>(
    counts: &mut FaultCounts<A>,
    base: Base,
    answer: Result<T, E>,
) -> Result<T, E>
    requires { IsTrue (has_count counts.old.entries base) }
    ensures answer { result ≡ answer }
    ensures counts { Counts base (count_of counts.old.entries) (count_of counts.new.entries) result }
    ensures known { (b : Base) → IsTrue (has_count counts.old.entries b) → IsTrue (has_count counts.new.entries b) }
{
    if answer.is_err() {
        if let Some(count) = counts.get_mut(&base) {
            *count = count.saturating_add(1);
        }
    }
    answer
}
