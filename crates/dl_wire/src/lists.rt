// Names of logs that are read one after another.
ghost use Rattle.dl_wire.specs.Reading.{Gives, name_at, many_at, names_at};

use crate::fault::ReadFault;
use crate::log_names::LogNames;
use crate::reading::{name_at, u32_at};
use dl_types::Name;
use std::alloc::Allocator;

// This many names, one after another.
fn each_name_at<A: Allocator + Copy>(
    alloc: A,
    count: u32,
    bytes: &[u8],
) -> Result<(Vec<Name, A>, &[u8]), ReadFault>
    ensures { Gives (λ x. (x.0.items, x.1.now)) result (many_at name_at count bytes.now) }
{
    let mut names = Vec::new(alloc);
    let mut rest = bytes;
    for _ in 0..count {
        let (name, after) = name_at(rest)?;
        names.push(name)?;
        rest = after;
    }
    Ok((names, rest))
}

/// Names of logs after their number.
#[tactic(auto, unfolding(crate::specs::Reading::names_at))]
pub fn names_at<A: Allocator + Copy>(
    alloc: A,
    bytes: &[u8],
) -> Result<(LogNames<A>, &[u8]), ReadFault>
    ensures { Gives (λ x. (x.0, x.1.now)) result (names_at bytes.now) }
{
    let (count, rest) = u32_at(bytes)?;
    let (names, rest) = each_name_at(alloc, count, rest)?;
    Ok((LogNames::of(names), rest))
}
