// The parts of a frame, each read from the front of some bytes.
ghost use Rattle.std.specs.Prelude.{◌≡◌, ℕ, List, length};
ghost use Rattle.std.specs.Int.{w16, w32, w64};
ghost use Rattle.dl_wire.specs.Reading.{Gives, number_at, i32_at, choice_at, short_at, name_at, base_at, item_at, many_at, list_at, option_at, size_at};

use crate::fault::ReadFault;
use dl_types::{Base, ITEM_LIMIT, Item, Items, Name, Size};
use std::alloc::Allocator;

/// A number of two bytes.
pub fn u16_at(bytes: &[u8]) -> Result<(u16, &[u8]), ReadFault>
    ensures { Gives (λ x. (x.0, x.1.now)) result (number_at w16 bytes.now) }
{
    if bytes.len() < 2 {
        return Err(ReadFault::Left(bytes.len()));
    }
    let (front, rest) = bytes.split_at(2);
    let number = u16::from_be_bytes([front[0], front[1]]);
    Ok((number, rest))
}

/// A number of four bytes.
pub fn u32_at(bytes: &[u8]) -> Result<(u32, &[u8]), ReadFault>
    ensures { Gives (λ x. (x.0, x.1.now)) result (number_at w32 bytes.now) }
{
    if bytes.len() < 4 {
        return Err(ReadFault::Left(bytes.len()));
    }
    let (front, rest) = bytes.split_at(4);
    let number = u32::from_be_bytes([front[0], front[1], front[2], front[3]]);
    Ok((number, rest))
}

/// A number of four bytes that may be missing.
#[tactic(auto, unfolding(crate::specs::Reading::option_at))]
pub fn some_u32_at(bytes: &[u8]) -> Result<(Option<u32>, &[u8]), ReadFault>
    ensures { Gives (λ x. (x.0, x.1.now)) result (option_at (number_at w32) bytes.now) }
{
    match bytes {
        [] => Err(ReadFault::Left(0)),
        [0, rest @ ..] => Ok((None, rest)),
        [1, rest @ ..] => {
            let (number, rest) = u32_at(rest)?;
            Ok((Some(number), rest))
        }
        [_, ..] => Err(ReadFault::Left(bytes.len())),
    }
}

/// A number of eight bytes.
pub fn u64_at(bytes: &[u8]) -> Result<(u64, &[u8]), ReadFault>
    ensures { Gives (λ x. (x.0, x.1.now)) result (number_at w64 bytes.now) }
{
    if bytes.len() < 8 {
        return Err(ReadFault::Left(bytes.len()));
    }
    let (front, rest) = bytes.split_at(8);
    let number = u64::from_be_bytes([
        front[0], front[1], front[2], front[3], front[4], front[5], front[6], front[7],
    ]);
    Ok((number, rest))
}

/// A signed number of four bytes.
#[tactic(auto, unfolding(crate::specs::Reading::i32_at))]
pub fn i32_at(bytes: &[u8]) -> Result<(i32, &[u8]), ReadFault>
    ensures { Gives (λ x. (x.0, x.1.now)) result (i32_at bytes.now) }
{
    let (number, rest) = u32_at(bytes)?;
    Ok((number.cast_signed(), rest))
}

/// One of some choices, by its place among them.
#[tactic(auto, unfolding(crate::specs::Reading::choice_at))]
pub fn choice_at<'a, T: Copy>(choices: &[T], bytes: &'a [u8]) -> Result<(T, &'a [u8]), ReadFault>
    ensures { Gives (λ x. (x.0, x.1.now)) result (choice_at choices.now bytes.now) }
{
    match bytes {
        [] => Err(ReadFault::Left(0)),
        [code, rest @ ..] => match choices.get(*code as usize) {
            Some(choice) => Ok((*choice, rest)),
            None => Err(ReadFault::Left(bytes.len())),
        },
    }
}

// A text after its length in one byte.
#[tactic(auto, unfolding(crate::specs::Reading::short_at))]
fn short_at(bytes: &[u8]) -> Result<(&[u8], &[u8]), ReadFault>
    ensures { Gives (λ x. (x.0.now, x.1.now)) result (short_at bytes.now) }
{
    match bytes {
        [] => Err(ReadFault::Left(0)),
        [length, rest @ ..] => {
            let length = *length as usize;
            if rest.len() < length {
                return Err(ReadFault::Left(bytes.len()));
            }
            Ok(rest.split_at(length))
        }
    }
}

/// The name of a log.
#[tactic(auto, unfolding(crate::specs::Reading::name_at))]
pub fn name_at(bytes: &[u8]) -> Result<(Name, &[u8]), ReadFault>
    ensures { Gives (λ x. (x.0, x.1.now)) result (name_at bytes.now) }
{
    let (text, rest) = short_at(bytes)?;
    match Name::parse(text) {
        Some(name) => Ok((name, rest)),
        None => Err(ReadFault::Left(bytes.len())),
    }
}

/// The base of files.
#[tactic(auto, unfolding(crate::specs::Reading::base_at))]
pub fn base_at(bytes: &[u8]) -> Result<(Base, &[u8]), ReadFault>
    ensures { Gives (λ x. (x.0, x.1.now)) result (base_at bytes.now) }
{
    let (text, rest) = short_at(bytes)?;
    match Base::parse(text) {
        Some(base) => Ok((base, rest)),
        None => Err(ReadFault::Left(bytes.len())),
    }
}

/// A base that may be missing.
#[tactic(auto, unfolding(crate::specs::Reading::option_at))]
pub fn some_base_at(bytes: &[u8]) -> Result<(Option<Base>, &[u8]), ReadFault>
    ensures { Gives (λ x. (x.0, x.1.now)) result (option_at base_at bytes.now) }
{
    match bytes {
        [] => Err(ReadFault::Left(0)),
        [0, rest @ ..] => Ok((None, rest)),
        [1, rest @ ..] => {
            let (base, rest) = base_at(rest)?;
            Ok((Some(base), rest))
        }
        [_, ..] => Err(ReadFault::Left(bytes.len())),
    }
}

/// An item.
#[tactic(auto, unfolding(crate::specs::Reading::item_at))]
pub fn item_at<A: Allocator + Copy>(alloc: A, bytes: &[u8]) -> Result<(Item<A>, &[u8]), ReadFault>
    ensures { Gives (λ x. (x.0, x.1.now)) result (item_at bytes.now) }
{
    let (length, rest) = u32_at(bytes)?;
    let length = length as usize;
    if length > ITEM_LIMIT {
        return Err(ReadFault::Left(bytes.len()));
    }
    if rest.len() < length {
        return Err(ReadFault::Left(bytes.len()));
    }
    let (item, rest) = rest.split_at(length);
    match Item::from_bytes(alloc, item) {
        Ok(item) => Ok((item, rest)),
        Err(_) => Err(ReadFault::OutOfMemory),
    }
}

/// An item that may be missing.
#[tactic(auto, unfolding(crate::specs::Reading::option_at))]
pub fn some_item_at<A: Allocator + Copy>(
    alloc: A,
    bytes: &[u8],
) -> Result<(Option<Item<A>>, &[u8]), ReadFault>
    ensures { Gives (λ x. (x.0, x.1.now)) result (option_at item_at bytes.now) }
{
    match bytes {
        [] => Err(ReadFault::Left(0)),
        [0, rest @ ..] => Ok((None, rest)),
        [1, rest @ ..] => {
            let (item, rest) = item_at(alloc, rest)?;
            Ok((Some(item), rest))
        }
        [_, ..] => Err(ReadFault::Left(bytes.len())),
    }
}

// This many items, one after another.
fn items_at<A: Allocator + Copy>(
    alloc: A,
    count: u32,
    bytes: &[u8],
) -> Result<(Vec<Item<A>, A>, &[u8]), ReadFault>
    ensures { Gives (λ x. (x.0.items, x.1.now)) result (many_at item_at count bytes.now) }
{
    let mut items = Vec::new(alloc);
    let mut rest = bytes;
    for _ in 0..count {
        let (item, after) = item_at(alloc, rest)?;
        items.push(item)?;
        rest = after;
    }
    Ok((items, rest))
}

/// The items of a call, of which there is at least one.
#[tactic(auto, unfolding(crate::specs::Reading::list_at))]
pub fn list_at<A: Allocator + Copy>(alloc: A, bytes: &[u8]) -> Result<(Items<A>, &[u8]), ReadFault>
    ensures { Gives (λ x. (x.0, x.1.now)) result (list_at bytes.now) }
{
    let (count, rest) = u32_at(bytes)?;
    let (items, rest) = items_at(alloc, count, rest)?;
    match Items::of(items) {
        Ok(items) => Ok((items, rest)),
        Err(_) => Err(ReadFault::Left(bytes.len())),
    }
}

/// A size.
#[tactic(auto, unfolding(crate::specs::Reading::size_at))]
pub fn size_at(bytes: &[u8]) -> Result<(Size, &[u8]), ReadFault>
    ensures { Gives (λ x. (x.0, x.1.now)) result (size_at bytes.now) }
{
    match bytes {
        [] => Err(ReadFault::Left(0)),
        [0, rest @ ..] => Ok((Size::Infinity, rest)),
        [1, rest @ ..] => {
            let (limit, rest) = u64_at(rest)?;
            Ok((Size::Limit(limit), rest))
        }
        [2, rest @ ..] => {
            let (bytes, rest) = u64_at(rest)?;
            let (files, rest) = u32_at(rest)?;
            Ok((Size::Wrap { bytes, files }, rest))
        }
        [_, ..] => Err(ReadFault::Left(bytes.len())),
    }
}

/// A size that may be missing.
#[tactic(auto, unfolding(crate::specs::Reading::option_at))]
pub fn some_size_at(bytes: &[u8]) -> Result<(Option<Size>, &[u8]), ReadFault>
    ensures { Gives (λ x. (x.0, x.1.now)) result (option_at size_at bytes.now) }
{
    match bytes {
        [] => Err(ReadFault::Left(0)),
        [0, rest @ ..] => Ok((None, rest)),
        [1, rest @ ..] => {
            let (size, rest) = size_at(rest)?;
            Ok((Some(size), rest))
        }
        [_, ..] => Err(ReadFault::Left(bytes.len())),
    }
}
