// Items as a script writes them.
ghost use Rattle.std.specs.Prelude.{◌≡◌, ◌<◌, ◌≤◌, List, ℕ, length, map, Err, IfOk, IfErr, IfSome, IfNone};
ghost use Rattle.std.specs.List.{list_all, list_any};
ghost use Rattle.dl_types.specs.declared.refusal.Argument.TheVariants as argument;
ghost use Rattle.dl_types.specs.declared.refusal.Refusal.TheVariants as refusal;
ghost use Rattle.dl_app.specs.Words.{words_left};
ghost use Rattle.dl_app.specs.Items.{is_item, is_item_byte, item_bytes, is_too_long, refusal_of, IsReadAs, head_bytes, head_refusal};

use crate::words::{Words, number};
use dl_types::{Argument, Fail, ITEM_LIMIT, Item, Items, Refusal};
use std::alloc::Allocator;

// The bytes of items, each at its own place among stars.
static ITEM_BYTES: [u8; 256] = *b"\
    *********************************************-.*0123456789******\
    *ABCDEFGHIJKLMNOPQRSTUVWXYZ****_*abcdefghijklmnopqrstuvwxyz*****\
    ****************************************************************\
    ****************************************************************";

// What a word of an item says.
#[derive(Clone, Copy)]
enum Written<'a> {
    // The bytes of the word.
    Plain(&'a [u8]),
    // A number of copies of one byte.
    Copies { count: u64, of: u8 },
}

// The copies that a word such as `10*a` asks for, or else its own bytes.
fn read_word(word: &[u8]) -> Written<'_>
    ensures { IsReadAs word.now result }
{
    let Some(star) = word.len().checked_sub(2) else {
        return Written::Plain(word);
    };
    let of = word[word.len() - 1];
    if word[star] != b'*' || !of.is_ascii_graphic() {
        return Written::Plain(word);
    }
    match number(&word[..star]) {
        Some(count) => Written::Copies { count, of },
        None => Written::Plain(word),
    }
}

// Whether a byte may be in a word that is an item's own bytes.
fn is_item_byte(byte: u8) -> bool
    ensures { result ≡ is_item_byte byte }
{
    ITEM_BYTES[byte as usize] != b'*'
}

// Whether all these bytes may be in such a word.
fn are_item_bytes(bytes: &[u8]) -> bool
    ensures { result ≡ list_all is_item_byte bytes.now }
{
    bytes.iter().all(|byte| is_item_byte(*byte))
}

/// Whether a word writes an item.
pub fn is_item(word: &[u8]) -> bool
    ensures { result ≡ is_item word.now }
{
    match read_word(word) {
        Written::Plain(bytes) => !bytes.is_empty() && are_item_bytes(bytes),
        Written::Copies { .. } => true,
    }
}

// The length of the item that is written so.
fn item_length(written: Written<'_>) -> u64
    ensures { (word : List ℕ) → IsReadAs word written.entry → result ≡ length (item_bytes word) }
{
    match written {
        Written::Plain(bytes) => bytes.len() as u64,
        Written::Copies { count, .. } => count,
    }
}

/// Makes the item that a word writes. An item that is too long is refused before memory is allocated.
pub fn item_of<A: Allocator>(alloc: A, word: &[u8]) -> Result<Item<A>, Fail>
    ensures same { IfOk result (λ item. item ≡ item_bytes word.now) }
    ensures refused { ITEM_LIMIT < length (item_bytes word.now) → result ≡ Err (Fail.Refused (refusal.BadArg argument.Item)) }
    ensures memory { length (item_bytes word.now) ≤ ITEM_LIMIT → IfErr result (λ fail. fail ≡ Fail.OutOfMemory) }
{
    let written = read_word(word);
    if item_length(written) > ITEM_LIMIT as u64 {
        return Err(Fail::Refused(Refusal::BadArg(Argument::Item)));
    }
    let bytes = match written {
        Written::Plain(bytes) => Vec::from_slice(alloc, bytes),
        Written::Copies { count, of } => vec![in alloc; of; count as usize],
    };
    match bytes {
        Ok(bytes) => Item::of(bytes).map_err(Fail::Refused),
        Err(_) => Err(Fail::OutOfMemory),
    }
}

/// Makes the item of a word, if there is one.
pub fn head_of<A: Allocator>(alloc: A, head: Option<&[u8]>) -> Result<Option<Item<A>>, Fail>
    ensures same { IfOk result (λ item. item ≡ head_bytes head.entry) }
    ensures refused { IfSome (head_refusal head.entry) (λ refusal. result ≡ Err (Fail.Refused refusal)) }
    ensures memory { IfNone (head_refusal head.entry) (IfErr result (λ fail. fail ≡ Fail.OutOfMemory)) }
{
    match head {
        None => Ok(None),
        Some(word) => Ok(Some(item_of(alloc, word)?)),
    }
}

// Whether the item of a word is longer than any may be.
fn is_too_long(word: &[u8]) -> bool
    ensures { result ≡ is_too_long word.now }
{
    item_length(read_word(word)) > ITEM_LIMIT as u64
}

// Whether some word is too long.
fn is_any_too_long(words: Words<'_>) -> bool
    ensures { result ≡ list_any is_too_long (words_left words.entry) }
{
    for word in words {
        if is_too_long(word) {
            return true;
        }
    }
    false
}

// Why the items of some words are not made: one is too long, or else memory is refused.
fn failure_of(words: Words<'_>) -> Fail
    requires some { 0 < length (words_left words) }
    ensures refused { IfSome (refusal_of (words_left words.entry)) (λ refusal. result ≡ Fail.Refused refusal) }
    ensures memory { IfNone (refusal_of (words_left words.entry)) (result ≡ Fail.OutOfMemory) }
{
    if is_any_too_long(words) {
        return Fail::Refused(Refusal::BadArg(Argument::Item));
    }
    Fail::OutOfMemory
}

/// Makes the items of one call. If one of them is refused, the others are dropped.
pub fn items_of<A: Allocator + Copy>(alloc: A, words: Words<'_>) -> Result<Items<A>, Fail>
    ensures same { IfOk result (λ items. items ≡ map item_bytes (words_left words.entry)) }
    ensures refused { IfSome (refusal_of (words_left words.entry)) (λ refusal. result ≡ Err (Fail.Refused refusal)) }
    ensures memory { IfNone (refusal_of (words_left words.entry)) (IfErr result (λ fail. fail ≡ Fail.OutOfMemory)) }
{
    let mut items = Vec::new(alloc);
    for word in words {
        let Ok(item) = item_of(alloc, word) else {
            return Err(failure_of(words));
        };
        let Ok(()) = items.push(item) else {
            return Err(failure_of(words));
        };
    }
    Items::of(items).map_err(Fail::Refused)
}
