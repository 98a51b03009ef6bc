// The words of a call after the name of its log.
ghost use Rattle.std.specs.Prelude.{◌≡◌, ◌≢◌, ℕ, ℤ, Bool, true, List, Option, IfSome, IfNone, codes};
ghost use Rattle.std.specs.Borrow.{Bor};
ghost use Rattle.std.specs.List.{list_all};
ghost use Rattle.dl_types.specs.declared.size.Size.{Size};
ghost use Rattle.dl_types.specs.declared.name.Base.{Base};
ghost use Rattle.dl_types.specs.declared.size.Kind.{Kind};
ghost use Rattle.dl_types.specs.Printed.{kind_word};
ghost use Rattle.dl_app.specs.declared.options.Settings.{Settings};
ghost use Rattle.dl_app.specs.declared.command.Request.{Request};
ghost use Rattle.dl_app.specs.declared.command.Start.{Start};
ghost use Rattle.dl_app.specs.Items.{is_item};
ghost use Rattle.dl_app.specs.Words.{words_left};
ghost use Rattle.dl_app.specs.Command.{GivesRequest, GivesArgs, GivesChunk, GivesStep, GivesHead, GivesMove, GivesSize, GivesBlock, request_word, takes_words, start_word, block_word};

use crate::command::{Request, Start};
use crate::items::is_item;
use crate::options::settings_in;
use crate::words::{Words, number, size, step};
use dl_types::{Base, Kind};

/// Parses the words after the name of a log as those of a call of this verb, or returns `None` for any others.
pub fn verb_of<'a>(verb: &[u8], words: Words<'a>) -> Option<Request<'a>>
    ensures form { IfSome result (λ request. (verb.now ≡ request_word request) × GivesRequest (words_left words.entry) request) }
    ensures none { IfNone result ((request : Request) → verb.now ≡ request_word request → GivesRequest (words_left words.entry) request → ⊥) }
{
    if verb == b"log".as_slice() {
        return are_items(words).then_some(Request::Log(words));
    }
    other_of(verb, words)
}

// The call of any verb but `log`, the most frequent one.
#[inline(never)]
fn other_of<'a>(verb: &[u8], words: Words<'a>) -> Option<Request<'a>>
    requires { verb.now ≢ codes "log" }
    ensures form { IfSome result (λ request. (verb.now ≡ request_word request) × GivesRequest (words_left words.entry) request) }
    ensures none { IfNone result ((request : Request) → verb.now ≡ request_word request → GivesRequest (words_left words.entry) request → ⊥) }
{
    if verb == b"open".as_slice() {
        open_of(words)
    } else if verb == b"alog".as_slice() {
        are_items(words).then_some(Request::Alog(words))
    } else if verb == b"chunk".as_slice() {
        chunk_of(words)
    } else if verb == b"step".as_slice() {
        step_of(words)
    } else if verb == b"truncate".as_slice() {
        truncate_of(words)
    } else if verb == b"reopen".as_slice() {
        reopen_of(words)
    } else if verb == b"size".as_slice() {
        size_of(words)
    } else if verb == b"block".as_slice() {
        block_of(words)
    } else {
        bare_of(verb, words)
    }
}

// The call of a verb that takes no words.
fn bare_of<'a>(verb: &[u8], words: Words<'a>) -> Option<Request<'a>>
    ensures form { IfSome result (λ request. (verb.now ≡ request_word request) × GivesRequest (words_left words.entry) request) }
    ensures none { IfNone result ((request : Request) → verb.now ≡ request_word request → GivesRequest (words_left words.entry) request → takes_words request ≡ true) }
{
    if verb == b"nextfile".as_slice() {
        words.is_empty().then_some(Request::NextFile)
    } else if verb == b"sync".as_slice() {
        words.is_empty().then_some(Request::Sync)
    } else if verb == b"unblock".as_slice() {
        words.is_empty().then_some(Request::Unblock)
    } else if verb == b"info".as_slice() {
        words.is_empty().then_some(Request::Info)
    } else if verb == b"close".as_slice() {
        words.is_empty().then_some(Request::Close)
    } else {
        None
    }
}

// The kind, and then the options.
fn open_of(mut words: Words<'_>) -> Option<Request<'_>>
    ensures form { IfSome result (λ request. (request_word request ≡ codes "open") × GivesRequest (words_left words.entry) request) }
    ensures none { IfNone result ((kind : Kind) (settings : Settings) → GivesArgs (words_left words.entry) kind settings → ⊥) }
{
    let kind = kind_of(words.next()?)?;
    let settings = settings_in(words)?;
    Some(Request::Open { kind, settings })
}

// The kind of log that a word names.
fn kind_of(word: &[u8]) -> Option<Kind>
    ensures form { IfSome result (λ kind. word.now ≡ kind_word kind) }
    ensures none { IfNone result ((kind : Kind) → word.now ≡ kind_word kind → ⊥) }
{
    if word == b"halt".as_slice() {
        Some(Kind::Halt)
    } else if word == b"wrap".as_slice() {
        Some(Kind::Wrap)
    } else {
        None
    }
}

// Whether each word writes an item.
fn are_items(words: Words<'_>) -> bool
    ensures { result ≡ list_all is_item (words_left words.entry) }
{
    for word in words {
        if !is_item(word) {
            return false;
        }
    }
    true
}

// The place at which a chunk is to begin, and how many items it may have.
fn chunk_of(mut words: Words<'_>) -> Option<Request<'_>>
    ensures form { IfSome result (λ request. (request_word request ≡ codes "chunk") × GivesRequest (words_left words.entry) request) }
    ensures none { IfNone result ((from : Start) (most : ℕ) → GivesChunk (words_left words.entry) from most → ⊥) }
{
    let from = start_of(words.next()?)?;
    let most = number(words.next()?)?;
    words.is_empty().then_some(Request::Chunk { from, most })
}

// The place at which a step is to begin, and how many files on it leads.
fn step_of(mut words: Words<'_>) -> Option<Request<'_>>
    ensures form { IfSome result (λ request. (request_word request ≡ codes "step") × GivesRequest (words_left words.entry) request) }
    ensures none { IfNone result ((from : Start) (by : ℤ) → GivesStep (words_left words.entry) from by → ⊥) }
{
    let from = start_of(words.next()?)?;
    let by = step(words.next()?)?;
    words.is_empty().then_some(Request::ChunkStep { from, by })
}

// The beginning that a word asks for.
fn start_of(word: &[u8]) -> Option<Start>
    ensures form { IfSome result (λ from. word.now ≡ start_word from) }
    ensures none { IfNone result ((from : Start) → word.now ≡ start_word from → ⊥) }
{
    if word == b"start".as_slice() {
        Some(Start::First)
    } else if word == b"next".as_slice() {
        Some(Start::Next)
    } else {
        None
    }
}

// The item that a log is to begin with after it is emptied, if there is one.
fn truncate_of(words: Words<'_>) -> Option<Request<'_>>
    ensures form { IfSome result (λ request. (request_word request ≡ codes "truncate") × GivesRequest (words_left words.entry) request) }
    ensures none { IfNone result ((head : Option (Bor (List ℕ))) → GivesHead (words_left words.entry) head → ⊥) }
{
    let head = head_in(words)?;
    Some(Request::Truncate { head })
}

// The base that a log's files are to have, and the first item of its next file, if there is one.
fn reopen_of(mut words: Words<'_>) -> Option<Request<'_>>
    ensures form { IfSome result (λ request. (request_word request ≡ codes "reopen") × GivesRequest (words_left words.entry) request) }
    ensures none { IfNone result ((target : Base) (head : Option (Bor (List ℕ))) → GivesMove (words_left words.entry) target head → ⊥) }
{
    let target = Base::parse(words.next()?)?;
    let head = head_in(words)?;
    Some(Request::Reopen { target, head })
}

// The word of an item, if there is one, and no other.
fn head_in<'a>(mut words: Words<'a>) -> Option<Option<&'a [u8]>>
    ensures form { IfSome result (λ head. GivesHead (words_left words.entry) head) }
    ensures none { IfNone result ((head : Option (Bor (List ℕ))) → GivesHead (words_left words.entry) head → ⊥) }
{
    let Some(word) = words.next() else {
        return Some(None);
    };
    if !is_item(word) || !words.is_empty() {
        return None;
    }
    Some(Some(word))
}

// The size that a log is to have.
fn size_of(mut words: Words<'_>) -> Option<Request<'_>>
    ensures form { IfSome result (λ request. (request_word request ≡ codes "size") × GivesRequest (words_left words.entry) request) }
    ensures none { IfNone result ((size : Size) → GivesSize (words_left words.entry) size → ⊥) }
{
    let size = size(words.next()?)?;
    words.is_empty().then_some(Request::ChangeSize(size))
}

// What is to become of the calls that the block stops.
fn block_of(mut words: Words<'_>) -> Option<Request<'_>>
    ensures form { IfSome result (λ request. (request_word request ≡ codes "block") × GivesRequest (words_left words.entry) request) }
    ensures none { IfNone result ((queue : Bool) → GivesBlock (words_left words.entry) queue → ⊥) }
{
    let queue = queue_of(words.next()?)?;
    words.is_empty().then_some(Request::Block { queue })
}

// Whether a word has calls suspended (`true`) or refused.
fn queue_of(word: &[u8]) -> Option<bool>
    ensures form { IfSome result (λ queue. word.now ≡ block_word queue) }
    ensures none { IfNone result ((queue : Bool) → word.now ≡ block_word queue → ⊥) }
{
    if word == b"queue".as_slice() {
        Some(true)
    } else if word == b"refuse".as_slice() {
        Some(false)
    } else {
        None
    }
}
