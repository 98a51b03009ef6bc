// Words of a line, and numbers.
ghost use Rattle.std.specs.Prelude.{◌≡◌, ◌==◌, ◌<◌, ◌∷◌, ◌++◌, false, IfSome, IfNone, is_some, length, position, codes};
ghost use Rattle.std.specs.Iterator.{YieldsFirstBy, item_count};
ghost use Rattle.std.specs.List.{list_any};
ghost use Rattle.dl_types.specs.declared.size.Size.{Size};
ghost use Rattle.dl_app.specs.Words.{words_of, words_in, words_left, number_in, client_of, whole_in, step_of, small_of, WritesSize};

use dl_types::{ClientId, Size};
use memchr::memchr;

/// The words of a text, separated by one space each. Two spaces in a row have the empty word between them.
#[derive(Clone, Copy)]
pub struct Words<'a> {
    rest: Option<&'a [u8]>,
}

impl<'a> Words<'a> {
    /// The words of this text.
    pub fn of(text: &'a [u8]) -> Words<'a>
        ensures { words_left result ≡ words_of text.now }
    {
        Words { rest: Some(text) }
    }

    /// Whether every word was read.
    pub fn is_empty(&self) -> bool
        ensures { result ≡ (length (words_left self.now) == 0) }
    {
        self.rest.is_none()
    }
}

impl<'a> Iterator for Words<'a> {
    type Item = &'a [u8];

    ghost next_gives = { YieldsFirstBy (λ word. word.now) words_left };

    ghost remaining = { item_count words_left };

    fn next(&mut self) -> Option<&'a [u8]> {
        let (word, rest) = split_word(self.rest?);
        self.rest = rest;
        Some(word)
    }
}

// The position of the first space.
fn first_space(text: &[u8]) -> Option<usize>
    ensures value { result ≡ position (λ b. b == 32) text.now }
    ensures within { IfSome result (λ end. end < length text.now) }
{
    memchr(b' ', text)
}

// The first word, and the text after its space if it has one.
#[tactic(auto, using(crate::proofs::Spaces::no_space))]
fn split_word(text: &[u8]) -> (&[u8], Option<&[u8]>)
    ensures { words_of text.now ≡ result.0.now ∷ words_in result.1 }
{
    match first_space(text) {
        Some(end) => (&text[..end], Some(&text[end + 1..])),
        None => (text, None),
    }
}

/// Reads a number of one digit or more.
pub fn number(word: &[u8]) -> Option<u64>
    ensures { result ≡ number_in word.now }
{
    if word.is_empty() {
        return None;
    }
    let mut number = 0u64;
    for byte in word {
        if !byte.is_ascii_digit() {
            return None;
        }
        let digit = u64::from(*byte - b'0');
        number = number.checked_mul(10)?.checked_add(digit)?;
    }
    Some(number)
}

/// Reads the number of a client.
pub fn client(word: &[u8]) -> Option<ClientId>
    ensures { result ≡ client_of (number_in word.now) }
{
    let number = number(word)?;
    if number > u64::from(u32::MAX) {
        return None;
    }
    Some(ClientId(number as u32))
}

/// Reads the number of files that a step leads on. Files further back have a minus sign.
pub fn step(word: &[u8]) -> Option<i32>
    ensures { result ≡ step_of (whole_in word.now) }
{
    match word.strip_prefix(b"-") {
        None => i32::try_from(number(word)?).ok(),
        Some(digits) => {
            let back = i64::try_from(number(digits)?).ok()?;
            i32::try_from(-back).ok()
        }
    }
}

// The texts before and after the first `x`.
fn split_size(word: &[u8]) -> Option<(&[u8], &[u8])>
    ensures parts { IfSome result (λ parts. (word.now ≡ parts.0.now ++ (codes "x" ++ parts.1.now)) × (list_any (λ b. b == 120) parts.0.now ≡ false)) }
    ensures none { IfNone result (list_any (λ b. b == 120) word.now ≡ false) }
{
    let end = memchr(b'x', word)?;
    Some((&word[..end], &word[end + 1..]))
}

/// Reads the size of a log.
pub fn size(word: &[u8]) -> Option<Size>
    ensures form { IfSome result (λ size. WritesSize word.now size) }
    ensures none { IfNone result ((size : Size) → WritesSize word.now size → ⊥) }
{
    if word == b"inf".as_slice() {
        return Some(Size::Infinity);
    }
    let Some((bytes, files)) = split_size(word) else {
        return Some(Size::Limit(number(word)?));
    };
    Some(Size::Wrap {
        bytes: number(bytes)?,
        files: small_number(files)?,
    })
}

/// Reads a number that fits 32 bits.
pub fn small_number(word: &[u8]) -> Option<u32>
    ensures { result ≡ small_of (number_in word.now) }
{
    u32::try_from(number(word)?).ok()
}
