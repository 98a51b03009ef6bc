// Lines of text as digests.
ghost use Rattle.std.specs.Prelude.{◌≡◌, ◌≢◌, ◌↔◌, ◌<◌, ◌^◌, ◌++◌, ◌∷◌, ℕ, List, All, Some, IfSome, IsTrue, MatchOption, decimal, length};
ghost use Rattle.hex.specs.Hex.{encode_lower, IsBytes};
ghost use Rattle.dl_digest.specs.Line.{digest_text, extent_text, line_text, IsDigest, IsExtent, IsLine};

use crate::digest::ItemsDigest;
use crate::line::{DigestLine, Extent, digits_of};
use dl_types::Name;
use hex::decode_to_slice;
use itoa::Buffer;

impl DigestLine {
    /// Parses a line without its line feed, or returns `None` for a text of any other form.
    pub fn parse(text: &str) -> Option<DigestLine>
        ensures written { IfSome result (λ line. line_text line ≡ text.now) }
        ensures read { (line : DigestLine) → IsLine line → line_text line ≡ text.now → result ≡ Some line }
    {
        let (name, rest) = split_word(text)?;
        let (extent, digest) = split_word(rest)?;
        Some(DigestLine {
            log: Name::parse(name.as_bytes())?,
            extent: extent_in(extent)?,
            digest: digest_in(digest)?,
        })
    }
}

// The texts before and after the first space.
fn split_word(text: &str) -> Option<(&str, &str)>
    ensures parts { IfSome result (λ parts. text.now ≡ parts.0.now ++ 32 ∷ parts.1.now) }
    ensures first { (word rest : List ℕ) → All (λ b. b ≢ 32) word → text.now ≡ word ++ 32 ∷ rest → MatchOption result ⊥ (λ parts. (parts.0.now ≡ word) × (parts.1.now ≡ rest)) }
{
    text.split_once(' ')
}

// The digest that a text is the line's end of.
fn digest_in(text: &str) -> Option<ItemsDigest>
    ensures written { IfSome result (λ digest. digest_text digest ≡ text.now) }
    ensures read { (digest : ItemsDigest) → IsDigest digest → digest_text digest ≡ text.now → result ≡ Some digest }
{
    let (items, hash) = split_word(text)?;
    Some(ItemsDigest {
        items: number_in(items)?,
        hash: hash_in(hash)?,
    })
}

// What a word says that a digest is of.
fn extent_in(word: &str) -> Option<Extent>
    ensures written { IfSome result (λ extent. extent_text extent ≡ word.now) }
    ensures read { (extent : Extent) → IsExtent extent → extent_text extent ≡ word.now → result ≡ Some extent }
{
    if word == "all" {
        Some(Extent::All)
    } else {
        Some(Extent::File(number_in(word)?))
    }
}

// The number that a word is the decimal digits of.
fn number_in(word: &str) -> Option<u64>
    ensures written { IfSome result (λ n. decimal n ≡ word.now) }
    ensures read { (n : ℕ) → n < 2 ^ 64 → decimal n ≡ word.now → result ≡ Some n }
{
    let number = word.parse::<u64>().ok()?;
    if is_written(number, word) {
        Some(number)
    } else {
        None
    }
}

// Whether a word is what is written of a number.
fn is_written(number: u64, word: &str) -> bool
    ensures { IsTrue result ↔ (decimal number ≡ word.now) }
{
    let mut buffer = Buffer::new();
    buffer.format(number).as_bytes() == word.as_bytes()
}

// The hash that a word is the digits of.
fn hash_in(word: &str) -> Option<[u8; 32]>
    ensures written { IfSome result (λ hash. encode_lower hash ≡ word.now) }
    ensures read { (hash : List ℕ) → IsBytes hash → length hash ≡ 32 → encode_lower hash ≡ word.now → result ≡ Some hash }
{
    let mut hash = [0; 32];
    decode_to_slice(word, &mut hash).ok()?;
    if digits_of(hash).as_slice() == word.as_bytes() {
        Some(hash)
    } else {
        None
    }
}
