// Digests as lines of text.
ghost use Rattle.std.specs.Prelude.{◌≡◌, ◌++◌, ◌∷◌, [], OnOk, decimal};
ghost use Rattle.hex.specs.Hex.{encode_lower};
ghost use Rattle.dl_digest.specs.Line.{digest_text, extent_text, line_text};

use crate::digest::ItemsDigest;
use dl_types::Name;
use hex::encode_to_slice;
use std::alloc::{AllocError, Allocator};
use std::io::Write;

/// What a digest is of.
#[derive(Clone, Copy, Debug, PartialEq, Eq)]
pub enum Extent {
    /// The items of the file of this generation.
    File(u64),
    /// All items of a log.
    All,
}

/// A digest as a line of text: the name of the log, the generation or `all`, the number of items, and the hash in
/// hexadecimal digits, with a space between them.
#[derive(Clone, Copy, Debug, PartialEq, Eq)]
pub struct DigestLine {
    pub log: Name,
    pub extent: Extent,
    pub digest: ItemsDigest,
}

/// Adds a line, and its line feed.
pub fn push_line<A: Allocator>(text: &mut Vec<u8, A>, line: DigestLine) -> Result<(), AllocError>
    ensures { OnOk result (text.new.items ≡ text.old.items ++ (line_text line ++ 10 ∷ [])) }
{
    let DigestLine {
        log,
        extent,
        digest,
    } = line;
    text.extend_from_slice(log.as_bytes())?;
    push_extent(text, extent)?;
    push_digest(text, digest)?;
    text.extend_from_slice(b"\n")
}

// Adds what a digest is of, between two spaces.
fn push_extent<A: Allocator>(text: &mut Vec<u8, A>, extent: Extent) -> Result<(), AllocError>
    ensures { OnOk result (text.new.items ≡ text.old.items ++ (32 ∷ (extent_text extent ++ 32 ∷ []))) }
{
    match extent {
        Extent::File(generation) => write!(text, " {generation} ").map_err(|_| AllocError),
        Extent::All => text.extend_from_slice(b" all "),
    }
}

// Adds how many items there are, a space, and the digits of the hash.
fn push_digest<A: Allocator>(text: &mut Vec<u8, A>, digest: ItemsDigest) -> Result<(), AllocError>
    ensures { OnOk result (text.new.items ≡ text.old.items ++ digest_text digest) }
{
    let ItemsDigest { items, hash } = digest;
    push_count(text, items)?;
    text.extend_from_slice(&digits_of(hash))
}

// Adds a number, and a space.
fn push_count<A: Allocator>(text: &mut Vec<u8, A>, count: u64) -> Result<(), AllocError>
    ensures { OnOk result (text.new.items ≡ text.old.items ++ (decimal count ++ 32 ∷ [])) }
{
    write!(text, "{count} ").map_err(|_| AllocError)
}

/// The hexadecimal digits of a hash, in lower case.
pub fn digits_of(hash: [u8; 32]) -> [u8; 64]
    ensures { result ≡ encode_lower hash }
{
    let mut digits = [0; 64];
    let _ = encode_to_slice(&hash, &mut digits);
    digits
}
