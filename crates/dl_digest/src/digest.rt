// The digest of a list of items.
ghost use Rattle.std.specs.Prelude.{◌≡◌, ◌≤◌, ◌^◌, ◌-◌, ◌++◌, ◌∷◌, [], ℕ, List, length, min};
ghost use Rattle.dl_types.specs.declared.limits.TheConstants.{ITEM_LIMIT};
ghost use Rattle.dl_digest.specs.Digest.{digest_of, Holds};

use dl_types::Item;
use sha2::{Digest, Sha256};
use std::alloc::Allocator;

/// The digest of a list of items: their number and their hash.
#[derive(Clone, Copy, Debug, PartialEq, Eq)]
pub struct ItemsDigest {
    /// How many items there are. The number stops at the greatest `u64`.
    pub items: u64,
    /// SHA-256 of the items one after another, each after its length in four bytes, greatest first.
    pub hash: [u8; 32],
}

/// A digest in progress, to which items are added one after another.
#[derive(Drop)]
pub struct Hashing {
    items: u64,
    hasher: Sha256,
}

impl Hashing {
    /// No items.
    pub fn new() -> Hashing
        ensures { Holds result [] }
    {
        Hashing {
            items: 0,
            hasher: Sha256::new(),
        }
    }

    /// Takes more items.
    pub fn add<A: Allocator>(&mut self, items: &[Item<A>])
        ensures { (taken : List (List ℕ)) → Holds self.old taken → Holds self.new (taken ++ items.now) }
    {
        for item in items {
            self.add_item(item.as_bytes());
        }
    }

    // Takes one item more.
    fn add_item(&mut self, bytes: &[u8])
        requires { length bytes.now ≤ ITEM_LIMIT }
        ensures { (taken : List (List ℕ)) → Holds self.old taken → Holds self.new (taken ++ bytes.now ∷ []) }
    {
        let length = bytes.len() as u32;
        self.hasher.update(length.to_be_bytes());
        self.hasher.update(bytes);
        self.items = self.items.saturating_add(1);
    }

    /// How many items were taken. The number stops at the greatest `u64`.
    pub fn count(&self) -> u64
        ensures { (taken : List (List ℕ)) → Holds self.now taken → result ≡ min (length taken) (2 ^ 64 - 1) }
    {
        self.items
    }

    /// The digest of the items that were taken.
    pub fn finish(self) -> ItemsDigest
        ensures { (taken : List (List ℕ)) → Holds self taken → result ≡ digest_of taken }
    {
        ItemsDigest {
            items: self.items,
            hash: self.hasher.finalize(),
        }
    }
}
