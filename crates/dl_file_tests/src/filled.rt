// Items that tests add.
use dl_types::Item;
use std::alloc::Global;
use std::test::Fail;

/// An item of `count` copies of a byte.
#[derive(Clone, Copy)]
pub struct Filled {
    pub byte: u8,
    pub count: usize,
}

impl Filled {
    /// The item.
    pub fn item(self, alloc: Global) -> Result<Item, Fail> {
        match Item::of(Vec::from_elem(alloc, self.byte, self.count)?) {
            Err(_) => Err("too long".into()),
            Ok(item) => Ok(item),
        }
    }

    /// Whether an item is this one.
    pub fn is(self, item: &Item) -> bool {
        let bytes = item.as_bytes();
        bytes.len() == self.count && bytes.iter().all(|byte| *byte == self.byte)
    }
}

/// Whether these are the items, in order.
pub fn are(found: &[Item], items: &[Filled]) -> bool {
    found.len() == items.len()
        && found
            .iter()
            .zip(items)
            .all(|(item, filled)| filled.is(item))
}

/// A head item, if there is one.
pub fn made(alloc: Global, head: Option<Filled>) -> Result<Option<Item>, Fail> {
    match head {
        None => Ok(None),
        Some(item) => Ok(Some(item.item(alloc)?)),
    }
}
