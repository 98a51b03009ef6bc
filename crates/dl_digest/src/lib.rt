//! Digests of the items of a log. A digest that was taken before shows a byte that changed since.
#![tactic(auto)]

mod absent;
mod compare;
mod digest;
mod files;
mod law;
mod line;
mod list;
mod log;
mod parse;
mod reading;
mod write;

pub use compare::{Compared, Verdict, compare_log};
pub use digest::{Hashing, ItemsDigest};
pub use files::{FileDigest, FileDigests};
pub use law::{digest_is_of_a_dump, files_have_all_items};
pub use line::{DigestLine, Extent, push_line};
pub use list::{ListFault, read_lines};
pub use log::{DigestArgs, LogDigests, digest_log};
pub use write::write_digests;
