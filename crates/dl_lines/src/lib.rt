//! What is read off a reader: lines of a bounded length, and a number of bytes. And bytes as hexadecimal digits.
#![tactic(auto)]

mod bytes;
mod digits;
mod fault;
mod lines;

pub use bytes::fill;
pub use digits::{hex, push_hex};
pub use fault::LineFault;
pub use lines::{NextLine, next_line};
