//! A hub for a program in any language: frames of requests are read from a stream, and answers are written to another.
#![tactic(auto)]

mod asked;
mod event;
mod fault;
mod frames;
mod held;
mod leave;
mod left;
mod queries;
mod session;
mod stream;
mod sync_all;
mod syncs;
mod texts;
mod waiting;

pub use fault::ServeFault;
pub use left::Left;
pub use stream::{Ended, Served, serve};
