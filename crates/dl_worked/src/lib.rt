//! Worked scripts of one log: its calls line for line, and the answers, which the definitions of `dl_types` give by
//! computation. They load `dl_types` alone. They are a crate of their own since no crate calls them, so no crate that
//! needs `dl_types` has to wait for them.
#![tactic(auto)]

pub mod halt;
pub mod texts;
pub mod wrap;
