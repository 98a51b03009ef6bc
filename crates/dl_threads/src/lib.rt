//! A script of calls on logs, in which each client is a thread of its own.
#![tactic(auto)]

mod client;
mod lines;
mod part;
mod parts;
mod script;
mod threads;

pub use script::threads_script;
