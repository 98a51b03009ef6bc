//! Whether the clients of a server kept what its hub's history has of them.
//!
//! [`settle`] is called after all clients have left. If it succeeds, every reply that a client got is that of one event
//! in one history, in the client's own order, and no event of a client is missing.
#![tactic(auto)]

mod events;
mod kept;
mod replies;
mod settlement;

pub use settlement::{SettleFault, Settled, settle};
