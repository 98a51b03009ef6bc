//! Tests of the server, by its public calls and with threads. They load all layers that a server needs. They are a
//! crate of their own since a crate with tests is proved twice.
#![tactic(auto)]

#[cfg(test)]
mod rig;
#[cfg(test)]
mod sent;
#[cfg(test)]
mod suspended;
