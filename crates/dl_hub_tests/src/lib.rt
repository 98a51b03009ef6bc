//! Tests of the hub and of scripts, by their public calls. They load all layers; no other tests do.
#![tactic(auto)]

#[cfg(test)]
mod app;
#[cfg(test)]
mod hub;
#[cfg(test)]
mod sent;
#[cfg(test)]
mod sync_all;
