//! Tests of the bytes, the cache, the index, the owners and the disks, by their public calls. They load no file of a
//! log. They are a crate of their own since a crate with tests is proved twice.
#![tactic(auto)]

#[cfg(test)]
mod cache;
#[cfg(test)]
mod disk;
#[cfg(test)]
mod frame;
#[cfg(test)]
mod index;
#[cfg(test)]
mod owners;
#[cfg(test)]
mod types;
