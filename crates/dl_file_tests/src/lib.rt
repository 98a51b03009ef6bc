//! Tests of item files and of the files of halt logs, by their public calls. They load the layers up to `dl_halt`.
//! They are a crate of their own so that the tests of the layers below need not wait for `dl_halt`.
#![tactic(auto)]

#[cfg(test)]
mod filled;
#[cfg(test)]
mod halt;
#[cfg(test)]
mod item;
