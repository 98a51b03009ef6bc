//! A disk as files of bytes, whose faults are counted by base.
#![tactic(auto)]

mod counts;
mod disk;
mod fault;
mod files;
mod folder;
mod fuse;
mod memory;
mod reason;
mod syncing;
mod syncs;

pub use disk::Disk;
pub use fault::{Fault, ListFault, OpenFault};
pub use files::copy_from;
pub use folder::FolderDisk;
pub use fuse::{Fuse, FuseDisk};
pub use memory::MemoryDisk;
pub use reason::{Cause, Reason};
pub use syncing::Syncing;
pub use syncs::Syncs;
