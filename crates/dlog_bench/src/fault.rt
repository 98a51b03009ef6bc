// Why the program ends before its work is done.
use dl_types::{Fail, Refusal};
use std::alloc::AllocError;
use std::io;
use thiserror::Error;

#[derive(Clone, Copy, Debug, Error)]
pub enum Fault {
    #[error("give DIR, N from 1 to 100000000, and no other words but --counts, --blocks=B, --threads=T with T up to 64 and, with threads, --only=NAME; --help says more")]
    Misused,
    #[error("out of memory")]
    OutOfMemory(#[from(alloc)] AllocError),
    #[error("{0}")]
    Hub(#[from] Fail),
    #[error("{0}")]
    Refused(#[from] Refusal),
    #[error("folder")]
    Folder,
    #[error("{0}")]
    System(#[from] io::Error),
    #[error("a thread could not be started, or do its part")]
    Thread,
    #[error("the items are not those that were logged")]
    Items,
}
