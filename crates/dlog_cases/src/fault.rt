// Why the program stops.
use std::io;
use thiserror::Error;

/// Why the program stops before all cases are run.
#[derive(Clone, Copy, Debug, Error)]
pub enum Stop {
    #[error("give DIR and no other word; --help says more")]
    Misused,
    #[error("{0}")]
    System(#[from] io::Error),
}
