// Why a stream is not served to its end.
ghost use Rattle.std.specs.Prelude.{◌≡◌};
ghost use Rattle.dl_wire.specs.declared.fault.EncodeFault.TheVariants as encode;
ghost use Rattle.dl_wire.specs.declared.fault.EncodeFault.{EncodeFault};
ghost use Rattle.dl_serve.specs.declared.fault.ServeFault.TheVariants.{OutOfMemory};

use dl_wire::EncodeFault;
use std::alloc::{AllocError, AllocFailed};
use thiserror::Error;

/// Why a stream was not served to its end.
#[derive(Clone, Copy, Debug, PartialEq, Eq, Error)]
pub enum ServeFault {
    /// The requests could not be read on.
    #[error("read")]
    Read,
    /// An answer could not be written.
    #[error("write")]
    Write,
    /// An answer has more bytes than a frame can say.
    #[error("answer too long")]
    TooLong,
    #[error("out of memory")]
    OutOfMemory,
}

impl From<AllocError> for ServeFault {
    ghost from_gives = { λ _ e. e ≡ OutOfMemory };

    fn from(_refused: AllocError) -> ServeFault {
        ServeFault::OutOfMemory
    }
}

impl<T: Drop> From<AllocFailed<T>> for ServeFault {
    ghost from_gives = { λ _ e. e ≡ OutOfMemory };

    fn from(_refused: AllocFailed<T>) -> ServeFault {
        ServeFault::OutOfMemory
    }
}

impl From<EncodeFault> for ServeFault {
    fn from(fault: EncodeFault) -> ServeFault {
        match fault {
            EncodeFault::TooLong => ServeFault::TooLong,
            EncodeFault::OutOfMemory => ServeFault::OutOfMemory,
        }
    }
}
