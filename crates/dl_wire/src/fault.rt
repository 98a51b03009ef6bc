// Why bytes are not read.
ghost use Rattle.std.specs.Prelude.{◌≡◌};
ghost use Rattle.dl_wire.specs.declared.fault.ReadFault.TheVariants.{OutOfMemory};
ghost use Rattle.dl_wire.specs.declared.fault.EncodeFault.TheVariants as encode;

use std::alloc::{AllocError, AllocFailed};
use thiserror::Error;

/// Why a text gives no request.
#[derive(Clone, Copy, Debug, PartialEq, Eq, Error)]
pub enum DecodeFault {
    /// The part that begins at this place, counted from 0, is none of a request, or bytes that follow the last part begin
    /// there.
    #[error("no request from byte {0} on")]
    At(usize),
    #[error("out of memory")]
    OutOfMemory,
}

/// Why a part is not read.
#[derive(Clone, Copy, PartialEq, Eq)]
pub enum ReadFault {
    /// The part that begins where this many bytes are left is wrong.
    Left(usize),
    OutOfMemory,
}

impl From<AllocError> for ReadFault {
    ghost from_gives = { λ _ e. e ≡ OutOfMemory };

    fn from(_refused: AllocError) -> ReadFault {
        ReadFault::OutOfMemory
    }
}

impl<T: Drop> From<AllocFailed<T>> for ReadFault {
    ghost from_gives = { λ _ e. e ≡ OutOfMemory };

    fn from(_refused: AllocFailed<T>) -> ReadFault {
        ReadFault::OutOfMemory
    }
}

/// Why a frame is not written.
#[derive(Clone, Copy, Debug, PartialEq, Eq, Error)]
pub enum EncodeFault {
    /// A number of its parts, or its length, does not fit four bytes.
    #[error("too long for a frame")]
    TooLong,
    #[error("out of memory")]
    OutOfMemory,
}

impl From<AllocError> for EncodeFault {
    ghost from_gives = { λ _ e. e ≡ encode.OutOfMemory };

    fn from(_refused: AllocError) -> EncodeFault {
        EncodeFault::OutOfMemory
    }
}

impl<T: Drop> From<AllocFailed<T>> for EncodeFault {
    ghost from_gives = { λ _ e. e ≡ encode.OutOfMemory };

    fn from(_refused: AllocFailed<T>) -> EncodeFault {
        EncodeFault::OutOfMemory
    }
}
