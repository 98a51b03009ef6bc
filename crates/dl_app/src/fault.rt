// Why a script ends before its text does.
ghost use Rattle.std.specs.Prelude.{◌≡◌};
ghost use Rattle.dl_app.specs.declared.fault.ScriptFault.TheVariants.{OutOfMemory};
ghost use Rattle.dl_app.specs.Lines.{unread};

use dl_lines::LineFault;
use std::alloc::{AllocError, AllocFailed};
use thiserror::Error;

/// Why a script was not run to its end.
#[derive(Clone, Copy, Debug, PartialEq, Eq, Error)]
pub enum ScriptFault {
    /// The line of this number, counted from 1, has no form of the language.
    #[error("bad line {0}")]
    BadLine(u64),
    /// The script could not be read on.
    #[error("read")]
    Read,
    /// An answer could not be written.
    #[error("write")]
    Write,
    #[error("out of memory")]
    OutOfMemory,
}

impl From<AllocError> for ScriptFault {
    ghost from_gives = { λ _ e. e ≡ OutOfMemory };

    fn from(_: AllocError) -> ScriptFault {
        ScriptFault::OutOfMemory
    }
}

impl<T: Drop> From<AllocFailed<T>> for ScriptFault {
    ghost from_gives = { λ _ e. e ≡ OutOfMemory };

    fn from(_: AllocFailed<T>) -> ScriptFault {
        ScriptFault::OutOfMemory
    }
}

impl From<LineFault> for ScriptFault {
    ghost from_gives = { λ fault e. e ≡ unread fault };

    fn from(fault: LineFault) -> ScriptFault {
        match fault {
            LineFault::Read => ScriptFault::Read,
            LineFault::OutOfMemory => ScriptFault::OutOfMemory,
        }
    }
}
