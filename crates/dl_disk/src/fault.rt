// Why a call of a disk failed.
use std::alloc::AllocError;
use std::fs::TryLockError;
use std::io;
use thiserror::Error;

/// A call of the device failed, or no device can do it, such as a write to a missing file.
#[derive(Clone, Copy, Debug, PartialEq, Eq, Error)]
#[error("device fault")]
pub struct Fault;

/// Why the names of the files were not listed.
#[derive(Clone, Copy, Debug, PartialEq, Eq, Error)]
pub enum ListFault {
    #[error("device fault")]
    Device,
    #[error("out of memory")]
    OutOfMemory,
}

impl From<io::Error> for ListFault {
    fn from(error: io::Error) -> ListFault {
        match error.kind() {
            io::ErrorKind::OutOfMemory => ListFault::OutOfMemory,
            _ => ListFault::Device,
        }
    }
}

/// Why a folder was not opened as a disk.
#[derive(Clone, Copy, Debug, PartialEq, Eq, Error)]
pub enum OpenFault {
    /// Another disk over the folder is open, in this program or another.
    #[error("in use")]
    InUse,
    #[error("device fault")]
    Device,
    #[error("out of memory")]
    OutOfMemory,
}

impl From<io::Error> for OpenFault {
    fn from(error: io::Error) -> OpenFault {
        OpenFault::from(ListFault::from(error))
    }
}

impl From<TryLockError> for OpenFault {
    fn from(error: TryLockError) -> OpenFault {
        match error {
            TryLockError::WouldBlock => OpenFault::InUse,
            TryLockError::Error(error) => OpenFault::from(error),
        }
    }
}

impl From<ListFault> for OpenFault {
    fn from(fault: ListFault) -> OpenFault {
        match fault {
            ListFault::Device => OpenFault::Device,
            ListFault::OutOfMemory => OpenFault::OutOfMemory,
        }
    }
}

impl From<AllocError> for OpenFault {
    fn from(_error: AllocError) -> OpenFault {
        OpenFault::OutOfMemory
    }
}
