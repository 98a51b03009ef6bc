// Why a case fails.
use dl_app::ScriptFault;
use dl_disk::{Fuse, ListFault};
use dl_tool::{ReportFault, StrayFault};
use dl_types::{Base, Fail, FileName, Name};
use std::alloc::{AllocError, AllocFailed};
use std::fmt::Write;
use std::{fmt, io};
use thiserror::Error;

/// Why a case fails, or cannot be run.
#[derive(Clone, Copy, Debug, Error)]
pub enum CaseFault {
    #[error("line {0} answers otherwise")]
    Differs(u64),
    #[error("line {0} has no answer")]
    NoAnswer(u64),
    #[error("line {0} is an answer to no line")]
    NoLine(u64),
    #[error("line {0} is no order that the runner knows")]
    BadOrder(u64),
    #[error("line {0} has to stand before the lines of its hub")]
    LateOrder(u64),
    #[error("line {0} is of a script and stands after a command")]
    LateLine(u64),
    #[error("a command has words that it does not know")]
    BadTool,
    #[error("a command could not tell of the files")]
    Tool,
    #[error("a number of blocks is none")]
    BadBlocks,
    #[error("the bytes of a file are not in hexadecimal")]
    BadBytes,
    #[error("line {0} is about a base whose files no call is on")]
    NoCall(u64),
    #[error("line {0} finds no run in which no call fails")]
    NoEnd(u64),
    #[error("line {0} has a fault that loses items")]
    Loses(u64),
    #[error("line {0} has a fault after which turns never find that nothing waits")]
    NotIdle(u64),
    #[error("line {0} is stopped and loses items")]
    StopLoses(u64),
    #[error("line {0} is of a case none of whose calls is refused memory")]
    NoRefusal(u64),
    #[error("line {0} is refused memory, however much there is")]
    Starves(u64),
    #[error("line {0} is not kept as it is answered, or was kept before")]
    BadHistory(u64),
    #[error("the files that a fault leaves are not opened")]
    NotOpened,
    #[error("a log has more files or items than are read")]
    Unread,
    #[error("an answer is no text")]
    NoText,
    #[error("the script ended: {0}")]
    Script(ScriptFault),
    #[error("its clients did not have what the history has")]
    NotSettled,
    #[error("no hub: {0}")]
    Hub(Fail),
    #[error("the folder of the case failed")]
    Folder,
    #[error("out of memory")]
    OutOfMemory,
}

impl From<AllocError> for CaseFault {
    fn from(_: AllocError) -> CaseFault {
        CaseFault::OutOfMemory
    }
}

impl<T: Drop> From<AllocFailed<T>> for CaseFault {
    fn from(_: AllocFailed<T>) -> CaseFault {
        CaseFault::OutOfMemory
    }
}

impl From<io::Error> for CaseFault {
    fn from(_: io::Error) -> CaseFault {
        CaseFault::Folder
    }
}

/// How a case was run.
#[derive(Clone, Copy, Debug)]
pub enum How {
    Memory,
    Folder,
    /// With a thread for each client.
    MemoryThreads,
    FolderThreads,
    /// One of its logs alone, in memory.
    Alone(Option<Name>),
    /// In memory, with a device that fails after `calls` calls on the files of a base.
    Failing {
        base: Base,
        calls: u64,
        fuse: Fuse,
    },
    /// In memory, and stopped after so many calls of the device.
    Stopped {
        calls: u64,
    },
    /// In memory, with so many bytes left of the memory of the hub.
    Starved {
        bytes: usize,
    },
    /// In memory, with so many bytes left of the memory of a hub that keeps its history.
    StarvedKept {
        bytes: usize,
    },
    /// In memory, on a file that is cut to its first bytes.
    Cut {
        file: FileName,
        length: usize,
    },
    /// In memory, on a file in which a byte is changed.
    Changed {
        file: FileName,
        at: usize,
        value: u8,
    },
}

impl How {
    /// The log of this name alone.
    pub fn alone(log: &str) -> How {
        How::Alone(Name::parse(log.as_bytes()))
    }
}

impl fmt::Display for How {
    fn fmt<W: fmt::Write>(&self, f: &mut fmt::Formatter<W>) -> fmt::Result {
        match self {
            How::Memory => f.write_str("in memory"),
            How::Folder => f.write_str("in a folder"),
            How::MemoryThreads => f.write_str("in memory with threads"),
            How::FolderThreads => f.write_str("in a folder with threads"),
            How::Alone(None) => f.write_str("a log alone"),
            How::Alone(Some(log)) => write!(f, "log {log} alone"),
            How::Failing { base, calls, fuse } => {
                let count = count_of(*fuse);
                write!(f, "{count} failing after {calls} calls at {base}")
            }
            How::Stopped { calls } => write!(f, "stopped after {calls} calls"),
            How::Starved { bytes } => write!(f, "with {bytes} bytes of memory left"),
            How::StarvedKept { bytes } => write!(f, "kept, with {bytes} bytes of memory left"),
            How::Cut { file, length } => write!(f, "{file} cut to {length} bytes"),
            How::Changed { file, at, value } => write!(f, "byte {at} of {file} set to {value}"),
        }
    }
}

// How many calls fail after a fuse has blown, in the words of a case.
fn count_of(fuse: Fuse) -> &'static str {
    match fuse {
        Fuse::One => "one",
        Fuse::All => "all",
    }
}

impl From<ListFault> for CaseFault {
    fn from(fault: ListFault) -> CaseFault {
        match fault {
            ListFault::Device => CaseFault::Tool,
            ListFault::OutOfMemory => CaseFault::OutOfMemory,
        }
    }
}

impl From<ReportFault> for CaseFault {
    fn from(fault: ReportFault) -> CaseFault {
        match fault {
            ReportFault::Write => CaseFault::Tool,
            ReportFault::OutOfMemory => CaseFault::OutOfMemory,
        }
    }
}

impl From<StrayFault> for CaseFault {
    fn from(fault: StrayFault) -> CaseFault {
        match fault {
            StrayFault::List | StrayFault::Device(_) => CaseFault::Tool,
            StrayFault::OutOfMemory => CaseFault::OutOfMemory,
        }
    }
}
