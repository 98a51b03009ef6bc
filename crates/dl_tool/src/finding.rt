// What a check finds of a log.
ghost use Rattle.std.specs.Prelude.{◌≡◌};
ghost use Rattle.std.specs.Option.{option_to_list};
ghost use Rattle.dl_tool.specs.Losses.{torn_file};

use dl_types::{FileName, Refusal, Size};
use thiserror::Error;

/// How much a log has. Each number stops at the greatest `u64`.
#[derive(Clone, Copy)]
pub struct Amount {
    /// Its files of items.
    pub files: u64,
    /// The items of all files.
    pub items: u64,
    /// The bytes of all files. An index is not counted.
    pub bytes: u64,
    /// The bytes in all files that are no item's.
    pub bad: u64,
    /// The files but for the last one that are marked as whole and count another number of items than they have.
    pub miscounted: u64,
    /// The size that the log stores. A halt log stores none.
    pub stored: Option<Size>,
}

/// What there is of a log that is not open, and what an open to read and write would answer.
#[derive(Clone, Copy)]
pub enum Finding {
    /// There is no such log.
    Absent,
    /// The log is opened as it is.
    Clean(Amount),
    /// The log is repaired: `kept` items of `file`, its last one, are kept, and the `cut` bytes after them are cut. It may be
    /// marked as whole and count another number of items than it has.
    Torn {
        amount: Amount,
        file: FileName,
        kept: u64,
        cut: u64,
        miscounted: bool,
    },
    /// The open is refused.
    Refused(Refusal),
    /// The device failed at this file, so nothing is known of the log.
    Unread(FileName),
}

impl Finding {
    /// The last file of a log that needs a repair, if it may show losses. A file that was not begun shows none, whatever has its
    /// name.
    pub fn torn_file(self) -> Option<FileName>
        ensures { option_to_list result ≡ torn_file self }
    {
        match self {
            Finding::Torn {
                file,
                kept,
                miscounted,
                ..
            } if kept > 0 || miscounted => Some(file),
            _ => None,
        }
    }
}

/// Why a log was not checked.
#[derive(Clone, Copy, Debug, PartialEq, Eq, Error)]
pub enum CheckFault {
    /// The device failed at this file.
    #[error("cannot read {0}")]
    Device(FileName),
    #[error("out of memory")]
    OutOfMemory,
}
