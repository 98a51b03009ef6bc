// Why a call of a disk failed.
ghost use Rattle.std.specs.Prelude.{◌≡◌, IfOk, IfErr, Ok, Some, IsErr};
ghost use Rattle.dl_disk.specs.Reason.{cause_of, number_of, reason_after, stays};

use crate::fault::Fault;
use dl_types::FileName;
use std::fmt::Display;
use std::{fmt, io};

/// Why the last failed call of a disk failed, and on which file. A sync that fails because an earlier sync of the
/// file failed has the reason of that one, unless a call on another file failed in between.
#[derive(Clone, Copy, Debug, PartialEq, Eq)]
pub struct Reason {
    /// The file of the call. The call may have failed at another file of its base, for example at the sync of one
    /// before a put.
    pub file: FileName,
    pub cause: Cause,
}

/// Why a call on a file failed.
#[derive(Clone, Copy, Debug, PartialEq, Eq)]
pub enum Cause {
    /// The system refused it, with this error number.
    System(i32),
    /// There was no memory for it.
    OutOfMemory,
    /// What has the name of the file is a link, a folder or a pipe.
    NotPlain,
    /// The file is shorter than this disk left it, because another program has cut it, or shorter than the call
    /// needs.
    Shorter,
    /// The system did this sync of the file, but an earlier one failed. Bytes that were written before that may be lost.
    Lost,
    /// The system gave no reason.
    Other,
}

impl Cause {
    /// The cause of an error of a folder's call.
    pub(crate) fn of(error: io::Error) -> Cause
        ensures { result ≡ cause_of error }
    {
        if let Some(number) = error.raw_os_error() {
            return Cause::System(number);
        }
        match error.kind() {
            io::ErrorKind::OutOfMemory => Cause::OutOfMemory,
            io::ErrorKind::Unsupported => Cause::NotPlain,
            io::ErrorKind::InvalidInput | io::ErrorKind::UnexpectedEof => Cause::Shorter,
            io::ErrorKind::Other => Cause::Lost,
            _ => Cause::Other,
        }
    }

    /// The system's error number, if the system refused the call.
    pub fn number(self) -> Option<i32>
        ensures { result ≡ number_of self }
    {
        match self {
            Cause::System(number) => Some(number),
            _ => None,
        }
    }
}

impl Display for Cause {
    fn fmt<W: fmt::Write>(&self, f: &mut fmt::Formatter<W>) -> fmt::Result {
        match *self {
            Cause::System(number) => {
                let error = io::Error::from_raw_os_error(number);
                write!(f, "{error}")
            }
            Cause::OutOfMemory => write!(f, "out of memory"),
            Cause::NotPlain => write!(f, "it is a link, a folder or a pipe, and no plain file"),
            Cause::Shorter => write!(f, "it is shorter than it was left"),
            Cause::Lost => write!(f, "an earlier sync of it failed"),
            Cause::Other => write!(f, "the system gave no reason"),
        }
    }
}

// Whether a reason is that of a call on a file, which failed later.
fn stays(earlier: Reason, file: FileName, cause: Cause) -> bool
    ensures { result ≡ stays earlier file cause }
{
    match cause {
        Cause::Lost => earlier.file == file,
        _ => false,
    }
}

// The last reason after a call on a file failed.
fn reason_after(last: Option<Reason>, file: FileName, cause: Cause) -> Reason
    ensures { result ≡ reason_after last file cause }
{
    match last {
        Some(earlier) if stays(earlier, file, cause) => earlier,
        _ => Reason { file, cause },
    }
}

/// The answer of a folder's call on a file, as a disk gives it. An error is kept as the reason of the last fault.
pub(crate) fn noted<T>(
    last: &mut Option<Reason>,
    file: FileName,
    answer: io::Result<T>,
) -> Result<T, Fault>
    ensures ok { IfOk answer (λ value. (result ≡ Ok value) × (last.new ≡ last.old)) }
    ensures err { IfErr answer (λ error. IsErr result × (last.new ≡ Some (reason_after last.old file (cause_of error)))) }
{
    match answer {
        Ok(value) => Ok(value),
        Err(error) => {
            *last = Some(reason_after(*last, file, Cause::of(error)));
            Err(Fault)
        }
    }
}
