// A file that is synced without its disk.
ghost use Rattle.std.specs.Prelude.{◌≡◌, ◌↔◌, IsTrue, IsNone};

use crate::reason::Cause;
use dl_types::FileName;
use std::fs::File;

/// A sync of a file that a disk began and does not wait for. It has a handle of its own.
#[derive(Drop)]
pub struct Syncing {
    file: FileName,
    handle: File,
    // Why the device did not take what was written, once that was waited for.
    cause: Option<Cause>,
}

impl Syncing {
    /// The sync of a file by a handle.
    pub(crate) fn of(file: FileName, handle: File) -> Syncing
        ensures { result.file ≡ file }
    {
        Syncing {
            file,
            handle,
            cause: None,
        }
    }

    /// The file.
    pub(crate) fn file(&self) -> FileName
        ensures { result ≡ self.now.file }
    {
        self.file
    }

    /// Why the wait failed, if it did.
    pub(crate) fn cause(&self) -> Option<Cause>
        ensures { result ≡ self.now.cause }
    {
        self.cause
    }

    /// Waits until the device has what was written to the file before the sync began. Returns whether it has.
    pub fn wait(&mut self) -> bool
        ensures file { self.new.file ≡ self.old.file }
        ensures cause { IsTrue result ↔ IsNone self.new.cause }
    {
        self.cause = self.handle.sync_data().err().map(Cause::of);
        self.cause.is_none()
    }
}
