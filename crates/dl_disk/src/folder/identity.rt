// Which file or folder of the system a path leads to.
use std::fs::Metadata;
use std::io;
use std::io::ErrorKind;
use std::os::unix::fs::MetadataExt;

// The system's number of a handle whose file has not its name any more.
const STALE: i32 = 116;

/// A file or a folder of a device, whatever its path.
#[derive(Clone, Copy, PartialEq, Eq)]
pub(crate) struct Identity {
    device: u64,
    inode: u64,
}

impl Identity {
    /// What has this metadata.
    pub(crate) fn of(metadata: &Metadata) -> Identity {
        Identity {
            device: metadata.dev(),
            inode: metadata.ino(),
        }
    }

    /// Refuses what was found at a path as stale, if it is something else or nothing. If it could not be looked at, the call on
    /// the path that comes next reports why.
    pub(crate) fn expect(self, found: io::Result<Metadata>) -> io::Result<()> {
        let is_stale = match found {
            Ok(metadata) => Identity::of(&metadata) != self,
            Err(error) => error.kind() == ErrorKind::NotFound,
        };
        if is_stale {
            return Err(io::Error::from_raw_os_error(STALE));
        }
        Ok(())
    }
}
