// Why the device of the hub failed.
use crate::hub::Hub;
use dl_disk::{Disk, Reason};
use std::alloc::Allocator;

impl<D: Disk + Drop, A: Allocator + Copy> Hub<D, A> {
    /// Why the last failed call of the disk failed, and on which file, as far as the disk knows. Ask after an answer
    /// that is a device fault, and before the next event. If the reason names a file of another base, the answer came
    /// without a call of the disk, as that of an open of a log that lingers. Nothing is changed.
    pub fn reason(&self) -> Option<Reason> {
        self.ground.disk.reason()
    }
}
