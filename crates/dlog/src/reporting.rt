// A disk that reports why its calls fail.
use crate::reasons::{Work, tell_fault};
use dl_disk::{Disk, Fault, ListFault, Reason, Syncing};
use dl_types::{Base, FileName};
use std::alloc::{AllocError, Allocator};
use std::time::Instant;

// How many reasons are reported at most within a period, so that no pipe fills that nobody reads.
const REASONS_LIMIT: usize = 32;

// The seconds of a period. A reason is reported once in it.
const PERIOD_SECONDS: u64 = 60;

// What was reported of faults.
#[derive(Drop)]
struct Report {
    rt: HostRuntime,
    // The path of the folder.
    folder: String,
    // The reasons that were reported in this period, and when it began.
    told: Vec<Reason>,
    since: Option<Instant>,
}

impl Report {
    // Says why a call failed, unless that was said in this period, or too much was.
    fn tell(&mut self, work: Work, reason: Option<Reason>) {
        let Some(reason) = reason else {
            return;
        };
        if self.is_over() {
            self.told.clear();
            self.since = Instant::now(&self.rt).ok();
        }
        if self.told.contains(&reason) || self.told.len() >= REASONS_LIMIT {
            return;
        }
        if self.told.push(reason).is_ok() {
            tell_fault(&self.rt, self.folder.as_str(), work, reason);
        }
    }

    // Whether the period has ended, or none has begun.
    fn is_over(&self) -> bool {
        let Some(since) = self.since else {
            return true;
        };
        match since.elapsed(&self.rt) {
            Ok(passed) => passed.as_secs() >= PERIOD_SECONDS,
            Err(_) => false,
        }
    }
}

/// A disk over another one that says on standard error why its calls fail: each reason, which is a file and a cause, once in a
/// minute, and 32 of them at most.
#[derive(Drop)]
pub struct ReportingDisk<D: Disk + Drop> {
    inner: D,
    report: Report,
}

impl<D: Disk + Drop> ReportingDisk<D> {
    /// A disk over this one, whose files are in the folder at this path.
    pub fn new(rt: HostRuntime, inner: D, folder: String) -> ReportingDisk<D> {
        let told = Vec::new(rt.alloc());
        ReportingDisk {
            inner,
            report: Report {
                rt,
                folder,
                told,
                since: None,
            },
        }
    }
}

impl<D: Disk + Drop> Disk for ReportingDisk<D> {
    ghost state = { λ d. D.state d.inner };

    fn know(&mut self, base: Base) -> Result<(), AllocError> {
        self.inner.know(base)
    }

    fn size(&mut self, file: FileName) -> Result<Option<u64>, Fault> {
        let answer = self.inner.size(file);
        if answer.is_err() {
            self.report.tell(Work::Look, self.inner.reason());
        }
        answer
    }

    fn read_at(&mut self, file: FileName, at: u64, buffer: &mut [u8]) -> Result<usize, Fault> {
        let answer = self.inner.read_at(file, at, buffer);
        if answer.is_err() {
            self.report.tell(Work::Read, self.inner.reason());
        }
        answer
    }

    fn write_at(&mut self, file: FileName, at: u64, bytes: &[u8]) -> Result<(), Fault> {
        let answer = self.inner.write_at(file, at, bytes);
        if answer.is_err() {
            self.report.tell(Work::Write, self.inner.reason());
        }
        answer
    }

    fn put(&mut self, file: FileName, bytes: &[u8]) -> Result<(), Fault> {
        let answer = self.inner.put(file, bytes);
        if answer.is_err() {
            self.report.tell(Work::Put, self.inner.reason());
        }
        answer
    }

    fn cut(&mut self, file: FileName, size: u64) -> Result<(), Fault> {
        let answer = self.inner.cut(file, size);
        if answer.is_err() {
            self.report.tell(Work::Cut, self.inner.reason());
        }
        answer
    }

    fn rename(&mut self, from: FileName, to: FileName) -> Result<(), Fault> {
        let answer = self.inner.rename(from, to);
        if answer.is_err() {
            self.report.tell(Work::Rename, self.inner.reason());
        }
        answer
    }

    fn remove(&mut self, file: FileName) -> Result<(), Fault> {
        let answer = self.inner.remove(file);
        if answer.is_err() {
            self.report.tell(Work::Remove, self.inner.reason());
        }
        answer
    }

    fn sync(&mut self, file: FileName) -> Result<(), Fault> {
        let answer = self.inner.sync(file);
        if answer.is_err() {
            self.report.tell(Work::Sync, self.inner.reason());
        }
        answer
    }

    fn syncs_apart(&self) -> bool {
        self.inner.syncs_apart()
    }

    fn begin_sync(&mut self, file: FileName) -> Option<Syncing> {
        self.inner.begin_sync(file)
    }

    fn end_sync(&mut self, syncing: Syncing, synced: bool) {
        self.inner.end_sync(syncing, synced);
        if !synced {
            self.report.tell(Work::Sync, self.inner.reason());
        }
    }

    fn list<A: Allocator>(&mut self, alloc: A) -> Result<Vec<FileName, A>, ListFault> {
        self.inner.list(alloc)
    }

    fn reason(&self) -> Option<Reason> {
        self.inner.reason()
    }
}
