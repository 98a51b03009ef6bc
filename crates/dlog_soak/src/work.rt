// What the clients of a soak share.
use dl_disk::Disk;
use dl_server::{Done, Server};
use std::sync::atomic::{AtomicBool, AtomicU64, Ordering};
use std::sync::{Mutex, Wait};

/// The server that is soaked, and what its clients have done so far.
#[derive(Drop)]
pub struct Work<'a, D: Disk + Drop> {
    pub server: &'a Server<D>,
    // What the clients did, if that is kept.
    kept: Option<&'a Mutex<Vec<Done>>>,
    has_ended: AtomicBool,
    has_failed: AtomicBool,
    sent: AtomicU64,
    visits: AtomicU64,
    synced: AtomicU64,
}

impl<'a, D: Disk + Drop> Work<'a, D> {
    /// Nothing was done yet. Where `kept` is given, what each client did is put there.
    pub fn new(server: &'a Server<D>, kept: Option<&'a Mutex<Vec<Done>>>) -> Work<'a, D> {
        Work {
            server,
            kept,
            has_ended: AtomicBool::new(false),
            has_failed: AtomicBool::new(false),
            sent: AtomicU64::new(0),
            visits: AtomicU64::new(0),
            synced: AtomicU64::new(0),
        }
    }

    /// Whether what the clients do is kept.
    pub fn is_kept(&self) -> bool {
        self.kept.is_some()
    }

    /// Has all clients end their work.
    pub fn end(&self) {
        self.has_ended.store(true, Ordering::SeqCst);
    }

    pub fn has_ended(&self) -> bool {
        self.has_ended.load(Ordering::SeqCst)
    }

    /// Notes that a client could not do its work, if so.
    pub fn note(&self, worked: Option<()>) {
        if worked.is_none() {
            self.has_failed.store(true, Ordering::SeqCst);
            self.end();
        }
    }

    /// Whether a client could not do its work.
    pub fn has_failed(&self) -> bool {
        self.has_failed.load(Ordering::SeqCst)
    }

    /// Keeps what a client did.
    pub fn keep<R: Wait>(&self, rt: &R, done: Done) -> Option<()> {
        match self.kept {
            None => Some(()),
            Some(kept) => kept.lock(rt).push(done).ok(),
        }
    }

    /// Counts an item that was sent.
    pub fn count_sent(&self) {
        self.sent.fetch_add(1, Ordering::SeqCst);
    }

    /// Counts an owner that came and went.
    pub fn count_visit(&self) {
        self.visits.fetch_add(1, Ordering::SeqCst);
    }

    /// Counts an item that was logged and synced.
    pub fn count_synced(&self) {
        self.synced.fetch_add(1, Ordering::SeqCst);
    }

    /// How many items were sent.
    pub fn sent(&self) -> u64 {
        self.sent.load(Ordering::SeqCst)
    }

    /// How many owners came and went.
    pub fn visits(&self) -> u64 {
        self.visits.load(Ordering::SeqCst)
    }

    /// How many items were logged and synced.
    pub fn synced(&self) -> u64 {
        self.synced.load(Ordering::SeqCst)
    }
}
