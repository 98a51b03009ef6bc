// How long calls waited.
use std::time::Duration;

/// How long calls waited, all in all and at most.
#[derive(Clone, Copy)]
pub struct Waits {
    pub calls: u64,
    pub total: Duration,
    pub longest: Duration,
}

impl Waits {
    /// No call was made yet.
    pub fn none() -> Waits {
        Waits {
            calls: 0,
            total: Duration::ZERO,
            longest: Duration::ZERO,
        }
    }

    /// These and those.
    pub fn and(self, other: Waits) -> Waits {
        Waits {
            calls: self.calls.saturating_add(other.calls),
            total: self.total.saturating_add(other.total),
            longest: self.longest.max(other.longest),
        }
    }

    /// These and one more call.
    pub fn and_one(self, wait: Duration) -> Waits {
        self.and(Waits {
            calls: 1,
            total: wait,
            longest: wait,
        })
    }
}
