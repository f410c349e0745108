//! When a tick is due.

use std::io;
use std::time::{Duration, Instant};

/// How much time goes by from a tick to the next, at least.
fn interval() -> Duration {
    Duration::from_secs(1)
}

/// When the last tick was, and how long it is to the next.
#[derive(Drop)]
pub struct Timer {
    /// The last tick, or the first time that was read. There is none while the clock could not be read.
    last: Option<Instant>,
    patience: Duration,
}

impl Timer {
    /// The first tick is due one second from now.
    pub(crate) fn new(now: Option<Instant>) -> Timer {
        Timer {
            last: now,
            patience: interval(),
        }
    }

    /// For how long nothing is due: at most one second.
    pub(crate) fn patience(&self) -> Duration {
        self.patience
    }

    /// Whether a tick is due. If so, the next is due one second from now.
    pub(crate) fn is_due(&mut self, now: io::Result<Instant>) -> bool {
        let Ok(now) = now else {
            return false;
        };
        let Some(last) = self.last else {
            *self = Timer::new(Some(now));
            return false;
        };
        let went_by = now.duration_since(last);
        if went_by < interval() {
            self.patience = interval().saturating_sub(went_by);
            return false;
        }
        *self = Timer::new(Some(now));
        true
    }
}
