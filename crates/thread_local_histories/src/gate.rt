//! Where the threads of a round meet, so that they race.

use std::sync::atomic::AtomicU64;
use std::sync::atomic::Ordering::SeqCst;

/// How many calls a thread makes before it meets the others again. So no thread makes many calls
/// alone while the system lets another wait.
pub(crate) const STRETCH: usize = 16;

/// How often a thread looks whether the others have come, before it goes on without them.
const LOOKS: u64 = 500_000;

/// Counts how often threads have come.
#[derive(Drop)]
pub(crate) struct Gate {
    arrived: AtomicU64,
    threads: u64,
}

impl Gate {
    /// A gate for so many threads.
    pub(crate) fn new(threads: u64) -> Gate {
        Gate {
            arrived: AtomicU64::new(0),
            threads,
        }
    }

    /// Waits a while until each thread has come so many times.
    pub(crate) fn meet(&self, times: u64) {
        self.arrived.fetch_add(1, SeqCst);
        for _ in 0..LOOKS {
            if self.arrived.load(SeqCst) >= self.threads.wrapping_mul(times) {
                break;
            }
        }
    }
}
