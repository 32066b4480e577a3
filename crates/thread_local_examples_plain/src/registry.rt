//! A registry: each thread appends to a list of events of its own, with no lock, while a reader
//! walks over all lists.
use std::alloc::Global;
use std::array;
use std::sync::Wait;
use std::sync::atomic::Ordering::SeqCst;
use std::sync::atomic::{AtomicU64, AtomicUsize};
use thread_local::ThreadLocal;
use thread_local::table::judge_sync;
use thread_local::thread_id::LocalError;

/// A list to which one thread appends while others read it. It keeps the first 64 events, and
/// counts all.
#[derive(Drop)]
pub struct Events {
    count: AtomicUsize,
    kept: [AtomicU64; 64],
}

impl Events {
    /// An empty list.
    pub fn new() -> Events {
        Events {
            count: AtomicUsize::new(0),
            kept: array::from_fn(|_| AtomicU64::new(0)),
        }
    }

    /// Appends an event. It is written before it is counted, so a reader sees whole events.
    pub fn append(&self, event: u64) {
        let count = self.count.load(SeqCst);
        if let Some(place) = self.kept.get(count) {
            place.store(event, SeqCst);
        }
        self.count.store(count.saturating_add(1), SeqCst);
    }

    /// The sum of the events that are kept.
    pub fn sum(&self) -> u64 {
        let mut sum = 0u64;
        for event in self.kept.iter().take(self.count.load(SeqCst)) {
            sum = sum.saturating_add(event.load(SeqCst));
        }
        sum
    }
}

/// A registry with no list. Threads may share a list: `judge_sync` shows it, as `new` asks.
pub fn registry(alloc: Global) -> ThreadLocal<Events> {
    judge_sync::<Events>();
    ThreadLocal::new(alloc)
}

/// Appends events to this thread's list.
pub fn register<R: Wait>(
    registry: &ThreadLocal<Events>,
    rt: &R,
    events: &[u64],
) -> Result<(), LocalError> {
    let mut local = registry.local(rt)?;
    let list = local.get_or(|| Events::new())?;
    for event in events {
        list.append(*event);
    }
    Ok(())
}

/// The sum of what all lists hold now, while threads append to them.
pub fn sum_so_far(registry: &ThreadLocal<Events>) -> u64 {
    let mut sum = 0u64;
    for list in registry.iter() {
        sum = sum.saturating_add(list.sum());
    }
    sum
}

#[cfg(test)]
mod tests;
