//! Values that count their drops.

use std::alloc::{AllocError, Global};
use std::sync::Arc;
use std::sync::atomic::AtomicU64;
use std::sync::atomic::Ordering::SeqCst;
use thread_local::ThreadLocal;
use thread_local_base::judge_sync;

/// How many values were dropped.
#[derive(Drop)]
pub(crate) struct Drops {
    number: Arc<AtomicU64, Global>,
}

impl Drops {
    /// No drop so far.
    pub(crate) fn new(alloc: Global) -> Result<Drops, AllocError> {
        Ok(Drops {
            number: Arc::new(alloc, AtomicU64::new(0))?,
        })
    }

    /// The number of drops so far.
    pub(crate) fn number(&self) -> u64 {
        self.number.load(SeqCst)
    }

    /// A value that counts its drop here.
    pub(crate) fn counted(&self, value: u64) -> Result<Counted, AllocError> {
        Ok(Counted {
            value,
            drops: Arc::try_clone(&self.number)?,
        })
    }
}

/// A value, which counts its drop.
pub(crate) struct Counted {
    pub(crate) value: u64,
    drops: Arc<AtomicU64, Global>,
}

impl Drop for Counted {
    fn drop(self) {
        let Self { value: _, drops } = self;
        drops.fetch_add(1, SeqCst);
    }
}

/// A table of such values, with a capacity or without. A capacity that is too large is refused as
/// out of memory.
pub(crate) fn new_table(
    alloc: Global,
    capacity: Option<usize>,
) -> Result<ThreadLocal<Counted>, AllocError> {
    judge_sync::<Counted>();
    match capacity {
        Some(capacity) => ThreadLocal::with_capacity(alloc, capacity).map_err(|_| AllocError),
        None => Ok(ThreadLocal::new(alloc)),
    }
}
