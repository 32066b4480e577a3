//! Values that count their drops.

use std::alloc::{AllocError, Global};
use std::sync::Arc;
use std::sync::atomic::AtomicU64;
use std::sync::atomic::Ordering::SeqCst;

/// What counts the drops of values.
pub type Drops = Arc<AtomicU64, Global>;

/// How many drops were counted.
pub fn dropped(drops: &Drops) -> u64 {
    drops.load(SeqCst)
}

/// A value that counts its drop.
pub struct Counted {
    drops: Drops,
}

impl Counted {
    /// A value whose drop adds one to `drops`.
    pub fn new(drops: &Drops) -> Result<Counted, AllocError> {
        let drops = Arc::try_clone(drops)?;
        Ok(Counted { drops })
    }
}

impl Drop for Counted {
    fn drop(self) {
        let Self { drops } = self;
        drops.fetch_add(1, SeqCst);
    }
}
