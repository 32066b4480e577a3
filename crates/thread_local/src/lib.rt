//! Per-object thread-local storage: one object keeps a separate value for each thread that uses it.
//!
//! A thread asks a `ThreadLocal` for a `Local`, which has an id of its own, and finds or makes its
//! value through it. Values stay when a `Local` is dropped. The exclusive owner of the table walks
//! over all of them; where threads may share the values, any thread walks over those that are
//! published, while others publish more.
//!
//! ```text
//! /// Counts `times` times in a counter of its own, which is a plain cell. None means that memory
//! /// or an id was refused.
//! pub fn count<R: Wait>(counters: &ThreadLocal<Cell<u64>>, rt: &R, times: u64) -> Option<()> {
//!     let mut local = counters.local(rt).ok()?;
//!     let counter = local.get_or(|| Cell::new(0)).ok()?;
//!     for _ in 0..times {
//!         counter.set(counter.get().saturating_add(1));
//!     }
//!     Some(())
//! }
//!
//! /// The sum of all counters, for the exclusive owner of the table.
//! pub fn total(counters: ThreadLocal<Cell<u64>>) -> u64 {
//!     let mut sum = 0u64;
//!     for counter in counters {
//!         sum = sum.saturating_add(counter.get());
//!     }
//!     sum
//! }
//! ```
//!
//! The crate also has the ids that a table gives out, and the buckets for an exclusive owner. The
//! theorems over every schedule stand in `thread_local_schedule`.
#![tactic(auto)]

pub mod buckets;
pub mod cached;
mod error;
pub mod iter;
pub mod local;
pub mod padded;
mod seat;
pub mod table;
pub mod thread_id;

pub use cached::{CachedIntoIter, CachedIterMut, CachedThreadLocal};
pub use iter::{Drain, Entries, EntriesMut, IntoEntries, IntoIter, Iter, IterMut, Tokens};
pub use padded::Padded;
pub use table::ThreadLocal;
