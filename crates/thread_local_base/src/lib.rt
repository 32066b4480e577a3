//! What all layers stand on: the definitions that the contracts of `thread_local` cite, the places of
//! ids, the manager that gives ids out and takes them back, and whether a type is judged.
//!
//! The definitions are in `specs/`. A function with an empty body is a law: its contract shows a
//! definition right. The crate also has the bits of 64-bit words as truth values, a fact as an
//! assertion that owns nothing, and the names that proofs by hand share.
#![tactic(auto)]

pub mod answers;
pub mod capacity;
pub mod cursor;
mod error;
pub mod held;
pub mod judged;
pub mod manager;
pub mod owner;
pub mod place;
pub mod slots;
pub mod walk;

pub use judged::{Judge, judge_sync, judged_alike, never_refuted};
pub use manager::{LocalError, ThreadIdManager};
pub use place::{BUCKETS, Thread, bucket_size};
