//! An id's place, which is its bucket and index, and the manager that gives ids out and takes them
//! back.

pub use thread_local_base::{LocalError, Thread, ThreadIdManager};
