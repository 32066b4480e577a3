//! Tests of an owner's buckets, of what no contract says.
//!
//! `rt try --test --fail-alloc N` refuses the Nth request for memory of each test. A test then ends
//! as it does else, or with the error that says so.

use std::alloc::AllocError;
use thread_local_base::Thread;
use thread_local_buckets::Buckets;

mod callers;
mod drains;
mod drops;
mod entries;
mod places;
mod refusals;
mod walks;
mod without_memory;

/// Inserts a value, or says that memory was refused.
fn insert<T: Drop>(buckets: &mut Buckets<T>, id: u32, value: T) -> Result<(), AllocError> {
    match buckets.insert(Thread::new(id as usize), value) {
        Ok(_) => Ok(()),
        Err(_) => Err(AllocError),
    }
}
