//! What tests of this crate end with, each proved once.

use std::alloc::Global;
use std::fmt::Debug;
use std::process::Abort;
use std::sync::Arc;
use std::sync::atomic::AtomicU64;
use thread_local_test_helpers::counted::Drops;

/// Ends the test where what it found isn't what it expected, and prints both. One function for all
/// types: `assert_eq!` costs the check more than most calls, and most where much is borrowed.
pub fn assert_same<R: Abort, T: PartialEq + Debug + Drop>(rt: &R, found: T, expected: T) {
    assert_eq!(rt; found, expected);
}

/// A count of no drop. Ends the test where memory is out.
pub fn no_drop<R: Abort>(rt: &R, alloc: Global) -> Drops {
    Arc::new(alloc, AtomicU64::new(0)).expect(rt, "memory for a count")
}
