//! What tests of this crate end with, proved once.

use std::fmt::Debug;
use std::process::Abort;

/// Ends the test where what it found isn't what it expected, and prints both. One function for all
/// types: `assert_eq!` costs the check more than most calls, and most where much is borrowed.
pub fn assert_same<R: Abort, T: PartialEq + Debug + Drop>(rt: &R, found: T, expected: T) {
    assert_eq!(rt; found, expected);
}
