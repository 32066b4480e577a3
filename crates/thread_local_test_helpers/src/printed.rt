//! What values print.

use std::alloc::Global;
use std::fmt::Debug;

/// Whether the `Debug` of a value prints this text. One function for all types: a format costs the
/// check more than most calls.
pub fn prints<D: Debug>(value: &D, alloc: Global, text: &str) -> bool {
    match format!(in alloc; "{value:?}") {
        Ok(printed) => printed.as_str() == text,
        Err(_) => false,
    }
}
