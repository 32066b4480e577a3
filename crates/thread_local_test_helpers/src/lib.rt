//! What test crates share: values that count their drops, signals and a gate for threads that wait, a
//! bound on memory, an allocator that refuses every request, and looks at what a value prints and is.
#![tactic(auto)]

pub mod counted;
pub mod memory;
pub mod printed;
pub mod refusing;
pub mod signals;
