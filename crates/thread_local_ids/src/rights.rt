//! What is kept of ids in proofs: the right to an id, and the history of takes and returns. None of it
//! has bytes but a held id.

pub mod held;
pub mod page;
pub mod right;
