//! What a table is for: short programs with contracts or proofs, as a user writes them. They are read
//! with their tests alone, so the check proves each once.
#![tactic(auto)]

#[cfg(test)]
pub mod bounded;
#[cfg(test)]
pub mod cache;
#[cfg(test)]
pub mod counters;
#[cfg(test)]
pub mod mailbox;
#[cfg(test)]
pub mod meters;
#[cfg(test)]
pub mod posted;
#[cfg(test)]
pub mod resumed;
#[cfg(test)]
pub mod seeds;
#[cfg(test)]
pub mod snapshot;
#[cfg(test)]
pub mod sums;
#[cfg(test)]
pub mod totals;
