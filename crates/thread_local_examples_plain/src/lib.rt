//! What a table is for: short programs without contracts, as a user writes them. They are read with
//! their tests alone, so the check proves each once.
#![tactic(auto)]

#[cfg(test)]
pub mod connections;
#[cfg(test)]
pub mod formatting;
#[cfg(test)]
pub mod jobs;
#[cfg(test)]
pub mod matcher;
#[cfg(test)]
pub mod metrics;
#[cfg(test)]
pub mod recorder;
#[cfg(test)]
pub mod records;
#[cfg(test)]
pub mod registry;
#[cfg(test)]
pub mod rounds;
#[cfg(test)]
pub mod spans;
