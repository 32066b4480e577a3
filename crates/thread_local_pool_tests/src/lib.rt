//! Tests of what stands beside the table: pools with their buffers, padded values, and the deprecated
//! name of a table.
#![tactic(auto)]

#[cfg(test)]
mod buffer;
#[cfg(test)]
mod cached;
#[cfg(test)]
mod drops;
#[cfg(test)]
mod padded;
#[cfg(test)]
mod pool;
#[cfg(test)]
mod races;
#[cfg(test)]
mod refusals;
#[cfg(test)]
mod same;
#[cfg(test)]
mod without_memory;
