//! Tests of tables where memory is refused, and where many threads act at once.
#![tactic(auto)]

#[cfg(test)]
mod installs;
#[cfg(test)]
mod races;
#[cfg(test)]
mod refusals;
#[cfg(test)]
mod same;
#[cfg(test)]
mod without_memory;
