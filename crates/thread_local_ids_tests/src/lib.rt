//! Tests of ids: their places and their manager, the rights to them, the lock over them.
#![tactic(auto)]

#[cfg(test)]
mod callers;
#[cfg(test)]
mod lock;
#[cfg(test)]
mod manager;
#[cfg(test)]
mod place;
#[cfg(test)]
mod races;
#[cfg(test)]
mod refusals;
#[cfg(test)]
mod rights;
#[cfg(test)]
mod same;
#[cfg(test)]
mod shared_ids;
#[cfg(test)]
mod without_memory;
