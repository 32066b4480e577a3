//! Tests of an owner's buckets.
#![tactic(auto)]

#[cfg(test)]
mod buckets;
#[cfg(test)]
mod same;
