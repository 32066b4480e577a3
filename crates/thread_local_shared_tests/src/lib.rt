//! Tests of what threads share: words, claims and buckets.
#![tactic(auto)]

#[cfg(test)]
mod callers;
#[cfg(test)]
mod claims;
#[cfg(test)]
mod drops;
#[cfg(test)]
mod handing;
#[cfg(test)]
mod installs;
#[cfg(test)]
mod looks;
#[cfg(test)]
mod notes;
#[cfg(test)]
mod races;
#[cfg(test)]
mod same;
#[cfg(test)]
mod steps;
#[cfg(test)]
mod tokens;
