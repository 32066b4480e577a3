//! Tests of raw memory: of blocks, and of the pointers to them.
#![tactic(auto)]

#[cfg(test)]
mod blocks;
#[cfg(test)]
mod bucket_pointer;
#[cfg(test)]
mod bucket_pointers;
#[cfg(test)]
mod drops;
#[cfg(test)]
mod same;
