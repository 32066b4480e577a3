//! Tests of the table that threads share: of its `Local`s and of its owner's calls.
#![tactic(auto)]

#[cfg(test)]
mod ids;
#[cfg(test)]
mod locals;
#[cfg(test)]
mod owners;
#[cfg(test)]
mod same;
#[cfg(test)]
mod slots;
#[cfg(test)]
mod threads;
#[cfg(test)]
mod values;
