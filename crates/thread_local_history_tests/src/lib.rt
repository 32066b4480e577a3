//! Callers that know from the history of a table's ids which ids are held, how many slots there are
//! and what a slot holds. Contracts alone prove them, and tests run them.
#![tactic(auto)]

#[cfg(test)]
mod history;
#[cfg(test)]
mod id_callers;
#[cfg(test)]
mod same;
#[cfg(test)]
mod slot_callers;
