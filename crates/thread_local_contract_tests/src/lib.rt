//! Callers of a table and of its walks that are proved by contracts alone, and tests of what these
//! tell: of tokens, and of types that are judged.
#![tactic(auto)]

#[cfg(test)]
mod callers;
#[cfg(test)]
mod judged;
#[cfg(test)]
mod same;
#[cfg(test)]
mod seat_callers;
#[cfg(test)]
mod tokens;
#[cfg(test)]
mod told_walks;
#[cfg(test)]
mod walk_callers;
