//! Examples that use `thread_local` as its users do, with their tests, and tests of the walks over a
//! table, of what is dropped or forgotten, and of what is printed.
#![tactic(auto)]

#[cfg(test)]
mod counting;
#[cfg(test)]
mod drops;
#[cfg(test)]
mod errors;
#[cfg(test)]
mod examples;
#[cfg(test)]
mod misuse;
#[cfg(test)]
mod numbers;
#[cfg(test)]
mod printed;
#[cfg(test)]
mod same;
#[cfg(test)]
mod shared_walks;
#[cfg(test)]
mod walks;
#[cfg(test)]
mod written_rule;
