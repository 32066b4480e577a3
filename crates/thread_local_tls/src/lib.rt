//! The commands of the program `tls`, which write to any writer.
#![tactic(auto)]

mod arguments;
mod command;
mod fault;
mod moves;
mod words;

pub use arguments::read_arguments;
pub use command::run;
pub use fault::Fault;
pub use moves::{IdsError, Move, ids};
pub use words::tally_of;
