//! Theorems on a table's model over every schedule of atomic steps. From the bottom up: what each
//! step of a `Local` and of a walk keeps, what a clear and a drain leave, that a new core fits,
//! that the table shows an owner's buckets, when each step can happen, what each event changes,
//! what each event and each word of the theorems says, every schedule, every shared walk, and the
//! main theorem, which says in one contract what a table is for.
//!
//! The definitions are in specs/: the steps of a table and its `Local`s, the core (a table with its
//! id manager, its `Local`s and its walks), the events, and what a schedule is. Each function here
//! has an empty body: its contract is a set of theorems, for every list of events, from a table of
//! `new` and from one of each capacity, whatever the values and the closures' errors are.
#![tactic(auto)]

pub mod cleared;
pub mod effects;
pub mod event;
pub mod locals;
pub mod made;
pub mod main_theorem;
pub mod schedule;
pub mod shared_walk;
pub mod shown;
pub mod steps;
pub mod walks;
pub mod words;

pub use effects::events_change;
pub use event::events_say;
pub use main_theorem::headline;
pub use schedule::every_schedule;
pub use shared_walk::every_walk;
pub use steps::steps_happen;
pub use words::words_say;
