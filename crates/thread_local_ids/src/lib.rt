//! The ids of a table, each with its right, and the history of their takes and returns. The first 58
//! are bits of a word, and the others lie under a lock. Tokens, which say what the slots of ids were
//! published with.
#![tactic(auto)]

mod first;
mod further;
pub mod left;
pub mod locks;
pub mod rights;
pub mod shared_ids;
pub mod tokens;

pub use locks::lock::{Fits, Lock, LockGuard};
pub use rights::held::HeldId;
pub use rights::page::Page;
pub use rights::right::{Right, SlotRights};
pub use shared_ids::SharedIds;
pub use tokens::book::Book;
pub use tokens::token::Token;
pub use tokens::told_list::Told;
