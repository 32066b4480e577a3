//! The buckets of a table while threads share them. `Shared` has all 63, and `SharedBucket` is one:
//! a pointer that is null or leads to a block. A `Claim` is the slot of an id, for whoever has the
//! right to the id. A `Row` is the slots of a block, for any thread, and `Seen` what a look at 64 of
//! them saw. `Iter`, `Entries` and `Tokens` are the walks.
#![tactic(auto)]

pub mod announcements;
pub mod claim;
mod claimed;
pub mod complete;
pub mod entries;
pub mod iter;
mod parts;
pub mod row;
pub mod seen;
pub mod shared;
pub mod shared_bucket;
pub mod shown;
mod steps;
pub mod tokens;

pub use announcements::Announcements;
pub use claim::Claim;
pub use entries::Entries;
pub use iter::Iter;
pub use row::Row;
pub use seen::Seen;
pub use shared::Shared;
pub use shared_bucket::SharedBucket;
pub use shown::Shown;
pub use tokens::Tokens;
