//! The buckets of a table in the hands of their exclusive owner: a map from ids to values. The block
//! of each bucket that stands, the 63 pointers to blocks, and how a walk finds its next value by the
//! flags of 64 slots.
#![tactic(auto)]

pub mod announced;
mod block;
pub mod bucket_pointer;
pub mod bucket_pointers;
pub mod buckets;
mod bytes;
mod chunk;
pub mod cursor;
mod drain;
mod emptying;
mod error;
pub mod iter;
mod iter_mut;
mod loan;
pub mod pointer_array;

pub use announced::{BucketBits, take_first, take_first_bucket};
pub use block::Block;
pub use bucket_pointer::BucketPointer;
pub use bucket_pointers::BucketPointers;
pub use buckets::{Buckets, CapacityError};
pub use chunk::{Chunk, flag_word_at, value_size};
pub use cursor::{FlagSource, OwnerCursor, RawIter, write_struct};
pub use emptying::EmptyingBlock;
pub use iter::{Drain, EntriesMut, IntoEntries, IntoIter, IterMut};
