//! Walks over the values of a table, by ascending id: `Iter` over a table that threads share,
//! `IterMut` and `IntoIter` for its exclusive owner; `Entries`, `EntriesMut` and `IntoEntries` with
//! ids; `Tokens` with tokens; and `Drain`, which leaves the buckets.
//!
//! `iter_gives_told`, `entries_give_told` and `tokens_give_told` are laws, for loops over a walk
//! that was made with a list of tokens (`ThreadLocal::iter_told`).
//!
//! A crate that loops over `&mut buckets` lists `thread_local_buckets` too, since an impl for a
//! reference is found only in a crate that is listed. `iter_mut` of the buckets needs no more.

pub use thread_local_buckets::{Drain, EntriesMut, IntoEntries, IntoIter, IterMut};
pub use thread_local_shared_buckets::complete::{
    entries_give_told, iter_gives_told, tokens_give_told,
};
pub use thread_local_shared_buckets::{Entries, Iter, Tokens};
