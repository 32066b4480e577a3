//! The deprecated names of a table and of its walks. In Rust's crate `CachedThreadLocal` was once a
//! faster table, and wraps a `ThreadLocal` today; here each is another name of `ThreadLocal`,
//! `IterMut` or `IntoIter`.

use crate::table::ThreadLocal;
use thread_local_buckets::{IntoIter, IterMut};

/// A table, by its deprecated name: use `ThreadLocal`.
pub type CachedThreadLocal<T> = ThreadLocal<T>;

/// The walk of `CachedThreadLocal::iter_mut`, by its deprecated name.
pub type CachedIterMut<'a, T> = IterMut<'a, T>;

/// The walk of `CachedThreadLocal` by value, by its deprecated name.
pub type CachedIntoIter<T> = IntoIter<T>;
