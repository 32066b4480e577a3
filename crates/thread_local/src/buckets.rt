//! The buckets of a table, for their exclusive owner: a map from ids to values.

pub use thread_local_buckets::{Buckets, CapacityError};
