//! What shared buckets consist of: 63 pointers, the heap, two words of buckets, and the number of reserved
//! slots, in the layout of an owner's buckets.
ghost use Rattle.thread_local_base.specs.Owned.{AreOfFirstBuckets};
ghost use Rattle.thread_local_shared_buckets.specs.TableView.{TableView, table_view_coded, table_view_of, AreBuckets};
ghost use Rattle.thread_local_shared_buckets.specs.Announcing.{BeginsWithFirst, AreMade};

use crate::{Announcements, SharedBucket};
use std::alloc::Global;
use std::marker::Model;
use thread_local_base::BUCKETS;
use thread_local_buckets::BucketBits;

/// The 63 buckets, by number.
pub(crate) struct SharedArray<T> {
    pub(crate) pointers: [SharedBucket<T>; BUCKETS],
}

/// The pointers of a table's buckets, the heap that their blocks come from, and the words of announced
/// buckets and of those that an owner made, in the layout of an owner's pointers.
pub(crate) struct SharedPointers<T> {
    pub(crate) pointers: SharedArray<T>,
    alloc: Global,
    pub(crate) announced: Announcements,
    made: BucketBits,
}

/// The pointers of a table's buckets, and how many of the first slots are reserved, in the layout
/// of an owner's buckets.
pub(crate) struct SharedParts<T> {
    pub(crate) pointers: SharedPointers<T>,
    pub(crate) reserved: usize,
}

impl<T> Model for SharedParts<T> {
    ghost Value = { TableView };

    ghost coded = { table_view_coded };

    ghost view = { λ s. table_view_of s.pointers.pointers.pointers s.reserved };

    ghost invariant = { λ s.
        AreBuckets s.pointers.pointers.pointers s.pointers.announced s.reserved
        × BeginsWithFirst s.pointers.announced
        × AreOfFirstBuckets s.reserved
        × AreMade s.pointers.announced s.pointers.made.bits };
}

/// What threads may send and share.
trait Crosses: Send + Sync {}

// Makes the check show that threads may send and share the pointers where they may send the values,
// which the proofs of `Send` and `Sync` for `Shared` use.
impl<T: Send> Crosses for SharedParts<T> {}
