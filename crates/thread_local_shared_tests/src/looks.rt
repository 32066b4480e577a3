//! A look finds the value of its own slot.

use crate::same::assert_same;
use crate::steps::{Table, look, put, share};
use std::alloc::Global;
use thread_local_buckets::Buckets;
use thread_local_shared_buckets::Shared;

/// What a walker finds at three ids, each in a bucket of its own, the last at neither end of its
/// bucket.
fn seen(shared: &Shared<u32>) -> [Option<u32>; 3] {
    [look(shared, 0), look(shared, 1), look(shared, 1234)]
}

/// Puts a value at each of the three. Answers whether it did.
fn with_three(alloc: Global) -> (Buckets<u32>, [bool; 3]) {
    let mut buckets = Buckets::new(alloc);
    let inserted = [
        put(&mut buckets, 0, 5),
        put(&mut buckets, 1, 6),
        put(&mut buckets, 1234, 7),
    ];
    (buckets, inserted)
}

#[test]
fn a_look_finds_what_was_put_into_its_slot(rt: HostRuntime) {
    let (buckets, inserted) = with_three(rt.alloc());
    let mut shared = share(buckets, &Table::new(rt.alloc()).start);
    let before = seen(&shared);
    let slots = shared.owner().slots();
    let values = [Some(5), Some(6), Some(7)];
    assert_same(
        &rt,
        (inserted, before, slots, seen(&shared)),
        ([true; 3], values, 1027, values),
    );
}
