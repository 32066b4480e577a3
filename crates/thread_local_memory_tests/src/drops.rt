//! Values are dropped once each.

use crate::bucket_pointers::place;
use crate::same::assert_same;
use std::alloc::{AllocError, Global};
use std::cell::Cell;
use std::test::Fail;
use thread_local_buckets::BucketPointers;

/// A value that counts its drops.
struct Counted<'a> {
    drops: &'a Cell<u64>,
}

impl Drop for Counted<'_> {
    fn drop(self) {
        let Self { drops } = self;
        drops.set(drops.get().saturating_add(1));
    }
}

/// Fills three buckets but for two slots, clears the pointers where that is wanted, and answers how
/// many drops there are before the pointers are dropped.
fn drops_counted<T: Drop, F: Fn() -> T, G: Fn() -> u64>(
    alloc: Global,
    clears: bool,
    make: F,
    count: G,
) -> Result<u64, AllocError>
where
    F: Drop,
    G: Drop,
    requires { (F.pre make) × (G.pre count) }
{
    let mut pointers = BucketPointers::new(alloc);
    pointers.ensure_bucket(0)?;
    pointers.ensure_bucket(1)?;
    pointers.ensure_bucket(2)?;
    pointers.publish_or_drop(place(0, 0), make());
    pointers.publish_or_drop(place(1, 0), make());
    pointers.publish_or_drop(place(1, 1), make());
    pointers.publish_or_drop(place(2, 1), make());
    pointers.publish_or_drop(place(2, 3), make());
    if clears {
        pointers.clear(0);
    }
    Ok(count())
}

#[test]
fn each_value_is_dropped_once(rt: HostRuntime) -> Result<(), Fail> {
    let drops = Cell::new(0u64);
    let alloc = rt.alloc();
    let before = drops_counted(alloc, false, || Counted { drops: &drops }, || drops.get())?;
    let dropped = drops.get();
    let cleared = drops_counted(alloc, true, || Counted { drops: &drops }, || drops.get())?;
    assert_same(&rt, (before, dropped, cleared, drops.get()), (0, 5, 10, 10));
    Ok(())
}
