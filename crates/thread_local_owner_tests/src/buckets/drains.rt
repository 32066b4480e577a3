//! What a drain gives, in which order, and what it leaves in the buckets.

use super::insert;
use super::walks::{has_left, steps, three};
use crate::same::assert_same;
use std::alloc::{AllocError, Global};
use std::test::Fail;
use thread_local_base::Thread;
use thread_local_buckets::Buckets;
use thread_local_test_helpers::printed::prints;

/// Whether a drain gives three values, counted down, and then nothing for good.
fn drains(buckets: &mut Buckets<u32>, values: [u32; 3]) -> bool {
    let mut walk = buckets.drain();
    let mut fits = true;
    for (left, value) in steps(values) {
        fits &= has_left(&walk, left) && walk.next() == value;
    }
    fits
}

/// Whether a drain goes by ascending id, and leaves no value and as many slots.
fn ascends(alloc: Global, ids: [u32; 3]) -> Result<bool, AllocError> {
    let mut buckets = three(alloc, ids)?;
    let slots = buckets.slots();
    let drained = drains(&mut buckets, [1, 2, 3]);
    Ok(drained && buckets.slots() == slots && buckets.drain().next().is_none())
}

#[test]
fn a_drain_goes_by_ascending_id(rt: HostRuntime) -> Result<(), Fail> {
    for ids in [[0, 1, 2], [0, 1234, 100000], [62, 63, 126], [190, 191, 254]] {
        assert!(rt; ascends(rt.alloc(), ids)?);
    }
    Ok(())
}

/// How many values there are, which are dropped.
pub fn dropped(buckets: &mut Buckets<u32>) -> usize {
    buckets.drain().len()
}

#[test]
fn a_drain_of_an_empty_table_gives_nothing(rt: HostRuntime) {
    let mut buckets = Buckets::new(rt.alloc());
    let first = buckets.drain().next();
    assert_same(
        &rt,
        (first, dropped(&mut buckets), buckets.slots()),
        (None, 0, 0),
    );
}

/// Whether an id has a value.
fn has_value(buckets: &mut Buckets<u32>, id: u32) -> bool {
    buckets.get_mut(Thread::new(id as usize)).is_some()
}

/// Whether the ids 5, of a value that was drained, and 4, of none, have a value; and the first of a
/// second round, at id 5.
fn second_round(buckets: &mut Buckets<u32>) -> Result<(bool, bool, Option<u32>), AllocError> {
    drop(buckets.drain());
    let (drained, never) = (has_value(buckets, 5), has_value(buckets, 4));
    insert(buckets, 5, 9)?;
    Ok((drained, never, buckets.drain().next()))
}

#[test]
fn drained_ids_are_empty_and_hold_values_again(rt: HostRuntime) -> Result<(), Fail> {
    let mut buckets = three(rt.alloc(), [0, 5, 1234])?;
    let seen = second_round(&mut buckets)?;
    assert_same(
        &rt,
        (seen, buckets.slots()),
        ((false, false, Some(9)), 1 + 4 + 1024),
    );
    Ok(())
}

const FRESH: &str = "Drain { raw: RawIter { yielded: 0, bucket: 0, bucket_size: 1, index: 0 } }";

const ENDED: &str = "Drain { raw: RawIter { yielded: 1, bucket: 0, bucket_size: 1, index: 1 } }";

#[test]
fn a_drain_prints_its_cursor(rt: HostRuntime) -> Result<(), Fail> {
    let mut buckets = Buckets::new(rt.alloc());
    insert(&mut buckets, 0, 5u32)?;
    let mut walk = buckets.drain();
    let fresh = prints(&walk, rt.alloc(), FRESH) && walk.next() == Some(5);
    let ended = prints(&walk, rt.alloc(), ENDED) && walk.next().is_none();
    assert_same(&rt, (fresh, ended), (true, true));
    Ok(())
}
