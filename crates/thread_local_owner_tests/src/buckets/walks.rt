//! What the walks of an owner give, in which order, how many are still to come, and what they
//! print.

use super::insert;
use crate::same::assert_same;
use std::alloc::{AllocError, Global};
use std::fmt;
use std::mem::forget;
use std::test::Fail;
use thread_local_buckets::{Buckets, IntoIter};
use thread_local_test_helpers::printed::prints;

/// The values 1, 2, 3 at three ids.
pub fn three(alloc: Global, ids: [u32; 3]) -> Result<Buckets<u32>, AllocError> {
    let mut buckets = Buckets::new(alloc);
    let [first, second, third] = ids;
    for (id, value) in [(first, 1), (second, 2), (third, 3)] {
        insert(&mut buckets, id, value)?;
    }
    Ok(buckets)
}

/// Whether so many values are still to come.
pub fn has_left<W: ExactSizeIterator>(walk: &W, left: usize) -> bool {
    walk.len() == left && walk.size_hint() == (left, Some(left))
}

/// The steps of a walk over three values: how many are still to come, and what it gives then. Past
/// the last it gives nothing for good.
pub fn steps<T: Copy>(values: [T; 3]) -> [(usize, Option<T>); 5] {
    let [first, second, third] = values;
    [
        (3, Some(first)),
        (2, Some(second)),
        (1, Some(third)),
        (0, None),
        (0, None),
    ]
}

/// Whether a walk gives three values, counted down, and then nothing for good.
fn gives(walk: IntoIter<u32>, values: [u32; 3]) -> bool {
    let mut walk = walk;
    let mut fits = true;
    for (left, value) in steps(values) {
        fits &= has_left(&walk, left) && walk.next() == value;
    }
    fits
}

/// The same of a walk that lends.
fn lends(buckets: &mut Buckets<u32>, values: [u32; 3]) -> bool {
    let mut walk = buckets.iter_mut();
    let mut fits = true;
    for (left, value) in steps(values) {
        fits &= has_left(&walk, left) && walk.next().copied() == value;
    }
    fits
}

/// Whether both walks go by ascending id.
fn both_ascend(alloc: Global, ids: [u32; 3]) -> Result<bool, AllocError> {
    let mut buckets = three(alloc, ids)?;
    Ok(lends(&mut buckets, [1, 2, 3]) && gives(buckets.into_iter(), [1, 2, 3]))
}

#[test]
fn walks_go_by_ascending_id(rt: HostRuntime) -> Result<(), Fail> {
    for ids in [[0, 1, 2], [0, 1234, 100000], [62, 63, 126], [190, 191, 254]] {
        assert!(rt; both_ascend(rt.alloc(), ids)?);
    }
    Ok(())
}

#[test]
fn an_empty_table_gives_nothing(rt: HostRuntime) {
    let mut buckets = Buckets::new(rt.alloc());
    let lent = (buckets.iter_mut().len(), first(&mut buckets));
    let mut walk = buckets.into_iter();
    let given = (walk.len(), walk.next());
    assert_same(&rt, (lent, given), ((0, None), (0, None)));
}

/// Takes what may go to another thread.
fn crosses<S: Send>(value: S) -> S {
    value
}

#[test]
fn walks_may_go_to_another_thread(rt: HostRuntime) -> Result<(), Fail> {
    let mut buckets = crosses(three(rt.alloc(), [0, 1, 2])?);
    let lent = crosses(buckets.iter_mut()).len();
    let given = gives(crosses(buckets.into_iter()), [1, 2, 3]);
    assert_same(&rt, (lent, given), (3, true));
    Ok(())
}

/// Writes ten times each value.
fn write_tenfold(buckets: &mut Buckets<u32>) {
    for value in buckets.iter_mut() {
        *value = value.saturating_mul(10);
    }
}

#[test]
fn what_a_walk_writes_stays(rt: HostRuntime) -> Result<(), Fail> {
    let mut buckets = three(rt.alloc(), [0, 1, 2])?;
    write_tenfold(&mut buckets);
    assert!(rt; gives(buckets.into_iter(), [10, 20, 30]));
    Ok(())
}

fn first(buckets: &mut Buckets<u32>) -> Option<u32> {
    buckets.iter_mut().next().copied()
}

/// The same, and the walk is forgotten.
fn first_of_forgotten(buckets: &mut Buckets<u32>) -> Option<u32> {
    let mut walk = buckets.iter_mut();
    let first = walk.next().copied();
    forget(walk);
    first
}

#[test]
fn a_walk_that_stops_early_changes_nothing(rt: HostRuntime) -> Result<(), Fail> {
    let mut buckets = three(rt.alloc(), [0, 1, 2])?;
    let stopped = (first(&mut buckets), lends(&mut buckets, [1, 2, 3]));
    let forgotten = (
        first_of_forgotten(&mut buckets),
        lends(&mut buckets, [1, 2, 3]),
    );
    assert_same(
        &rt,
        [stopped, forgotten],
        [(Some(1), true), (Some(1), true)],
    );
    Ok(())
}

const FRESH: &str = "IntoIter { raw: RawIter { yielded: 0, bucket: 0, bucket_size: 1, index: 0 } }";

const ENDED: &str = "IntoIter { raw: RawIter { yielded: 1, bucket: 0, bucket_size: 1, index: 1 } }";

const LENDS_FRESH: &str =
    "IterMut { raw: RawIter { yielded: 0, bucket: 0, bucket_size: 1, index: 0 } }";

const LENDS_ENDED: &str =
    "IterMut { raw: RawIter { yielded: 1, bucket: 0, bucket_size: 1, index: 1 } }";

/// Whether a walk over the value 5 prints its cursor before it, behind it and at its end.
fn taking_prints(alloc: Global, buckets: Buckets<u32>) -> bool {
    let mut walk = buckets.into_iter();
    let mut fits = true;
    for (text, value) in [(FRESH, Some(5)), (ENDED, None), (ENDED, None)] {
        fits &= prints(&walk, alloc, text) && walk.next() == value;
    }
    fits
}

/// The same of a walk that lends.
fn lending_prints(alloc: Global, buckets: &mut Buckets<u32>) -> bool {
    let mut walk = buckets.iter_mut();
    let mut fits = true;
    for (text, value) in [
        (LENDS_FRESH, Some(5)),
        (LENDS_ENDED, None),
        (LENDS_ENDED, None),
    ] {
        fits &= prints(&walk, alloc, text) && walk.next().copied() == value;
    }
    fits
}

#[test]
fn walks_print_their_cursor(rt: HostRuntime) -> Result<(), Fail> {
    let mut buckets = Buckets::new(rt.alloc());
    insert(&mut buckets, 0, 5u32)?;
    let lending = lending_prints(rt.alloc(), &mut buckets);
    let taking = taking_prints(rt.alloc(), buckets);
    assert_same(&rt, (lending, taking), (true, true));
    Ok(())
}

/// Ids in buckets 0, 1, 2 and 7, and in both chunks of the last.
const IDS: [u32; 6] = [0, 2, 4, 130, 132, 197];

/// What a walk over values that are their ids gives. Beside each stands where it is then: how many
/// values it gave, the bucket and its size, and the next slot's number.
fn places() -> [(Option<u32>, &'static str); 7] {
    [
        (Some(0), "yielded: 1, bucket: 0, bucket_size: 1, index: 1"),
        (Some(2), "yielded: 2, bucket: 1, bucket_size: 2, index: 2"),
        (Some(4), "yielded: 3, bucket: 2, bucket_size: 4, index: 2"),
        (
            Some(130),
            "yielded: 4, bucket: 7, bucket_size: 128, index: 4",
        ),
        (
            Some(132),
            "yielded: 5, bucket: 7, bucket_size: 128, index: 6",
        ),
        (
            Some(197),
            "yielded: 6, bucket: 7, bucket_size: 128, index: 71",
        ),
        (None, "yielded: 6, bucket: 7, bucket_size: 128, index: 71"),
    ]
}

/// Whether a walk prints its name and this place.
fn is_at<W: fmt::Debug>(walk: &W, alloc: Global, name: &str, place: &str) -> bool {
    match format!(in alloc; "{name} {{ raw: RawIter {{ {place} }} }}") {
        Ok(text) => prints(walk, alloc, text.as_str()),
        Err(_) => false,
    }
}

/// Whether a walk prints where it is behind each value, and once more behind the last at its end.
fn taking_prints_each(alloc: Global, buckets: Buckets<u32>) -> bool {
    let mut walk = buckets.into_iter();
    let mut fits = true;
    for (id, place) in places() {
        fits &= walk.next() == id && is_at(&walk, alloc, "IntoIter", place);
    }
    fits
}

/// The same of a walk that lends.
fn lending_prints_each(alloc: Global, buckets: &mut Buckets<u32>) -> bool {
    let mut walk = buckets.iter_mut();
    let mut fits = true;
    for (id, place) in places() {
        fits &= walk.next().copied() == id && is_at(&walk, alloc, "IterMut", place);
    }
    fits
}

#[test]
fn an_owners_walk_prints_where_it_is_in_each_bucket(rt: HostRuntime) -> Result<(), Fail> {
    let mut buckets = Buckets::new(rt.alloc());
    for id in IDS {
        insert(&mut buckets, id, id)?;
    }
    let lending = lending_prints_each(rt.alloc(), &mut buckets);
    let taking = taking_prints_each(rt.alloc(), buckets);
    assert_same(&rt, (lending, taking), (true, true));
    Ok(())
}
