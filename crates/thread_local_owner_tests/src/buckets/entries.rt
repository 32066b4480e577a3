//! What the walks give that go by ids and values.

use super::insert;
use super::walks::{has_left, steps, three};
use crate::same::assert_same;
use std::alloc::{AllocError, Global};
use std::test::Fail;
use thread_local_buckets::{Buckets, IntoEntries};
use thread_local_test_helpers::printed::prints;

/// Whether a walk gives three values with their ids, counted down, and then nothing for good.
fn gives(walk: IntoEntries<u32>, entries: [(usize, u32); 3]) -> bool {
    let mut walk = walk;
    let mut fits = true;
    for (left, entry) in steps(entries) {
        fits &= has_left(&walk, left) && walk.next() == entry;
    }
    fits
}

/// The same of a walk that lends.
fn lends(buckets: &mut Buckets<u32>, entries: [(usize, u32); 3]) -> bool {
    let mut walk = buckets.entries_mut();
    let mut fits = true;
    for (left, entry) in steps(entries) {
        fits &= has_left(&walk, left) && walk.next().map(|(id, there)| (id, *there)) == entry;
    }
    fits
}

/// Whether both walks give the values 1, 2, 3 with their ids.
fn both_give(alloc: Global, ids: [u32; 3]) -> Result<bool, AllocError> {
    let mut buckets = three(alloc, ids)?;
    let [first, second, third] = ids.map(|id| id as usize);
    let entries = [(first, 1), (second, 2), (third, 3)];
    Ok(lends(&mut buckets, entries) && gives(buckets.into_entries(), entries))
}

#[test]
fn entries_have_the_ids_of_their_values(rt: HostRuntime) -> Result<(), Fail> {
    for ids in [[0, 1, 2], [0, 1234, 100000], [62, 63, 126], [190, 191, 254]] {
        assert!(rt; both_give(rt.alloc(), ids)?);
    }
    Ok(())
}

/// The first ids that both walks give, of values of any type.
fn first_ids<T: Drop>(mut buckets: Buckets<T>) -> (Option<usize>, Option<usize>) {
    let lent = buckets.entries_mut().next().map(|(id, _)| id);
    (lent, buckets.into_entries().next().map(|(id, _)| id))
}

#[test]
fn values_of_any_type_have_ids(rt: HostRuntime) -> Result<(), Fail> {
    let mut texts = Buckets::new(rt.alloc());
    insert(&mut texts, 77, String::from_str(rt.alloc(), "seven")?)?;
    let none = first_ids(Buckets::<String>::new(rt.alloc()));
    assert_same(
        &rt,
        (first_ids(texts), none),
        ((Some(77), Some(77)), (None, None)),
    );
    Ok(())
}

/// Adds each value's id to it.
fn add_ids(buckets: &mut Buckets<u32>) {
    for (id, value) in buckets.entries_mut() {
        *value = value.saturating_add(u32::try_from(id).unwrap_or(0));
    }
}

#[test]
fn what_is_written_by_id_stays(rt: HostRuntime) -> Result<(), Fail> {
    let mut buckets = three(rt.alloc(), [0, 70, 1234])?;
    add_ids(&mut buckets);
    assert!(rt; gives(buckets.into_entries(), [(0, 1), (70, 72), (1234, 1237)]));
    Ok(())
}

const TAKEN: &str =
    "IntoEntries { raw: RawIter { yielded: 1, bucket: 0, bucket_size: 1, index: 1 } }";

const LENT: &str =
    "EntriesMut { raw: RawIter { yielded: 1, bucket: 0, bucket_size: 1, index: 1 } }";

/// Whether a walk over the value 5 at id 0 prints its cursor behind it.
fn taking_prints(alloc: Global, buckets: Buckets<u32>) -> bool {
    let mut walk = buckets.into_entries();
    walk.next() == Some((0, 5)) && prints(&walk, alloc, TAKEN)
}

/// The same of a walk that lends.
fn lending_prints(alloc: Global, buckets: &mut Buckets<u32>) -> bool {
    let mut walk = buckets.entries_mut();
    walk.next().is_some() && prints(&walk, alloc, LENT)
}

#[test]
fn entries_print_their_cursor(rt: HostRuntime) -> Result<(), Fail> {
    let mut buckets = Buckets::new(rt.alloc());
    insert(&mut buckets, 0, 5u32)?;
    let lending = lending_prints(rt.alloc(), &mut buckets);
    let taking = taking_prints(rt.alloc(), buckets);
    assert_same(&rt, (lending, taking), (true, true));
    Ok(())
}
