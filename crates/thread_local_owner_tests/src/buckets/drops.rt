//! Each value is dropped once, where the contracts leave it to be dropped, and blocks are freed.

use super::drains::dropped;
use super::insert;
use super::walks::three as three_numbers;
use crate::same::assert_same;
use std::alloc::{AllocError, Global};
use std::fs;
use std::fs::{Files, OpenOptions};
use std::io::Write;
use std::mem::forget;
use std::sync::atomic::AtomicU64;
use std::sync::atomic::Ordering::SeqCst;
use std::test::Fail;
use thread_local_base::Thread;
use thread_local_buckets::Buckets;
use thread_local_test_helpers::memory::take_all_but;

struct Counted<'a> {
    number: u32,
    drops: &'a AtomicU64,
}

impl Drop for Counted<'_> {
    fn drop(self) {
        let Counted { number: _, drops } = self;
        drops.fetch_add(1, SeqCst);
    }
}

/// Counted values 0, 1 and 2, each at its own number's id.
fn three(alloc: Global, drops: &AtomicU64) -> Result<Buckets<Counted<'_>>, AllocError> {
    let mut buckets = Buckets::new(alloc);
    for number in 0..3u32 {
        insert(&mut buckets, number, Counted { number, drops })?;
    }
    Ok(buckets)
}

/// The number of the value that a walk lends first.
fn first_number(buckets: &mut Buckets<Counted<'_>>) -> Option<u32> {
    buckets.iter_mut().next().map(|value| value.number)
}

/// The slots of a table with a value, the value's number and how many drops there are.
fn seen_of_one(alloc: Global, drops: &AtomicU64) -> Result<(usize, Option<u32>, u64), AllocError> {
    let mut buckets = Buckets::new(alloc);
    insert(&mut buckets, 1234, Counted { number: 7, drops })?;
    let number = first_number(&mut buckets);
    Ok((buckets.slots(), number, drops.load(SeqCst)))
}

#[test]
fn a_table_drops_its_values(rt: HostRuntime) -> Result<(), Fail> {
    let drops = AtomicU64::new(0);
    let seen = seen_of_one(rt.alloc(), &drops)?;
    assert_same(&rt, (seen, drops.load(SeqCst)), ((1024, Some(7), 0), 1));
    Ok(())
}

/// The number of the value that stands at id 0 once this one was inserted there.
fn stands_first<'a>(buckets: &mut Buckets<Counted<'a>>, value: Counted<'a>) -> Option<u32> {
    let stands = buckets.insert(Thread::new(0), value);
    stands.map(|stands| stands.number).ok()
}

#[test]
fn a_second_value_is_dropped(rt: HostRuntime) {
    let drops = AtomicU64::new(0);
    let mut buckets = Buckets::new(rt.alloc());
    for number in [0, 1u32] {
        let drops = &drops;
        let stands = stands_first(&mut buckets, Counted { number, drops });
        assert_same(
            &rt,
            (stands, drops.load(SeqCst)),
            (Some(0), u64::from(number)),
        );
    }
    drop(buckets);
    assert_same(&rt, drops.load(SeqCst), 2);
}

#[test]
fn clear_drops_each_value(rt: HostRuntime) -> Result<(), Fail> {
    let drops = AtomicU64::new(0);
    let mut buckets = three(rt.alloc(), &drops)?;
    buckets.clear();
    let cleared = drops.load(SeqCst);
    drop(buckets);
    assert_same(&rt, (cleared, drops.load(SeqCst)), (3, 3));
    Ok(())
}

/// The number of the value that a walk gives first, and how many drops there are when the walk is
/// dropped and the value isn't.
fn dropped_after_one(alloc: Global, drops: &AtomicU64) -> Result<(Option<u32>, u64), AllocError> {
    let mut walk = three(alloc, drops)?.into_iter();
    let first = walk.next();
    drop(walk);
    let number = first.as_ref().map(|value| value.number);
    Ok((number, drops.load(SeqCst)))
}

#[test]
fn a_walk_drops_what_it_has_not_given(rt: HostRuntime) -> Result<(), Fail> {
    let drops = AtomicU64::new(0);
    drop(three(rt.alloc(), &drops)?.into_iter());
    assert_same(&rt, drops.load(SeqCst), 3);

    let drops = AtomicU64::new(0);
    let seen = dropped_after_one(rt.alloc(), &drops)?;
    assert_same(&rt, (seen, drops.load(SeqCst)), ((Some(0), 2), 3));
    Ok(())
}

#[test]
fn a_walk_that_ends_within_a_chunk_drops_the_rest(rt: HostRuntime) -> Result<(), Fail> {
    let drops = AtomicU64::new(0);
    let mut buckets = Buckets::new(rt.alloc());
    for number in 0..200 {
        let drops = &drops;
        insert(&mut buckets, number, Counted { number, drops })?;
    }
    let mut walk = buckets.into_iter();
    let mut in_order = true;
    for number in 0..150 {
        in_order &= walk.next().is_some_and(|value| value.number == number);
    }
    let given = drops.load(SeqCst);
    drop(walk);
    assert_same(&rt, (in_order, given, drops.load(SeqCst)), (true, 150, 200));
    Ok(())
}

/// How many drops there are when a walk is forgotten, and its first value isn't dropped.
fn dropped_by_a_forgotten_walk(alloc: Global, drops: &AtomicU64) -> Result<u64, AllocError> {
    let mut walk = three(alloc, drops)?.into_iter();
    let _first = walk.next();
    forget(walk);
    Ok(drops.load(SeqCst))
}

#[test]
fn a_forgotten_walk_drops_nothing(rt: HostRuntime) -> Result<(), Fail> {
    let drops = AtomicU64::new(0);
    let forgotten = dropped_by_a_forgotten_walk(rt.alloc(), &drops)?;
    assert_same(&rt, (forgotten, drops.load(SeqCst)), (0, 1));
    Ok(())
}

/// The number of the value that a drain gives first, and how many drops there are when the drain is
/// dropped and the value isn't.
fn drained_after_one(buckets: &mut Buckets<Counted<'_>>, drops: &AtomicU64) -> (Option<u32>, u64) {
    let first = buckets.drain().next();
    let number = first.as_ref().map(|value| value.number);
    (number, drops.load(SeqCst))
}

#[test]
fn a_drain_drops_what_it_has_not_given(rt: HostRuntime) -> Result<(), Fail> {
    let drops = AtomicU64::new(0);
    let mut buckets = three(rt.alloc(), &drops)?;
    let seen = drained_after_one(&mut buckets, &drops);
    let given = drops.load(SeqCst);
    drop(buckets);
    assert_same(&rt, (seen, given, drops.load(SeqCst)), ((Some(0), 2), 3, 3));
    Ok(())
}

/// How many drops there are before each value of a drain is dropped, added up.
fn drops_before_each(buckets: &mut Buckets<Counted<'_>>, drops: &AtomicU64) -> u64 {
    let mut before = 0u64;
    for value in buckets.drain() {
        before = before.saturating_add(drops.load(SeqCst));
        drop(value);
    }
    before
}

#[test]
fn a_drain_gives_each_value_once(rt: HostRuntime) -> Result<(), Fail> {
    let drops = AtomicU64::new(0);
    let mut buckets = three(rt.alloc(), &drops)?;
    let before = drops_before_each(&mut buckets, &drops);
    let given = drops.load(SeqCst);
    drop(buckets);
    assert_same(&rt, (before, given, drops.load(SeqCst)), (1 + 2, 3, 3));
    Ok(())
}

/// How many drops there are when a drain is forgotten, and its first value isn't dropped.
fn dropped_by_a_forgotten_drain(buckets: &mut Buckets<Counted<'_>>, drops: &AtomicU64) -> u64 {
    let mut walk = buckets.drain();
    let _first = walk.next();
    forget(walk);
    drops.load(SeqCst)
}

#[test]
fn a_forgotten_drain_drops_nothing(rt: HostRuntime) -> Result<(), Fail> {
    let drops = AtomicU64::new(0);
    let mut buckets = three(rt.alloc(), &drops)?;
    let forgotten = dropped_by_a_forgotten_drain(&mut buckets, &drops);
    let given = drops.load(SeqCst);
    drop(buckets);
    assert_same(&rt, (forgotten, given, drops.load(SeqCst)), (0, 1, 3));
    Ok(())
}

/// A value without bytes. Each drop writes one byte to a file, since there is no room for a
/// counter.
struct Noted<R: Files + Drop> {
    rt: R,
}

const NOTES: &str = "drops_of_values_without_bytes";

impl<R: Files + Drop> Drop for Noted<R> {
    fn drop(self) {
        let Noted { rt } = self;
        if let Ok(mut file) = OpenOptions::new()
            .append(true)
            .create(true)
            .open(&rt, NOTES)
        {
            let _written = file.write_all(b"x").is_ok();
        }
    }
}

/// Inserts four values without bytes at three ids, and answers how many slots there are and how
/// many values.
fn four_noted<R: Files + Drop + Copy>(
    rt: R,
    buckets: &mut Buckets<Noted<R>>,
) -> Result<(usize, usize), AllocError> {
    for id in [0, 5, 5, 70u32] {
        insert(buckets, id, Noted { rt })?;
    }
    Ok((buckets.slots(), buckets.iter_mut().len()))
}

/// Forgets the first of the values, and drops the others.
fn drop_but_the_first<R: Files + Drop>(buckets: Buckets<Noted<R>>) {
    let mut walk = buckets.into_iter();
    forget(walk.next());
}

#[test]
fn values_without_bytes_are_dropped_once(rt: HostRuntime) -> Result<(), Fail> {
    assert_same(&rt, size_of::<Noted<HostRuntime>>(), 0);
    fs::write(&rt, NOTES, "")?;
    let mut buckets = Buckets::new(rt.alloc());
    assert_same(&rt, four_noted(rt, &mut buckets)?, (1 + 4 + 64, 3));
    assert_same(&rt, fs::read(&rt, NOTES)?.len(), 1);
    drop_but_the_first(buckets);
    assert_same(&rt, fs::read(&rt, NOTES)?.len(), 3);
    fs::remove_file(&rt, NOTES)?;
    Ok(())
}

// A thousand tables take 8 MiB each, where no more than 128 of them can be had at a time. Large values
// in few slots, since each slot costs time.
#[test]
fn blocks_are_freed(rt: HostRuntime) -> Result<(), Fail> {
    let _taken = take_all_but(rt.alloc(), 1 << 30)?;
    for _ in 0..1000 {
        let mut buckets = Buckets::<[u64; 512]>::with_capacity(rt.alloc(), 2047)?;
        assert_same(&rt, buckets.slots(), 2047);
    }
    Ok(())
}

/// The first value of a drain that is forgotten then.
fn first_of_forgotten(buckets: &mut Buckets<u32>) -> Option<u32> {
    let mut walk = buckets.drain();
    let first = walk.next();
    forget(walk);
    first
}

#[test]
fn a_forgotten_drain_leaves_what_it_has_not_given(rt: HostRuntime) -> Result<(), Fail> {
    let mut buckets = three_numbers(rt.alloc(), [0, 70, 1234])?;
    let first = first_of_forgotten(&mut buckets);
    let left = (dropped(&mut buckets), first_of_forgotten(&mut buckets));
    assert_same(&rt, (first, left), (Some(1), (2, None)));
    Ok(())
}
