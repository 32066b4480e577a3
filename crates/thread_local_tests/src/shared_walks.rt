//! Walks over tables that threads share.

use crate::numbers::publishes;
use crate::same::assert_same;
use std::alloc::Global;
use std::mem::forget;
use std::sync::Wait;
use std::test::Fail;
use thread_local::ThreadLocal;
use thread_local::local::Local;
use thread_local_buckets::CapacityError;
use thread_local_shared_buckets::{Entries, Iter};

/// Whether a walk gives these values and then none, and again none.
pub fn gives(mut walk: Iter<'_, u32>, expected: &[u32]) -> bool {
    gives_next(&mut walk, expected) && gives_none(&mut walk)
}

/// Whether a walk gives these values next.
fn gives_next(walk: &mut Iter<'_, u32>, expected: &[u32]) -> bool {
    for value in expected {
        if walk.next().copied() != Some(*value) {
            return false;
        }
    }
    true
}

/// Whether a walk gives none, and again none.
fn gives_none(walk: &mut Iter<'_, u32>) -> bool {
    walk.next().is_none() && walk.next().is_none()
}

/// Whether a walk tells no bound, and then gives a value.
fn goes_on(walk: &mut Iter<'_, u32>, value: u32) -> bool {
    walk.size_hint() == (0, None) && walk.next().copied() == Some(value)
}

/// Whether a walk tells no bound, and then gives none, and again none.
fn ends(walk: &mut Iter<'_, u32>) -> bool {
    walk.size_hint() == (0, None) && gives_none(walk)
}

/// The second of two `Local`s publishes 2, and the first 1 once a walk has passed it. Answers
/// whether that walk gives 2 alone, and the next one both.
fn publish_behind<R: Wait>(table: &ThreadLocal<u32>, rt: &R) -> Option<[bool; 5]> {
    let Ok(mut first) = table.local(rt) else {
        return None;
    };
    let Ok(mut second) = table.local(rt) else {
        return None;
    };
    let before = publishes(&mut second, 2);
    let mut walk = table.iter();
    Some([
        before,
        goes_on(&mut walk, 2),
        publishes(&mut first, 1),
        ends(&mut walk),
        gives(table.iter(), &[1, 2]),
    ])
}

#[test]
fn a_walk_gives_what_was_published_before_it_and_ahead_of_it(rt: HostRuntime) {
    let table = ThreadLocal::<u32>::new(rt.alloc());
    assert_same(&rt, publish_behind(&table, &rt), Some([true; 5]));
}

/// The first of two `Local`s publishes 1, and the second 2 once a walk has given 1. Answers whether
/// that walk gives both.
fn publish_ahead<R: Wait>(table: &ThreadLocal<u32>, rt: &R) -> Option<[bool; 5]> {
    let Ok(mut first) = table.local(rt) else {
        return None;
    };
    let Ok(mut second) = table.local(rt) else {
        return None;
    };
    let before = publishes(&mut first, 1);
    let mut walk = table.iter();
    Some([
        before,
        goes_on(&mut walk, 1),
        publishes(&mut second, 2),
        goes_on(&mut walk, 2),
        ends(&mut walk),
    ])
}

#[test]
fn a_walk_gives_what_is_published_ahead_of_it(rt: HostRuntime) {
    let table = ThreadLocal::<u32>::new(rt.alloc());
    assert_same(&rt, publish_ahead(&table, &rt), Some([true; 5]));
}

/// Two `Local`s publish 1 and 2. Answers whether they do, and the walk of the second gives both.
fn publish_two<R: Wait>(first: &mut Local<'_, u32, R>, second: &mut Local<'_, u32, R>) -> bool {
    publishes(first, 1) && publishes(second, 2) && gives(second.iter(), &[1, 2])
}

/// Whether the walk of a `Local` gives 1, 2 and 3.
fn gives_three<R: Wait>(local: &Local<'_, u32, R>) -> bool {
    gives(local.iter(), &[1, 2, 3])
}

/// How many values the walk of a new `Local` gives.
fn count_of_a_new_one<R: Wait>(table: &ThreadLocal<u32>, rt: &R) -> Option<usize> {
    let Ok(local) = table.local(rt) else {
        return None;
    };
    Some(local.iter().count())
}

/// Three `Local`s that are held at once publish 1, 2 and 3. Answers whether the walk of the second
/// gives its own value and the first's, then whether the third publishes and each walk gives all
/// three, and how many that of a fourth gives.
fn three_walk<R: Wait>(
    table: &ThreadLocal<u32>,
    rt: &R,
) -> Option<(bool, bool, [bool; 3], Option<usize>)> {
    let Ok(mut first) = table.local(rt) else {
        return None;
    };
    let Ok(mut second) = table.local(rt) else {
        return None;
    };
    let Ok(mut third) = table.local(rt) else {
        return None;
    };
    Some((
        publish_two(&mut first, &mut second),
        publishes(&mut third, 3),
        [
            gives_three(&first),
            gives_three(&second),
            gives_three(&third),
        ],
        count_of_a_new_one(table, rt),
    ))
}

#[test]
fn the_walk_of_a_local_gives_its_own_value_among_the_others(rt: HostRuntime) {
    let table = ThreadLocal::<u32>::new(rt.alloc());
    assert_same(
        &rt,
        three_walk(&table, &rt),
        Some((true, true, [true; 3], Some(3))),
    );
}

/// Whether this value was given with this id.
fn is_entry(found: Option<(usize, &u32)>, expected: (usize, u32)) -> bool {
    match found {
        Some((id, value)) => (id, *value) == expected,
        None => false,
    }
}

/// Whether a walk gives these values with their ids and then none, and again none.
fn gives_entries(mut walk: Entries<'_, u32>, expected: &[(usize, u32)]) -> bool {
    for entry in expected {
        if walk.size_hint() != (0, None) || !is_entry(walk.next(), *entry) {
            return false;
        }
    }
    walk.next().is_none() && walk.next().is_none()
}

/// Three `Local`s publish 1 to 3, the second last. Answers whether the walks of the table and of
/// the second give ids 0 and 2, then all three, and a walk that goes on with ids the rest.
fn three_entries<R: Wait>(table: &ThreadLocal<u32>, rt: &R) -> Option<[bool; 6]> {
    let Ok(mut first) = table.local(rt) else {
        return None;
    };
    let Ok(mut second) = table.local(rt) else {
        return None;
    };
    let Ok(mut third) = table.local(rt) else {
        return None;
    };
    let apart = publishes(&mut third, 3) && publishes(&mut first, 1);
    let two = gives_entries(table.entries(), &[(0, 1), (2, 3)]);
    let filled = publishes(&mut second, 2);
    let mut rest = table.iter();
    let begun = goes_on(&mut rest, 1);
    Some([
        apart,
        two,
        filled,
        gives_entries(table.entries(), &[(0, 1), (1, 2), (2, 3)])
            && gives_entries(second.iter().with_ids(), &[(0, 1), (1, 2), (2, 3)]),
        begun,
        gives_entries(rest.with_ids(), &[(1, 2), (2, 3)]),
    ])
}

#[test]
fn values_come_with_the_ids_of_their_slots(rt: HostRuntime) {
    let table = ThreadLocal::<u32>::new(rt.alloc());
    let before = gives_entries(table.entries(), &[]);
    assert_same(
        &rt,
        (before, three_entries(&table, &rt)),
        (true, Some([true; 6])),
    );
}

/// Whether the walks over a table, and those of a `Local`, give nothing.
fn all_give_none<R: Wait>(table: &ThreadLocal<u32>, rt: &R) -> bool {
    let Ok(local) = table.local(rt) else {
        return false;
    };
    gives(table.iter(), &[]) && gives(local.iter(), &[])
}

#[test]
fn a_table_without_values_gives_none(rt: HostRuntime) {
    let table = ThreadLocal::<u32>::new(rt.alloc());
    assert!(rt; all_give_none(&table, &rt));
}

/// The first `Local` of the eleventh bucket publishes a number, while those of the ten buckets before
/// it are forgotten. Answers its id, whether it published, and whether walks give that value alone.
fn publish_past_ten_buckets<R: Wait>(
    table: &ThreadLocal<u32>,
    rt: &R,
) -> Option<(usize, bool, bool, bool)> {
    for _ in 0..1023 {
        forget(table.local(rt).ok()?);
    }
    let Ok(mut local) = table.local(rt) else {
        return None;
    };
    Some((
        local.id(),
        publishes(&mut local, 5),
        gives(table.iter(), &[5]),
        gives_entries(table.entries(), &[(1023, 5)]),
    ))
}

#[test]
fn a_walk_passes_ten_missing_buckets(rt: HostRuntime) {
    let mut table = ThreadLocal::<u32>::new(rt.alloc());
    let found = publish_past_ten_buckets(&table, &rt);
    // No bucket but that of 1024 slots was made.
    assert_same(
        &rt,
        (found, table.slots()),
        (Some((1023, true, true, true)), 1024),
    );
}

/// Whether an owner's walk has one value to give, and gives this one.
fn lends_one(table: &mut ThreadLocal<u32>, value: u32) -> bool {
    let mut values = table.iter_mut();
    values.len() == 1 && values.next().copied() == Some(value)
}

/// Whether no value is left once they are drained, and this one comes out.
fn drains_one(table: &mut ThreadLocal<u32>, value: u32) -> bool {
    let drained = table.drain().next() == Some(value);
    drained && gives(table.iter(), &[])
}

fn with_capacity(alloc: Global, capacity: usize) -> Result<ThreadLocal<u32>, CapacityError> {
    ThreadLocal::with_capacity(alloc, capacity)
}

#[test]
fn walks_find_a_value_in_a_reserved_bucket_behind_the_first_seven(
    rt: HostRuntime,
) -> Result<(), Fail> {
    let mut table = with_capacity(rt.alloc(), 2000)?;
    let found = publish_past_ten_buckets(&table, &rt);
    let slots = table.slots();
    let lent = lends_one(&mut table, 5);
    assert_same(
        &rt,
        (found, slots, lent, drains_one(&mut table, 5)),
        (Some((1023, true, true, true)), 2047, true, true),
    );
    Ok(())
}

/// Which of five ids this is, from 1 on. Each is the first of a bucket, of which the last two are the
/// eighth and the ninth.
fn number_of(id: usize) -> Option<u32> {
    match id {
        0 => Some(1),
        1 => Some(2),
        3 => Some(3),
        127 => Some(4),
        255 => Some(5),
        _ => None,
    }
}

/// Forgets a new `Local`, which publishes the number of its id first, if that has one. Answers
/// whether it did so.
fn publish_and_forget<R: Wait>(table: &ThreadLocal<u32>, rt: &R) -> bool {
    let Ok(mut local) = table.local(rt) else {
        return false;
    };
    let is_done = match number_of(local.id()) {
        Some(number) => publishes(&mut local, number),
        None => true,
    };
    forget(local);
    is_done
}

/// A table with the values 1 to 5 in five buckets.
fn in_five_buckets<R: Wait>(rt: &R, alloc: Global) -> Option<ThreadLocal<u32>> {
    let table = ThreadLocal::new(alloc);
    for _ in 0..256 {
        if !publish_and_forget(&table, rt) {
            return None;
        }
    }
    Some(table)
}

/// The values that a `for` loop gives, as digits.
fn digits(table: &ThreadLocal<u32>) -> u32 {
    let mut digits = 0u32;
    for number in table {
        digits = digits.wrapping_mul(10).wrapping_add(*number);
    }
    digits
}

/// The same of a loop by `&mut`, which then adds one to each.
fn digits_and_one(table: &mut ThreadLocal<u32>) -> u32 {
    let mut digits = 0u32;
    for number in table {
        digits = digits.wrapping_mul(10).wrapping_add(*number);
        *number = number.wrapping_add(1);
    }
    digits
}

/// The same of a loop by value.
fn moved_digits(table: ThreadLocal<u32>) -> u32 {
    let mut digits = 0u32;
    for number in table {
        digits = digits.wrapping_mul(10).wrapping_add(number);
    }
    digits
}

#[test]
fn loops_go_over_all_buckets(rt: HostRuntime) {
    let mut table = in_five_buckets(&rt, rt.alloc()).expect(&rt, "a table");
    let shared = digits(&table);
    let lent = digits_and_one(&mut table);
    assert_same(
        &rt,
        (shared, lent, moved_digits(table)),
        (12345, 12345, 23456),
    );
}
