//! Values are dropped with their table, once each, and its memory is freed.

mod forgotten;

use crate::same::{assert_same, no_drop};
use std::alloc::Global;
use std::mem::forget;
use std::sync::Wait;
use thread_local::ThreadLocal;
use thread_local::local::Local;
use thread_local_base::judge_sync;
use thread_local_test_helpers::counted::{Counted, Drops, dropped};
use thread_local_test_helpers::memory::take_all_but;

/// A table of values that count their drops.
fn of_counted(alloc: Global) -> ThreadLocal<Counted> {
    judge_sync::<Counted>();
    ThreadLocal::new(alloc)
}

/// Publishes a counted value. Answers whether it did.
fn publish<R: Wait>(local: &mut Local<'_, Counted, R>, drops: &Drops) -> bool {
    match Counted::new(drops) {
        Ok(value) => local.get_or(|| value).is_ok(),
        Err(_) => false,
    }
}

/// `Local`s that are held at once each publish a counted value, as many as are asked for. Answers
/// whether none was refused.
fn publish_counted<R: Wait>(
    table: &ThreadLocal<Counted>,
    rt: &R,
    alloc: Global,
    drops: &Drops,
    count: u64,
) -> bool {
    let mut locals = Vec::new(alloc);
    for _ in 0..count {
        let Ok(mut local) = table.local(rt) else {
            return false;
        };
        if !publish(&mut local, drops) || locals.push(local).is_err() {
            return false;
        }
    }
    true
}

/// How many drops were counted after a value was published, and after its table was dropped.
fn drop_a_table<R: Wait>(rt: &R, alloc: Global, drops: &Drops) -> (bool, [u64; 2]) {
    let table = of_counted(alloc);
    let published = publish_counted(&table, rt, alloc, drops, 1);
    let before = dropped(drops);
    drop(table);
    (published, [before, dropped(drops)])
}

#[test]
fn a_value_is_dropped_with_its_table(rt: HostRuntime) {
    let drops = no_drop(&rt, rt.alloc());
    assert_same(&rt, drop_a_table(&rt, rt.alloc(), &drops), (true, [0, 1]));
}

/// How many drops were counted after a walk over three values that ended with the first, and after
/// that one was dropped.
fn walk_to_the_first<R: Wait>(rt: &R, alloc: Global, drops: &Drops) -> (bool, [u64; 2]) {
    let table = of_counted(alloc);
    let published = publish_counted(&table, rt, alloc, drops, 3);
    let first = table.into_iter().next();
    let before = dropped(drops);
    drop(first);
    (published, [before, dropped(drops)])
}

#[test]
fn a_walk_that_ends_early_drops_the_values_that_it_has_not_given(rt: HostRuntime) {
    let drops = no_drop(&rt, rt.alloc());
    assert_same(
        &rt,
        walk_to_the_first(&rt, rt.alloc(), &drops),
        (true, [2, 3]),
    );
}

/// How many values were dropped after a clear, and how many slots it leaves.
fn clear(table: &mut ThreadLocal<Counted>, drops: &Drops) -> (u64, usize) {
    table.clear();
    (dropped(drops), table.slots())
}

/// A table with a capacity of three, or none where memory is out.
fn of_three_counted(alloc: Global) -> Option<ThreadLocal<Counted>> {
    judge_sync::<Counted>();
    ThreadLocal::with_capacity(alloc, 3).ok()
}

/// Publishes three values, clears the table, publishes one more, and drops it. Answers what the
/// clear leaves, and how many drops were counted at last.
fn clear_and_drop<R: Wait>(
    mut table: ThreadLocal<Counted>,
    rt: &R,
    alloc: Global,
    drops: &Drops,
) -> ([bool; 2], (u64, usize), u64) {
    let published = publish_counted(&table, rt, alloc, drops, 3);
    let cleared = clear(&mut table, drops);
    let again = publish_counted(&table, rt, alloc, drops, 1);
    drop(table);
    ([published, again], cleared, dropped(drops))
}

#[test]
fn clearing_drops_each_value_and_keeps_the_reserved_slots(rt: HostRuntime) {
    let drops = no_drop(&rt, rt.alloc());
    let table = of_three_counted(rt.alloc()).expect(&rt, "a table");
    assert_same(
        &rt,
        clear_and_drop(table, &rt, rt.alloc(), &drops),
        ([true; 2], (3, 3), 4),
    );
}

// These tables would hold more than 8 GB together if none were freed, where 1 GiB can be had. Large
// values in few slots, since each slot costs time.
#[test]
fn a_thousand_large_tables_are_freed(rt: HostRuntime) {
    let taken = take_all_but(rt.alloc(), 1 << 30).expect(&rt, "memory for the list");
    assert!(rt; are_made_and_dropped(rt.alloc(), 1000));
    drop(taken);
}

/// Makes large tables and drops each, as many as are asked for. Answers whether none was refused.
fn are_made_and_dropped(alloc: Global, count: u64) -> bool {
    judge_sync::<[u64; 512]>();
    for _ in 0..count {
        if ThreadLocal::<[u64; 512]>::with_capacity(alloc, 2047).is_err() {
            return false;
        }
    }
    true
}

// Where 1 GiB can be had, the table's largest buckets are refused, and those before them take half of
// it and more. Where they weren't freed, the block at the end wouldn't be had.
#[test]
fn a_refused_capacity_frees_its_buckets(rt: HostRuntime) {
    let taken = take_all_but(rt.alloc(), 1 << 30).expect(&rt, "memory for the list");
    assert!(rt; is_refused_and_freed(rt.alloc()));
    drop(taken);
}

/// Whether a table is refused, and three quarters of a GiB are had then.
fn is_refused_and_freed(alloc: Global) -> bool {
    judge_sync::<[u64; 512]>();
    let refused = ThreadLocal::<[u64; 512]>::with_capacity(alloc, (1 << 20) - 1).is_err();
    refused && Vec::<u8>::with_capacity(alloc, 3 << 28).is_ok()
}

/// Publishes a value in a table of its own, and drops the table. Answers whether the table had one
/// value. At a type with references in it the check doesn't find that `new` is given a judged type,
/// but in a function that is generic as this one it does.
fn pass_through_a_table<U: Send + Sync + Drop, R: Wait>(rt: &R, alloc: Global, value: U) -> bool {
    let table = ThreadLocal::new(alloc);
    let Ok(mut local) = table.local(rt) else {
        return false;
    };
    let is_set = local.set(value).is_ok();
    drop(local);
    is_set && table.into_iter().len() == 1
}

/// Passes the first of two `Local`s, which has published 5, through another table. Answers the id of
/// the second, whether the other table had the first, and what the next `Local` has.
fn pass_the_first<R: Wait + Sync>(
    numbers: &ThreadLocal<u64>,
    rt: &R,
    alloc: Global,
) -> Option<(usize, bool, (usize, Option<u64>))> {
    let Ok(mut kept) = numbers.local(rt) else {
        return None;
    };
    kept.get_or(|| 5).ok()?;
    let Ok(beside) = numbers.local(rt) else {
        return None;
    };
    let passed = pass_through_a_table(rt, alloc, kept);
    Some((beside.id(), passed, next(numbers, rt)?))
}

/// The id of a new `Local`, and its value.
fn next<R: Wait>(numbers: &ThreadLocal<u64>, rt: &R) -> Option<(usize, Option<u64>)> {
    let Ok(next) = numbers.local(rt) else {
        return None;
    };
    Some((next.id(), next.get().copied()))
}

#[test]
fn a_table_drops_the_locals_that_it_keeps(rt: HostRuntime) {
    let numbers = ThreadLocal::new(rt.alloc());
    assert_same(
        &rt,
        pass_the_first(&numbers, &rt, rt.alloc()),
        Some((1, true, (0, Some(5)))),
    );
}
