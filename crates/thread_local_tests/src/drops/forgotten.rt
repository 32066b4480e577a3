//! `Local`s and walks that are forgotten, and a walk that is dropped at once.

use super::{of_counted, publish};
use crate::same::{assert_same, no_drop};
use std::mem::forget;
use std::sync::Wait;
use thread_local::ThreadLocal;
use thread_local_test_helpers::counted::{Counted, Drops, dropped};

/// `Local`s each publish a counted value and are forgotten, as many as are asked for. Answers
/// whether all did.
fn forget_after_publishing<R: Wait>(
    table: &ThreadLocal<Counted>,
    rt: &R,
    drops: &Drops,
    count: u64,
) -> bool {
    for _ in 0..count {
        let Ok(mut local) = table.local(rt) else {
            return false;
        };
        if !publish(&mut local, drops) {
            return false;
        }
        forget(local);
    }
    true
}

/// A `Local` finds nothing and publishes a counted value. Answers whether it did.
fn publish_afresh<R: Wait>(table: &ThreadLocal<Counted>, rt: &R, drops: &Drops) -> bool {
    let Ok(mut local) = table.local(rt) else {
        return false;
    };
    local.get().is_none() && publish(&mut local, drops)
}

/// How many slots a table has, and how many values.
fn counted(table: &mut ThreadLocal<Counted>) -> (usize, usize) {
    let slots = table.slots();
    (slots, table.iter_mut().len())
}

/// How many slots a table has, how many values, and how many were dropped.
fn all_counted(table: &mut ThreadLocal<Counted>, drops: &Drops) -> ((usize, usize), u64) {
    (counted(table), dropped(drops))
}

/// A thousand `Local`s that are forgotten publish in a table, which is cleared. Answers whether they
/// did, what was counted before and after, and the same of one that is taken then.
fn forget_a_thousand<R: Wait>(
    table: &mut ThreadLocal<Counted>,
    rt: &R,
    drops: &Drops,
) -> ([bool; 2], [((usize, usize), u64); 2], usize) {
    let published = forget_after_publishing(table, rt, drops, 1000);
    let before = all_counted(table, drops);
    table.clear();
    let after = all_counted(table, drops);
    let afresh = publish_afresh(table, rt, drops);
    ([published, afresh], [before, after], table.slots())
}

#[test]
fn a_thousand_forgotten_locals_keep_their_ids_until_the_table_is_cleared(rt: HostRuntime) {
    let drops = no_drop(&rt, rt.alloc());
    let mut table = of_counted(rt.alloc());
    assert_same(
        &rt,
        forget_a_thousand(&mut table, &rt, &drops),
        ([true; 2], [((1023, 1000), 0), ((0, 0), 1000)], 1),
    );
}

/// Three `Local`s that are forgotten publish in a table, and a walk over it is dropped at once.
/// Answers whether they did, and how many values were dropped then.
fn drop_a_walk<R: Wait>(table: ThreadLocal<Counted>, rt: &R, drops: &Drops) -> (bool, u64) {
    let published = forget_after_publishing(&table, rt, drops, 3);
    drop(table.into_iter());
    (published, dropped(drops))
}

#[test]
fn a_walk_that_is_dropped_at_once_drops_all_values(rt: HostRuntime) {
    let drops = no_drop(&rt, rt.alloc());
    assert_same(
        &rt,
        drop_a_walk(of_counted(rt.alloc()), &rt, &drops),
        (true, 3),
    );
}

/// Forgets a walk that has given the first value of a table.
fn forget_a_walk(table: ThreadLocal<Counted>) -> Option<Counted> {
    let mut values = table.into_iter();
    let first = values.next();
    forget(values);
    first
}

/// Three `Local`s that are forgotten publish in a table, and a walk over it is forgotten once it has
/// given a value, which is dropped. Answers whether there was one, and how many were dropped before
/// that and after.
fn drop_the_first<R: Wait>(
    table: ThreadLocal<Counted>,
    rt: &R,
    drops: &Drops,
) -> ([bool; 2], [u64; 2]) {
    let published = forget_after_publishing(&table, rt, drops, 3);
    let first = forget_a_walk(table);
    let given = first.is_some();
    let before = dropped(drops);
    drop(first);
    ([published, given], [before, dropped(drops)])
}

#[test]
fn a_forgotten_walk_drops_nothing(rt: HostRuntime) {
    let drops = no_drop(&rt, rt.alloc());
    assert_same(
        &rt,
        drop_the_first(of_counted(rt.alloc()), &rt, &drops),
        ([true; 2], [0, 1]),
    );
}

/// Forgets a lending walk that has given a value. Answers whether it did.
fn forget_a_lending_walk(table: &mut ThreadLocal<Counted>) -> bool {
    let mut values = table.iter_mut();
    let given = values.next().is_some();
    forget(values);
    given
}

/// The same of a lending walk: whether it gave a value, how many are left, and how many were dropped.
fn lend_the_first<R: Wait>(
    table: &mut ThreadLocal<Counted>,
    rt: &R,
    drops: &Drops,
) -> ([bool; 2], usize, u64) {
    let published = forget_after_publishing(table, rt, drops, 3);
    let given = forget_a_lending_walk(table);
    let left = counted(table).1;
    ([published, given], left, dropped(drops))
}

#[test]
fn a_forgotten_lending_walk_leaves_all_values(rt: HostRuntime) {
    let drops = no_drop(&rt, rt.alloc());
    let mut table = of_counted(rt.alloc());
    assert_same(
        &rt,
        lend_the_first(&mut table, &rt, &drops),
        ([true; 2], 3, 0),
    );
}

/// A `Local` is forgotten. Answers whether it was taken.
fn forget_at_once<R: Wait>(table: &ThreadLocal<Counted>, rt: &R) -> bool {
    match table.local(rt) {
        Ok(local) => {
            forget(local);
            true
        }
        Err(_) => false,
    }
}

/// A `Local` is forgotten, and another publishes. Answers whether each did, and how many slots there
/// were before and after the second.
fn forget_one_and_publish<R: Wait>(
    table: &mut ThreadLocal<Counted>,
    rt: &R,
    drops: &Drops,
) -> ([bool; 2], [usize; 2]) {
    let forgotten = forget_at_once(table, rt);
    let slots = table.slots();
    let afresh = publish_afresh(table, rt, drops);
    ([forgotten, afresh], [slots, table.slots()])
}

#[test]
fn a_forgotten_local_that_published_nothing_has_no_slot(rt: HostRuntime) {
    let drops = no_drop(&rt, rt.alloc());
    let mut table = of_counted(rt.alloc());
    assert_same(
        &rt,
        forget_one_and_publish(&mut table, &rt, &drops),
        ([true; 2], [0, 2]),
    );
}
