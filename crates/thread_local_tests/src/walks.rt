//! Walks of an owner.

use crate::numbers::{publish_held, publishes};
use crate::same::assert_same;
use crate::shared_walks::gives;
use std::sync::Wait;
use std::thread;
use std::thread::Threads;
use thread_local::ThreadLocal;
use thread_local_base::LocalError;
use thread_local_buckets::{IntoIter, IterMut};

/// Three `Local`s that were taken in order publish 1, 2 and 3, each in a thread of its own, which
/// the end of the scope joins. Answers whether the threads were started.
fn publish_apart<R: Threads + Wait + Sync>(
    table: &ThreadLocal<u32>,
    rt: &R,
) -> Result<bool, LocalError> {
    let mut first = table.local(rt)?;
    let mut second = table.local(rt)?;
    let mut third = table.local(rt)?;
    let mut started = true;
    thread::scope(thread::scope_env(), rt, |scope| {
        started &= scope.spawn(move || publishes(&mut third, 3)).is_ok();
        started &= scope.spawn(move || publishes(&mut second, 2)).is_ok();
        started &= scope.spawn(move || publishes(&mut first, 1)).is_ok();
    });
    Ok(started)
}

/// Whether a walk says how many values are left, and then gives this one, or none.
fn lends(values: &mut IterMut<'_, u32>, left: usize, value: Option<u32>) -> bool {
    values.len() == left
        && values.size_hint() == (left, Some(left))
        && values.next().map(|there| *there) == value
}

/// Whether a walk gives these values, and says before each how many are left, and then gives none.
fn is_lent(mut values: IterMut<'_, u32>, expected: &[(usize, u32)]) -> bool {
    for (left, value) in expected {
        if !lends(&mut values, *left, Some(*value)) {
            return false;
        }
    }
    lends(&mut values, 0, None) && values.next().is_none()
}

/// The same of a walk that moves the values out: what it says and gives.
fn moves_out(values: &mut IntoIter<u32>, left: usize, value: Option<u32>) -> bool {
    values.len() == left && values.size_hint() == (left, Some(left)) && values.next() == value
}

/// And whether it gives these values.
fn is_moved_out(mut values: IntoIter<u32>, expected: &[(usize, u32)]) -> bool {
    for (left, value) in expected {
        if !moves_out(&mut values, *left, Some(*value)) {
            return false;
        }
    }
    moves_out(&mut values, 0, None) && values.next().is_none()
}

#[test]
fn values_of_three_threads_are_walked_in_the_order_of_ids(rt: HostRuntime) {
    let mut table = ThreadLocal::<u32>::new(rt.alloc());
    let started = publish_apart(&table, &rt);
    let shared = gives(table.iter(), &[1, 2, 3]);
    let lent = is_lent(table.iter_mut(), &[(3, 1), (2, 2), (1, 3)]);
    let moved_out = is_moved_out(table.into_iter(), &[(3, 1), (2, 2), (1, 3)]);
    assert_same(
        &rt,
        (started, shared, lent, moved_out),
        (Ok(true), true, true, true),
    );
}

/// Ten times each value.
fn multiply(table: &mut ThreadLocal<u32>) {
    for value in table {
        *value = value.wrapping_mul(10);
    }
}

#[test]
fn values_are_changed_in_place(rt: HostRuntime) {
    let mut table = ThreadLocal::<u32>::new(rt.alloc());
    let published = publish_held(&table, &rt, rt.alloc(), 3);
    multiply(&mut table);
    let moved_out = is_moved_out(table.into_iter(), &[(3, 10), (2, 20), (1, 30)]);
    assert_same(&rt, (published, moved_out), (true, true));
}

/// What a walk gives first, which then ends.
fn first_lent(table: &mut ThreadLocal<u32>) -> Option<u32> {
    table.iter_mut().next().map(|there| *there)
}

#[test]
fn a_walk_that_ends_early_leaves_the_values(rt: HostRuntime) {
    let mut table = ThreadLocal::<u32>::new(rt.alloc());
    let published = publish_held(&table, &rt, rt.alloc(), 3);
    let first = first_lent(&mut table);
    let lent = is_lent(table.iter_mut(), &[(3, 1), (2, 2), (1, 3)]);
    assert_same(&rt, (published, first, lent), (true, Some(1), true));
}
