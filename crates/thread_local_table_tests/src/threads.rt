//! Threads use one table, and `Local`s move between them.

use crate::locals::{found, lends, numbers, published};
use crate::same::assert_same;
use std::mem::forget;
use std::sync::Wait;
use std::sync::atomic::Ordering::SeqCst;
use std::sync::atomic::{AtomicBool, AtomicU32};
use std::test::Fail;
use std::thread;
use std::thread::Threads;
use thread_local::ThreadLocal;
use thread_local::local::Local;
use thread_local_test_helpers::signals::is_seen;

/// What `get`, `get_or` and `get` answer, where the closure answers how often it was called before.
fn found_made_found<R: Wait>(
    local: &mut Local<'_, u32, R>,
    calls: &AtomicU32,
) -> (Option<u32>, Option<u32>, Option<u32>) {
    let before = local.get().copied();
    let made = local.get_or(|| calls.fetch_add(1, SeqCst)).ok().copied();
    (before, made, local.get().copied())
}

/// The same of a `Local` of its own.
fn of_its_own<R: Wait>(
    table: &ThreadLocal<u32>,
    rt: &R,
    calls: &AtomicU32,
) -> (Option<u32>, Option<u32>, Option<u32>) {
    match table.local(rt) {
        Ok(mut local) => found_made_found(&mut local, calls),
        Err(_) => (None, None, None),
    }
}

/// What a `Local` is answered, what one of another thread is then, and what the first is again.
fn beside_another<R: Threads + Wait + Sync>(
    table: &ThreadLocal<u32>,
    rt: &R,
) -> Option<[(Option<u32>, Option<u32>, Option<u32>); 3]> {
    let calls = AtomicU32::new(0);
    let mut local = table.local(rt).ok()?;
    let first = found_made_found(&mut local, &calls);
    let (second, _) = thread::join(rt, || of_its_own(table, rt, &calls), || ());
    Some([first, second, found_made_found(&mut local, &calls)])
}

#[test]
fn each_thread_has_its_own_value(rt: HostRuntime) {
    let table = numbers(rt.alloc());
    assert_same(
        &rt,
        beside_another(&table, &rt),
        Some([
            (None, Some(0), Some(0)),
            (None, Some(1), Some(1)),
            (Some(0), Some(0), Some(0)),
        ]),
    );
}

/// Publishes 3, and hands the `Local` back.
fn publish_three<'a, R: Wait>(mut local: Local<'a, u32, R>) -> Local<'a, u32, R> {
    let _published = published(&mut local, 3);
    local
}

#[test]
fn a_local_moves_to_another_thread_and_back(rt: HostRuntime) -> Result<(), Fail> {
    let table = numbers(rt.alloc());
    let local = table.local(&rt)?;
    let (local, _) = thread::join(&rt, || publish_three(local), || ());
    assert_same(&rt, found(&local), Some(3));
    Ok(())
}

/// Publishes 9 by a `Local` of its own. Answers whether it found nothing before.
fn publish_nine<R: Wait>(table: &ThreadLocal<u32>, rt: &R) -> bool {
    match table.local(rt) {
        Ok(mut local) => found(&local).is_none() && published(&mut local, 9).is_some(),
        Err(_) => false,
    }
}

/// Publishes 1, by a closure that says that it has begun and then waits for the second's value.
/// Where a table is given the closure first publishes 9 there. Answers the value, and whether the
/// closure did so.
fn publish_around<R: Wait>(
    local: Local<'_, u32, R>,
    nine: Option<&ThreadLocal<u32>>,
    rt: &R,
    begun: &AtomicBool,
    answered: &AtomicBool,
) -> (Option<u32>, bool) {
    let mut local = local;
    let mut seen = false;
    let got = local
        .get_or(|| {
            let published = nine.is_none_or(|table| publish_nine(table, rt));
            begun.store(true, SeqCst);
            seen = is_seen(answered) && published;
            1
        })
        .ok()
        .copied();
    (got, seen)
}

/// Does so by a `Local` of its own, and publishes no 9.
fn publish_around_by_its_own<R: Wait>(
    table: &ThreadLocal<u32>,
    rt: &R,
    begun: &AtomicBool,
    answered: &AtomicBool,
) -> (Option<u32>, bool) {
    match table.local(rt) {
        Ok(local) => publish_around(local, None, rt, begun, answered),
        Err(_) => (None, false),
    }
}

/// Publishes 2 once the first's closure has begun. Answers the value, and whether the closure had.
fn publish_within<R: Wait>(
    local: Local<'_, u32, R>,
    begun: &AtomicBool,
    answered: &AtomicBool,
) -> (Option<u32>, bool) {
    let mut local = local;
    let seen = is_seen(begun);
    let got = published(&mut local, 2);
    answered.store(true, SeqCst);
    (got, seen)
}

/// Does so by a `Local` that it takes once the first's closure has begun.
fn publish_within_by_its_own<R: Wait>(
    table: &ThreadLocal<u32>,
    rt: &R,
    begun: &AtomicBool,
    answered: &AtomicBool,
) -> (Option<u32>, bool) {
    if !is_seen(begun) {
        return (None, false);
    }
    match table.local(rt) {
        Ok(local) => publish_within(local, begun, answered),
        Err(_) => (None, false),
    }
}

// Two threads do so, each by a `Local` of its own.
fn publish_one_within_another<R: Threads + Wait + Sync>(
    table: &ThreadLocal<u32>,
    rt: &R,
) -> ((Option<u32>, bool), (Option<u32>, bool)) {
    let begun = AtomicBool::new(false);
    let answered = AtomicBool::new(false);
    thread::join(
        rt,
        || publish_around_by_its_own(table, rt, &begun, &answered),
        || publish_within_by_its_own(table, rt, &begun, &answered),
    )
}

/// The same where all ids are held that may be taken without the lock.
fn publish_by_further_ids<R: Threads + Wait + Sync>(
    table: &ThreadLocal<u32>,
    rt: &R,
) -> Option<((Option<u32>, bool), (Option<u32>, bool))> {
    for _ in 0..58 {
        forget(table.local(rt).ok()?);
    }
    Some(publish_one_within_another(table, rt))
}

#[test]
fn no_lock_is_held_while_a_closure_runs(rt: HostRuntime) {
    let table = numbers(rt.alloc());
    let both = publish_by_further_ids(&table, &rt);
    assert_same(&rt, both, Some(((Some(1), true), (Some(2), true))));
}

// Two threads do so with `Local`s that were taken before, and the first's closure publishes 9.
fn publish_nine_beside_two<'a, R: Threads + Wait + Sync>(
    first: Local<'a, u32, R>,
    second: Local<'a, u32, R>,
    table: &'a ThreadLocal<u32>,
    rt: &'a R,
) -> ((Option<u32>, bool), (Option<u32>, bool)) {
    let begun = AtomicBool::new(false);
    let answered = AtomicBool::new(false);
    thread::join(
        rt,
        || publish_around(first, Some(table), rt, &begun, &answered),
        || publish_within(second, &begun, &answered),
    )
}

// What the two answer, or None where a `Local` was refused.
fn take_two_and_publish<R: Threads + Wait + Sync>(
    table: &ThreadLocal<u32>,
    rt: &R,
) -> Option<((Option<u32>, bool), (Option<u32>, bool))> {
    let first = table.local(rt).ok()?;
    let second = table.local(rt).ok()?;
    Some(publish_nine_beside_two(first, second, table, rt))
}

#[test]
fn a_closure_that_waits_for_another_thread_may_take_a_local(rt: HostRuntime) {
    let mut table = numbers(rt.alloc());
    let both = take_two_and_publish(&table, &rt);
    let are_lent = lends(&mut table, &[1, 2, 9]);
    assert_same(
        &rt,
        (both, are_lent),
        (Some(((Some(1), true), (Some(2), true))), true),
    );
}

/// One more than what a `Local` of its own holds once it has published 6, or 0 where it can't.
fn seven_of_another<R: Wait>(table: &ThreadLocal<u32>, rt: &R) -> u32 {
    match table.local(rt) {
        Ok(mut local) => published(&mut local, 6).map_or(0, |value| value.wrapping_add(1)),
        Err(_) => 0,
    }
}

/// Publishes what its closure makes by a `Local` of its own.
fn publish_through_another<R: Wait>(table: &ThreadLocal<u32>, rt: &R) -> Option<u32> {
    let mut local = table.local(rt).ok()?;
    local.get_or(|| seven_of_another(table, rt)).ok().copied()
}

/// Does so once the first's closure has begun.
fn publish_through_another_within<R: Wait>(
    table: &ThreadLocal<u32>,
    rt: &R,
    begun: &AtomicBool,
    answered: &AtomicBool,
) -> (Option<u32>, bool) {
    let seen = is_seen(begun);
    let got = publish_through_another(table, rt);
    answered.store(true, SeqCst);
    (got, seen)
}

// Two threads publish, the second through another `Local` within the first's closure.
fn publish_through_another_within_one<R: Threads + Wait + Sync>(
    table: &ThreadLocal<u32>,
    rt: &R,
) -> ((Option<u32>, bool), (Option<u32>, bool)) {
    let begun = AtomicBool::new(false);
    let answered = AtomicBool::new(false);
    thread::join(
        rt,
        || publish_around_by_its_own(table, rt, &begun, &answered),
        || publish_through_another_within(table, rt, &begun, &answered),
    )
}

#[test]
fn a_closure_may_use_another_local_of_the_table(rt: HostRuntime) {
    let mut table = numbers(rt.alloc());
    let both = publish_through_another_within_one(&table, &rt);
    let are_lent = lends(&mut table, &[1, 7, 6]);
    assert_same(
        &rt,
        (both, are_lent),
        (((Some(1), true), (Some(7), true)), true),
    );
}
