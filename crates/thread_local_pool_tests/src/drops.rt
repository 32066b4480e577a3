//! Values and buffers that are dropped, and some that are forgotten.

use crate::buffer::measure_another;
use crate::same::{assert_same, no_drop};
use std::mem::forget;
use std::sync::Wait;
use thread_local_pool::{Pool, Pooled};
use thread_local_test_helpers::counted::{Counted, Drops, dropped};

/// A value that counts its drop, and counts that it is made.
fn counted<'a, R: Wait>(
    pool: &'a Pool<Option<Counted>>,
    rt: &'a R,
    drops: &Drops,
) -> Option<Pooled<'a, Option<Counted>, R>> {
    pool.get(rt, || Counted::new(drops).ok()).ok()
}

/// Holds two values at once, lets one go and forgets the other, and takes two again. Answers whether
/// each was new.
fn hold_and_forget<R: Wait>(
    pool: &Pool<Option<Counted>>,
    rt: &R,
    drops: &Drops,
) -> Option<[bool; 4]> {
    let first = counted(pool, rt, drops)?;
    let second = counted(pool, rt, drops)?;
    let before = [first.is_new(), second.is_new()];
    forget(first);
    drop(second);
    let third = counted(pool, rt, drops)?;
    let fourth = counted(pool, rt, drops)?;
    Some([before[0], before[1], third.is_new(), fourth.is_new()])
}

/// The same with a pool that is dropped then. Answers how many drops were counted before that and
/// after.
fn drop_a_pool<R: Wait>(
    pool: Pool<Option<Counted>>,
    rt: &R,
    drops: &Drops,
) -> (Option<[bool; 4]>, [u64; 2]) {
    let were_new = hold_and_forget(&pool, rt, drops);
    let before = dropped(drops);
    drop(pool);
    (were_new, [before, dropped(drops)])
}

#[test]
fn values_are_dropped_once_with_their_pool(rt: HostRuntime) {
    let drops = no_drop(&rt, rt.alloc());
    assert_same(
        &rt,
        drop_a_pool(Pool::new(rt.alloc()), &rt, &drops),
        (Some([true, true, false, true]), [0, 2]),
    );
}

/// Has two counted values made and put back, and walks over the pool by value as far as the first.
/// Answers how many were dropped before the walk is.
fn walk_to_the_first<R: Wait>(pool: Pool<Option<Counted>>, rt: &R, drops: &Drops) -> Option<u64> {
    hold_and_forget(&pool, rt, drops)?;
    let mut values = pool.into_iter();
    drop(values.next());
    Some(dropped(drops))
}

// The forgotten one isn't in the pool, so it is never dropped.
#[test]
fn a_walk_that_ends_early_drops_the_rest_of_a_pool(rt: HostRuntime) {
    let drops = no_drop(&rt, rt.alloc());
    let walked = walk_to_the_first(Pool::new(rt.alloc()), &rt, &drops);
    assert_same(&rt, (walked, dropped(&drops)), (Some(1), 2));
}

/// Puts 1000 bytes into a new buffer, and forgets it. Answers how many it held.
fn fill_and_forget<R: Wait>(pool: &Pool<Vec<u8>>, rt: &R) -> Option<usize> {
    let Ok(mut buffer) = pool.buffer(rt) else {
        return None;
    };
    for _ in 0..1000 {
        buffer.bytes_mut().push(7).ok()?;
    }
    let held = buffer.bytes().len();
    forget(buffer);
    Some(held)
}

#[test]
fn a_forgotten_buffer_keeps_its_room_to_itself(rt: HostRuntime) {
    let pool = Pool::new(rt.alloc());
    let held = fill_and_forget(&pool, &rt);
    assert_same(
        &rt,
        (held, measure_another(&pool, &rt)),
        (Some(1000), Some((0, 0))),
    );
}
