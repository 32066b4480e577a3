//! Threads that take from one pool at once.

use crate::buffer::fill;
use std::sync::Wait;
use std::sync::atomic::AtomicU64;
use std::sync::atomic::Ordering::SeqCst;
use std::thread;
use std::thread::Threads;
use thread_local::thread_id::LocalError;
use thread_local_pool::Pool;

/// Takes values in turn, and counts those that are made.
fn take_in_turn<R: Wait>(pool: &Pool<u64>, rt: &R, made: &AtomicU64, times: u64) -> bool {
    for _ in 0..times {
        let pooled = pool.get(rt, || made.fetch_add(1, SeqCst));
        if pooled.is_err() {
            return false;
        }
    }
    true
}

/// Three threads take values in turn. Answers how many values were made.
fn made_by_three<R: Wait + Threads + Sync>(pool: &Pool<u64>, rt: &R) -> Option<u64> {
    let made = AtomicU64::new(0);
    let taken = thread::join(
        rt,
        || take_in_turn(pool, rt, &made, 100),
        || {
            thread::join(
                rt,
                || take_in_turn(pool, rt, &made, 100),
                || take_in_turn(pool, rt, &made, 100),
            )
        },
    );
    (taken == (true, (true, true))).then_some(made.load(SeqCst))
}

#[test]
fn as_many_values_are_made_as_are_held_at_once(rt: HostRuntime) {
    let made = made_by_three(&Pool::new(rt.alloc()), &rt);
    assert!(rt; matches!(made, Some(1..=3)));
}

/// Takes buffers one after another, as many as are asked for, and puts ten bytes into each. Answers
/// whether each was empty.
fn take_buffers_in_turn<R: Wait>(
    pool: &Pool<Vec<u8>>,
    rt: &R,
    count: usize,
) -> Result<bool, LocalError> {
    for _ in 0..count {
        let buffer = pool.buffer(rt)?;
        if !fill(buffer, 10).map_err(LocalError::Memory)? {
            return Ok(false);
        }
    }
    Ok(true)
}

/// Two threads take a hundred buffers each.
fn two_threads<R: Wait + Threads + Sync>(pool: &Pool<Vec<u8>>, rt: &R) -> bool {
    let taken = thread::join(
        rt,
        || take_buffers_in_turn(pool, rt, 100),
        || take_buffers_in_turn(pool, rt, 100),
    );
    matches!(taken, (Ok(true), Ok(true)))
}

/// Four threads take a hundred buffers each.
fn four_threads<R: Wait + Threads + Sync>(pool: &Pool<Vec<u8>>, rt: &R) -> bool {
    let taken = thread::join(rt, || two_threads(pool, rt), || two_threads(pool, rt));
    taken.0 && taken.1
}

/// Eight threads take a hundred buffers each.
fn eight_threads<R: Wait + Threads + Sync>(pool: &Pool<Vec<u8>>, rt: &R) -> bool {
    let taken = thread::join(rt, || four_threads(pool, rt), || four_threads(pool, rt));
    taken.0 && taken.1
}

#[test]
fn eight_threads_get_empty_buffers(rt: HostRuntime) {
    let pool = Pool::new(rt.alloc());
    assert!(rt; eight_threads(&pool, &rt));
}
