//! Values and buffers that are refused memory: the tests hold whichever request is refused.

use crate::same::assert_same;
use std::io::Print;
use std::sync::Wait;
use std::sync::atomic::AtomicU64;
use std::sync::atomic::Ordering::SeqCst;
use thread_local::thread_id::LocalError;
use thread_local_pool::{Buffer, Pool, Pooled};

/// A value of the pool, the second time where the first was refused, which is told. Answers None
/// where the refusal called the closure, or the second time is refused.
fn had<'a, R: Wait + Print>(
    pool: &'a Pool<u64>,
    rt: &'a R,
    made: &AtomicU64,
) -> Option<Pooled<'a, u64, R>> {
    let before = made.load(SeqCst);
    match pool.get(rt, || made.fetch_add(1, SeqCst)) {
        Ok(pooled) => Some(pooled),
        Err(_) => {
            let _told = println!(rt; "refused: get");
            if made.load(SeqCst) != before {
                return None;
            }
            pool.get(rt, || made.fetch_add(1, SeqCst)).ok()
        }
    }
}

/// The numbers of two values that are held at once, and how many were made then.
fn two_at_once<R: Wait + Print>(pool: &Pool<u64>, rt: &R) -> Option<(u64, u64, u64)> {
    let made = AtomicU64::new(0);
    let first = had(pool, rt, &made)?;
    let second = had(pool, rt, &made)?;
    Some((*first, *second, made.load(SeqCst)))
}

#[test]
fn a_value_that_was_refused_is_had_the_second_time(rt: HostRuntime) {
    let mut pool = Pool::new(rt.alloc());
    let held = two_at_once(&pool, &rt);
    // A refused call keeps no id, so the two had the ids 0 and 1.
    assert_same(&rt, (held, pool.slots()), (Some((0, 1, 2)), 3));
}

/// A buffer, asked for once more where memory was refused.
fn had_buffer<'a, R: Wait + Print>(pool: &'a Pool<Vec<u8>>, rt: &'a R) -> Option<Buffer<'a, R>> {
    match pool.buffer(rt) {
        Ok(buffer) => Some(buffer),
        Err(LocalError::Memory(_)) => {
            let _told = println!(rt; "refused: buffer");
            pool.buffer(rt).ok()
        }
        Err(LocalError::Exhausted) => None,
    }
}

/// How many bytes two buffers have that are held at once.
fn lengths_of_two<R: Wait + Print>(pool: &Pool<Vec<u8>>, rt: &R) -> Option<[usize; 2]> {
    let first = had_buffer(pool, rt)?;
    let second = had_buffer(pool, rt)?;
    Some([first.bytes().len(), second.bytes().len()])
}

#[test]
fn a_buffer_that_was_refused_is_had_the_second_time(rt: HostRuntime) {
    let mut pool = Pool::new(rt.alloc());
    let lengths = lengths_of_two(&pool, &rt);
    assert_same(&rt, (lengths, pool.slots()), (Some([0, 0]), 3));
}
