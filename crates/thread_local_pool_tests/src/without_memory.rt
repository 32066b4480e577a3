//! Buffers where no memory is left.

use crate::same::assert_same;
use std::alloc::{AllocError, Global};
use std::sync::Wait;
use thread_local::thread_id::LocalError;
use thread_local_pool::Pool;
use thread_local_test_helpers::memory::take_all;

/// Whether a buffer is refused memory.
fn is_buffer_refused<R: Wait>(pool: &Pool<Vec<u8>>, rt: &R) -> bool {
    matches!(pool.buffer(rt), Err(LocalError::Memory(_)))
}

/// Whether a buffer is refused where no memory is left.
fn is_buffer_refused_without_memory<R: Wait>(
    pool: &Pool<Vec<u8>>,
    rt: &R,
    alloc: Global,
) -> Result<bool, AllocError> {
    let taken = take_all(alloc)?;
    let is_refused = is_buffer_refused(pool, rt);
    drop(taken);
    Ok(is_refused)
}

/// Two buffers that are held at once, each asked for without memory first. Answers whether each was
/// refused, and how many bytes it held when it came.
fn take_two<R: Wait>(
    pool: &Pool<Vec<u8>>,
    rt: &R,
    alloc: Global,
) -> Result<[(bool, usize); 2], LocalError> {
    let first_refused = is_buffer_refused_without_memory(pool, rt, alloc)?;
    let first = pool.buffer(rt)?;
    let second_refused = is_buffer_refused_without_memory(pool, rt, alloc)?;
    let second = pool.buffer(rt)?;
    Ok([
        (first_refused, first.bytes().len()),
        (second_refused, second.bytes().len()),
    ])
}

#[test]
fn a_refused_buffer_comes_later_and_is_empty(rt: HostRuntime) {
    let mut pool = Pool::new(rt.alloc());
    let taken = take_two(&pool, &rt, rt.alloc());
    // A refused call keeps no id, so the two had the ids 0 and 1.
    assert_same(&rt, (taken, pool.slots()), (Ok([(true, 0), (true, 0)]), 3));
}
