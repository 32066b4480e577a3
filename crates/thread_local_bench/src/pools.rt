//! Threads that use the values of a pool, and threads that each use a value of their own.

use crate::Round;
use std::alloc::{AllocError, Global};
use std::cell::Cell;
use std::sync::Wait;
use std::thread::Threads;
use std::time::{Clock, Duration, Instant};
use std::{io, thread};
use thread_local::local::Local;
use thread_local::{Padded, ThreadLocal};
use thread_local_base::{Judge, LocalError};
use thread_local_pool::Pool;

/// The round in which so many threads used values so often, if the values say so. An operation is
/// one use of each thread.
fn used(threads: u64, uses: u64, counted: u64, time: Duration) -> io::Result<Round> {
    if counted != threads.wrapping_mul(uses) {
        return Err(io::Error::from(AllocError));
    }
    Ok(Round {
        operations: uses,
        time,
    })
}

/// Takes a value of the pool, adds one to it, and puts it back, so many times.
fn use_pool<R: Wait>(pool: &Pool<u64>, rt: &R, uses: u64) -> Result<(), LocalError> {
    for _ in 0..uses {
        let mut value = pool.get(rt, || 0)?;
        *value = value.wrapping_add(1);
    }
    Ok(())
}

/// So many threads use the values of one pool.
pub(crate) fn pool<R: Clock + Threads + Wait + Sync>(
    rt: &R,
    alloc: Global,
    threads: u64,
    uses: u64,
) -> io::Result<Round> {
    let pool = Pool::<u64>::new(alloc);
    let shared = &pool;
    let start = Instant::now(rt)?;
    thread::scope(thread::scope_env(), rt, |scope| {
        for _ in 0..threads {
            let _started = scope.spawn(move || use_pool(shared, rt, uses)).is_ok();
        }
    });
    let time = start.elapsed(rt)?;
    let mut counted = 0u64;
    for value in pool {
        counted = counted.wrapping_add(value);
    }
    used(threads, uses, counted, time)
}

/// A value that is taken out of its cell while it is used.
type Own = Padded<Cell<Option<u64>>>;

/// Takes the value of a `Local` out of its cell, adds one to it, and puts it back. It isn't inlined,
/// so that each use looks for the cell.
#[inline(never)]
fn use_own<R: Wait>(local: &Local<'_, Own, R>) {
    if let Some(cell) = local.get() {
        let value = cell.replace(None).unwrap_or(0);
        cell.set(Some(value.wrapping_add(1)));
    }
}

/// Uses the value of a `Local` that is kept, so many times.
fn use_often<R: Wait>(table: &ThreadLocal<Own>, rt: &R, uses: u64) -> Result<(), LocalError> {
    let mut local = table.local(rt)?;
    local.get_or(|| Padded::new(Cell::new(None)))?;
    for _ in 0..uses {
        use_own(&local);
    }
    Ok(())
}

/// How often the values of a table were used.
fn uses_of(table: ThreadLocal<Own>) -> u64 {
    let mut counted = 0u64;
    for cell in table {
        counted = counted.wrapping_add(cell.replace(None).unwrap_or(0));
    }
    counted
}

/// Four threads use their own values, as they do where each thread keeps one for itself.
pub(crate) fn own_value_4_threads<R: Clock + Threads + Wait + Sync>(
    rt: &R,
    alloc: Global,
    uses: u64,
) -> io::Result<Round> {
    Own::judge();
    let table = ThreadLocal::<Own>::new(alloc);
    let shared = &table;
    let start = Instant::now(rt)?;
    thread::scope(thread::scope_env(), rt, |scope| {
        for _ in 0..4 {
            let _started = scope.spawn(move || use_often(shared, rt, uses)).is_ok();
        }
    });
    let time = start.elapsed(rt)?;
    used(4, uses, uses_of(table), time)
}
