//! Values at ids of an owner's buckets: put in one by one, walked over, dropped.

use crate::Round;
use std::alloc::{AllocError, Global};
use std::io;
use std::time::{Clock, Duration, Instant};
use thread_local_base::Thread;
use thread_local_buckets::Buckets;

/// What a table is filled with.
pub(crate) trait Value: Drop {
    /// The value for a number.
    fn of(number: u64) -> Self;

    /// Adds one to the number.
    fn add_one(&mut self);

    /// The number.
    fn number(self) -> u64;
}

impl Value for u64 {
    fn of(number: u64) -> u64 {
        number
    }

    fn add_one(&mut self) {
        *self = self.wrapping_add(1);
    }

    fn number(self) -> u64 {
        self
    }
}

impl Value for [u64; 8] {
    fn of(number: u64) -> [u64; 8] {
        [number; 8]
    }

    fn add_one(&mut self) {
        self[0] = self[0].wrapping_add(1);
    }

    fn number(self) -> u64 {
        self[0]
    }
}

/// Which ids have a value: `count` ids, each `apart` behind the one before it.
#[derive(Clone, Copy)]
pub(crate) struct Ids {
    pub(crate) count: u32,
    pub(crate) apart: u16,
}

/// The first ids, as many as given.
pub(crate) fn first(count: u32) -> Ids {
    Ids { count, apart: 1 }
}

/// As many ids as given, each 64 behind the one before it.
pub(crate) fn sparse(count: u32) -> Ids {
    Ids { count, apart: 64 }
}

/// Puts a value at each of the ids.
pub(crate) fn fill<T: Value>(buckets: &mut Buckets<T>, ids: Ids) -> Result<(), AllocError> {
    for number in 0..ids.count {
        let thread = Thread::new(number as usize * ids.apart as usize);
        if buckets.insert(thread, T::of(u64::from(number))).is_err() {
            return Err(AllocError);
        }
    }
    Ok(())
}

/// A table with a value at each of the ids.
fn filled<T: Value>(alloc: Global, ids: Ids) -> Result<Buckets<T>, AllocError> {
    let mut buckets = Buckets::new(alloc);
    fill(&mut buckets, ids)?;
    Ok(buckets)
}

/// Adds one to each value.
fn write_all<T: Value>(buckets: &mut Buckets<T>) {
    for value in buckets {
        value.add_one();
    }
}

/// Takes each value out, and answers the sum of their numbers.
fn total<T: Value>(buckets: Buckets<T>) -> u64 {
    let mut sum = 0u64;
    for value in buckets {
        sum = sum.wrapping_add(value.number());
    }
    sum
}

/// The sum of the numbers below this one.
pub(crate) fn sum_below(end: u32) -> u64 {
    u64::from(end).wrapping_mul(u64::from(end).wrapping_sub(1)) / 2
}

/// Puts values into a new table.
pub(crate) fn insert<T: Value, R: Clock>(rt: &R, alloc: Global, count: u32) -> io::Result<Round> {
    let start = Instant::now(rt)?;
    let buckets = filled::<T>(alloc, first(count))?;
    let time = start.elapsed(rt)?;
    drop(buckets);
    Ok(Round {
        operations: u64::from(count),
        time,
    })
}

/// Writes each value of a table `times` times, and answers how long that took.
#[inline(always)]
fn write_often<T: Value, R: Clock>(
    buckets: &mut Buckets<T>,
    rt: &R,
    times: u32,
) -> io::Result<Duration> {
    let start = Instant::now(rt)?;
    for _ in 0..times {
        write_all(buckets);
    }
    start.elapsed(rt)
}

/// Writes each value of a table, `times` times.
pub(crate) fn iter_mut<T: Value, R: Clock>(
    rt: &R,
    alloc: Global,
    ids: Ids,
    times: u32,
) -> io::Result<Round> {
    let mut buckets = filled::<T>(alloc, ids)?;
    let time = write_often(&mut buckets, rt, times)?;
    Ok(Round {
        operations: u64::from(ids.count) * u64::from(times),
        time,
    })
}

/// Walks `times` times over a table with `reserved` reserved slots and four values, and writes
/// these.
pub(crate) fn iter_mut_reserved<R: Clock>(
    rt: &R,
    alloc: Global,
    reserved: u32,
    times: u32,
) -> io::Result<Round> {
    let Ok(mut buckets) = Buckets::<u64>::with_capacity(alloc, reserved as usize) else {
        return Err(io::Error::from(AllocError));
    };
    fill(&mut buckets, first(4))?;
    let time = write_often(&mut buckets, rt, times)?;
    Ok(Round {
        operations: u64::from(times),
        time,
    })
}

/// Takes each value out of a table. Their sum is looked at, so that no compiler leaves the walk
/// out.
pub(crate) fn into_iter<T: Value, R: Clock>(rt: &R, alloc: Global, ids: Ids) -> io::Result<Round> {
    let buckets = filled::<T>(alloc, ids)?;
    let start = Instant::now(rt)?;
    let sum = total(buckets);
    let time = start.elapsed(rt)?;
    let count = u64::from(ids.count);
    Ok(Round {
        operations: if sum == sum_below(ids.count) {
            count
        } else {
            0
        },
        time,
    })
}

/// So many tables with a value at each of the first ids.
fn filled_tables(alloc: Global, count: u32, tables: u32) -> Result<Vec<Buckets<u64>>, AllocError> {
    let mut filled_before = Vec::with_capacity(alloc, tables as usize)?;
    for _ in 0..tables {
        filled_before.push(filled::<u64>(alloc, first(count))?)?;
    }
    Ok(filled_before)
}

/// Takes each value out of tables, and answers the sum of all.
#[inline(always)]
fn total_of_all(tables: Vec<Buckets<u64>>) -> u64 {
    let mut sum = 0u64;
    for buckets in tables {
        sum = sum.wrapping_add(total(buckets));
    }
    sum
}

/// The same of `tables` tables, which were filled before.
pub(crate) fn into_iter_of_many<R: Clock>(
    rt: &R,
    alloc: Global,
    count: u32,
    tables: u32,
) -> io::Result<Round> {
    let filled_before = filled_tables(alloc, count, tables)?;
    let start = Instant::now(rt)?;
    let sum = total_of_all(filled_before);
    let time = start.elapsed(rt)?;
    let wanted = sum_below(count).wrapping_mul(u64::from(tables));
    let operations = u64::from(count) * u64::from(tables);
    Ok(Round {
        operations: if sum == wanted { operations } else { 0 },
        time,
    })
}

/// Drops each value of a table and frees its buckets.
pub(crate) fn clear<R: Clock>(rt: &R, alloc: Global, count: u32) -> io::Result<Round> {
    let mut buckets = filled::<u64>(alloc, first(count))?;
    let start = Instant::now(rt)?;
    buckets.clear();
    let time = start.elapsed(rt)?;
    Ok(Round {
        operations: u64::from(count),
        time,
    })
}
