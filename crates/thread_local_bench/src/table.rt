//! A table that threads share: its `Local`s, and the values that they find and publish.

use crate::Round;
use crate::values::{Ids, fill, first, sum_below};
use crate::workers::Counter;
use std::alloc::{AllocError, Global};
use std::cell::Cell;
use std::io;
use std::sync::Wait;
use std::time::{Clock, Duration, Instant};
use thread_local::ThreadLocal;
use thread_local::local::Local;
use thread_local_base::Judge;

/// A `Local`, unless the call is refused.
#[inline(always)]
pub(crate) fn taken<'a, T, R: Wait>(
    table: &'a ThreadLocal<T>,
    rt: &'a R,
) -> Result<Local<'a, T, R>, AllocError> {
    match table.local(rt) {
        Ok(local) => Ok(local),
        Err(_) => Err(AllocError),
    }
}

/// A `Local` of a table, with a count of 0.
fn published<'a, T: Counter, R: Wait>(
    table: &'a ThreadLocal<T>,
    rt: &'a R,
) -> Result<Local<'a, T, R>, AllocError> {
    let mut local = taken(table, rt)?;
    local.get_or(|| T::zero())?;
    Ok(local)
}

/// The round of `operations` operations, if they added up to as many.
fn counted(counts: ThreadLocal<Cell<u64>>, operations: u64, time: Duration) -> Round {
    let mut sum = 0u64;
    for count in counts {
        sum = sum.wrapping_add(count.get());
    }
    Round {
        operations: if sum == operations { operations } else { 0 },
        time,
    }
}

/// Finds the value of one of two `Local`s and adds to it, `times` times, and answers how long that
/// took. Which of the two is asked goes by the bits of the look's number that are in the mask, and so
/// is known at run time alone: no compiler finds it once for all.
pub(crate) fn find_by_two<T: Counter, R: Clock + Wait>(
    table: &ThreadLocal<T>,
    rt: &R,
    times: u64,
    mask: u64,
) -> io::Result<Duration> {
    let first = published(table, rt)?;
    let second = published(table, rt)?;
    let start = Instant::now(rt)?;
    for number in 0..times {
        let local = if number & mask == 0 { &first } else { &second };
        if let Some(counter) = local.get() {
            let count = counter.cell();
            count.set(count.get().wrapping_add(1));
        }
    }
    start.elapsed(rt)
}

/// Finds values and adds to them.
pub(crate) fn get_hit<R: Clock + Wait>(
    rt: &R,
    alloc: Global,
    times: u64,
    mask: u64,
) -> io::Result<Round> {
    Cell::<u64>::judge();
    let table = ThreadLocal::new(alloc);
    let time = find_by_two(&table, rt, times, mask)?;
    Ok(counted(table, times, time))
}

/// The first of two, or the second.
fn either<'x, T>(first: &'x mut T, second: &'x mut T, is_first: bool) -> &'x mut T {
    if is_first { first } else { second }
}

/// Adds one to the value that `get_or` answers.
fn add<R: Wait>(local: &mut Local<'_, Cell<u64>, R>) {
    if let Ok(count) = local.get_or(|| Cell::new(0)) {
        count.set(count.get().wrapping_add(1));
    }
}

/// The same by `get_or`.
pub(crate) fn get_or_hit<R: Clock + Wait>(
    rt: &R,
    alloc: Global,
    times: u64,
    mask: u64,
) -> io::Result<Round> {
    Cell::<u64>::judge();
    let table = ThreadLocal::new(alloc);
    let time = {
        let mut first = published(&table, rt)?;
        let mut second = published(&table, rt)?;
        let start = Instant::now(rt)?;
        for number in 0..times {
            add(either(&mut first, &mut second, number & mask == 0));
        }
        start.elapsed(rt)?
    };
    Ok(counted(table, times, time))
}

/// Publishes a number with a `Local`.
#[inline(always)]
pub(crate) fn publish_number<R: Wait>(
    local: &mut Local<'_, u64, R>,
    number: u64,
) -> Result<(), AllocError> {
    local.get_or(|| number)?;
    Ok(())
}

/// Makes a table and a `Local`, publishes its first value, and drops all.
pub(crate) fn new_first_drop<R: Clock + Wait>(
    rt: &R,
    alloc: Global,
    times: u64,
) -> io::Result<Round> {
    let start = Instant::now(rt)?;
    for number in 0..times {
        let table = ThreadLocal::<u64>::new(alloc);
        let mut local = taken(&table, rt)?;
        publish_number(&mut local, number)?;
    }
    let time = start.elapsed(rt)?;
    Ok(Round {
        operations: times,
        time,
    })
}

/// Takes a `Local` of a table and drops it, so often.
#[inline(always)]
pub(crate) fn take_and_drop<T, R: Wait>(
    table: &ThreadLocal<T>,
    rt: &R,
    times: u64,
) -> Result<(), AllocError> {
    for _ in 0..times {
        drop(taken(table, rt)?);
    }
    Ok(())
}

/// The same with one table, timed.
#[inline(always)]
fn time_locals<R: Clock + Wait>(table: &ThreadLocal<u64>, rt: &R, times: u64) -> io::Result<Round> {
    let start = Instant::now(rt)?;
    take_and_drop(table, rt, times)?;
    let time = start.elapsed(rt)?;
    Ok(Round {
        operations: times,
        time,
    })
}

/// Takes a `Local` of a table and drops it.
pub(crate) fn local_and_drop<R: Clock + Wait>(
    rt: &R,
    alloc: Global,
    times: u64,
) -> io::Result<Round> {
    time_locals(&ThreadLocal::new(alloc), rt, times)
}

/// `Local`s of a table, as many as given, which are held at once.
fn all_taken<'a, R: Wait>(
    table: &'a ThreadLocal<u64>,
    rt: &'a R,
    alloc: Global,
    values: u32,
) -> Result<Vec<Local<'a, u64, R>>, AllocError> {
    let mut locals = Vec::with_capacity(alloc, values as usize)?;
    for _ in 0..values {
        locals.push(taken(table, rt)?)?;
    }
    Ok(locals)
}

/// Each `Local` publishes its number.
pub(crate) fn publish_all<R: Wait>(locals: &mut Vec<Local<'_, u64, R>>) -> Result<(), AllocError> {
    let mut number = 0u64;
    for local in locals {
        publish_number(local, number)?;
        number = number.wrapping_add(1);
    }
    Ok(())
}

/// Publishes a number at each of the first ids of a table, by `Local`s that are dropped then.
pub(crate) fn publish_first<R: Wait>(
    table: &ThreadLocal<u64>,
    rt: &R,
    alloc: Global,
    values: u32,
) -> Result<(), AllocError> {
    let mut locals = all_taken(table, rt, alloc, values)?;
    publish_all(&mut locals)
}

/// Publishes a value with each `Local`, and answers how long that took.
fn time_publishing<R: Clock + Wait>(
    locals: &mut Vec<Local<'_, u64, R>>,
    rt: &R,
) -> io::Result<Duration> {
    let start = Instant::now(rt)?;
    publish_all(locals)?;
    start.elapsed(rt)
}

/// Makes a table and publishes a value at each of its reserved ids, and answers how long both took.
/// The making counts, since on one side it writes the memory of each slot, and on the other the
/// publishing does. The `Local`s are taken in between.
fn publish_reserved<R: Clock + Wait>(rt: &R, alloc: Global, values: u32) -> io::Result<Duration> {
    let start = Instant::now(rt)?;
    let made = ThreadLocal::<u64>::with_capacity(alloc, values as usize);
    let time = start.elapsed(rt)?;
    let Ok(table) = made else {
        return Err(io::Error::from(AllocError));
    };
    let mut locals = all_taken(&table, rt, alloc, values)?;
    Ok(time.saturating_add(time_publishing(&mut locals, rt)?))
}

/// Makes so many tables, and publishes a value at each reserved id of theirs. The `Local`s of a table
/// with a thousand slots lie in the processor's cache.
pub(crate) fn publish<R: Clock + Wait>(
    rt: &R,
    alloc: Global,
    values: u32,
    tables: u32,
) -> io::Result<Round> {
    let mut time = Duration::ZERO;
    for _ in 0..tables {
        time = time.saturating_add(publish_reserved(rt, alloc, values)?);
    }
    Ok(Round {
        operations: u64::from(values) * u64::from(tables),
        time,
    })
}

/// Reads each value of a table, and adds them to a sum.
fn read_all(table: &ThreadLocal<u64>, mut sum: u64) -> u64 {
    for value in table {
        sum = sum.wrapping_add(*value);
    }
    sum
}

/// Walks so often over a table that threads may share, and answers how long that took. The sum of
/// the values is looked at, so that no compiler leaves a walk out.
fn walk<R: Clock>(
    rt: &R,
    table: &ThreadLocal<u64>,
    wanted: u64,
    walks: u32,
) -> io::Result<Duration> {
    let mut sum = 0u64;
    let start = Instant::now(rt)?;
    for _ in 0..walks {
        sum = read_all(table, sum);
    }
    let time = start.elapsed(rt)?;
    if sum != wanted.wrapping_mul(u64::from(walks)) {
        return Err(io::Error::from(AllocError));
    }
    Ok(time)
}

/// Reads each value of a table in so many walks. An operation is one value.
pub(crate) fn iter<R: Clock>(rt: &R, alloc: Global, ids: Ids, walks: u32) -> io::Result<Round> {
    let mut table = ThreadLocal::<u64>::new(alloc);
    fill(table.buckets_mut(), ids)?;
    let time = walk(rt, &table, sum_below(ids.count), walks)?;
    Ok(Round {
        operations: u64::from(ids.count) * u64::from(walks),
        time,
    })
}

/// Walks so often over a table with reserved slots and four values. An operation is one walk.
pub(crate) fn iter_reserved<R: Clock>(
    rt: &R,
    alloc: Global,
    reserved: u32,
    walks: u32,
) -> io::Result<Round> {
    let Ok(mut table) = ThreadLocal::<u64>::with_capacity(alloc, reserved as usize) else {
        return Err(io::Error::from(AllocError));
    };
    fill(table.buckets_mut(), first(4))?;
    let time = walk(rt, &table, sum_below(4), walks)?;
    Ok(Round {
        operations: u64::from(walks),
        time,
    })
}
