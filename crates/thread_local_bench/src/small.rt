//! Tables of few values, as most tables are: made, filled, walked over, drained and cleared.

use crate::Round;
use crate::table::publish_first;
use crate::values::sum_below;
use std::alloc::{AllocError, Global};
use std::mem::forget;
use std::sync::Wait;
use std::thread::Threads;
use std::time::{Clock, Duration, Instant};
use std::{io, thread};
use thread_local::ThreadLocal;

/// Tables that are made before each timed part: how many values each has, how many tables there are,
/// and how often they are made. Small tables are so few that they stay in the processor's cache, as
/// one does that was just used. A thousand tables of 1023 values don't.
#[derive(Clone, Copy)]
pub(crate) struct Batches {
    pub(crate) values: u32,
    pub(crate) tables: u32,
    pub(crate) times: u32,
}

impl Batches {
    /// The round in which each table was worked on once. An operation is one table.
    fn by_table(self, time: Duration) -> Round {
        Round {
            operations: u64::from(self.tables) * u64::from(self.times),
            time,
        }
    }

    /// The round of walks that met values with this sum. An operation is one value.
    fn by_value(self, sum: u64, time: Duration) -> Round {
        let Round { operations, time } = self.by_table(time);
        let is_whole = sum == sum_below(self.values).wrapping_mul(operations);
        let values = operations.wrapping_mul(u64::from(self.values));
        Round {
            operations: if is_whole { values } else { 0 },
            time,
        }
    }
}

/// A table with no value.
fn fresh(alloc: Global) -> ThreadLocal<u64> {
    ThreadLocal::<u64>::new(alloc)
}

/// Tables with no value, as many as a batch has.
fn empty(alloc: Global, batches: Batches) -> Result<Vec<ThreadLocal<u64>>, AllocError> {
    let mut tables = Vec::with_capacity(alloc, batches.tables as usize)?;
    for _ in 0..batches.tables {
        tables.push(fresh(alloc))?;
    }
    Ok(tables)
}

/// The tables of a batch, each with its number at each of the first ids.
fn filled<R: Wait>(
    rt: &R,
    alloc: Global,
    batches: Batches,
) -> Result<Vec<ThreadLocal<u64>>, AllocError> {
    let tables = empty(alloc, batches)?;
    for table in &tables {
        publish_first(table, rt, alloc, batches.values)?;
    }
    Ok(tables)
}

/// Publishes the first value of each table, by a `Local` that is forgotten: its drop isn't timed.
fn publish_one_each<R: Wait>(tables: &Vec<ThreadLocal<u64>>, rt: &R) -> Result<(), AllocError> {
    let mut number = 0u64;
    for table in tables {
        let Ok(mut local) = table.local(rt) else {
            return Err(AllocError);
        };
        local.get_or(|| number)?;
        forget(local);
        number = number.wrapping_add(1);
    }
    Ok(())
}

/// Moves each value out of the tables, and adds them to a sum.
fn take_apart(tables: Vec<ThreadLocal<u64>>, mut sum: u64) -> u64 {
    for table in tables {
        for value in table {
            sum = sum.wrapping_add(value);
        }
    }
    sum
}

/// Takes a `Local` of a table that was just made, and publishes its first value.
pub(crate) fn first_in_fresh<R: Clock + Wait>(
    rt: &R,
    alloc: Global,
    batches: Batches,
) -> io::Result<Round> {
    let mut time = Duration::ZERO;
    let mut sum = 0u64;
    for _ in 0..batches.times {
        let tables = empty(alloc, batches)?;
        let start = Instant::now(rt)?;
        publish_one_each(&tables, rt)?;
        time = time.saturating_add(start.elapsed(rt)?);
        sum = take_apart(tables, sum);
    }
    let Round { operations, time } = batches.by_table(time);
    let wanted = sum_below(batches.tables).wrapping_mul(u64::from(batches.times));
    Ok(Round {
        operations: if sum == wanted { operations } else { 0 },
        time,
    })
}

/// Four threads publish their first values in tables that were just made, each thread in each table.
/// An operation is one value of each thread.
pub(crate) fn first_4_threads<R: Clock + Threads + Wait + Sync>(
    rt: &R,
    alloc: Global,
    batch: Batches,
) -> io::Result<Round> {
    let tables = empty(alloc, batch)?;
    let shared = &tables;
    let start = Instant::now(rt)?;
    thread::scope(thread::scope_env(), rt, |scope| {
        for _ in 0..4 {
            let _started = scope.spawn(move || publish_one_each(shared, rt)).is_ok();
        }
    });
    let time = start.elapsed(rt)?;
    if take_apart(tables, 0) != sum_below(batch.tables).wrapping_mul(4) {
        return Err(io::Error::from(AllocError));
    }
    Ok(batch.by_table(time))
}

/// Moves each value out of tables.
pub(crate) fn into_iter<R: Clock + Wait>(
    rt: &R,
    alloc: Global,
    batches: Batches,
) -> io::Result<Round> {
    let mut time = Duration::ZERO;
    let mut sum = 0u64;
    for _ in 0..batches.times {
        let tables = filled(rt, alloc, batches)?;
        let start = Instant::now(rt)?;
        sum = take_apart(tables, sum);
        time = time.saturating_add(start.elapsed(rt)?);
    }
    Ok(batches.by_value(sum, time))
}

/// Drains each table, and adds the values to a sum.
fn drain_all(tables: &mut Vec<ThreadLocal<u64>>, mut sum: u64) -> u64 {
    for table in tables {
        for value in table.drain() {
            sum = sum.wrapping_add(value);
        }
    }
    sum
}

/// Moves each value out of tables, whose buckets stay.
pub(crate) fn drain<R: Clock + Wait>(rt: &R, alloc: Global, batches: Batches) -> io::Result<Round> {
    let mut time = Duration::ZERO;
    let mut sum = 0u64;
    for _ in 0..batches.times {
        let mut tables = filled(rt, alloc, batches)?;
        let start = Instant::now(rt)?;
        sum = drain_all(&mut tables, sum);
        time = time.saturating_add(start.elapsed(rt)?);
    }
    Ok(batches.by_value(sum, time))
}

/// Clears each table.
fn clear_all(tables: &mut Vec<ThreadLocal<u64>>) {
    for table in tables {
        table.clear();
    }
}

/// Clears tables. What stays of them is dropped afterwards.
pub(crate) fn clear<R: Clock + Wait>(rt: &R, alloc: Global, batches: Batches) -> io::Result<Round> {
    let mut time = Duration::ZERO;
    for _ in 0..batches.times {
        let mut tables = filled(rt, alloc, batches)?;
        let start = Instant::now(rt)?;
        clear_all(&mut tables);
        time = time.saturating_add(start.elapsed(rt)?);
    }
    Ok(batches.by_table(time))
}

/// Makes a walk over each table, and adds to a sum how many values it is to give.
fn add_lengths(tables: &mut Vec<ThreadLocal<u64>>, mut sum: u64) -> u64 {
    for table in tables {
        sum = sum.wrapping_add(table.iter_mut().len() as u64);
    }
    sum
}

/// Asks walks over a batch's tables for their lengths, again and again. An operation is one walk.
pub(crate) fn len<R: Clock + Wait>(rt: &R, alloc: Global, batches: Batches) -> io::Result<Round> {
    let mut tables = filled(rt, alloc, batches)?;
    let mut sum = 0u64;
    let start = Instant::now(rt)?;
    for _ in 0..batches.times {
        sum = add_lengths(&mut tables, sum);
    }
    let time = start.elapsed(rt)?;
    let Round { operations, time } = batches.by_table(time);
    let wanted = operations.wrapping_mul(u64::from(batches.values));
    Ok(Round {
        operations: if sum == wanted { operations } else { 0 },
        time,
    })
}

/// Adds one to each value.
fn write_all(table: &mut ThreadLocal<u64>) {
    for value in table {
        *value = value.wrapping_add(1);
    }
}

/// Writes each value of a table, in so many walks. An operation is one value.
pub(crate) fn iter_mut<R: Clock + Wait>(
    rt: &R,
    alloc: Global,
    values: u32,
    walks: u32,
) -> io::Result<Round> {
    let mut table = fresh(alloc);
    publish_first(&table, rt, alloc, values)?;
    let start = Instant::now(rt)?;
    for _ in 0..walks {
        write_all(&mut table);
    }
    let time = start.elapsed(rt)?;
    let mut sum = 0u64;
    for value in table {
        sum = sum.wrapping_add(value);
    }
    let operations = u64::from(values) * u64::from(walks);
    let is_whole = sum == sum_below(values).wrapping_add(operations);
    Ok(Round {
        operations: if is_whole { operations } else { 0 },
        time,
    })
}
