//! Threads that count in a table, each in a cell of its own, and threads that come and go.
use crate::Round;
use crate::growth::{Work, by_threads};
use crate::table::taken;
use std::alloc::{AllocError, Global};
use std::cell::Cell;
use std::default::MadeWith;
use std::sync::Wait;
use std::thread::Threads;
use std::time::{Clock, Instant};
use std::{io, thread};
use thread_local::{Padded, ThreadLocal};
use thread_local_base::Judge;

/// Adds a number to a sum. It isn't inlined, so that each sum is stored.
#[inline(never)]
fn add_number(sum: &Cell<u64>, number: u64) {
    sum.set(sum.get().saturating_add(number));
}

/// Adds each `workers`-th number below `end`, from the worker's own on, to the worker's counter,
/// where `end` is a multiple of `workers`.
pub(crate) fn add<T: Counter, R: Wait>(
    table: &ThreadLocal<T>,
    rt: &R,
    worker: u64,
    workers: u64,
    end: u64,
) -> Result<(), AllocError> {
    let mut local = taken(table, rt)?;
    if let Ok(counter) = local.get_or(|| T::zero()) {
        let sum = counter.cell();
        for turn in 0..end / workers.max(1) {
            let number = turn.wrapping_mul(workers).wrapping_add(worker);
            add_number(sum, number);
        }
    }
    Ok(())
}

/// The sum of the cells.
fn total(table: ThreadLocal<Cell<u64>>) -> u64 {
    let mut total = 0u64;
    for sum in table {
        total = total.saturating_add(sum.get());
    }
    total
}

/// Four threads add the numbers below `end` up, each in its own cell.
pub(crate) fn tally_4_threads<R: Clock + Threads + Wait + Sync>(
    rt: &R,
    alloc: Global,
    end: u64,
) -> io::Result<Round> {
    Cell::<u64>::judge();
    let table = ThreadLocal::new(alloc);
    let shared = &table;
    let start = Instant::now(rt)?;
    let started = thread::scope(thread::scope_env(), rt, |scope| {
        for worker in 0..4 {
            if scope
                .spawn(move || add(shared, rt, worker, 4, end))
                .is_err()
            {
                return false;
            }
        }
        true
    });
    let time = start.elapsed(rt)?;
    let wanted = end.wrapping_mul(end.wrapping_sub(1)) / 2;
    if started && total(table) == wanted {
        return Ok(Round {
            operations: end,
            time,
        });
    }
    Err(io::Error::from(AllocError))
}

/// Finds the value of the thread's own `Local` and adds one to it.
fn come_and_go<R: Wait>(table: &ThreadLocal<Cell<u64>>, rt: &R) -> Result<(), AllocError> {
    let mut local = taken(table, rt)?;
    if let Ok(count) = local.get_or(|| Cell::new(0)) {
        count.set(count.get().wrapping_add(1));
    }
    Ok(())
}

/// Threads come and go one after another: each takes a `Local`, adds to its value and gives the
/// `Local` back.
pub(crate) fn thread_come_and_go<R: Clock + Threads + Wait + Sync>(
    rt: &R,
    alloc: Global,
    times: u64,
) -> io::Result<Round> {
    Cell::<u64>::judge();
    let table = ThreadLocal::new(alloc);
    let shared = &table;
    let start = Instant::now(rt)?;
    for _ in 0..times {
        thread::scope(thread::scope_env(), rt, |scope| {
            let _started = scope.spawn(move || come_and_go(shared, rt)).is_ok();
        });
    }
    let time = start.elapsed(rt)?;
    if total(table) == times {
        return Ok(Round {
            operations: times,
            time,
        });
    }
    Err(io::Error::from(AllocError))
}

/// A counter of a table, which a thread counts in.
pub(crate) trait Counter {
    /// A counter at 0.
    fn zero() -> Self;

    /// The cell that is counted in.
    fn cell(&self) -> &Cell<u64>;
}

impl Counter for Cell<u64> {
    fn zero() -> Self {
        Cell::new(0)
    }

    fn cell(&self) -> &Cell<u64> {
        self
    }
}

impl Counter for Padded<Cell<u64>> {
    fn zero() -> Self {
        Padded::new(Cell::new(0))
    }

    fn cell(&self) -> &Cell<u64> {
        self
    }
}

/// Counts once. It isn't inlined, so that each count is stored.
#[inline(never)]
fn count(cell: &Cell<u64>) {
    cell.set(cell.get().wrapping_add(1));
}

/// Counts in the counter of an id of its own.
pub(crate) fn count_up<T: Counter, R: Wait>(
    table: &ThreadLocal<T>,
    rt: &R,
    times: u64,
) -> Result<(), AllocError> {
    let mut local = taken(table, rt)?;
    if let Ok(counter) = local.get_or(|| T::zero()) {
        // Four counts in each turn, so that where the loop lies in memory matters less.
        for _ in 0..times / 4 {
            count(counter.cell());
            count(counter.cell());
            count(counter.cell());
            count(counter.cell());
        }
    }
    Ok(())
}

/// Four threads count, each in its own counter, while ids 0 to 2 are held, so that the slots of the
/// four are neighbours.
fn count_side_by_side<T, R>(table: &ThreadLocal<T>, rt: &R, times: u64) -> io::Result<Round>
where
    T: Counter + Send,
    R: Clock + Threads + Wait + Sync,
{
    let _first = taken(table, rt)?;
    let _second = taken(table, rt)?;
    let _third = taken(table, rt)?;
    by_threads(table, rt, Work::Count(times), 4)
}

/// Four threads count, each in its own counter. An operation is a count of each.
pub(crate) fn counters_4_threads<T, R>(rt: &R, alloc: Global, times: u64) -> io::Result<Round>
where
    T: Counter + Judge + Send + Drop,
    R: Clock + Threads + Wait + Sync,
{
    let table = ThreadLocal::<T>::made_with(alloc);
    let round = count_side_by_side(&table, rt, times)?;
    let counted = table.into_iter().fold(
        0u64,
        |sum, counter| sum.wrapping_add(counter.cell().get()),
    );
    if counted != times.wrapping_mul(4) {
        return Err(io::Error::from(AllocError));
    }
    Ok(round)
}
