//! The workers, each with its share of the numbers, and the owner that sums their cells.
ghost use Rattle.std.specs.Prelude.{◌≡◌, ◌+◌, ◌≤◌};
ghost use Rattle.std.specs.Iterator.Adapters.{step_by_source, step_by_gap};
ghost use Rattle.std.specs.Range.{range_inclusive_start, range_inclusive_end};
ghost use Rattle.thread_local_tls.specs.Limits.{IsWithinLimits};

use crate::gate::Gate;
use std::alloc::{AllocError, Global};
use std::cell::Cell;
use std::iter::StepBy;
use std::ops::RangeInclusive;
use std::sync::Wait;
use std::thread;
use std::thread::Threads;
use thread_local::ThreadLocal;
use thread_local_base::{Judge, LocalError};

/// Adds up the numbers from 1 to `numbers` with `workers` workers, each a thread: worker w adds
/// each k with k mod `workers` = w in a cell of its own, and makes no step on shared memory
/// meanwhile. Each holds its `Local` throughout, and passes the gate while it does. Additions
/// saturate.
///
/// May wait, and takes memory. `Memory` means out of memory for a thread, an id or a bucket;
/// `Exhausted` means that no id was left. Every started worker has ended when the call answers,
/// also where another was refused.
pub fn tally<R: Threads + Wait + Sync, G: Gate + Sync>(
    rt: &R,
    alloc: Global,
    workers: usize,
    numbers: u64,
    gate: &G,
) -> Result<u64, LocalError>
    requires { IsWithinLimits workers numbers }
{
    Cell::<u64>::judge();
    let sums = ThreadLocal::new(alloc);
    start_and_join(rt, alloc, &sums, workers, numbers, gate)?;
    Ok(total(sums))
}

/// Starts the workers one after another and joins them. If one is refused, the call still ends only
/// when all started ones have ended.
fn start_and_join<R: Threads + Wait + Sync, G: Gate + Sync>(
    rt: &R,
    alloc: Global,
    sums: &ThreadLocal<Cell<u64>>,
    workers: usize,
    numbers: u64,
    gate: &G,
) -> Result<(), LocalError>
    requires { 1 ≤ workers }
{
    thread::scope(thread::scope_env(), rt, |scope| {
        let mut started = Vec::new(alloc);
        for worker in 0..workers {
            let Ok(handle) = scope.spawn(move || add(rt, sums, worker, workers, numbers, gate))
            else {
                return Err(LocalError::Memory(AllocError));
            };
            started.push(handle)?;
        }
        for handle in started {
            handle.join(rt)?;
        }
        Ok(())
    })
}

/// One worker: takes a `Local`, passes the gate, and adds its numbers in its cell.
fn add<R: Wait, G: Gate>(
    rt: &R,
    sums: &ThreadLocal<Cell<u64>>,
    worker: usize,
    workers: usize,
    numbers: u64,
    gate: &G,
) -> Result<(), LocalError>
    requires { 1 ≤ workers }
{
    let mut local = sums.local(rt)?;
    gate.pass(worker);
    let sum = local.get_or(|| Cell::new(0))?;
    for number in share(worker, workers, numbers) {
        sum.set(sum.get().saturating_add(number));
    }
    Ok(())
}

/// A worker's share: from its own number on, every `workers`-th. The first worker's share begins
/// with 0, which adds nothing.
fn share(worker: usize, workers: usize, numbers: u64) -> StepBy<RangeInclusive<u64>>
    requires { 1 ≤ workers }
    ensures first { range_inclusive_start (step_by_source result) ≡ worker }
    ensures last { range_inclusive_end (step_by_source result) ≡ numbers }
    ensures every { step_by_gap result + 1 ≡ workers }
{
    (worker as u64..=numbers).step_by(workers)
}

/// The sum of all cells.
fn total(sums: ThreadLocal<Cell<u64>>) -> u64 {
    let mut total = 0u64;
    for sum in sums {
        total = total.saturating_add(sum.get());
    }
    total
}
