//! How the cost of calls grows: with the number of threads that make them at once on one table, and
//! with the number of values that a walk meets.

use crate::Round;
use crate::table::{find_by_two, iter, publish_all, take_and_drop, taken};
use crate::values::{fill, first, into_iter_of_many, iter_mut};
use crate::workers::{Counter, add, count_up};
use std::alloc::{AllocError, Global};
use std::cell::Cell;
use std::default::MadeWith;
use std::io::Print;
use std::sync::Wait;
use std::thread::Threads;
use std::time::{Clock, Instant};
use std::{io, thread};
use thread_local::local::Local;
use thread_local::{Padded, ThreadLocal};

/// How many values all walks of a measurement meet together, and how many are published.
const VALUES: u32 = 1 << 20;

/// Over how many values walks are measured.
const SIZES: [u32; 6] = [1 << 10, 1 << 12, 1 << 14, 1 << 16, 1 << 18, 1 << 20];

/// How often each thread finds a value, and takes and drops a `Local`.
const FINDS: u64 = 10_000_000;

const PAIRS: u64 = 1_000_000;

/// How many numbers the threads add up together.
const NUMBERS: u64 = 16_000_000;

/// What several threads do at once, and how often: of a tally all threads together, else each.
#[derive(Clone, Copy)]
pub(crate) enum Work {
    /// How often, and the mask of `find_by_two`.
    GetHit(u64, u64),
    Tally(u64),
    LocalAndDrop(u64),
    Count(u64),
}

impl Work {
    fn all(mask: u64) -> [Work; 3] {
        [
            Work::GetHit(FINDS, mask),
            Work::Tally(NUMBERS),
            Work::LocalAndDrop(PAIRS),
        ]
    }

    /// The work's name, as it is printed.
    fn name(self) -> &'static str {
        match self {
            Work::GetHit(_, _) => "get_hit",
            Work::Tally(_) => "tally",
            Work::LocalAndDrop(_) => "local_and_drop",
            Work::Count(_) => "count",
        }
    }

    /// For how many operations a time is given.
    fn operations(self) -> u64 {
        match self {
            Work::GetHit(times, _)
            | Work::Tally(times)
            | Work::LocalAndDrop(times)
            | Work::Count(times) => times,
        }
    }

    /// How long so many threads take. Where each finds its values again and again, no two of these
    /// share a line of the cache: the time is that of the calls, and not of lines that are handed on.
    pub(crate) fn timed<R: Clock + Threads + Wait + Sync>(
        self,
        rt: &R,
        alloc: Global,
        threads: u64,
    ) -> io::Result<Round> {
        if let Work::GetHit(_, _) = self {
            let table = ThreadLocal::<Padded<Cell<u64>>>::made_with(alloc);
            return by_threads(&table, rt, self, threads);
        }
        let table = ThreadLocal::<Cell<u64>>::made_with(alloc);
        by_threads(&table, rt, self, threads)
    }

    /// The share of one of so many threads.
    fn share<T: Counter, R: Clock + Wait>(
        self,
        table: &ThreadLocal<T>,
        rt: &R,
        thread: u64,
        threads: u64,
    ) -> Result<(), AllocError> {
        match self {
            Work::GetHit(times, mask) => find_all(table, rt, times, mask),
            Work::Tally(times) => add(table, rt, thread, threads, times),
            Work::LocalAndDrop(times) => take_and_drop(table, rt, times),
            Work::Count(times) => count_up(table, rt, times),
        }
    }
}

/// Finds the values of two `Local`s.
fn find_all<T: Counter, R: Clock + Wait>(
    table: &ThreadLocal<T>,
    rt: &R,
    times: u64,
    mask: u64,
) -> Result<(), AllocError> {
    match find_by_two(table, rt, times, mask) {
        Ok(_) => Ok(()),
        Err(_) => Err(AllocError),
    }
}

/// So many threads work on one table. An operation is one of each thread, but of a tally one number.
pub(crate) fn by_threads<T, R>(
    table: &ThreadLocal<T>,
    rt: &R,
    work: Work,
    threads: u64,
) -> io::Result<Round>
where
    T: Counter + Send,
    R: Clock + Threads + Wait + Sync,
{
    let start = Instant::now(rt)?;
    let started = thread::scope(thread::scope_env(), rt, |scope| {
        for thread in 0..threads {
            if scope
                .spawn(move || work.share(table, rt, thread, threads))
                .is_err()
            {
                return false;
            }
        }
        true
    });
    let time = start.elapsed(rt)?;
    if !started {
        return Err(io::Error::from(AllocError));
    }
    Ok(Round {
        operations: work.operations(),
        time,
    })
}

/// Deals a `Local` to each thread.
fn deal<'a, R: Wait>(
    table: &'a ThreadLocal<u64>,
    rt: &'a R,
    hands: &mut Vec<Vec<Local<'a, u64, R>>>,
) -> Result<(), AllocError> {
    for hand in hands {
        hand.push(taken(table, rt)?)?;
    }
    Ok(())
}

/// A hand for each of so many threads, with room for so many.
fn empty_hands<T: Drop>(alloc: Global, threads: u32, each: u32) -> Result<Vec<Vec<T>>, AllocError> {
    let mut hands = Vec::with_capacity(alloc, threads as usize)?;
    for _ in 0..threads {
        hands.push(Vec::with_capacity(alloc, each as usize)?)?;
    }
    Ok(hands)
}

/// `Local`s of a table, dealt to so many threads: each gets every so-manieth id, and so many of them.
fn dealt<'a, R: Wait>(
    table: &'a ThreadLocal<u64>,
    rt: &'a R,
    alloc: Global,
    threads: u32,
    each: u32,
) -> Result<Vec<Vec<Local<'a, u64, R>>>, AllocError> {
    let mut hands = empty_hands(alloc, threads, each)?;
    for _ in 0..each {
        deal(table, rt, &mut hands)?;
    }
    Ok(hands)
}

/// So many threads publish a value at each reserved id of one table. An operation is one of each
/// thread.
pub(crate) fn publish_by<R: Clock + Threads + Wait + Sync>(
    rt: &R,
    alloc: Global,
    threads: u32,
    values: u32,
) -> io::Result<Round> {
    let Ok(table) = ThreadLocal::<u64>::with_capacity(alloc, values as usize) else {
        return Err(io::Error::from(AllocError));
    };
    let each = values / threads.max(1);
    let mut hands = dealt(&table, rt, alloc, threads, each)?;
    let start = Instant::now(rt)?;
    let started = thread::scope(thread::scope_env(), rt, |scope| {
        for hand in &mut hands {
            if scope.spawn(move || publish_all(hand)).is_err() {
                return false;
            }
        }
        true
    });
    let time = start.elapsed(rt)?;
    drop(hands);
    if !started {
        return Err(io::Error::from(AllocError));
    }
    Ok(Round {
        operations: u64::from(each),
        time,
    })
}

/// A call that so many threads make at once, or a walk over so many values.
#[derive(Clone, Copy)]
enum Growing {
    Call(Work),
    Publish,
    Iter,
    IterMut,
    IntoIter,
}

impl Growing {
    /// Of the mask of `find_by_two` no compiler knows that it is 1.
    fn calls(mask: u64) -> [Growing; 4] {
        let [get_hit, tally, local_and_drop] = Work::all(mask);
        [
            Growing::Call(get_hit),
            Growing::Call(tally),
            Growing::Call(local_and_drop),
            Growing::Publish,
        ]
    }

    const WALKS: [Growing; 3] = [Growing::Iter, Growing::IterMut, Growing::IntoIter];

    fn name(self) -> &'static str {
        match self {
            Growing::Call(work) => work.name(),
            Growing::Publish => "publish",
            Growing::Iter => "iter",
            Growing::IterMut => "iter_mut",
            Growing::IntoIter => "into_iter",
        }
    }

    /// Makes the call by so many threads, or walks over so many values.
    fn round<R: Clock + Threads + Wait + Sync>(
        self,
        rt: &R,
        alloc: Global,
        size: u32,
    ) -> io::Result<Round> {
        let walks = VALUES / size.max(1);
        match self {
            Growing::Call(work) => work.timed(rt, alloc, u64::from(size)),
            Growing::Publish => publish_by(rt, alloc, size, VALUES),
            Growing::Iter => iter(rt, alloc, first(size), walks),
            Growing::IterMut => iter_mut::<u64, R>(rt, alloc, first(size), walks),
            Growing::IntoIter => into_iter_of_many(rt, alloc, size, walks),
        }
    }
}

/// Measures these at one size, and prints a line for each: its name, the size, and the nanoseconds of
/// one operation in the round that took the least.
fn run_all<R: Clock + Threads + Wait + Sync + Print>(
    rt: &R,
    alloc: Global,
    rounds: u64,
    all: &[Growing],
    size: u32,
) -> io::Result<()> {
    for growing in all {
        let mut least = u128::MAX;
        for _ in 0..rounds {
            least = least.min(growing.round(rt, alloc, size)?.picoseconds());
        }
        println!(rt;
            "{} {size} {}.{:03}",
            growing.name(),
            least / 1000,
            least % 1000
        )?;
    }
    Ok(())
}

/// Measures each call at each of its sizes.
pub(crate) fn run<R: Clock + Threads + Wait + Sync + Print>(
    rt: &R,
    alloc: Global,
    rounds: u64,
) -> io::Result<()> {
    for threads in [1u32, 2, 4] {
        run_all(rt, alloc, rounds, &Growing::calls(rounds.min(1)), threads)?;
    }
    for values in SIZES {
        run_all(rt, alloc, rounds, &Growing::WALKS, values)?;
    }
    Ok(())
}

/// Makes a table with so many values, and drops it: whoever counts the memory that the program asks
/// for sees the table's.
pub(crate) fn hold(alloc: Global, values: u32) -> io::Result<()> {
    let mut table = ThreadLocal::<u64>::new(alloc);
    fill(table.buckets_mut(), first(values))?;
    Ok(())
}
