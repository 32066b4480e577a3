//! Threads that race on one table. Each takes `Local`s, publishes, drops and walks at random, and
//! checks what it finds; between rounds the table's owner checks what they left. The moves differ
//! from run to run only by what the threads meet. A call that is refused memory is counted, and the
//! thread goes on. The arguments are for how many seconds, and how many threads. What was counted is
//! printed, and a check that failed ends in status 1. With no argument four threads race for a
//! hundred rounds, and only what each such race counts alike is printed.
#![tactic(auto)]

use std::alloc::{AllocError, Global};
use std::io::Print;
use std::sync::atomic::AtomicU64;
use std::sync::atomic::Ordering::SeqCst;
use std::sync::{Arc, Wait};
use std::thread::Threads;
use std::time::{Clock, Instant};
use std::{io, thread};
use thread_local::ThreadLocal;
use thread_local::local::{Local, SetError};
use thread_local_base::judge_sync;

/// How many `Local`s a thread holds at most.
const LOCALS: usize = 8;

/// How many moves a thread makes in a round.
const MOVES: u32 = 200;

/// After how many rounds the owner clears the table. Halfway it drains it.
const ROUNDS: u64 = 4;

/// When a race ends: after so many seconds, or after so many rounds.
#[derive(Clone, Copy)]
enum Until {
    Seconds(u64),
    Rounds(u64),
}

impl Until {
    /// Whether a race is over that began then and has had so many rounds.
    fn is_over<R: Clock>(self, rt: &R, start: Instant, rounds: u64) -> io::Result<bool> {
        Ok(match self {
            Until::Seconds(seconds) => {
                start.elapsed(rt)?.as_nanos() / 1_000_000_000 >= u128::from(seconds)
            }
            Until::Rounds(most) => rounds >= most,
        })
    }
}

/// What is published: a number, and how many `Local`s know the value at the moment. One `Local` at
/// most has a value's id.
struct Mark {
    number: u64,
    holders: AtomicU64,
    drops: Arc<AtomicU64, Global>,
}

impl Drop for Mark {
    fn drop(self) {
        let Self {
            number: _,
            holders: _,
            drops,
        } = self;
        drops.fetch_add(1, SeqCst);
    }
}

/// What threads count together: values published and dropped, `Local`s taken, calls that were
/// refused memory, and what went wrong.
#[derive(Drop)]
struct Counts {
    published: AtomicU64,
    dropped: Arc<AtomicU64, Global>,
    taken: AtomicU64,
    refused: AtomicU64,
    faults: AtomicU64,
}

impl Counts {
    fn new(alloc: Global) -> Result<Counts, AllocError> {
        Ok(Counts {
            published: AtomicU64::new(0),
            dropped: Arc::new(alloc, AtomicU64::new(0))?,
            taken: AtomicU64::new(0),
            refused: AtomicU64::new(0),
            faults: AtomicU64::new(0),
        })
    }

    /// How many values stand.
    fn standing(&self) -> u64 {
        let dropped = self.dropped.load(SeqCst);
        self.published.load(SeqCst).wrapping_sub(dropped)
    }

    /// Counts a call that was refused memory.
    fn tell_of<T, E>(&self, answer: &Result<T, E>) {
        if answer.is_err() {
            self.refused.fetch_add(1, SeqCst);
        }
    }

    /// Counts a fault where something doesn't hold.
    fn expect(&self, holds: bool) {
        if !holds {
            self.faults.fetch_add(1, SeqCst);
        }
    }
}

/// A `Local`, and the number that it found or published.
#[derive(Drop)]
struct Held<'a, R: Wait> {
    local: Local<'a, Mark, R>,
    number: Option<u64>,
}

impl<'a, R: Wait> Held<'a, R> {
    /// Takes a `Local`. Where it finds a value, nobody else may know it.
    fn take(
        table: &'a ThreadLocal<Mark>,
        rt: &'a R,
        counts: &Counts,
    ) -> Result<Held<'a, R>, AllocError> {
        let local = table.local(rt).map_err(|_| AllocError)?;
        counts.taken.fetch_add(1, SeqCst);
        let number = match local.get() {
            Some(mark) => {
                counts.expect(mark.holders.fetch_add(1, SeqCst) == 0);
                Some(mark.number)
            }
            None => None,
        };
        Ok(Held { local, number })
    }

    /// Publishes a value, unless there is one, which stays as it was.
    fn publish(&mut self, number: u64, counts: &Counts) -> Result<(), AllocError> {
        let drops = Arc::try_clone(&counts.dropped)?;
        let mark = self.local.get_or(|| Mark {
            number,
            holders: AtomicU64::new(1),
            drops,
        })?;
        match self.number {
            Some(found) => counts.expect(mark.number == found),
            None => {
                counts.expect(mark.number == number);
                counts.published.fetch_add(1, SeqCst);
            }
        }
        self.number = Some(mark.number);
        Ok(())
    }

    /// Publishes a value, unless there is one: then this one comes back.
    fn set(&mut self, number: u64, counts: &Counts) -> Result<(), AllocError> {
        let drops = Arc::try_clone(&counts.dropped)?;
        let mark = Mark {
            number,
            holders: AtomicU64::new(1),
            drops,
        };
        match self.local.set(mark) {
            Ok(()) => {
                counts.expect(self.number.is_none());
                counts.published.fetch_add(1, SeqCst);
                self.number = Some(number);
                Ok(())
            }
            Err(SetError::Occupied(back)) => {
                counts.expect(self.number.is_some() && back.number == number);
                counts.published.fetch_add(1, SeqCst);
                drop(back);
                Ok(())
            }
            Err(SetError::Memory(back)) => {
                counts.published.fetch_add(1, SeqCst);
                drop(back);
                Err(AllocError)
            }
        }
    }

    /// Drops the `Local`. Its value is what it was, and nobody else knows it.
    fn give_back(self, counts: &Counts) {
        let Self { local, number } = self;
        match local.get() {
            Some(mark) => {
                counts.expect(number == Some(mark.number));
                counts.expect(mark.holders.fetch_sub(1, SeqCst) == 1);
            }
            None => counts.expect(number.is_none()),
        }
    }
}

/// Walks over the table: a value is known to one `Local` at most.
fn walk(table: &ThreadLocal<Mark>, counts: &Counts) {
    for mark in table.iter() {
        counts.expect(mark.holders.load(SeqCst) <= 1);
    }
}

/// Makes the move that a random number draws: takes a `Local`, gives the last one back, or publishes
/// with it, and now and then walks.
fn make_move<'a, R: Wait>(
    table: &'a ThreadLocal<Mark>,
    rt: &'a R,
    counts: &Counts,
    all: &mut Vec<Held<'a, R>>,
    draw: u64,
) -> Result<(), AllocError> {
    let choice = (draw >> 33) % 4;
    if (draw >> 40) % 16 == 0 {
        walk(table, counts);
    }
    if choice == 0 && all.len() < LOCALS {
        all.push(Held::take(table, rt, counts)?)?;
    } else if choice == 1 {
        if let Some(held) = all.pop() {
            held.give_back(counts);
        }
    } else if let Some(held) = all.last_mut() {
        if choice == 2 {
            held.publish(draw, counts)?;
        } else {
            held.set(draw, counts)?;
        }
    }
    Ok(())
}

/// Makes `MOVES` moves at random, from a state of its own.
fn moves<R: Wait>(
    table: &ThreadLocal<Mark>,
    rt: &R,
    alloc: Global,
    counts: &Counts,
    state: u64,
) -> Result<(), AllocError> {
    let mut all: Vec<Held<'_, R>> = Vec::with_capacity(alloc, LOCALS)?;
    let mut state = state;
    for _ in 0..MOVES {
        state = state
            .wrapping_mul(6364136223846793005)
            .wrapping_add(1442695040888963407);
        counts.tell_of(&make_move(table, rt, counts, &mut all, state));
    }
    for held in all {
        held.give_back(counts);
    }
    Ok(())
}

/// `threads` threads make their moves at once, after `before` rounds.
fn round<R: Threads + Wait + Sync>(
    table: &ThreadLocal<Mark>,
    rt: &R,
    alloc: Global,
    counts: &Counts,
    threads: u64,
    before: u64,
) {
    thread::scope(thread::scope_env(), rt, |scope| {
        for number in 0..threads {
            let state = before.wrapping_mul(threads).wrapping_add(number);
            let started = scope.spawn(move || {
                counts.tell_of(&moves(table, rt, alloc, counts, state));
            });
            counts.expect(started.is_ok());
        }
    });
}

/// What an owner finds between rounds: each published value once, known to nobody, in no more slots
/// than `most` `Local`s need.
fn owner_checks(table: &mut ThreadLocal<Mark>, counts: &Counts, most: u64) {
    let slots = table.slots() as u64;
    counts.expect(slots < most.saturating_mul(2));
    let standing = counts.standing();
    let mut walked = 0u64;
    for mark in table {
        walked = walked.wrapping_add(1);
        counts.expect(mark.holders.load(SeqCst) == 0);
    }
    counts.expect(walked == standing);
}

/// Drains the table: each value that stands comes out, known to nobody, and the slots stay.
fn drain(table: &mut ThreadLocal<Mark>, counts: &Counts) {
    let slots = table.slots();
    let standing = counts.standing();
    let mut drained = 0u64;
    for mark in table.drain() {
        drained = drained.wrapping_add(1);
        counts.expect(mark.holders.load(SeqCst) == 0);
    }
    counts.expect(drained == standing && counts.standing() == 0 && table.slots() == slots);
}

/// Runs rounds with `threads` threads, and prints what was counted. A fault is told, and ends in an
/// error.
fn run<R: Clock + Threads + Wait + Sync + Print>(
    rt: &R,
    alloc: Global,
    until: Until,
    threads: u64,
) -> io::Result<()> {
    judge_sync::<Mark>();
    let counts = Counts::new(alloc)?;
    let mut table = ThreadLocal::new(alloc);
    let most = threads.saturating_mul(LOCALS as u64);
    let start = Instant::now(rt)?;
    let mut rounds = 0u64;
    for _ in 0..u64::MAX {
        round(&table, rt, alloc, &counts, threads, rounds);
        rounds = rounds.wrapping_add(1);
        owner_checks(&mut table, &counts, most);
        if rounds % ROUNDS == 2 {
            drain(&mut table, &counts);
        }
        if rounds % ROUNDS == 0 {
            table.clear();
            counts.expect(table.slots() == 0 && counts.standing() == 0);
        }
        if until.is_over(rt, start, rounds)? {
            break;
        }
    }
    drop(table);
    counts.expect(counts.standing() == 0);
    tell(rt, &counts, until, rounds, threads)
}

/// Prints what was counted. A fault ends in an error. How many values are published depends on what
/// the threads meet, so a race of so many rounds doesn't tell it.
fn tell<R: Print>(
    rt: &R,
    counts: &Counts,
    until: Until,
    rounds: u64,
    threads: u64,
) -> io::Result<()> {
    let taken = counts.taken.load(SeqCst);
    let published = counts.published.load(SeqCst);
    let refused = counts.refused.load(SeqCst);
    let faults = counts.faults.load(SeqCst);
    print!(rt; "{threads} threads, {rounds} rounds, {taken} Locals taken, ")?;
    if let Until::Seconds(_) = until {
        print!(rt; "{published} values published and dropped, ")?;
    }
    println!(rt; "{refused} calls refused, {faults} faults")?;
    if faults == 0 {
        Ok(())
    } else {
        Err(io::Error::from(io::ErrorKind::Other))
    }
}

/// The number that a word is.
fn number(word: Option<String>) -> Option<u64> {
    word.and_then(|word| word.parse::<u64>().ok())
}

/// Reads the arguments, and lets the threads race.
fn main(rt: HostRuntime) -> io::Result<()> {
    let mut words = std::env::args(&rt)?.skip(1);
    let first = words.next();
    if first.is_none() {
        return run(&rt, rt.alloc(), Until::Rounds(100), 4);
    }
    let seconds = number(first);
    let threads = number(words.next());
    match (seconds, threads) {
        (Some(seconds), Some(threads)) if threads >= 1 && threads <= 64 => {
            run(&rt, rt.alloc(), Until::Seconds(seconds), threads)
        }
        _ => println!(rt; "usage: thread_local_races SECONDS THREADS, with 1 to 64 threads"),
    }
}
