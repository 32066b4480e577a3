//! Threads make calls at random on one table after another, and the history of these calls is
//! printed, for `tools/histories` to check. The arguments are how many calls, by how many threads, a
//! seed, and the number of the first table, which is 0 where none is given. A table takes 8000 calls
//! or a few more, and fewer where fewer are asked for. In every eleventh table the threads hold 1100
//! `Local`s together, and every seventh is a pool. The history of one thread is the same in each run.
//!
//! A line `table CAPACITY` begins a table, made by `new` where the capacity is `-`, and `table pool` a
//! pool. A line `round` begins a round, after which the table's owner makes calls alone. Each other
//! line is a call:
//!
//!     BEFORE AFTER THREAD NAME LOCAL GIVEN ANSWER [ITEM ..]
//!
//! - BEFORE and AFTER are stamps, drawn from one counter before the call and after it.
//! - NAME is the call's name. `fail` is `get_or_try` with a closure that fails.
//! - LOCAL is the number of the `Local` whose call it is, or of what a pool lends.
//! - GIVEN is the value or the error that the call was given, or the id that it asks for. For a walk
//!   it is how many values it is asked for, and a walk to the end has none.
//! - ANSWER is an id for `local`, `token`, `publish` and `get_mut`, a length for an owner's walk, and
//!   a value or a number otherwise. `memory`, `exhausted`, `error:E` and `back:V` are refusals.
//! - An ITEM is a value that a walk gave: `VALUE`, `ID:VALUE`, `VALUE:WRITTEN` or
//!   `ID:VALUE:WRITTEN`.
//!
//! A `-` stands where there is nothing. All values, errors and numbers of `Local`s differ.
#![tactic(auto)]

mod gate;
mod history;
mod locals;
mod moves;
mod owner;
mod pools;
mod race;

use gate::Gate;
use history::Record;
use moves::{LOCALS, round};
use race::{NUMBERS, Plan};
use std::alloc::{AllocError, Global};
use std::io::{self, BufWriter, Print, Write};
use std::sync::Wait;
use std::sync::atomic::AtomicU64;
use std::thread::Threads;
use thread_local::ThreadLocal;
use thread_local_pool::Pool;

/// How many rounds a table lives.
const ROUNDS: u64 = 8;

/// How many calls the threads of a round make together at most, or a few more.
const CALLS: u64 = 1000;

/// How many `Local`s the threads of a table with many hold together.
const MANY: u64 = 1100;

/// What the arguments ask for.
#[derive(Clone, Copy)]
struct Asked {
    calls: u64,
    threads: u64,
    seed: u64,
    first: u64,
}

impl Asked {
    /// What the round of that number is given, of all rounds, in which a thread holds so many
    /// `Local`s at most.
    fn plan(self, past: u64, locals: usize) -> Plan {
        let Self {
            calls,
            threads,
            seed,
            first: _,
        } = self;
        let each = CALLS.min(calls / ROUNDS) / threads.max(1);
        let filled = if locals > LOCALS {
            locals.saturating_add(locals / 2)
        } else {
            0
        };
        Plan {
            threads,
            locals,
            calls: (each as usize).saturating_add(filled).saturating_add(1),
            seed: seed.wrapping_mul(1_000_003).wrapping_add(past),
            first: self.numbers(past).wrapping_add(NUMBERS),
        }
    }

    /// The number from which the owner makes the numbers of that round.
    fn numbers(self, past: u64) -> u64 {
        past.wrapping_mul(self.threads.wrapping_add(1).wrapping_mul(NUMBERS))
    }

    /// How many `Local`s a thread holds at most in the table of that number.
    fn locals(self, number: u64) -> usize {
        if number % 11 == 5 {
            (MANY / self.threads.max(1)).wrapping_add(1) as usize
        } else {
            LOCALS
        }
    }
}

/// The table of that number, and its capacity as it is printed.
fn made(alloc: Global, number: u64) -> Result<(ThreadLocal<u64>, &'static str), AllocError> {
    let (capacity, printed) = match number % 5 {
        0 => return Ok((ThreadLocal::new(alloc), "-")),
        1 => (4, "4"),
        2 => (0, "0"),
        3 => (21, "21"),
        _ => (1100, "1100"),
    };
    match ThreadLocal::with_capacity(alloc, capacity) {
        Ok(table) => Ok((table, printed)),
        Err(_) => Err(AllocError),
    }
}

/// A round of threads, then the owner's calls.
fn play<R: Threads + Wait + Sync, W: Write>(
    rt: &R,
    clock: &AtomicU64,
    table: &mut ThreadLocal<u64>,
    plan: Plan,
    step: u64,
    owner: &mut Record<'_>,
    out: &mut W,
) -> io::Result<()> {
    let alloc = owner.alloc;
    owner::renew(table, owner)?;
    let gate = Gate::new(plan.threads);
    let Some(records) = round(table, rt, alloc, clock, &gate, plan, owner)? else {
        return Err(AllocError.into());
    };
    for record in records {
        record.write(out)?;
    }
    owner::between(table, step, owner)?;
    Ok(())
}

/// The rounds of one table.
fn live<R: Threads + Wait + Sync, W: Write>(
    rt: &R,
    alloc: Global,
    clock: &AtomicU64,
    asked: Asked,
    number: u64,
    out: &mut W,
) -> io::Result<()> {
    let (mut table, capacity) = made(alloc, number)?;
    writeln!(out, "table {capacity}")?;
    let before = number.wrapping_mul(ROUNDS.wrapping_add(1));
    for step in 0..ROUNDS {
        let past = before.wrapping_add(step);
        let plan = asked.plan(past, asked.locals(number));
        writeln!(out, "round")?;
        let mut owner = Record::new(alloc, clock, asked.threads, asked.numbers(past));
        play(rt, clock, &mut table, plan, step, &mut owner, out)?;
        owner.write(out)?;
    }
    let first = asked.numbers(before.wrapping_add(ROUNDS));
    let mut owner = Record::new(alloc, clock, asked.threads, first);
    owner::end(table, number % 3 == 0, &mut owner)?;
    owner.write(out)
}

/// A round of threads that share a pool, then the owner's calls.
fn play_pool<R: Threads + Wait + Sync, W: Write>(
    rt: &R,
    clock: &AtomicU64,
    pool: &mut Pool<u64>,
    plan: Plan,
    step: u64,
    owner: &mut Record<'_>,
    out: &mut W,
) -> io::Result<()> {
    let gate = Gate::new(plan.threads);
    let Some(records) = pools::round(pool, rt, owner.alloc, clock, &gate, plan) else {
        return Err(AllocError.into());
    };
    for record in records {
        record.write(out)?;
    }
    pools::between(pool, step, owner)?;
    Ok(())
}

/// The rounds of one pool.
fn live_pool<R: Threads + Wait + Sync, W: Write>(
    rt: &R,
    alloc: Global,
    clock: &AtomicU64,
    asked: Asked,
    number: u64,
    out: &mut W,
) -> io::Result<()> {
    let mut pool = Pool::new(alloc);
    writeln!(out, "table pool")?;
    let before = number.wrapping_mul(ROUNDS.wrapping_add(1));
    for step in 0..ROUNDS {
        let past = before.wrapping_add(step);
        let plan = asked.plan(past, LOCALS);
        writeln!(out, "round")?;
        let mut owner = Record::new(alloc, clock, asked.threads, asked.numbers(past));
        play_pool(rt, clock, &mut pool, plan, step, &mut owner, out)?;
        owner.write(out)?;
    }
    let first = asked.numbers(before.wrapping_add(ROUNDS));
    let mut owner = Record::new(alloc, clock, asked.threads, first);
    pools::end(pool, &mut owner)?;
    owner.write(out)
}

/// Plays with one table after another, as many as it takes for so many calls.
fn run<R: Threads + Wait + Sync + Print>(rt: &R, alloc: Global, asked: Asked) -> io::Result<()> {
    let clock = AtomicU64::new(1);
    let mut out = BufWriter::new(alloc, io::writer(rt))?;
    let tables = (asked.calls / (ROUNDS * CALLS)).max(1);
    for number in asked.first..asked.first.saturating_add(tables) {
        if number % 7 == 6 {
            live_pool(rt, alloc, &clock, asked, number, &mut out)?;
        } else {
            live(rt, alloc, &clock, asked, number, &mut out)?;
        }
    }
    out.flush()
}

/// The number that a word is.
fn number(word: Option<String>) -> Option<u64> {
    word.and_then(|word| word.parse::<u64>().ok())
}

/// Reads the arguments and plays.
fn main(rt: HostRuntime) -> io::Result<()> {
    let mut words = std::env::args(&rt)?.skip(1);
    let calls = number(words.next());
    let threads = number(words.next());
    let seed = number(words.next());
    let first = number(words.next()).unwrap_or(0);
    match (calls, threads, seed) {
        (Some(calls), Some(threads), Some(seed)) if threads >= 1 && threads <= 64 => {
            let asked = Asked {
                calls,
                threads,
                seed,
                first,
            };
            run(&rt, rt.alloc(), asked)
        }
        _ => println!(rt;
            "usage: thread_local_histories CALLS THREADS SEED [FIRST], with 1 to 64 threads"
        ),
    }
}
