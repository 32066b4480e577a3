//! The calls that threads make at random on a pool that they share, and those of its owner.

use crate::gate::Gate;
use crate::history::{Answer, Call, Item, Record};
use crate::race::{Moves, Plan, race, stirred};
use std::alloc::{AllocError, Global};
use std::sync::Wait;
use std::sync::atomic::AtomicU64;
use std::thread::Threads;
use thread_local::thread_id::LocalError;
use thread_local_pool::{Pool, Pooled};

/// A value that a pool lends, with the number that the history knows the loan by.
#[derive(Drop)]
struct Loan<'a, R: Wait> {
    number: u64,
    pooled: Pooled<'a, u64, R>,
}

impl<'a, R: Wait> Loan<'a, R> {
    /// Borrows a value, or records why there is none.
    fn take(
        pool: &'a Pool<u64>,
        rt: &'a R,
        record: &mut Record<'_>,
    ) -> Result<Option<Loan<'a, R>>, AllocError> {
        let number = record.fresh();
        let value = record.fresh();
        let before = record.begin();
        let (answer, loan) = match pool.get(rt, || value) {
            Ok(pooled) => {
                let found = *pooled;
                (Answer::Number(found), Some(Loan { number, pooled }))
            }
            Err(LocalError::Memory(_)) => (Answer::Memory, None),
            Err(LocalError::Exhausted) => (Answer::Exhausted, None),
        };
        record.ended(before, "lend", Some(number), Some(value), answer)?;
        Ok(loan)
    }

    /// Writes another value in its place.
    fn write(&mut self, record: &mut Record<'_>) -> Result<(), AllocError> {
        let value = record.fresh();
        let before = record.begin();
        let found = *self.pooled;
        *self.pooled = value;
        record.ended(
            before,
            "write",
            Some(self.number),
            Some(value),
            Answer::Number(found),
        )
    }

    /// Puts the value back.
    fn put(self, record: &mut Record<'_>) -> Result<(), AllocError> {
        let Self { number, pooled } = self;
        let before = record.begin();
        let found = *pooled;
        drop(pooled);
        record.ended(before, "put", Some(number), None, Answer::Number(found))
    }

    /// Takes the value out of the pool.
    fn keep(self, record: &mut Record<'_>) -> Result<(), AllocError> {
        let Self { number, pooled } = self;
        let before = record.begin();
        let value = pooled.take();
        record.ended(before, "keep", Some(number), None, Answer::Number(value))
    }
}

/// What the threads of a round share: a pool.
#[derive(Drop)]
struct Room<'a, R: Wait> {
    pool: &'a Pool<u64>,
    rt: &'a R,
    loans: usize,
}

impl<'a, R: Wait> Room<'a, R> {
    /// Borrows a value.
    fn take(&self, hand: &mut Vec<Loan<'a, R>>, record: &mut Record<'_>) -> Result<(), AllocError> {
        if let Some(loan) = Loan::take(self.pool, self.rt, record)? {
            hand.push(loan)?;
        }
        Ok(())
    }
}

/// Makes a call of the last loan at hand.
fn use_last<R: Wait>(
    hand: &mut Vec<Loan<'_, R>>,
    choice: u64,
    record: &mut Record<'_>,
) -> Result<(), AllocError> {
    let Some(mut loan) = hand.pop() else {
        return Ok(());
    };
    match choice {
        0 | 8 => return loan.keep(record),
        9 | 10 => {
            loan.write(record)?;
            hand.push(loan)?;
        }
        _ => return loan.put(record),
    }
    Ok(())
}

impl<'a, R: Wait> Moves for Room<'a, R> {
    /// At the end it puts back what it has.
    fn moves(&self, record: &mut Record<'_>, count: usize, seed: u64) -> Result<(), AllocError> {
        let mut hand = Vec::with_capacity(record.alloc, self.loans)?;
        let mut state = seed;
        for _ in 0..u64::MAX {
            if record.len() >= count {
                break;
            }
            state = stirred(state);
            let choice = (state >> 33) % 16;
            if choice < 8 && hand.len() < self.loans {
                self.take(&mut hand, record)?;
            } else {
                use_last(&mut hand, choice, record)?;
            }
        }
        for loan in hand {
            loan.put(record)?;
        }
        Ok(())
    }
}

/// The threads make their moves at once. Answers what was recorded, or none where a thread could not
/// be started or had no memory.
pub(crate) fn round<'a, R: Threads + Wait + Sync>(
    pool: &Pool<u64>,
    rt: &R,
    alloc: Global,
    clock: &'a AtomicU64,
    gate: &'a Gate,
    plan: Plan,
) -> Option<Vec<Record<'a>>> {
    let room = Room {
        pool,
        rt,
        loans: plan.locals,
    };
    race(rt, &room, alloc, clock, gate, plan)
}

/// Writes another value in the place of each.
fn iter_mut(pool: &mut Pool<u64>, record: &mut Record<'_>) -> Result<(), AllocError> {
    let mut items = Vec::new(record.alloc);
    let before = record.begin();
    for value in pool.iter_mut() {
        let written = record.fresh();
        items.push(Item::written(None, *value, written))?;
        *value = written;
    }
    let after = record.stamp();
    let call = Call::walk("pool_iter_mut", None, None, Answer::Nothing, items);
    record.keep(before, after, call)
}

/// Takes up to `most` values out, and drops the others.
fn drain(pool: &mut Pool<u64>, most: usize, record: &mut Record<'_>) -> Result<(), AllocError> {
    let mut items = Vec::new(record.alloc);
    let before = record.begin();
    for value in pool.drain() {
        items.push(Item::value(value))?;
        if items.len() == most {
            break;
        }
    }
    let after = record.stamp();
    let asked = Some(most as u64);
    let call = Call::walk("pool_drain", None, asked, Answer::Nothing, items);
    record.keep(before, after, call)
}

fn slots(pool: &mut Pool<u64>, record: &mut Record<'_>) -> Result<(), AllocError> {
    let before = record.begin();
    let answer = Answer::Number(pool.slots() as u64);
    record.ended(before, "pool_slots", None, None, answer)
}

fn clear(pool: &mut Pool<u64>, record: &mut Record<'_>) -> Result<(), AllocError> {
    let before = record.begin();
    pool.clear();
    record.ended(before, "pool_clear", None, None, Answer::Nothing)
}

/// What the owner does after the round of that number.
pub(crate) fn between(
    pool: &mut Pool<u64>,
    round: u64,
    record: &mut Record<'_>,
) -> Result<(), AllocError> {
    slots(pool, record)?;
    match round % 4 {
        1 => drain(pool, 3, record)?,
        2 => clear(pool, record)?,
        _ => iter_mut(pool, record)?,
    }
    slots(pool, record)
}

/// Ends a pool: its values are moved out.
pub(crate) fn end(pool: Pool<u64>, record: &mut Record<'_>) -> Result<(), AllocError> {
    let mut items = Vec::new(record.alloc);
    let before = record.begin();
    for value in pool.into_iter() {
        items.push(Item::value(value))?;
    }
    let after = record.stamp();
    let call = Call::walk("pool_into_iter", None, None, Answer::Nothing, items);
    record.keep(before, after, call)
}
