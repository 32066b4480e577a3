//! The calls that threads make at random on a table that they share.
ghost use Rattle.std.specs.Prelude.{IsSome};

use crate::gate::Gate;
use crate::history::Record;
use crate::locals::{Held, Told, entries, tokens, walk};
use crate::race::{Moves, Plan, race, stirred};
use std::alloc::{AllocError, Global};
use std::sync::atomic::AtomicU64;
use std::sync::{Mutex, Wait};
use std::thread::Threads;
use thread_local::ThreadLocal;

/// How many `Local`s a thread of most tables holds at most.
pub(crate) const LOCALS: usize = 6;

/// How many `Local`s may lie between two threads, and how many tokens.
const BETWEEN: usize = 8;

/// What the threads of a round share: a table, `Local`s on their way from one thread to another, and
/// tokens.
#[derive(Drop)]
struct Room<'a, R: Wait> {
    table: &'a ThreadLocal<u64>,
    rt: &'a R,
    locals: usize,
    handed: Mutex<Vec<Held<'a, R>>>,
    told: Mutex<Vec<Told<'a>>>,
    ghost named: { IsSome table.now.sharing },
}

/// How many values a walk is asked for: in half of the walks all.
fn asked(state: u64) -> usize {
    match (state >> 45) % 8 {
        0 => 1,
        1 => 2,
        2 => 5,
        3 => 9,
        _ => usize::MAX,
    }
}

/// Brings one of many `Local`s to the end, where the next call finds it.
fn choose<R: Wait>(hand: &mut Vec<Held<'_, R>>, state: u64) {
    let count = hand.len();
    if count > LOCALS {
        let chosen = (state >> 40) as usize % count;
        hand.swap(chosen, count - 1);
    }
}

impl<'a, R: Wait> Room<'a, R> {
    /// Takes as many `Local`s as a thread may hold, and publishes in the slots of half of them.
    fn fill(&self, hand: &mut Vec<Held<'a, R>>, record: &mut Record<'_>) -> Result<(), AllocError> {
        for number in 0..self.locals {
            self.take(hand, record)?;
            if number % 2 == 0 {
                if let Some(held) = hand.last_mut() {
                    held.get_or(record)?;
                }
            }
        }
        Ok(())
    }

    /// Takes a `Local`.
    fn take(&self, hand: &mut Vec<Held<'a, R>>, record: &mut Record<'_>) -> Result<(), AllocError> {
        if let Some(held) = Held::take(self.table, self.rt, record)? {
            hand.push(held)?;
        }
        Ok(())
    }

    /// Takes a `Local`, publishes, and leaves a token for the others.
    fn tell(&self, hand: &mut Vec<Held<'a, R>>, record: &mut Record<'_>) -> Result<(), AllocError> {
        if let Some((held, told)) = Held::tell(self.table, self.rt, record)? {
            hand.push(held)?;
            if let Some(told) = told {
                let mut all = self.told.lock(self.rt);
                if all.len() >= BETWEEN {
                    all.clear();
                }
                all.push(told)?;
            }
        }
        Ok(())
    }

    /// A token that some thread left.
    fn found(&self) -> Option<Told<'a>> {
        self.told.lock(self.rt).last().map(|told| told.again())
    }

    /// Reads by a token that some thread left.
    fn read(&self, record: &mut Record<'_>) -> Result<(), AllocError> {
        match self.found() {
            Some(told) => told.read(record),
            None => Ok(()),
        }
    }

    /// Hands a `Local` to whichever thread takes it over. One that has no room comes back.
    fn hand_over(&self, held: Held<'a, R>) -> Result<Option<Held<'a, R>>, AllocError> {
        let mut all = self.handed.lock(self.rt);
        if all.len() >= BETWEEN {
            return Ok(Some(held));
        }
        all.push(held)?;
        Ok(None)
    }

    /// Takes over a `Local` that some thread handed over.
    fn take_over(&self) -> Option<Held<'a, R>> {
        self.handed.lock(self.rt).pop()
    }

    /// A move that takes a `Local` or lets one go.
    fn come_or_go(
        &self,
        hand: &mut Vec<Held<'a, R>>,
        record: &mut Record<'_>,
        choice: u64,
        state: u64,
    ) -> Result<(), AllocError> {
        if choice < 13 && hand.len() < self.locals {
            return if choice < 10 {
                self.take(hand, record)
            } else {
                self.tell(hand, record)
            };
        }
        if choice >= 24 && hand.len() < self.locals {
            if let Some(held) = self.take_over() {
                hand.push(held)?;
            }
            return Ok(());
        }
        let Some(held) = hand.pop() else {
            return Ok(());
        };
        if choice < 22 {
            return held.give_back(record);
        }
        if choice == 22 && (state >> 50) % 64 == 0 {
            return held.leave(record);
        }
        match self.hand_over(held)? {
            Some(held) => held.give_back(record),
            None => Ok(()),
        }
    }

    /// A move that makes a call of the table or of a `Local` at hand.
    fn call(
        &self,
        hand: &mut Vec<Held<'a, R>>,
        record: &mut Record<'_>,
        choice: u64,
        state: u64,
    ) -> Result<(), AllocError> {
        match choice {
            26 => return walk(self.table, asked(state), record),
            27 if (state >> 50) % 2 == 0 => return tokens(self.table, asked(state), record),
            27 => return entries(self.table, asked(state), record),
            28 | 29 | 30 => return self.read(record),
            _ => {}
        }
        let Some(held) = hand.last_mut() else {
            return Ok(());
        };
        match choice {
            31 | 32 => held.walk(asked(state), record),
            33 | 34 => held.token(record),
            35 | 36 => held.publish(record),
            37 | 38 | 39 => held.set(record),
            40 | 41 | 42 => held.fail(record),
            43 | 44 | 45 => held.get_or_try(record),
            46 | 47 | 48 | 49 => held.get_or(record),
            _ => held.get(record),
        }
    }
}

impl<'a, R: Wait> Moves for Room<'a, R> {
    /// At the end it drops its `Local`s.
    fn moves(&self, record: &mut Record<'_>, count: usize, seed: u64) -> Result<(), AllocError> {
        let mut hand = Vec::with_capacity(record.alloc, LOCALS)?;
        let mut state = seed;
        if self.locals > LOCALS {
            self.fill(&mut hand, record)?;
        }
        for _ in 0..u64::MAX {
            if record.len() >= count {
                break;
            }
            state = stirred(state);
            choose(&mut hand, state);
            let choice = (state >> 33) % 58;
            if choice < 26 {
                self.come_or_go(&mut hand, record, choice, state)?;
            } else {
                self.call(&mut hand, record, choice, state)?;
            }
        }
        for held in hand {
            held.give_back(record)?;
        }
        Ok(())
    }
}

/// The threads make their moves at once. `Local`s that lie between them at the end are dropped by
/// the owner. Answers what was recorded, or none where a thread could not be started or had no
/// memory.
pub(crate) fn round<'a, R: Threads + Wait + Sync>(
    table: &'a ThreadLocal<u64>,
    rt: &'a R,
    alloc: Global,
    clock: &'a AtomicU64,
    gate: &'a Gate,
    plan: Plan,
    owner: &mut Record<'_>,
) -> Result<Option<Vec<Record<'a>>>, AllocError>
    requires { IsSome table.now.sharing }
{
    let room = Room {
        table,
        rt,
        locals: plan.locals,
        handed: Mutex::new(Vec::new(alloc)),
        told: Mutex::new(Vec::new(alloc)),
    };
    let recorded = race(rt, &room, alloc, clock, gate, plan);
    let Room {
        table: _,
        rt: _,
        locals: _,
        handed,
        told: _,
    } = room;
    for held in handed.into_inner() {
        held.give_back(owner)?;
    }
    Ok(recorded)
}
