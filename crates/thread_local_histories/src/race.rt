//! A race of a round: threads make moves at random at once, and each records what it calls.
use crate::gate::Gate;
use crate::history::Record;
use std::alloc::{AllocError, Global};
use std::sync::atomic::AtomicU64;
use std::sync::atomic::Ordering::SeqCst;
use std::sync::{Mutex, Wait};
use std::thread;
use std::thread::Threads;

/// The next state of a thread's choices.
pub(crate) fn stirred(state: u64) -> u64 {
    state
        .wrapping_mul(6364136223846793005)
        .wrapping_add(1442695040888963407)
}

/// What a round is given: how many threads, how many `Local`s each holds at most, how many calls it
/// makes at least, a seed, and the number from which the threads make theirs.
#[derive(Clone, Copy)]
pub(crate) struct Plan {
    pub(crate) threads: u64,
    pub(crate) locals: usize,
    pub(crate) calls: usize,
    pub(crate) seed: u64,
    pub(crate) first: u64,
}

/// How many numbers each thread may make in a round.
pub(crate) const NUMBERS: u64 = 4096;

/// What the threads of a round share, and what each of them does with it.
pub(crate) trait Moves {
    /// Makes moves at random until so many calls are recorded.
    fn moves(&self, record: &mut Record<'_>, count: usize, seed: u64) -> Result<(), AllocError>;
}

/// Makes the moves of a thread, and keeps their record.
fn play<'a, R: Wait, M: Moves>(
    rt: &R,
    room: &M,
    kept: &Mutex<Vec<Record<'a>>>,
    record: Record<'a>,
    plan: Plan,
    seed: u64,
) -> Result<(), AllocError> {
    let mut record = record;
    let moved = room.moves(&mut record, plan.calls, seed);
    kept.lock(rt).push(record)?;
    moved
}

/// Starts the threads and waits for their end. Answers what was recorded, or none where a thread
/// could not be started or had no memory.
pub(crate) fn race<'a, R: Threads + Wait + Sync, M: Moves + Sync>(
    rt: &R,
    room: &M,
    alloc: Global,
    clock: &'a AtomicU64,
    gate: &'a Gate,
    plan: Plan,
) -> Option<Vec<Record<'a>>> {
    let kept = Mutex::new(Vec::new(alloc));
    let refused = AtomicU64::new(0);
    let (all, failed) = (&kept, &refused);
    thread::scope(thread::scope_env(), rt, |scope| {
        for number in 0..plan.threads {
            let first = plan.first.wrapping_add(number.wrapping_mul(NUMBERS));
            let seed = stirred(plan.seed.wrapping_mul(64).wrapping_add(number));
            let started = scope.spawn(move || {
                let record = Record::racing(alloc, clock, gate, plan.calls, number, first);
                if play(rt, room, all, record, plan, seed).is_err() {
                    failed.fetch_add(1, SeqCst);
                }
            });
            if started.is_err() {
                failed.fetch_add(1, SeqCst);
            }
        }
    });
    if refused.load(SeqCst) == 0 {
        Some(kept.into_inner())
    } else {
        None
    }
}
