//! Ids that are taken and given back, with few held and with many.
ghost use Rattle.std.specs.Prelude.{◌≡◌, ◌<◌, IfOk};
ghost use Rattle.thread_local_base.specs.Held.{HoldsAllBelow};

use crate::Round;
use std::alloc::{AllocError, Global};
use std::io;
use std::time::{Clock, Instant};
use thread_local_base::ThreadIdManager;

/// Takes the lowest id and gives it back, so often.
#[inline(always)]
fn take_and_give<R: Clock>(manager: &mut ThreadIdManager, rt: &R, pairs: u64) -> io::Result<Round> {
    let start = Instant::now(rt)?;
    for _ in 0..pairs {
        if let Ok(id) = manager.alloc() {
            manager.free(id);
        }
    }
    let time = start.elapsed(rt)?;
    Ok(Round {
        operations: pairs,
        time,
    })
}

/// Takes the first id and gives it back.
pub(crate) fn few<R: Clock>(rt: &R, alloc: Global, pairs: u64) -> io::Result<Round> {
    take_and_give(&mut ThreadIdManager::new(alloc), rt, pairs)
}

/// A manager with so many ids held, if it isn't refused one.
fn holding(alloc: Global, held: u32) -> Result<ThreadIdManager, AllocError>
    ensures { IfOk result (λ manager. HoldsAllBelow held manager.held) }
{
    let mut manager = ThreadIdManager::new(alloc);
    for _ in 0..held {
        match manager.alloc() {
            Ok(_) => {}
            Err(_) => return Err(AllocError),
        }
    }
    Ok(manager)
}

/// Gives one of so many held ids back and takes it again. How many are held only the proof asks.
#[inline(always)]
fn again(manager: &mut ThreadIdManager, held: u32, id: usize) -> usize
    requires held { HoldsAllBelow held manager.old.held }
    requires below { id < held }
    ensures held { HoldsAllBelow held manager.new.held }
    ensures id { result ≡ id }
{
    let _ = held;
    manager.free(id);
    match manager.alloc() {
        Ok(taken) => taken,
        // An id below the peak is free, so no error comes.
        Err(_) => id,
    }
}

/// Gives one of many held ids back and takes it again.
pub(crate) fn many<R: Clock>(rt: &R, alloc: Global, held: u32, pairs: u64) -> io::Result<Round> {
    let held = held.max(1);
    let mut manager = holding(alloc, held)?;
    let mut state = 1u64;
    let start = Instant::now(rt)?;
    for _ in 0..pairs {
        state = state
            .wrapping_mul(6364136223846793005)
            .wrapping_add(1442695040888963407);
        let id = ((state >> 33) % u64::from(held)) as usize;
        again(&mut manager, held, id);
    }
    let time = start.elapsed(rt)?;
    Ok(Round {
        operations: pairs,
        time,
    })
}

/// Gives the highest of many held ids back and takes it again.
pub(crate) fn highest<R: Clock>(rt: &R, alloc: Global, held: u32, pairs: u64) -> io::Result<Round> {
    let held = held.max(1);
    let mut manager = holding(alloc, held)?;
    let mut id = held as usize - 1;
    let start = Instant::now(rt)?;
    for _ in 0..pairs {
        id = again(&mut manager, held, id);
    }
    let time = start.elapsed(rt)?;
    Ok(Round {
        operations: pairs,
        time,
    })
}
