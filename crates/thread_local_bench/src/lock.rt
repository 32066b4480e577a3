//! How long it takes to take an id and to give it back, alone and with four threads, under this
//! repository's lock and under std's.

use std::alloc::Global;
use std::io::Print;
use std::sync::{Mutex, Wait};
use std::thread::Threads;
use std::time::{Clock, Instant};
use std::{io, thread};
use thread_local_base::ThreadIdManager;
use thread_local_ids::{Fits, Lock};

/// Prints the times of `pairs` pairs, five times. Each of four threads does a fourth of them.
pub(crate) fn compare<R: Clock + Threads + Wait + Sync + Print>(
    rt: &R,
    alloc: Global,
    pairs: u64,
) -> io::Result<()> {
    for _ in 0..5 {
        let lock = Lock::new(Ids::new(alloc));
        let measured = times(&lock, rt, pairs);
        drop(lock.into_inner());
        let (alone, four) = measured?;
        println!(rt; "this lock: alone {alone} ns a pair, four threads {four} ns")?;
        let (alone, four) = times(&Mutex::new(Ids::new(alloc)), rt, pairs)?;
        println!(rt; "std's lock: alone {alone} ns a pair, four threads {four} ns")?;
    }
    Ok(())
}

/// The ids that lie under either lock.
#[derive(Drop)]
struct Ids {
    manager: ThreadIdManager,
}

// Any `Ids` fits.
impl Fits for Ids {
    ghost use Rattle.std.specs.Prelude.{⊤};

    ghost tag = { λ _. 0 };

    ghost fits = { λ _. ⊤ };
}

impl Ids {
    /// None of them is held.
    fn new(alloc: Global) -> Ids {
        Ids {
            manager: ThreadIdManager::new(alloc),
        }
    }

    /// Takes an id back. Nothing is known of what lay under a lock, so the id is tested first.
    fn give(&mut self, id: usize) {
        if self.manager.is_held(id) {
            self.manager.free(id);
        }
    }
}

/// Ids that several threads take and give back.
trait Shared: Sync {
    /// Takes an id, unless memory or ids are out.
    fn take<R: Wait>(&self, rt: &R) -> Option<usize>;

    /// Takes an id back.
    fn give<R: Wait>(&self, rt: &R, id: usize);
}

impl Shared for Lock<Ids> {
    fn take<R: Wait>(&self, rt: &R) -> Option<usize> {
        self.lock(rt).manager.alloc().ok()
    }

    fn give<R: Wait>(&self, rt: &R, id: usize) {
        self.lock(rt).give(id);
    }
}

impl Shared for Mutex<Ids> {
    fn take<R: Wait>(&self, rt: &R) -> Option<usize> {
        self.lock(rt).manager.alloc().ok()
    }

    fn give<R: Wait>(&self, rt: &R, id: usize) {
        self.lock(rt).give(id);
    }
}

/// Takes an id and gives it back, `pairs` times.
fn take_and_give<S: Shared, R: Wait>(ids: &S, rt: &R, pairs: u64) {
    for _ in 0..pairs {
        if let Some(id) = ids.take(rt) {
            ids.give(rt, id);
        }
    }
}

/// The nanoseconds for a pair, alone and with four threads.
fn times<S: Shared, R: Clock + Threads + Wait + Sync>(
    ids: &S,
    rt: &R,
    pairs: u64,
) -> io::Result<(u128, u128)> {
    let start = Instant::now(rt)?;
    take_and_give(ids, rt, pairs);
    let alone = start.elapsed(rt)?;
    let start = Instant::now(rt)?;
    by_four(ids, rt, pairs / 4);
    let four = start.elapsed(rt)?;
    let pairs = (pairs as u128).max(1);
    Ok((alone.as_nanos() / pairs, four.as_nanos() / pairs))
}

/// Does this many pairs on each of four threads.
fn by_four<S: Shared, R: Threads + Wait + Sync>(ids: &S, rt: &R, pairs: u64) {
    thread::join(rt, || by_two(ids, rt, pairs), || by_two(ids, rt, pairs));
}

/// Does this many pairs on each of two threads.
fn by_two<S: Shared, R: Threads + Wait + Sync>(ids: &S, rt: &R, pairs: u64) {
    thread::join(
        rt,
        || take_and_give(ids, rt, pairs),
        || take_and_give(ids, rt, pairs),
    );
}
