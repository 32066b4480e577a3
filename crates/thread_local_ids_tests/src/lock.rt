//! Tests of a lock: who takes it finds what was left there, and one thread at a time has it.
ghost use Rattle.std.specs.Prelude.{◌≡◌, ◌≤◌};

use crate::same::assert_same;
use std::sync::Wait;
use std::sync::atomic::AtomicBool;
use std::sync::atomic::Ordering::SeqCst;
use std::test::Fail;
use std::thread::Threads;
use std::time::{Clock, CpuClock, Duration};
use std::{io, thread};
use thread_local_ids::{Fits, Lock};

/// How many goods a shelf has, of which there is room for `room`.
#[derive(Clone, Copy, PartialEq, Eq, Debug)]
struct Shelf {
    room: u64,
    goods: u64,
}

impl Fits for Shelf {
    ghost tag = { λ shelf. shelf.room };

    ghost fits = { λ shelf. shelf.goods ≤ shelf.room };
}

/// Puts one there, and answers how many there are, unless the shelf is full.
fn put_one<R: Wait>(shelf: &Lock<Shelf>, rt: &R) -> Option<u64> {
    let mut guard = shelf.lock(rt);
    if guard.goods < guard.room {
        guard.goods += 1;
        Some(guard.goods)
    } else {
        None
    }
}

/// Puts so many there, and answers how often there was room.
fn put_many<R: Wait>(shelf: &Lock<Shelf>, rt: &R, times: u64) -> u64 {
    let mut count = 0u64;
    for _ in 0..times {
        if put_one(shelf, rt).is_some() {
            count = count.saturating_add(1);
        }
    }
    count
}

/// Takes all goods away, unless another thread has the shelf.
fn take_all(shelf: &Lock<Shelf>) -> Option<u64> {
    let mut guard = shelf.try_lock()?;
    let was = guard.goods;
    guard.goods = 0;
    Some(was)
}

/// What two guards see, the second taken while the first is there.
fn seen_twice(shelf: &Lock<Shelf>) -> (Option<u64>, Option<u64>) {
    let first = shelf.try_lock().map(|guard| guard.goods);
    let Some(guard) = shelf.try_lock() else {
        return (first, None);
    };
    let second = shelf.try_lock().map(|late| late.goods);
    (Some(guard.goods), second)
}

#[test]
fn a_lock_is_taken_once(rt: HostRuntime) {
    let shelf = Lock::new(Shelf { room: 5, goods: 3 });
    assert_same(&rt, seen_twice(&shelf), (Some(3), None));
    assert_same(&rt, take_all(&shelf), Some(3));
    assert_same(&rt, put_one(&shelf, &rt), Some(1));
    assert_same(&rt, shelf.into_inner(), Shelf { room: 5, goods: 1 });
}

#[test]
fn a_lock_that_was_left_taken_stays_so(rt: HostRuntime) {
    let shelf = Lock::new(Shelf { room: 5, goods: 3 });
    if let Some(mut guard) = shelf.try_lock() {
        guard.goods = 7;
        guard.forget();
    }
    assert!(rt; take_all(&shelf).is_none());
    assert_same(&rt, shelf.into_inner(), Shelf { room: 5, goods: 7 });
}

/// A count, which stays as it is while the lock is shared.
#[derive(Drop)]
struct Count {
    number: u64,
}

impl Fits for Count {
    ghost use Rattle.std.specs.Prelude.{⊤};

    ghost tag = { λ count. count.number };

    ghost fits = { λ _. ⊤ };
}

/// An owner writes another number.
fn count_anew(count: &mut Lock<Count>, number: u64)
    ensures { count.new.tag ≡ number }
{
    count.get_mut().number = number;
}

/// The number, unless the lock is taken.
fn counted(count: &Lock<Count>) -> Option<u64> {
    let guard = count.try_lock()?;
    Some(guard.number)
}

#[test]
fn an_owner_frees_a_lock_that_was_left_taken(rt: HostRuntime) {
    let mut count = Lock::new(Count { number: 3 });
    if let Some(guard) = count.try_lock() {
        guard.forget();
    }
    let taken = counted(&count);
    count_anew(&mut count, 7);
    assert_same(&rt, (taken, counted(&count)), (None, Some(7)));
    drop(count.into_inner());
}

/// How often a thread yields while it waits for another, or until others sleep.
const YIELDS: u64 = 50_000;

/// Takes the lock, says so, and has it until whoever waits for it sleeps.
fn hold<R: Wait>(shelf: &Lock<Shelf>, rt: &R, is_held: &AtomicBool) {
    let _guard = shelf.lock(rt);
    is_held.store(true, SeqCst);
    for _ in 0..YIELDS {
        thread::yield_now();
    }
}

/// Puts one there once another thread has the lock, and answers how often there was room.
fn put_late<R: Wait>(shelf: &Lock<Shelf>, rt: &R, is_held: &AtomicBool) -> u64 {
    for _ in 0..YIELDS {
        if is_held.load(SeqCst) {
            break;
        }
        thread::yield_now();
    }
    put_many(shelf, rt, 1)
}

// Two threads sleep for the lock when it is released: its next release wakes the second.
#[test]
fn each_sleeper_is_woken(rt: HostRuntime) {
    let shelf = Lock::new(Shelf { room: 5, goods: 0 });
    let is_held = AtomicBool::new(false);
    let (there, mark) = (&shelf, &is_held);
    let (_, puts) = thread::join(
        &rt,
        || hold(there, &rt, mark),
        || thread::join(
            &rt,
            || put_late(there, &rt, mark),
            || put_late(there, &rt, mark),
        ),
    );
    assert_same(&rt, (puts, shelf.into_inner().goods), ((1, 1), 2));
}

/// Takes the lock, says so, and has it for a second.
fn hold_for_a_second<R: Clock + Wait>(shelf: &Lock<Shelf>, rt: &R, is_held: &AtomicBool) {
    let _guard = shelf.lock(rt);
    is_held.store(true, SeqCst);
    thread::sleep(rt, Duration::from_secs(1));
}

/// How much of the processor's time a thread takes to put one there once another thread has the
/// lock.
fn time_of_late<R: CpuClock + Wait>(
    shelf: &Lock<Shelf>,
    rt: &R,
    is_held: &AtomicBool,
) -> io::Result<Duration> {
    let before = rt.thread_cpu_time()?;
    put_late(shelf, rt, is_held);
    Ok(rt.thread_cpu_time()?.saturating_sub(before))
}

// A thread that tries again and again would take that second of its processor.
#[test]
fn a_thread_that_waits_for_long_sleeps(rt: HostRuntime) -> Result<(), Fail> {
    let shelf = Lock::new(Shelf { room: 5, goods: 0 });
    let is_held = AtomicBool::new(false);
    let (there, mark) = (&shelf, &is_held);
    let (_, time) = thread::join(
        &rt,
        || hold_for_a_second(there, &rt, mark),
        || time_of_late(there, &rt, mark),
    );
    assert_same(&rt, shelf.into_inner().goods, 1);
    assert!(rt; time? < Duration::from_millis(200));
    Ok(())
}

#[test]
fn threads_write_one_at_a_time(rt: HostRuntime) {
    let shelf = Lock::new(Shelf {
        room: 35_000,
        goods: 0,
    });
    let there = &shelf;
    let (a, b) = thread::join(
        &rt,
        || thread::join(
            &rt,
            || put_many(there, &rt, 10_000),
            || put_many(there, &rt, 10_000),
        ),
        || thread::join(
            &rt,
            || put_many(there, &rt, 10_000),
            || put_many(there, &rt, 10_000),
        ),
    );
    let counts = a
        .0
        .saturating_add(a.1)
        .saturating_add(b.0)
        .saturating_add(b.1);
    assert_same(&rt, counts, 35_000);
    assert_same(&rt, shelf.into_inner().goods, 35_000);
}
