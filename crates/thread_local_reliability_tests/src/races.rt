//! Threads that use one table at once.

mod walks;

use crate::same::assert_same;
use std::alloc::Global;
use std::sync::Wait;
use std::sync::atomic::AtomicU32;
use std::sync::atomic::Ordering::SeqCst;
use std::test::Fail;
use std::thread;
use std::thread::Threads;
use thread_local::ThreadLocal;
use thread_local::local::Local;
use thread_local_base::LocalError;
use thread_local_test_helpers::signals::passes;

/// How many walks are made beside a race at most.
const WALKS: u32 = 100_000;

/// How many threads race.
const RACERS: u32 = 64;

/// Publishes a number once all racers are there, and counts that it did.
fn publish_together<R: Wait>(
    local: Local<'_, u32, R>,
    number: u32,
    gate: &AtomicU32,
    published: &AtomicU32,
) {
    let mut local = local;
    if passes(gate, RACERS) && local.get_or(|| number).is_ok() {
        published.fetch_add(1, SeqCst);
    }
}

/// As many `Local`s as there are racers, taken one after another.
fn taken<'a, R: Wait>(
    table: &'a ThreadLocal<u32>,
    rt: &'a R,
    alloc: Global,
) -> Result<Vec<Local<'a, u32, R>>, LocalError> {
    let mut locals = Vec::new(alloc);
    for _ in 0..RACERS {
        let local = table.local(rt)?;
        if locals.push(local).is_err() {
            break;
        }
    }
    Ok(locals)
}

/// Each racer publishes the number of its `Local`. Answers how many did.
fn race<R: Threads + Wait + Sync>(
    table: &ThreadLocal<u32>,
    rt: &R,
    alloc: Global,
) -> Result<u32, LocalError> {
    let gate = AtomicU32::new(0);
    let published = AtomicU32::new(0);
    let (at_gate, counter) = (&gate, &published);
    let locals = taken(table, rt, alloc)?;
    thread::scope(thread::scope_env(), rt, |scope| {
        let mut next = 0u32;
        for local in locals {
            let number = next;
            next = next.wrapping_add(1);
            let _started = scope
                .spawn(move || publish_together(local, number, at_gate, counter))
                .is_ok();
        }
    });
    Ok(published.load(SeqCst))
}

/// Whether an owner's walk gives the number of each racer, in order.
fn in_order(table: ThreadLocal<u32>) -> bool {
    let mut ascends = true;
    let mut next = 0u32;
    for value in table {
        ascends &= value == next;
        next = next.wrapping_add(1);
    }
    ascends && next == RACERS
}

/// Whether a shared walk does.
fn shared_in_order(table: &ThreadLocal<u32>) -> bool {
    let mut ascends = true;
    let mut next = 0u32;
    for value in table.iter() {
        ascends &= *value == next;
        next = next.wrapping_add(1);
    }
    ascends && next == RACERS
}

#[test]
fn many_locals_race_for_their_buckets(rt: HostRuntime) {
    for _ in 0..100 {
        let mut table = ThreadLocal::<u32>::new(rt.alloc());
        let published = race(&table, &rt, rt.alloc()).ok();
        let slots = table.slots();
        assert_same(
            &rt,
            (published, slots, in_order(table)),
            (Some(RACERS), 127, true),
        );
    }
}

/// Whether the items of a shared walk ascend strictly, and how many there are.
fn walked(table: &ThreadLocal<u32>) -> (bool, u32) {
    let mut ascends = true;
    let mut count = 0u32;
    let mut last: Option<u32> = None;
    for value in table.iter() {
        ascends &= last.is_none_or(|before| before < *value);
        last = Some(*value);
        count = count.wrapping_add(1);
    }
    (ascends, count)
}

/// Walks until all values came, or gives up. Answers whether the items of each walk ascended.
fn walks_ascend(table: &ThreadLocal<u32>) -> bool {
    for _ in 0..WALKS {
        let (ascends, count) = walked(table);
        if !ascends || count >= RACERS {
            return ascends;
        }
    }
    true
}

#[test]
fn walks_ascend_while_many_locals_race(rt: HostRuntime) {
    for _ in 0..100 {
        let mut table = ThreadLocal::<u32>::new(rt.alloc());
        let both = thread::join(
            &rt,
            || race(&table, &rt, rt.alloc()).ok(),
            || walks_ascend(&table),
        );
        let seen = shared_in_order(&table);
        let slots = table.slots();
        assert_same(
            &rt,
            (both, seen, slots, in_order(table)),
            ((Some(RACERS), true), true, 127, true),
        );
    }
}

/// Whether `get` answers 5 a thousand times.
fn finds_five<R: Wait>(local: &Local<'_, u64, R>) -> bool {
    for _ in 0..1000 {
        if local.get() != Some(&5) {
            return false;
        }
    }
    true
}

#[test]
fn threads_share_a_local(rt: HostRuntime) -> Result<(), Fail> {
    let table = ThreadLocal::<u64>::new(rt.alloc());
    let mut local = table.local(&rt)?;
    local.get_or(|| 5)?;
    let both = thread::join(&rt, || finds_five(&local), || finds_five(&local));
    assert_same(&rt, both, (true, true));
    Ok(())
}
