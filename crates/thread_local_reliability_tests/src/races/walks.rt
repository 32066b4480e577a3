//! Walks over a table while threads publish in it.

use std::alloc::Global;
use std::sync::Wait;
use std::thread;
use std::thread::{Threads, yield_now};
use thread_local::ThreadLocal;
use thread_local::local::Local;
use thread_local_base::{Thread, bucket_size};
use thread_local_shared_buckets::Iter;

/// How many `Local`s publish during a walk.
const LOCALS: u64 = 24;

/// How many walks are made before giving up. Beside them the threads have a second or more to publish.
const WALKS: u64 = 1_000_000;

/// Whether a walk has just passed an id, and gave this number of values.
fn has_passed(walk: &Iter<'_, u64>, alloc: Global, id: usize, given: u64) -> bool {
    if id >= 1000 {
        return false;
    }
    let place = Thread::new(id);
    let behind = place.index.saturating_add(1);
    let size = bucket_size(place.bucket);
    let (Ok(text), Ok(expected)) = (
        format!(in alloc; "{walk:?}"),
        format!(in alloc;
            "Iter {{ raw: RawIter {{ yielded: {}, bucket: {}, bucket_size: {}, index: {} }} }}",
            given, place.bucket, size, behind
        ),
    ) else {
        return false;
    };
    text.as_str() == expected.as_str()
}

/// How many values a walk gives, if each is what its id's `Local` publishes in this round, and ids
/// ascend.
fn walked(table: &ThreadLocal<u64>, alloc: Global, round: u64) -> Option<u64> {
    let mut walk = table.iter();
    let mut given = 0u64;
    let mut least = 0u64;
    for _ in 0..LOCALS {
        let Some(value) = walk.next() else {
            return Some(given);
        };
        let id = *value / 1000;
        given = given.saturating_add(1);
        if *value % 1000 != round || id < least || !has_passed(&walk, alloc, id as usize, given) {
            return None;
        }
        least = id.saturating_add(1);
    }
    if walk.next().is_none() {
        Some(given)
    } else {
        None
    }
}

/// Walks until all values came. Answers whether they did, and no walk gave what it may not.
fn walk_until_all(table: &ThreadLocal<u64>, alloc: Global, round: u64) -> bool {
    for _ in 0..WALKS {
        match walked(table, alloc, round) {
            Some(given) => {
                if given == LOCALS {
                    return true;
                }
            }
            None => return false,
        }
        yield_now();
    }
    false
}

/// `Local`s that are taken in order, so each has the id of its number.
fn taken<'a, R: Wait>(
    table: &'a ThreadLocal<u64>,
    rt: &'a R,
    alloc: Global,
) -> Option<Vec<Local<'a, u64, R>>> {
    let mut locals = Vec::new(alloc);
    for _ in 0..LOCALS {
        let local = table.local(rt).ok()?;
        locals.push(local).ok()?;
    }
    Some(locals)
}

/// Eight threads publish at such `Local`s, each its number and the round, while another walks.
fn publish_and_walk<R: Wait + Threads + Sync>(
    table: &ThreadLocal<u64>,
    rt: &R,
    alloc: Global,
    round: u64,
) -> bool {
    let Some(mut locals) = taken(table, rt, alloc) else {
        return false;
    };
    let (seen, _) = thread::join(
        rt,
        || walk_until_all(table, alloc, round),
        || {
            thread::for_each_mut(
                rt,
                &mut locals,
                8,
                &|number, local| {
                    let value = (number as u64).wrapping_mul(1000).wrapping_add(round);
                    let _published = local.get_or(|| value).is_ok();
                },
            )
        },
    );
    seen && walked(table, alloc, round) == Some(LOCALS)
}

#[test]
fn a_walk_runs_while_eight_threads_publish(rt: HostRuntime) {
    for round in 0..200 {
        let table = ThreadLocal::<u64>::new(rt.alloc());
        assert!(rt; publish_and_walk(&table, &rt, rt.alloc(), round));
    }
}
