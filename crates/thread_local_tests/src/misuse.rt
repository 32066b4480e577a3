//! Programs that use a table as they may. Each is a line away from ones that must not compile:
//! `tools/misuse` changes that line, and compares why the compiler refuses the program then.

use crate::same::assert_same;
use std::alloc::Global;
use std::sync::Wait;
use std::thread;
use std::thread::Threads;
use thread_local::ThreadLocal;
use thread_local::local::Local;
use thread_local_shared_buckets::Claim;

/// A claim is handed on as one of a bucket of these values.
fn handed_on<'s, 'a>(claim: Claim<'a, &'static u64>) -> Claim<'a, &'static u64> {
    claim
}

/// What `get` answers is used before its `Local` is dropped.
fn found_before_the_drop<R: Wait>(table: &ThreadLocal<u32>, rt: &R) -> Option<u32> {
    let local = table.local(rt).ok()?;
    let value = local.get()?;
    let kept = *value;
    drop(local);
    Some(kept)
}

/// So is what `get_or` answers.
fn made_before_the_drop<R: Wait>(table: &ThreadLocal<u32>, rt: &R) -> Option<u32> {
    let mut local = table.local(rt).ok()?;
    let made = local.get_or(|| 1).ok()?;
    let copy = *made;
    drop(local);
    Some(copy)
}

/// The first answer of `get_or` is used before the second is asked for.
fn first_answer<R: Wait>(local: &mut Local<'_, u32, R>) -> Option<u32> {
    let first = local.get_or(|| 2).ok()?;
    let answer = *first;
    local.get_or(|| 3).ok()?;
    Some(answer)
}

/// A table is cleared, walked over and looked at once no `Local` of it is used any more.
fn owned_at_last<R: Wait>(table: ThreadLocal<u32>, rt: &R) -> Option<usize> {
    let mut table = table;
    let taken = table.local(rt).ok()?;
    drop(taken);
    let slots = table.slots();
    table.clear();
    let left = table.iter_mut().len();
    Some(slots.max(left).max(table.into_iter().len()))
}

/// A closure uses another `Local` than its own.
fn made_apart<R: Wait>(local: &mut Local<'_, u32, R>, other: &Local<'_, u32, R>) -> Option<u32> {
    let made = local.get_or(|| other.get().copied().unwrap_or(4)).ok()?;
    Some(*made)
}

/// Another thread looks at a `Local`, which finds nothing.
fn looked_at_by_another<R: Wait + Threads + Sync>(rt: &R, alloc: Global) -> Option<bool> {
    let numbers = ThreadLocal::<u32>::new(alloc);
    let local = numbers.local(rt).ok()?;
    Some(thread::join(rt, || local.get().is_none(), || ()).0)
}

/// A table of values that may cross between threads is made.
fn made_of_numbers(alloc: Global) -> usize {
    let mut made = ThreadLocal::<u32>::new(alloc);
    made.slots()
}

/// A table of values that threads may share is walked over.
fn walked_while_shared(alloc: Global) -> usize {
    let walked = ThreadLocal::<u32>::new(alloc);
    walked.iter().count()
}

/// What a shared walk gives is used before the table is cleared.
fn item_before_the_clear(table: &mut ThreadLocal<u32>) -> Option<u32> {
    let item = table.iter().next()?;
    let seen = *item;
    table.clear();
    Some(seen)
}

/// Two `Local`s that are held at once: the first answer of the second, and what the first makes of
/// it.
fn with_two_locals<R: Wait>(table: &ThreadLocal<u32>, rt: &R) -> Option<[Option<u32>; 2]> {
    let mut first = table.local(rt).ok()?;
    let mut second = table.local(rt).ok()?;
    Some([first_answer(&mut second), made_apart(&mut first, &second)])
}

/// What the programs tell that use one table.
fn of_one_table<R: Wait>(
    table: ThreadLocal<u32>,
    rt: &R,
) -> ([Option<u32>; 3], Option<[Option<u32>; 2]>, Option<usize>) {
    let alone = [
        found_before_the_drop(&table, rt),
        made_before_the_drop(&table, rt),
        found_before_the_drop(&table, rt),
    ];
    let together = with_two_locals(&table, rt);
    (alone, together, owned_at_last(table, rt))
}

/// What the programs tell that have a table of their own, or one that nobody used.
fn of_other_tables<R: Wait + Threads + Sync>(
    rt: &R,
    alloc: Global,
) -> ([usize; 2], Option<bool>, Option<u32>) {
    let mut other = ThreadLocal::<u32>::new(alloc);
    let item = item_before_the_clear(&mut other);
    (
        [made_of_numbers(alloc), walked_while_shared(alloc)],
        looked_at_by_another(rt, alloc),
        item,
    )
}

#[test]
fn the_programs_run(rt: HostRuntime) {
    let table = ThreadLocal::<u32>::new(rt.alloc());
    assert_same(
        &rt,
        of_one_table(table, &rt),
        ([None, Some(1), Some(1)], Some([Some(2), Some(1)]), Some(3)),
    );
    assert_same(
        &rt,
        of_other_tables(&rt, rt.alloc()),
        ([0; 2], Some(true), None),
    );
}
