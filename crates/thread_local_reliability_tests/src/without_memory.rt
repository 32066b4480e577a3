//! What each call answers where no memory is left. A test takes all memory before such a call, so
//! every request is refused, and frees it before it compares.

use crate::refusals::Publishing;
use crate::refusals::held::numbers;
use crate::same::assert_same;
use std::alloc::{AllocError, Global};
use std::cell::Cell;
use std::sync::Wait;
use std::test::Fail;
use thread_local::ThreadLocal;
use thread_local::local::{Local, TryError};
use thread_local_base::LocalError;
use thread_local_buckets::CapacityError;
use thread_local_test_helpers::memory::take_all;

/// A table of numbers with this capacity.
fn with_capacity(alloc: Global, capacity: usize) -> Result<ThreadLocal<u32>, CapacityError> {
    ThreadLocal::with_capacity(alloc, capacity)
}

/// What a call that publishes 6 answers, and how often its closure was called.
fn publish_six<R: Wait>(
    call: Publishing,
    local: &mut Local<'_, u32, R>,
) -> (Result<u32, AllocError>, u32) {
    let calls = Cell::new(0);
    let answer = call.publish(local, 6, &calls);
    (answer, calls.get())
}

/// What such a call answers without memory, what its `Local` finds then, and what the same call
/// answers with memory.
fn publish_twice<R: Wait>(
    call: Publishing,
    local: &mut Local<'_, u32, R>,
    alloc: Global,
) -> Result<
    (
        (Result<u32, AllocError>, u32),
        bool,
        (Result<u32, AllocError>, u32),
    ),
    AllocError,
> {
    let taken = take_all(alloc)?;
    let refused = publish_six(call, local);
    let is_empty = local.get().is_none();
    drop(taken);
    Ok((refused, is_empty, publish_six(call, local)))
}

#[test]
fn a_refused_value_calls_no_closure_and_comes_later(rt: HostRuntime) -> Result<(), Fail> {
    for call in Publishing::ALL {
        let table = numbers(rt.alloc());
        let mut local = table.local(&rt)?;
        let (answer, calls) = call.wanted(6);
        assert_same(
            &rt,
            publish_twice(call, &mut local, rt.alloc())?,
            ((Err(AllocError), 0), true, (Ok(answer), calls)),
        );
    }
    Ok(())
}

/// What is told of a closure's error. None: out of memory, or a value.
fn error_told<R: Wait>(local: &mut Local<'_, u32, R>, error: &'static str) -> Option<&'static str> {
    match local.get_or_try(|| Err(error)) {
        Err(TryError::Create(told)) => Some(told),
        _ => None,
    }
}

/// What is told of two errors of a closure, and what `get_or` answers then, where no memory is left
/// after the first. At last what it answers where there is memory again.
fn publish_after_errors<R: Wait>(
    local: &mut Local<'_, u32, R>,
    alloc: Global,
) -> Result<([Option<&'static str>; 2], [Result<u32, AllocError>; 2]), AllocError> {
    let first = error_told(local, "a");
    let taken = take_all(alloc)?;
    let second = error_told(local, "b");
    let answer = local.get_or(|| 9).copied();
    drop(taken);
    Ok(([first, second], [answer, local.get_or(|| 9).copied()]))
}

#[test]
fn a_bucket_stands_after_an_error_of_the_closure(rt: HostRuntime) -> Result<(), Fail> {
    let table = numbers(rt.alloc());
    let mut local = table.local(&rt)?;
    assert_same(
        &rt,
        publish_after_errors(&mut local, rt.alloc())?,
        ([Some("a"), Some("b")], [Ok(9), Ok(9)]),
    );
    Ok(())
}

#[test]
fn an_error_of_the_closure_needs_no_memory_in_a_reserved_slot(rt: HostRuntime) -> Result<(), Fail> {
    let table = with_capacity(rt.alloc(), 1)?;
    let mut local = table.local(&rt)?;
    assert_same(
        &rt,
        publish_after_errors(&mut local, rt.alloc())?,
        ([Some("a"), Some("b")], [Ok(9), Ok(9)]),
    );
    Ok(())
}

/// Takes so many `Local`s. Those that are had are put into a list, which has room for them.
fn hold<'a, R: Wait>(
    table: &'a ThreadLocal<u32>,
    rt: &'a R,
    locals: &mut Vec<Local<'a, u32, R>>,
    count: usize,
) -> Result<(), AllocError> {
    for _ in 0..count {
        if let Ok(local) = table.local(rt) {
            locals.push(local)?;
        }
    }
    Ok(())
}

/// `Local`s that are held at once publish, where no memory is left if so asked. Answers which of
/// those that were had did.
fn publish_held<R: Wait>(
    table: &ThreadLocal<u32>,
    rt: &R,
    alloc: Global,
    count: usize,
    is_left: bool,
) -> Result<Vec<bool>, AllocError> {
    let mut locals = Vec::with_capacity(alloc, count)?;
    let mut published = Vec::with_capacity(alloc, count)?;
    let taken = if is_left {
        Vec::new(alloc)
    } else {
        take_all(alloc)?
    };
    hold(table, rt, &mut locals, count)?;
    for local in locals.iter_mut() {
        published.push(local.get_or(|| 5).is_ok())?;
    }
    drop(taken);
    Ok(published)
}

/// Of eight `Local`s with seven reserved slots the last alone needs memory.
const SEVEN_OF_EIGHT: [bool; 8] = [true, true, true, true, true, true, true, false];

#[test]
fn reserved_slots_need_no_memory(rt: HostRuntime) -> Result<(), Fail> {
    let table = with_capacity(rt.alloc(), 4)?;
    let published = publish_held(&table, &rt, rt.alloc(), 8, false)?;
    assert_same(&rt, published.as_slice(), SEVEN_OF_EIGHT.as_slice());
    Ok(())
}

/// How many slots a table has, then how many after a clear, and how many values an owner's walk has
/// to give.
fn slots_and_clear(table: &mut ThreadLocal<u32>) -> (usize, usize, usize) {
    let before = table.slots();
    table.clear();
    let after = table.slots();
    (before, after, table.iter_mut().len())
}

/// Which `Local`s publish before a clear, the slots and values around it, and which publish after
/// it where no memory is left.
fn publish_around_clear<R: Wait>(
    table: &mut ThreadLocal<u32>,
    rt: &R,
    alloc: Global,
    count: usize,
) -> Result<(Vec<bool>, (usize, usize, usize), Vec<bool>), AllocError> {
    let first = publish_held(table, rt, alloc, count, true)?;
    let slots = slots_and_clear(table);
    let second = publish_held(table, rt, alloc, count, false)?;
    Ok((first, slots, second))
}

#[test]
fn a_cleared_table_needs_no_memory_for_its_reserved_slots(rt: HostRuntime) -> Result<(), Fail> {
    let mut table = with_capacity(rt.alloc(), 4)?;
    let (first, slots, second) = publish_around_clear(&mut table, &rt, rt.alloc(), 8)?;
    assert_same(
        &rt,
        (first.as_slice(), slots, second.as_slice()),
        ([true; 8].as_slice(), (15, 7, 0), SEVEN_OF_EIGHT.as_slice()),
    );
    Ok(())
}

/// Whether the slot of a new `Local` is reserved.
fn is_reserved<R: Wait>(table: &ThreadLocal<u32>, rt: &R) -> Result<bool, LocalError> {
    Ok(table.local(rt)?.is_reserved())
}

#[test]
fn a_cleared_table_of_no_capacity_needs_memory_for_each_bucket(
    rt: HostRuntime,
) -> Result<(), Fail> {
    let mut table = numbers(rt.alloc());
    let (first, slots, second) = publish_around_clear(&mut table, &rt, rt.alloc(), 4)?;
    assert_same(
        &rt,
        (first.as_slice(), slots, second.as_slice()),
        ([true; 4].as_slice(), (7, 0, 0), [false; 4].as_slice()),
    );
    assert_same(&rt, is_reserved(&table, &rt)?, false);
    Ok(())
}

/// Whether a `Local` is refused memory.
fn is_refused<R: Wait>(table: &ThreadLocal<u32>, rt: &R) -> bool {
    matches!(table.local(rt), Err(LocalError::Memory(_)))
}

/// How many of 64 `Local`s that are asked for at once are had without memory, then whether one more
/// is refused, and whether it is where there is memory again.
fn hold_64<R: Wait>(
    table: &ThreadLocal<u32>,
    rt: &R,
    alloc: Global,
) -> Result<(usize, bool, bool), AllocError> {
    let mut locals = Vec::with_capacity(alloc, 64)?;
    let taken = take_all(alloc)?;
    hold(table, rt, &mut locals, 64)?;
    let without = is_refused(table, rt);
    drop(taken);
    Ok((locals.len(), without, is_refused(table, rt)))
}

#[test]
fn a_local_past_the_room_is_refused_and_comes_later(rt: HostRuntime) -> Result<(), Fail> {
    let table = numbers(rt.alloc());
    assert_same(&rt, hold_64(&table, &rt, rt.alloc())?, (58, true, false));
    Ok(())
}

/// Whether a capacity is refused memory, and whether one that is too large is told as such, where
/// no memory is left.
fn make_without_memory(alloc: Global) -> Result<(bool, bool), AllocError> {
    let taken = take_all(alloc)?;
    let four = with_capacity(alloc, 4);
    let too_many = with_capacity(alloc, 9223372036854775808);
    drop(taken);
    Ok((
        matches!(four, Err(CapacityError::Memory(_))),
        matches!(too_many, Err(CapacityError::TooLarge)),
    ))
}

#[test]
fn a_capacity_that_is_too_large_is_told_without_memory(rt: HostRuntime) -> Result<(), Fail> {
    assert_same(&rt, make_without_memory(rt.alloc())?, (true, true));
    Ok(())
}

/// Makes so many tables with room for 65535 ids, and drops each, where four MiB are left. Answers
/// how many were had. Their values have no bytes.
fn count_made(alloc: Global, count: usize) -> Result<usize, AllocError> {
    let spare = Vec::<u8>::with_capacity(alloc, 1 << 22)?;
    let taken = take_all(alloc)?;
    drop(spare);
    let mut made = 0usize;
    for _ in 0..count {
        if ThreadLocal::<()>::with_capacity(alloc, 65535).is_ok() {
            made = made.wrapping_add(1);
        }
    }
    drop(taken);
    Ok(made)
}

// The ids of each take 8 KiB, those of all 8 MiB.
#[test]
fn the_ids_of_a_dropped_table_are_freed(rt: HostRuntime) -> Result<(), Fail> {
    assert_same(&rt, count_made(rt.alloc(), 1000)?, 1000);
    Ok(())
}
