//! How large a table grows.

use crate::locals::{numbers, published};
use crate::same::assert_same;
use std::alloc::Global;
use std::sync::Wait;
use std::test::Fail;
use thread_local::ThreadLocal;
use thread_local_buckets::CapacityError;

/// `Local`s that are held at once each publish their number, as many as are asked for. Answers
/// whether none was refused.
fn publish_held<R: Wait>(table: &ThreadLocal<u32>, rt: &R, alloc: Global, count: u32) -> bool {
    let mut locals = Vec::new(alloc);
    for number in 0..count {
        let Ok(mut local) = table.local(rt) else {
            return false;
        };
        if published(&mut local, number).is_none() || locals.push(local).is_err() {
            return false;
        }
    }
    true
}

fn with_capacity(alloc: Global, capacity: usize) -> Result<ThreadLocal<u32>, CapacityError> {
    ThreadLocal::with_capacity(alloc, capacity)
}

/// Whether a new `Local` publishes a number, and isn't refused.
fn publish_alone<R: Wait>(table: &ThreadLocal<u32>, rt: &R, number: u32) -> bool {
    match table.local(rt) {
        Ok(mut local) => published(&mut local, number).is_some(),
        Err(_) => false,
    }
}

fn publish_in_turn<R: Wait>(table: &ThreadLocal<u32>, rt: &R, count: u32) -> bool {
    for number in 0..count {
        if !publish_alone(table, rt, number) {
            return false;
        }
    }
    true
}

#[test]
fn locals_one_after_another_use_one_slot(rt: HostRuntime) {
    let mut table = numbers(rt.alloc());
    let published = publish_in_turn(&table, &rt, 1000);
    assert_same(&rt, (published, table.slots()), (true, 1));
}

// Whether so many publish in a table while they are held, and how many slots it has then.
fn held_and_slots<R: Wait>(
    mut table: ThreadLocal<u32>,
    rt: &R,
    alloc: Global,
    count: u32,
) -> (bool, usize) {
    let published = publish_held(&table, rt, alloc, count);
    (published, table.slots())
}

#[test]
fn locals_held_at_once_use_fewer_than_twice_as_many_slots(rt: HostRuntime) {
    for (count, slots) in [(1, 1), (2, 3), (3, 3), (4, 7), (7, 7), (8, 15)] {
        assert_same(
            &rt,
            held_and_slots(numbers(rt.alloc()), &rt, rt.alloc(), count),
            (true, slots),
        );
    }
}

#[test]
fn locals_held_beyond_a_capacity_use_no_more_slots_than_without(
    rt: HostRuntime,
) -> Result<(), Fail> {
    let table = with_capacity(rt.alloc(), 4)?;
    assert_same(&rt, held_and_slots(table, &rt, rt.alloc(), 9), (true, 15));
    Ok(())
}

/// Whether a shared walk gives no value.
fn shares_none(table: &ThreadLocal<u32>) -> bool {
    table.iter().next().is_none()
}

/// Whether an owner's walk has no value to give, and gives none.
fn lends_none(table: &mut ThreadLocal<u32>) -> bool {
    let mut values = table.iter_mut();
    values.len() == 0 && values.next().is_none()
}

/// Whether no value is moved out.
fn moves_out_none(table: ThreadLocal<u32>) -> bool {
    let mut values = table.into_iter();
    values.len() == 0 && values.next().is_none()
}

#[test]
fn a_new_table_has_no_slots_and_no_values(rt: HostRuntime) {
    let mut table = numbers(rt.alloc());
    let slots = table.slots();
    let shared = shares_none(&table);
    let lent = lends_none(&mut table);
    assert_same(
        &rt,
        (slots, shared, lent, moves_out_none(table)),
        (0, true, true, true),
    );
}

fn reserved(alloc: Global, capacity: usize) -> Result<usize, CapacityError> {
    Ok(with_capacity(alloc, capacity)?.slots())
}

#[test]
fn a_capacity_reserves_the_slots_of_its_binary_digits(rt: HostRuntime) -> Result<(), Fail> {
    for (capacity, slots) in [(0, 0), (1, 1), (3, 3), (4, 7), (7, 7), (8, 15)] {
        assert_same(&rt, reserved(rt.alloc(), capacity)?, slots);
    }
    Ok(())
}

#[test]
fn a_capacity_may_be_too_large(rt: HostRuntime) {
    let too_large = reserved(rt.alloc(), 9223372036854775808);
    assert!(rt; matches!(too_large, Err(CapacityError::TooLarge)));
    let refused = reserved(rt.alloc(), 9223372036854775807);
    assert!(rt; matches!(refused, Err(CapacityError::Memory(_))));
}

/// `Local`s that are held at once are reserved or not, each as is expected.
fn are_reserved<R: Wait>(
    table: &ThreadLocal<u32>,
    rt: &R,
    alloc: Global,
    expected: &[bool],
) -> bool {
    let mut locals = Vec::new(alloc);
    for reserved in expected {
        let Ok(local) = table.local(rt) else {
            return false;
        };
        if local.is_reserved() != *reserved || locals.push(local).is_err() {
            return false;
        }
    }
    true
}

#[test]
fn places_below_the_reserved_slots_are_reserved(rt: HostRuntime) -> Result<(), Fail> {
    let table = with_capacity(rt.alloc(), 4)?;
    let expected = [true, true, true, true, true, true, true, false];
    let as_expected = are_reserved(&table, &rt, rt.alloc(), &expected);
    let other = numbers(rt.alloc());
    let other_as_expected = are_reserved(&other, &rt, rt.alloc(), &[false]);
    assert_same(&rt, (as_expected, other_as_expected), (true, true));
    Ok(())
}
