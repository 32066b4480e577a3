//! The deprecated name of a table, in use.
ghost use Rattle.std.specs.Prelude.{◌≢◌, IfSome};

use crate::same::assert_same;
use std::alloc::Global;
use std::cell::Cell;
use std::default::MadeWith;
use std::sync::Wait;
use thread_local::cached::{CachedIntoIter, CachedIterMut, CachedThreadLocal};
use thread_local::local::{Local, TryError};
use thread_local_test_helpers::printed::prints;

/// What a new `Local` finds, and what it is told when it publishes 3.
fn publish_three<R: Wait>(table: &CachedThreadLocal<u32>, rt: &R) -> Option<[Option<u32>; 2]> {
    let Ok(mut local) = table.local(rt) else {
        return None;
    };
    Some([local.get().copied(), local.get_or(|| 3).ok().copied()])
}

/// Whether a walk lends 3 alone, and knows how many values it has still to give.
fn lends_three(values: CachedIterMut<'_, u32>) -> bool {
    let mut values = values;
    values.len() == 1
        && values.size_hint() == (1, Some(1))
        && values.next().map(|there| *there) == Some(3)
        && values.size_hint() == (0, Some(0))
        && values.next().is_none()
}

/// Whether a walk moves nothing out, and knows it.
fn moves_out_none(values: CachedIntoIter<u32>) -> bool {
    let mut values = values;
    values.len() == 0 && values.size_hint() == (0, Some(0)) && values.next().is_none()
}

#[test]
fn a_deprecated_table_is_walked_and_cleared(rt: HostRuntime) {
    let mut table = CachedThreadLocal::<u32>::new(rt.alloc());
    let published = publish_three(&table, &rt);
    let lent = lends_three(table.iter_mut());
    table.clear();
    let moved_out = moves_out_none(table.into_iter());
    assert_same(
        &rt,
        (published, lent, moved_out),
        (Some([None, Some(3)]), true, true),
    );
}

/// Whether two `Local`s that are held at once publish cells of 1 and 2.
fn publish_cells<R: Wait>(table: &CachedThreadLocal<Cell<u32>>, rt: &R) -> Option<[bool; 2]> {
    let Ok(mut first) = table.local(rt) else {
        return None;
    };
    let Ok(mut second) = table.local(rt) else {
        return None;
    };
    Some([
        first.get_or(|| Cell::new(1)).is_ok(),
        second.get_or(|| Cell::new(2)).is_ok(),
    ])
}

/// Adds ten to each value.
fn add_ten(table: &mut CachedThreadLocal<Cell<u32>>) {
    for value in table {
        value.set(value.get().wrapping_add(10));
    }
}

/// Whether a walk moves out 11 and 12, and knows how many values it has still to give.
fn moves_out_two(values: CachedIntoIter<Cell<u32>>) -> bool {
    let mut values = values;
    values.len() == 2
        && values.next().map(|value| value.get()) == Some(11)
        && values.size_hint() == (1, Some(1))
        && values.next().map(|value| value.get()) == Some(12)
        && values.next().is_none()
}

#[test]
fn values_of_a_deprecated_table_are_written_and_moved_out(rt: HostRuntime) {
    let mut table = CachedThreadLocal::<Cell<u32>>::made_with(rt.alloc());
    let published = publish_cells(&table, &rt);
    add_ten(&mut table);
    assert_same(
        &rt,
        (published, moves_out_two(table.into_iter())),
        (Some([true; 2]), true),
    );
}

/// Whether a closure's error is told as such and publishes nothing, and what is told when the next
/// closure makes 4.
fn try_twice<R: Wait>(local: &mut Local<'_, u32, R>) -> (bool, Option<u32>) {
    let failed = matches!(local.get_or_try(|| Err("no")), Err(TryError::Create("no")));
    let is_empty = local.get().is_none();
    let made = local.get_or_try(|| Ok::<u32, u8>(4)).ok().copied();
    (failed && is_empty, made)
}

/// Whether a first `Local` publishes 4 once a closure has failed, and is shown with it, and whether
/// a second one publishes the default.
fn ask_the_locals_of_a_deprecated_table<R: Wait>(
    table: &CachedThreadLocal<u32>,
    rt: &R,
    alloc: Global,
) -> Option<[bool; 4]> {
    let Ok(mut first) = table.local(rt) else {
        return None;
    };
    let Ok(mut second) = table.local(rt) else {
        return None;
    };
    let is_shown_empty = prints(&first, alloc, "ThreadLocal { local_data: None }");
    let tried = try_twice(&mut first) == (true, Some(4));
    let is_shown_with_four = prints(&first, alloc, "ThreadLocal { local_data: Some(4) }");
    let default = second.get_or_default().ok().copied() == Some(0);
    Some([is_shown_empty, tried, is_shown_with_four, default])
}

#[test]
fn the_locals_of_a_deprecated_table_have_each_call(rt: HostRuntime) {
    let table = CachedThreadLocal::<u32>::new(rt.alloc());
    assert_same(
        &rt,
        ask_the_locals_of_a_deprecated_table(&table, &rt, rt.alloc()),
        Some([true; 4]),
    );
}

/// Shows that two `Local`s of a deprecated table have two ids.
fn have_two_ids<R: Wait>(table: &CachedThreadLocal<u32>, rt: &R) -> Option<(usize, usize)>
    ensures { IfSome result (λ ids. ids.0 ≢ ids.1) }
{
    let Ok(mut first) = table.local(rt) else {
        return None;
    };
    let Ok(mut second) = table.local(rt) else {
        return None;
    };
    first.apart(&mut second);
    Some((first.id(), second.id()))
}

#[test]
fn two_locals_of_a_deprecated_table_have_two_ids(rt: HostRuntime) {
    let table = CachedThreadLocal::<u32>::new(rt.alloc());
    assert_same(&rt, have_two_ids(&table, &rt), Some((0, 1)));
}
