//! The ids of `Local`s.

use crate::locals::numbers;
use crate::same::assert_same;
use std::mem::forget;
use std::sync::Wait;
use thread_local::ThreadLocal;

fn next_id<R: Wait>(table: &ThreadLocal<u32>, rt: &R) -> Option<usize> {
    Some(table.local(rt).ok()?.id())
}

/// The ids of three `Local`s that are held at once, and of one that is taken once the second is
/// dropped.
fn ids_in_turn<R: Wait>(table: &ThreadLocal<u32>, rt: &R) -> Option<[usize; 4]> {
    let first = table.local(rt).ok()?;
    let second = table.local(rt).ok()?;
    let third = table.local(rt).ok()?;
    let ids = (first.id(), second.id(), third.id());
    drop(second);
    Some([ids.0, ids.1, ids.2, next_id(table, rt)?])
}

#[test]
fn a_local_has_the_least_id_that_is_not_held(rt: HostRuntime) {
    let table = numbers(rt.alloc());
    assert_same(&rt, ids_in_turn(&table, &rt), Some([0, 1, 2, 1]));
}

/// The id of a `Local`, which is forgotten.
fn forgotten<R: Wait>(table: &ThreadLocal<u32>, rt: &R) -> Option<usize> {
    let local = table.local(rt).ok()?;
    let id = local.id();
    forget(local);
    Some(id)
}

#[test]
fn a_renewed_table_keeps_its_held_ids(rt: HostRuntime) {
    let mut table = numbers(rt.alloc());
    let before = forgotten(&table, &rt);
    table.renew();
    let after = forgotten(&table, &rt);
    assert_same(&rt, (before, after), (Some(0), Some(1)));
}
