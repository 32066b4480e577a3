//! Callers of a table's ids that are proved by contracts alone, and tests that run them.
ghost use Rattle.std.specs.Prelude.{◌≡◌, ◌≢◌, ◌≤◌, ◌<◌, List, IfOk, true, false};
ghost use Rattle.thread_local.specs.Held.{is_held, held_count, least};
ghost use Rattle.thread_local.specs.IdMoves.{IdMove, Take, held_after, noted};
ghost use Rattle.thread_local.specs.Locals.{EndsWithReturn};
ghost use mathlib.Core.List.{IsPrefix};

use crate::same::assert_same;
use std::alloc::Global;
use std::sync::Wait;
use thread_local::ThreadLocal;
use thread_local::local::Local;
use thread_local::table::{CapacityError, Page};
use thread_local_base::LocalError;

/// Two `Local`s in hand have two ids, each the least that wasn't held when it was taken.
fn two_least<'a, T, R: Wait>(
    table: &'a ThreadLocal<T>,
    rt: &'a R,
) -> Result<(Local<'a, T, R>, Local<'a, T, R>), LocalError>
    ensures table { IfOk result (λ two.
        (two.0.table ≡ table.now.table) × (two.1.table ≡ table.now.table)) }
    ensures differ { IfOk result (λ two. two.0.id ≢ two.1.id) }
    ensures least { IfOk result (λ two.
        (two.0.id ≡ least (held_after two.0.before)) × (two.1.id ≡ least (held_after two.1.before))) }
    ensures in_turn { IfOk result (λ two. IsPrefix (noted two.0.before Take) two.1.before) }
{
    let mut page = table.page();
    let mut first = table.local_after(rt, &mut page)?;
    let mut second = table.local_after(rt, &mut page)?;
    first.apart(&mut second);
    Ok((first, second))
}

/// A `Local` that is taken after a return that was seen has no greater id, unless another holds the
/// returned id by then.
fn after_a_return<'a, T, R: Wait>(
    table: &'a ThreadLocal<T>,
    rt: &'a R,
    returned: Local<'_, T, R>,
) -> Result<Local<'a, T, R>, LocalError>
    requires { returned.table ≡ table.now.table }
    ensures no_greater { IfOk result (λ local.
        is_held (held_after local.before) returned.entry.id ≡ false → local.id ≤ returned.entry.id) }
    ensures seen { IfOk result (λ local.
        (moves : List IdMove) × EndsWithReturn returned.entry moves × IsPrefix moves local.before) }
{
    let mut page = returned.give_back();
    let local = table.local_after(rt, &mut page)?;
    Ok(local)
}

/// Whether a table with this capacity grants a `Local`, and the page of that moment: it does while
/// fewer ids are held.
fn is_granted<R: Wait>(
    alloc: Global,
    rt: &R,
    capacity: usize,
) -> Result<(bool, Page), CapacityError>
    ensures { IfOk result (λ asked.
        held_count (held_after asked.1.moves) < capacity → asked.0 ≡ true) }
{
    let table = ThreadLocal::<u32>::with_capacity(alloc, capacity)?;
    let mut page = table.page();
    let granted = !matches!(table.local_after(rt, &mut page), Err(LocalError::Memory(_)));
    Ok((granted, page))
}

/// The ids of two `Local`s that are held at once.
fn ids_of_two<R: Wait>(table: &ThreadLocal<u32>, rt: &R) -> Option<(usize, usize)> {
    let (first, second) = two_least(table, rt).ok()?;
    Some((first.id(), second.id()))
}

#[test]
fn two_locals_have_the_least_ids(rt: HostRuntime) {
    let table = ThreadLocal::<u32>::new(rt.alloc());
    assert_same(&rt, ids_of_two(&table, &rt), Some((0, 1)));
}

/// The id of the second of two `Local`s, and of one that is taken once the first went back.
fn ids_after_a_return<R: Wait>(table: &ThreadLocal<u32>, rt: &R) -> Option<(usize, usize)> {
    let (first, second) = two_least(table, rt).ok()?;
    let again = after_a_return(table, rt, first).ok()?;
    Some((second.id(), again.id()))
}

#[test]
fn a_returned_id_comes_again(rt: HostRuntime) {
    let table = ThreadLocal::<u32>::new(rt.alloc());
    assert_same(&rt, ids_after_a_return(&table, &rt), Some((1, 0)));
}

#[test]
fn a_capacity_grants_an_id(rt: HostRuntime) {
    assert!(rt; matches!(is_granted(rt.alloc(), &rt, 100), Ok((true, _))));
}
