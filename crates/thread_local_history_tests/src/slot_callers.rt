//! Callers that compare a table's slots with its peak, and both with what is known of its ids and
//! values, which are proved by contracts alone, and tests that run them.
ghost use Rattle.std.specs.Prelude.{◌≡◌, ◌≢◌, ◌≤◌, ◌<◌, ◌-◌, ◌*◌, ◌^◌, max, length, true, IfOk, IfSome, IsSome};
ghost use Rattle.thread_local.specs.Capacity.{reserved_slots};
ghost use Rattle.thread_local.specs.Held.{least};
ghost use Rattle.thread_local.specs.IdMoves.{held_after};
ghost use Rattle.thread_local.specs.Place.{bucket_of};

use crate::same::assert_same;
use std::alloc::Global;
use std::sync::Wait;
use thread_local::ThreadLocal;
use thread_local::local::{Local, Seat};
use thread_local::table::{CapacityError, Page, Token, Told};
use thread_local_base::held::{
    a_history_leaves_ids_held, least_is_least, taking_changes_the_least,
};

/// `Local`s that are held at once each publish their number, as many as are asked for. Answers
/// whether none was refused.
fn publish_held<R: Wait>(table: &ThreadLocal<u32>, rt: &R, alloc: Global, count: u32) -> bool {
    let mut locals = Vec::new(alloc);
    for number in 0..count {
        let Ok(mut local) = table.local(rt) else {
            return false;
        };
        if local.set(number).is_err() || locals.push(local).is_err() {
            return false;
        }
    }
    true
}

/// A table without reserved slots, whose buckets were all made for its ids, has fewer than two
/// slots for each id of its peak.
fn slots_and_peak<T, R: Wait>(table: &ThreadLocal<T>, rt: &R) -> (usize, usize)
    requires grown { table.now.grown_by_ids ≡ true }
    requires none_reserved { table.now.reserved ≡ 0 }
    ensures { result.0 ≤ 2 * result.1 - 1 }
{
    table.slots_and_peak(rt, &mut table.page(), &Told::new())
}

/// The peak is that of what was done with the table's ids, so it bounds the slots by this history.
fn slots_of_history<T, R: Wait>(table: &ThreadLocal<T>, rt: &R) -> (usize, Page)
    requires grown { table.now.grown_by_ids ≡ true }
    requires none_reserved { table.now.reserved ≡ 0 }
    ensures { result.0 ≤ 2 * length (held_after result.1.moves) - 1 }
{
    let mut page = table.page();
    let (slots, _) = table.slots_and_peak(rt, &mut page, &Told::new());
    (slots, page)
}

/// So has a new table, whatever threads did with it.
fn held_in_new<R: Wait>(alloc: Global, rt: &R, count: u32) -> (bool, (usize, usize))
    ensures { result.1.0 ≤ 2 * result.1.1 - 1 }
{
    let table = ThreadLocal::<u32>::new(alloc);
    let published = publish_held(&table, rt, alloc, count);
    (published, slots_and_peak(&table, rt))
}

/// Once cleared, and begun anew, it is a table like this again, whatever its owner did before.
fn held_again<R: Wait>(alloc: Global, rt: &R, count: u32) -> (bool, (usize, usize))
    ensures { result.1.0 ≤ 2 * result.1.1 - 1 }
{
    let mut table = ThreadLocal::<u32>::new(alloc);
    publish_held(&table, rt, alloc, 9);
    table.clear();
    table.renew();
    let published = publish_held(&table, rt, alloc, count);
    (published, slots_and_peak(&table, rt))
}

/// A table with a capacity has no more slots than that, or else only the reserved ones.
fn held_beyond<R: Wait>(
    alloc: Global,
    rt: &R,
    capacity: usize,
    count: u32,
) -> Result<(bool, (usize, usize)), CapacityError>
    ensures { IfOk result (λ held.
        held.1.0 ≤ max (reserved_slots capacity) (2 * held.1.1 - 1)) }
{
    let table = ThreadLocal::<u32>::with_capacity(alloc, capacity)?;
    let published = publish_held(&table, rt, alloc, count);
    Ok((
        published,
        table.slots_and_peak(rt, &mut table.page(), &Told::new()),
    ))
}

/// A peak never falls.
fn peaks<T, R: Wait>(table: &ThreadLocal<T>, rt: &R) -> (usize, usize)
    ensures { result.0 ≤ result.1 }
{
    let mut page = table.page();
    let (_, first) = table.slots_and_peak(rt, &mut page, &Told::new());
    let (_, second) = table.slots_and_peak(rt, &mut page, &Told::new());
    (first, second)
}

/// While a `Local` lives, and afterwards, the peak is above its id.
fn above<T, R: Wait>(table: &ThreadLocal<T>, rt: &R, seat: &Seat<'_, T>) -> usize
    requires table { seat.now.table ≡ table.now.table }
    requires least { seat.now.id ≡ least (held_after seat.now.before) }
    ensures { seat.now.id < result }
{
    least_is_least();
    taking_changes_the_least();
    a_history_leaves_ids_held();
    let (_, peak) = table.slots_and_peak(rt, &mut seat.page(), &Told::new());
    peak
}

/// The slots of a token's whole bucket are counted.
fn slots_of_one<T, R: Wait>(table: &ThreadLocal<T>, rt: &R, token: &Token<T>) -> usize
    requires sharing { token.now.sharing ≡ table.now.sharing }
    requires named { IsSome table.now.sharing }
    ensures { 2 ^ bucket_of token.now.id ≤ result }
{
    let told = Told::new().and(token);
    let (slots, _) = table.slots_and_peak(rt, &mut table.page(), &told);
    slots
}

/// There are at least as many slots as values of which there are tokens.
fn slots_of_two<T, R: Wait>(
    table: &ThreadLocal<T>,
    rt: &R,
    one: &Token<T>,
    other: &Token<T>,
) -> usize
    requires sharing { (one.now.sharing ≡ table.now.sharing) × (other.now.sharing ≡ table.now.sharing) }
    requires named { IsSome table.now.sharing }
    requires different { one.now.id ≢ other.now.id }
    ensures { 2 ≤ result }
{
    let told = Told::new().and(one).and(other);
    let (slots, _) = table.slots_and_peak(rt, &mut table.page(), &told);
    slots
}

// Two `Local`s that are held at once publish a number each. Answers the tokens.
fn two_told<R: Wait>(table: &ThreadLocal<u32>, rt: &R) -> Option<(Token<u32>, Token<u32>)>
    ensures sharing { IfSome result (λ told.
        (told.0.sharing ≡ table.now.sharing) × (told.1.sharing ≡ table.now.sharing)) }
    ensures different { IfSome result (λ told. told.0.id ≢ told.1.id) }
{
    let mut one = table.local(rt).ok()?;
    let mut other = table.local(rt).ok()?;
    one.apart(&mut other);
    Some((one.publish(7).ok()?, other.publish(8).ok()?))
}

// What is known of the slots by the second token and by both, and the peaks.
fn counted_by_tokens<R: Wait>(alloc: Global, rt: &R) -> Option<([usize; 2], (usize, usize))> {
    let table = ThreadLocal::<u32>::new(alloc);
    let (one, other) = two_told(&table, rt)?;
    let slots = [
        slots_of_one(&table, rt, &other),
        slots_of_two(&table, rt, &one, &other),
    ];
    Some((slots, peaks(&table, rt)))
}

// The peak that is above the id of a second `Local`.
fn above_the_second<R: Wait>(alloc: Global, rt: &R) -> Option<usize> {
    let table = ThreadLocal::<u32>::new(alloc);
    let _first = table.local(rt).ok()?;
    let second = table.local(rt).ok()?;
    Some(above(&table, rt, &second))
}

#[test]
fn slots_and_peak_are_no_less_than_what_is_known(rt: HostRuntime) {
    assert_same(
        &rt,
        (
            counted_by_tokens(rt.alloc(), &rt),
            above_the_second(rt.alloc(), &rt),
        ),
        (Some(([3, 3], (2, 2))), Some(2)),
    );
}

#[test]
fn locals_held_at_once_use_fewer_than_twice_as_many_slots(rt: HostRuntime) {
    for (count, slots) in [(1, 1), (2, 3), (3, 3), (4, 7), (7, 7), (8, 15)] {
        assert_same(
            &rt,
            held_in_new(rt.alloc(), &rt, count),
            (true, (slots, count as usize)),
        );
    }
}

/// How many slots a new table has, by its history, once three `Local`s that are held at once published.
fn slots_of_three<R: Wait>(alloc: Global, rt: &R) -> (bool, usize) {
    let table = ThreadLocal::<u32>::new(alloc);
    let published = publish_held(&table, rt, alloc, 3);
    (published, slots_of_history(&table, rt).0)
}

#[test]
fn slots_are_counted_by_the_history(rt: HostRuntime) {
    assert_same(&rt, slots_of_three(rt.alloc(), &rt), (true, 3));
}

#[test]
fn a_cleared_table_counts_slots_and_peak_anew(rt: HostRuntime) {
    assert_same(&rt, held_again(rt.alloc(), &rt, 2), (true, (3, 2)));
}

#[test]
fn locals_held_beyond_a_capacity_use_no_more_slots_than_without(rt: HostRuntime) {
    let beyond = held_beyond(rt.alloc(), &rt, 4, 9);
    let within = held_beyond(rt.alloc(), &rt, 4, 2);
    assert_same(
        &rt,
        (beyond, within),
        (Ok((true, (15, 9))), Ok((true, (7, 2)))),
    );
}
