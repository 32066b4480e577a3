//! Callers that know from a table's history, and from no token, what the slot of an id holds: for
//! whoever has the id next, after `clear`, and for the owner. Contracts alone prove them, and tests
//! run them.
ghost use base.Stored.{gnum};
ghost use Rattle.std.specs.Prelude.{◌≡◌, ◌-◌, ◌^◌, ◌<◌, ℕ, [], None, Some, IfOk, IfSome, false};
ghost use Rattle.thread_local.specs.Buckets.{values};
ghost use Rattle.thread_local.specs.Held.{is_held};
ghost use Rattle.thread_local.specs.IdMoves.{held_after, published_in};
ghost use Rattle.thread_local.specs.Walk.{walk};
ghost use Rattle.thread_local.specs.Sharings.{IsFirst, left_of};

use crate::same::assert_same;
use std::alloc::Global;
use std::sync::Wait;
use std::thread;
use std::thread::Threads;
use thread_local::ThreadLocal;
use thread_local::iter::IntoIter;
use thread_local::local::{Local, a_value_left_is_found};
use thread_local::table::{Book, Page};
use thread_local_base::LocalError;

/// Ends a `Local`, and takes one after it. With the same id it finds the value that was left.
fn next<'a, T, R: Wait>(
    table: &'a ThreadLocal<T>,
    rt: &'a R,
    ended: Local<'_, T, R>,
) -> Result<Local<'a, T, R>, LocalError>
    requires table { (ended.table ≡ table.now.table) × (ended.sharing ≡ table.now.sharing) }
    requires first { IsFirst table.now.sharing table.now.table }
    ensures found { IfOk result (λ local.
        (value : T)
        → ended.entry.value ≡ Some value
        → local.id ≡ ended.entry.id
        → local.value ≡ Some value) }
{
    let mut page = ended.give_back();
    let local = table.local_after(rt, &mut page)?;
    Ok(local)
}

/// Publishes a value with a new `Local`, and ends it. Answers the id, and the page that ends with
/// the return.
fn left<T: Drop, R: Wait>(table: &ThreadLocal<T>, rt: &R, value: T) -> Option<(usize, Page)>
    requires first { IsFirst table.now.sharing table.now.table }
    ensures table { IfSome result (λ left. left.1.table ≡ table.now.table) }
    ensures in_range { IfSome result (λ left. left.0 < 2 ^ 63 - 1) }
    ensures value { IfSome result (λ left. published_in left.1.moves left.0 ≡ left_of T.row (Some value)) }
{
    let mut local = table.local(rt).ok()?;
    let id = local.id();
    local.set(value).ok()?;
    Some((id, local.give_back()))
}

/// A `Local` after a page. If it has an id that the page has a value of, it finds that value.
fn after<'a, T, R: Wait>(
    table: &'a ThreadLocal<T>,
    rt: &'a R,
    page: Page,
) -> Result<Local<'a, T, R>, LocalError>
    requires table { page.table ≡ table.now.table }
    requires first { IsFirst table.now.sharing table.now.table }
    ensures found { IfOk result (λ local.
        (value : T)
        → published_in page.moves local.id ≡ left_of T.row (Some value)
        → local.value ≡ Some value) }
{
    let mut page = page;
    let local = table.local_after(rt, &mut page)?;
    Ok(local)
}

/// What one thread published, for another that has its id next, or None with another id.
fn handed_on<R: Threads + Wait + Sync>(
    table: &ThreadLocal<u32>,
    rt: &R,
    number: u32,
) -> Option<Option<u32>>
    requires first { IsFirst table.now.sharing table.now.table }
    ensures { IfSome result (λ found. IfSome found (λ it. it ≡ number)) }
{
    let (left, ()) = thread::join(
        rt,
        || -> Option<(usize, Page)>
            requires first { IsFirst table.now.sharing table.now.table }
            ensures table { IfSome result (λ left. left.1.table ≡ table.entry.now.table) }
            ensures value { IfSome result (λ left. published_in left.1.moves left.0 ≡ Some (gnum number)) }
        { left(table, rt, number) },
        || {},
    );
    let (id, page) = left?;
    let local = after(table, rt, page).ok()?;
    if local.id() != id {
        return Some(None);
    }
    Some(local.get().copied())
}

/// A `Local` of a table that was made or cleared finds nothing where its history published nothing
/// at its id, so neither where nothing was done before.
fn begins<'a, T, R: Wait>(
    table: &'a ThreadLocal<T>,
    rt: &'a R,
) -> Result<Local<'a, T, R>, LocalError>
    requires first { IsFirst table.now.sharing table.now.table }
    ensures nothing { IfOk result (λ local. published_in local.before local.id ≡ None → local.value ≡ None) }
    ensures earliest { IfOk result (λ local. local.before ≡ [] → local.value ≡ None) }
{
    a_value_left_is_found::<T>();
    let local = table.local(rt)?;
    Ok(local)
}

/// The same of the first `Local` after `clear`, whatever the owner did before.
fn begins_again<'a, T: Drop, R: Wait>(
    table: &'a mut ThreadLocal<T>,
    rt: &'a R,
) -> Result<Local<'a, T, R>, LocalError>
    ensures nothing { IfOk result (λ local. published_in local.before local.id ≡ None → local.value ≡ None) }
    ensures earliest { IfOk result (λ local. local.before ≡ [] → local.value ≡ None) }
{
    table.clear();
    begins(table, rt)
}

/// After `clear` an owner's walk gives nothing at an id whose slot the history hasn't published.
fn cleared_and_walked<T: Drop>(table: ThreadLocal<T>) -> (IntoIter<T>, Book<T>)
    ensures walk { result.0 ≡ walk (values result.1.contents) }
    ensures nothing { (id : ℕ)
        → id < 2 ^ 63 - 1
        → is_held (held_after result.1.moves) id ≡ false
        → published_in result.1.moves id ≡ None
        → values result.1.contents id ≡ None }
{
    a_value_left_is_found::<T>();
    let mut table = table;
    table.clear();
    table.into_iter_and_book()
}

/// An owner's walk gives a value that a page has of an id, unless the id is held for good.
fn walked_after<T: Drop>(table: ThreadLocal<T>, page: &Page) -> (IntoIter<T>, Book<T>)
    requires table { page.now.table ≡ table.table }
    requires first { IsFirst table.sharing table.table }
    ensures walk { result.0 ≡ walk (values result.1.contents) }
    ensures found { (id : ℕ) (value : T)
        → published_in page.now.moves id ≡ left_of T.row (Some value)
        → id < 2 ^ 63 - 1
        → is_held (held_after result.1.moves) id ≡ false
        → values result.1.contents id ≡ Some value }
{
    a_value_left_is_found::<T>();
    let (values, mut book) = table.into_iter_and_book();
    book.extends(page);
    (values, book)
}

/// What a `Local` of a new table published, its owner finds at the `Local`'s id.
fn owned<R: Wait>(alloc: Global, rt: &R, number: u32) -> Option<(usize, (IntoIter<u32>, Book<u32>))>
    ensures walk { IfSome result (λ owned. owned.1.0 ≡ walk (values owned.1.1.contents)) }
    ensures found { IfSome result (λ owned.
        is_held (held_after owned.1.1.moves) owned.0 ≡ false
        → values owned.1.1.contents owned.0 ≡ Some number) }
{
    let table = ThreadLocal::<u32>::new(alloc);
    let (id, page) = left(&table, rt, number)?;
    Some((id, walked_after(table, &page)))
}

// The id and the value of the next `Local`, after one that published a number.
fn id_and_next<R: Wait>(
    table: &ThreadLocal<u32>,
    rt: &R,
    number: u32,
) -> Option<(usize, Option<u32>)>
    requires first { IsFirst table.now.sharing table.now.table }
{
    let mut local = table.local(rt).ok()?;
    local.set(number).ok()?;
    let next = next(table, rt, local).ok()?;
    Some((next.id(), next.get().copied()))
}

// What the first `Local` finds before and after `clear`, where one published a number in between.
fn begun_twice<R: Wait>(alloc: Global, rt: &R) -> Option<(Option<u32>, Option<u32>)> {
    let mut table = ThreadLocal::<u32>::new(alloc);
    let before = begins(&table, rt).ok()?.get().copied();
    left(&table, rt, 5)?;
    let after = begins_again(&mut table, rt).ok()?.get().copied();
    Some((before, after))
}

// How many values a walk gives after `clear`, where two numbers were published before.
fn left_after_clear<R: Wait>(alloc: Global, rt: &R) -> Option<usize> {
    let table = ThreadLocal::<u32>::new(alloc);
    left(&table, rt, 5)?;
    Some(cleared_and_walked(table).0.len())
}

// The id, and the first and the second value that an owner's walk gives.
fn id_and_walk<R: Wait>(alloc: Global, rt: &R) -> Option<(usize, Option<u32>, Option<u32>)> {
    let (id, (mut values, _)) = owned(alloc, rt, 6)?;
    Some((id, values.next(), values.next()))
}

#[test]
fn the_next_holder_finds_what_was_left(rt: HostRuntime) {
    let table = ThreadLocal::<u32>::new(rt.alloc());
    assert_same(&rt, id_and_next(&table, &rt, 7), Some((0, Some(7))));
}

#[test]
fn another_thread_finds_what_was_left(rt: HostRuntime) {
    let table = ThreadLocal::<u32>::new(rt.alloc());
    assert_same(&rt, handed_on(&table, &rt, 8), Some(Some(8)));
}

#[test]
fn a_first_local_finds_nothing(rt: HostRuntime) {
    assert_same(&rt, begun_twice(rt.alloc(), &rt), Some((None, None)));
}

#[test]
fn an_owner_finds_nothing_after_clear(rt: HostRuntime) {
    assert_same(&rt, left_after_clear(rt.alloc(), &rt), Some(0));
}

#[test]
fn an_owner_finds_what_was_left(rt: HostRuntime) {
    assert_same(&rt, id_and_walk(rt.alloc(), &rt), Some((0, Some(6), None)));
}
