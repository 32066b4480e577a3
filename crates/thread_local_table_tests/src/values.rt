//! What a `Local` finds at its id, and what it publishes there.

use crate::locals::{
    found, found_by_another, lends, numbers, publish_and_forget, published, published_by_another,
};
use crate::same::assert_same;
use std::alloc::Global;
use std::cell::{Cell, RefCell};
use std::default::MadeWith;
use std::mem::swap;
use std::sync::Wait;
use thread_local::ThreadLocal;
use thread_local::local::{Local, TryError};
use thread_local::table::Judge;
use thread_local_test_helpers::printed::prints;

#[test]
fn the_first_value_stays(rt: HostRuntime) {
    let table = numbers(rt.alloc());
    assert_same(
        &rt,
        published_by_another(&table, &rt, 5),
        Some([None, Some(5), Some(5)]),
    );
}

/// Asks three times for a value. Answers whether each answer, and what is found then, is 0, and how
/// often the closure was called.
fn ask_thrice<R: Wait>(local: &mut Local<'_, u32, R>) -> (bool, u32) {
    let mut calls = 0u32;
    let mut each_is_first = true;
    for _ in 0..3 {
        let got = local
            .get_or(|| {
                let made = calls;
                calls = calls.wrapping_add(1);
                made
            })
            .ok()
            .copied();
        each_is_first &= (got, local.get()) == (Some(0), Some(&0));
    }
    (each_is_first, calls)
}

/// Whether a new `Local` is shown with no value, what it is answered when it is asked three times,
/// and whether it is shown with 0 then.
fn shown_and_asked<R: Wait>(
    table: &ThreadLocal<u32>,
    rt: &R,
    alloc: Global,
) -> Option<(bool, (bool, u32), bool)> {
    let mut local = table.local(rt).ok()?;
    let is_empty = local.get().is_none();
    Some((
        is_empty && prints(&local, alloc, "ThreadLocal { local_data: None }"),
        ask_thrice(&mut local),
        prints(&local, alloc, "ThreadLocal { local_data: Some(0) }"),
    ))
}

#[test]
fn a_closure_is_called_once(rt: HostRuntime) {
    let mut table = numbers(rt.alloc());
    let answers = shown_and_asked(&table, &rt, rt.alloc());
    table.clear();
    let found = found_by_another(&table, &rt);
    assert_same(
        &rt,
        (answers, found),
        (Some((true, (true, 1), true)), Some(None)),
    );
}

#[test]
fn a_reused_id_finds_the_earlier_value(rt: HostRuntime) {
    let table = numbers(rt.alloc());
    let first = published_by_another(&table, &rt, 7);
    let second = published_by_another(&table, &rt, 9);
    assert_same(
        &rt,
        [first, second],
        [
            Some([None, Some(7), Some(7)]),
            Some([Some(7), Some(7), Some(7)]),
        ],
    );
}

#[test]
fn a_forgotten_id_is_held_until_the_clear(rt: HostRuntime) {
    let mut table = numbers(rt.alloc());
    let forgotten = publish_and_forget(&table, &rt, 5);
    let next = found_by_another(&table, &rt);
    let are_lent = lends(&mut table, &[5]);
    table.clear();
    let afresh = published_by_another(&table, &rt, 8);
    assert_same(
        &rt,
        (forgotten, next, are_lent, afresh, table.slots()),
        (Some(5), Some(None), true, Some([None, Some(8), Some(8)]), 1),
    );
}

/// Whether a closure's error is told as such, and leaves the slot of a new `Local` empty.
fn fails<R: Wait>(table: &ThreadLocal<u32>, rt: &R) -> bool {
    match table.local(rt) {
        Ok(mut local) => {
            matches!(local.get_or_try(|| Err("no")), Err(TryError::Create("no")))
                && local.get().is_none()
        }
        Err(_) => false,
    }
}

#[test]
fn an_error_leaves_the_slot_empty_in_a_bucket_that_stands(rt: HostRuntime) {
    let mut table = numbers(rt.alloc());
    let failed = fails(&table, &rt);
    let slots = table.slots();
    let next = published_by_another(&table, &rt, 4);
    assert_same(
        &rt,
        (failed, slots, next, table.slots()),
        (true, 1, Some([None, Some(4), Some(4)]), 1),
    );
}

// What a `Local` is told when it fills its slot, and what it finds then.
fn filled<R: Wait>(
    local: &mut Local<'_, u32, R>,
    made: Result<u32, &'static str>,
) -> (Result<(), TryError<&'static str>>, Option<u32>) {
    let told = local.try_fill(move || made);
    (told, found(local))
}

/// Fills the slot of a new `Local`, first with a closure that fails, then with one that makes 4,
/// then with one that makes 5. Answers whether each is told as it ends, and what is found after each.
fn filled_thrice<R: Wait>(table: &ThreadLocal<u32>, rt: &R) -> Option<(bool, [Option<u32>; 3])> {
    let mut local = table.local(rt).ok()?;
    let (failed, first) = filled(&mut local, Err("no"));
    let (once, second) = filled(&mut local, Ok(4));
    let (kept, third) = filled(&mut local, Ok(5));
    let told = [failed, once, kept] == [Err(TryError::Create("no")), Ok(()), Ok(())];
    Some((told, [first, second, third]))
}

#[test]
fn a_slot_is_filled_once(rt: HostRuntime) {
    let table = numbers(rt.alloc());
    assert_same(
        &rt,
        filled_thrice(&table, &rt),
        Some((true, [None, Some(4), Some(4)])),
    );
}

/// Whether a new `Local` sets its value, and sets it again.
fn set_twice<R: Wait>(table: &ThreadLocal<u32>, rt: &R) -> Option<[bool; 2]> {
    let mut local = table.local(rt).ok()?;
    Some([local.set(4).is_ok(), local.set(5).is_ok()])
}

#[test]
fn a_value_is_set_once(rt: HostRuntime) {
    let table = numbers(rt.alloc());
    assert_same(&rt, set_twice(&table, &rt), Some([true, false]));
}

/// What a new `Local` is told when it publishes the default, and what it finds then.
fn default_published<R: Wait>(table: &ThreadLocal<u32>, rt: &R) -> Option<[Option<u32>; 2]> {
    let mut local = table.local(rt).ok()?;
    let told = local.get_or_default().ok().copied();
    Some([told, found(&local)])
}

#[test]
fn a_default_is_published(rt: HostRuntime) {
    let table = numbers(rt.alloc());
    assert_same(
        &rt,
        default_published(&table, &rt),
        Some([Some(0), Some(0)]),
    );
}

/// Whether a new `Local` of a table of lists publishes an empty one by default.
fn a_default_list_is_empty<R: Wait>(table: &ThreadLocal<Vec<u64>>, rt: &R) -> Option<bool> {
    let mut local = table.local(rt).ok()?;
    let told = local.get_or_default().ok()?.is_empty();
    let found = local.get()?;
    Some(told && found.is_empty())
}

/// Whether a new `Local` of a table of texts publishes an empty one by default.
fn a_default_text_is_empty<R: Wait>(table: &ThreadLocal<String>, rt: &R) -> Option<bool> {
    let mut local = table.local(rt).ok()?;
    let told = local.get_or_default().ok()?.is_empty();
    let found = local.get()?;
    Some(told && found.is_empty())
}

// Neither type has `Default`, since both need an allocator.
#[test]
fn lists_and_texts_have_defaults(rt: HostRuntime) {
    Vec::<u64>::judge();
    String::judge();
    let lists = ThreadLocal::new(rt.alloc());
    let texts = ThreadLocal::new(rt.alloc());
    assert_same(
        &rt,
        (
            a_default_list_is_empty(&lists, &rt),
            a_default_text_is_empty(&texts, &rt),
        ),
        (Some(true), Some(true)),
    );
}

/// Whether a list in a cell is empty, and how many numbers it has once one is put into it.
fn push_seven(list: &RefCell<Vec<u64>>) -> Option<(bool, usize)> {
    let was_empty = list.try_borrow().ok()?.is_empty();
    list.try_borrow_mut().ok()?.push(7).ok()?;
    Some((was_empty, list.try_borrow().ok()?.len()))
}

/// The same of a list that a new `Local` publishes.
fn list_in_a_cell<R: Wait>(
    table: &ThreadLocal<RefCell<Vec<u64>>>,
    rt: &R,
    alloc: Global,
) -> Option<(bool, usize)> {
    let mut local = table.local(rt).ok()?;
    push_seven(local.get_or(|| RefCell::new(Vec::new(alloc))).ok()?)
}

// Such a cell has no default, so a closure makes it.
#[test]
fn a_table_is_made_of_lists_in_cells(rt: HostRuntime) {
    let table = ThreadLocal::<RefCell<Vec<u64>>>::made_with(rt.alloc());
    assert_same(
        &rt,
        list_in_a_cell(&table, &rt, rt.alloc()),
        Some((true, 1)),
    );
}

/// Adds to the cell of a `Local`, which is made by default where there is none. Answers what it has
/// then.
fn add<R: Wait>(local: &mut Local<'_, Cell<u64>, R>, number: u64) -> Option<u64> {
    let cell = local.get_or_default().ok()?;
    cell.set(cell.get().wrapping_add(number));
    Some(cell.get())
}

/// What two `Local`s that are held at once have in cells that are made by default: the first once 3
/// is added to its own, the second, and the first again.
fn default_cells<R: Wait>(table: &ThreadLocal<Cell<u64>>, rt: &R) -> Option<[u64; 3]> {
    let mut first = table.local(rt).ok()?;
    let mut second = table.local(rt).ok()?;
    Some([
        add(&mut first, 3)?,
        add(&mut second, 0)?,
        add(&mut first, 0)?,
    ])
}

#[test]
fn a_default_replaces_no_value(rt: HostRuntime) {
    Cell::<u64>::judge();
    let table = ThreadLocal::new(rt.alloc());
    assert_same(&rt, default_cells(&table, &rt), Some([3, 0, 3]));
}

/// Beside a first `Local`, one of its table and one of another publish 2 and 3, and their seats are
/// swapped. Answers what each was told, and what the first found before the third was taken, and
/// after the swap.
fn swap_beside<'a, R: Wait>(
    first: &Local<'_, u32, R>,
    table: &'a ThreadLocal<u32>,
    other: &'a ThreadLocal<u32>,
    rt: &'a R,
) -> Option<([Option<u32>; 2], [Option<u32>; 2])> {
    let mut second = table.local(rt).ok()?;
    let two = published(&mut second, 2);
    let before = found(first);
    let mut third = other.local(rt).ok()?;
    let three = published(&mut third, 3);
    swap(third.seat_mut(), second.seat_mut());
    Some(([two, three], [before, found(first)]))
}

/// What the first is told when it publishes 1, and what the swap beside it answers.
fn swap_the_latter_two<R: Wait>(
    table: &ThreadLocal<u32>,
    other: &ThreadLocal<u32>,
    rt: &R,
) -> Option<(Option<u32>, Option<([Option<u32>; 2], [Option<u32>; 2])>)> {
    let mut first = table.local(rt).ok()?;
    Some((
        published(&mut first, 1),
        swap_beside(&first, table, other, rt),
    ))
}

/// What two `Local`s that are held at once find.
fn found_by_two<R: Wait>(table: &ThreadLocal<u32>, rt: &R) -> Option<[Option<u32>; 2]> {
    let first = table.local(rt).ok()?;
    let second = table.local(rt).ok()?;
    Some([found(&first), found(&second)])
}

#[test]
fn swapped_seats_go_back_to_their_tables(rt: HostRuntime) {
    let table = numbers(rt.alloc());
    let other = numbers(rt.alloc());
    let swapped = swap_the_latter_two(&table, &other, &rt);
    let found = (found_by_two(&table, &rt), found_by_another(&other, &rt));
    assert_same(
        &rt,
        (swapped, found),
        (
            Some((Some(1), Some(([Some(2), Some(3)], [Some(1), Some(1)])))),
            (Some([Some(1), Some(2)]), Some(Some(3))),
        ),
    );
}
