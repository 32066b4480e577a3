//! What a cleared table keeps.

use super::held::{four_publish, is_one_reserved, latter_four_publish, numbers, taken};
use crate::same::assert_same;
use std::alloc::Global;
use std::io::Print;
use std::sync::Wait;
use std::test::Fail;
use thread_local::ThreadLocal;

/// Eight `Local`s are held at once, and then publish in the order in which they were taken. Answers
/// which of them weren't refused memory, or None where a `Local` was.
fn eight_publish<R: Wait + Print>(
    table: &ThreadLocal<u32>,
    rt: &R,
    alloc: Global,
) -> Option<([bool; 4], [bool; 4])> {
    let mut locals = taken(table, rt, alloc, 8)?;
    let first = four_publish(&mut locals);
    Some((first, latter_four_publish(&mut locals)))
}

/// The same of four, beside whether one of them is reserved.
fn reserved_and_published<R: Wait + Print>(
    table: &ThreadLocal<u32>,
    rt: &R,
    alloc: Global,
) -> Option<(bool, [bool; 4])> {
    let mut locals = taken(table, rt, alloc, 4)?;
    Some((is_one_reserved(&locals), four_publish(&mut locals)))
}

// A table with a capacity, or None where it was refused, which is told.
fn with_capacity<R: Print>(
    rt: &R,
    alloc: Global,
    capacity: usize,
) -> Result<Option<ThreadLocal<u32>>, Fail> {
    let table = ThreadLocal::with_capacity(alloc, capacity).ok();
    if table.is_none() {
        println!(rt; "refused: with_capacity")?;
    }
    Ok(table)
}

// Tells that a value was refused memory, where it was.
fn tell<R: Print>(rt: &R, is_refused: bool) -> Result<(), Fail> {
    if is_refused {
        println!(rt; "refused: get_or")?;
    }
    Ok(())
}

// Whether all eight published. Where a value was refused memory, that is told.
fn are_eight_published<R: Print>(
    rt: &R,
    published: Option<([bool; 4], [bool; 4])>,
) -> Result<bool, Fail> {
    let are_all = published == Some(([true; 4], [true; 4]));
    tell(rt, !are_all && published.is_some())?;
    Ok(are_all)
}

// What eight answer where the eighth alone may be refused memory, and how many slots stand then.
fn seven_and_eighth(is_eighth: bool) -> (Option<([bool; 4], [bool; 4])>, usize) {
    (
        Some(([true; 4], [true, true, true, is_eighth])),
        if is_eighth { 15 } else { 7 },
    )
}

fn slots_around_clear(table: &mut ThreadLocal<u32>) -> (usize, usize) {
    let before = table.slots();
    table.clear();
    (before, table.slots())
}

/// How many values an owner's walk has still to give.
fn count(table: &mut ThreadLocal<u32>) -> usize {
    table.iter_mut().len()
}

#[test]
fn a_cleared_table_keeps_its_reserved_slots(rt: HostRuntime) -> Result<(), Fail> {
    let Some(mut table) = with_capacity(&rt, rt.alloc(), 4)? else {
        return Ok(());
    };
    if !are_eight_published(&rt, eight_publish(&table, &rt, rt.alloc()))? {
        return Ok(());
    }
    let slots = slots_around_clear(&mut table);
    let count = count(&mut table);
    // From here on seven values are never refused memory. Whether the eighth is, its bucket shows.
    let published = eight_publish(&table, &rt, rt.alloc());
    let is_eighth = are_eight_published(&rt, published)?;
    assert_same(
        &rt,
        (slots, count, (published, table.slots())),
        ((15, 7), 0, seven_and_eighth(is_eighth)),
    );
    Ok(())
}

/// How many slots stand where which of four published.
fn slots_of(published: [bool; 4]) -> usize {
    let [first, second, third, fourth] = published;
    let mut slots = 0;
    if first {
        slots += 1;
    }
    if second || third {
        slots += 2;
    }
    if fourth {
        slots += 4;
    }
    slots
}

// Whether none of four is reserved and all published. Where a value was refused memory, that is
// told.
fn are_four_published<R: Print>(rt: &R, found: Option<(bool, [bool; 4])>) -> Result<bool, Fail> {
    let are_all = found == Some((false, [true; 4]));
    tell(rt, !are_all && found.is_some())?;
    Ok(are_all)
}

// What four answer none of which is reserved, whichever published, and how many slots stand then.
fn unreserved(found: Option<(bool, [bool; 4])>) -> (Option<(bool, [bool; 4])>, usize) {
    let published = found.map_or([false; 4], |(_, published)| published);
    (Some((false, published)), slots_of(published))
}

#[test]
fn a_cleared_table_of_no_capacity_keeps_no_slots(rt: HostRuntime) -> Result<(), Fail> {
    let mut table = numbers(rt.alloc());
    if !are_four_published(&rt, reserved_and_published(&table, &rt, rt.alloc()))? {
        return Ok(());
    }
    let slots = slots_around_clear(&mut table);
    // Which values are refused memory, the buckets show.
    let found = reserved_and_published(&table, &rt, rt.alloc());
    are_four_published(&rt, found)?;
    assert_same(
        &rt,
        (slots, (found, table.slots())),
        ((7, 0), unreserved(found)),
    );
    Ok(())
}

/// Whether 65 `Local`s are held at once: more than there is room for without memory. A refusal is
/// told.
fn are_65_held<R: Wait + Print>(table: &ThreadLocal<u32>, rt: &R, alloc: Global) -> bool {
    taken(table, rt, alloc, 65).is_some()
}

#[test]
fn a_cleared_table_keeps_its_room_for_ids(rt: HostRuntime) {
    let mut table = numbers(rt.alloc());
    if are_65_held(&table, &rt, rt.alloc()) {
        table.clear();
        // From here on so many ids are never refused memory.
        assert!(rt; are_65_held(&table, &rt, rt.alloc()));
    }
}

#[test]
fn a_table_with_a_capacity_has_room_for_ids_and_keeps_it(rt: HostRuntime) -> Result<(), Fail> {
    let Some(mut table) = with_capacity(&rt, rt.alloc(), 65)? else {
        return Ok(());
    };
    // From here on so many ids are never refused memory.
    assert!(rt; are_65_held(&table, &rt, rt.alloc()));
    table.clear();
    assert!(rt; are_65_held(&table, &rt, rt.alloc()));
    Ok(())
}
