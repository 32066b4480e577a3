//! The calls of a table's owner between rounds, each recorded.
ghost use Rattle.std.specs.Prelude.{OnOk, IsSome};

use crate::history::{Answer, Call, Item, Record};
use std::alloc::AllocError;
use thread_local::ThreadLocal;
use thread_local::iter::{EntriesMut, IterMut};

/// Keeps a walk of an owner that has just ended.
fn walked(
    record: &mut Record<'_>,
    name: &'static str,
    before: u64,
    asked: Option<u64>,
    length: usize,
    items: Vec<Item>,
) -> Result<(), AllocError> {
    let after = record.stamp();
    let answer = Answer::Number(length as u64);
    record.keep(before, after, Call::walk(name, None, asked, answer, items))
}

/// Writes another value in the place of each that a walk lends.
fn write_each(
    walk: IterMut<'_, u64>,
    items: &mut Vec<Item>,
    record: &mut Record<'_>,
) -> Result<(), AllocError> {
    for value in walk {
        let written = record.fresh();
        items.push(Item::written(None, *value, written))?;
        *value = written;
    }
    Ok(())
}

/// The same by a walk that tells ids.
fn write_each_entry(
    walk: EntriesMut<'_, u64>,
    items: &mut Vec<Item>,
    record: &mut Record<'_>,
) -> Result<(), AllocError> {
    for (id, value) in walk {
        let written = record.fresh();
        items.push(Item::written(Some(id as u64), *value, written))?;
        *value = written;
    }
    Ok(())
}

/// Writes another value in the place of each.
fn iter_mut(table: &mut ThreadLocal<u64>, record: &mut Record<'_>) -> Result<(), AllocError> {
    let mut items = Vec::new(record.alloc);
    let before = record.begin();
    let walk = table.iter_mut();
    let length = walk.len();
    write_each(walk, &mut items, record)?;
    walked(record, "iter_mut", before, None, length, items)
}

/// Writes another value in the place of each, by a walk that tells ids.
fn entries_mut(table: &mut ThreadLocal<u64>, record: &mut Record<'_>) -> Result<(), AllocError> {
    let mut items = Vec::new(record.alloc);
    let before = record.begin();
    let walk = table.entries_mut();
    let length = walk.len();
    write_each_entry(walk, &mut items, record)?;
    walked(record, "entries_mut", before, None, length, items)
}

/// Takes up to `most` values out, and drops the others.
fn drain(
    table: &mut ThreadLocal<u64>,
    most: usize,
    record: &mut Record<'_>,
) -> Result<(), AllocError> {
    let mut items = Vec::new(record.alloc);
    let before = record.begin();
    let walk = table.drain();
    let length = walk.len();
    for value in walk {
        items.push(Item::value(value))?;
        if items.len() == most {
            break;
        }
    }
    let asked = if most == usize::MAX {
        None
    } else {
        Some(most as u64)
    };
    walked(record, "drain", before, asked, length, items)
}

/// Writes another value at an id.
fn get_mut(
    table: &mut ThreadLocal<u64>,
    id: usize,
    record: &mut Record<'_>,
) -> Result<(), AllocError> {
    let mut items = Vec::new(record.alloc);
    let written = record.fresh();
    let before = record.begin();
    let answer = match table.get_mut(id) {
        Some(value) => {
            items.push(Item::written(None, *value, written))?;
            *value = written;
            Answer::Number(id as u64)
        }
        None => Answer::Nothing,
    };
    let after = record.stamp();
    let call = Call::walk("get_mut", None, Some(id as u64), answer, items);
    record.keep(before, after, call)
}

fn slots(table: &mut ThreadLocal<u64>, record: &mut Record<'_>) -> Result<(), AllocError> {
    let before = record.begin();
    let answer = Answer::Number(table.slots() as u64);
    record.ended(before, "slots", None, None, answer)
}

fn clear(table: &mut ThreadLocal<u64>, record: &mut Record<'_>) -> Result<(), AllocError> {
    let before = record.begin();
    table.clear();
    record.ended(before, "clear", None, None, Answer::Nothing)
}

/// Begins another sharing, so that the tokens of the round are good.
pub(crate) fn renew(table: &mut ThreadLocal<u64>, record: &mut Record<'_>) -> Result<(), AllocError>
    ensures named { OnOk result (IsSome table.new.sharing) }
{
    let before = record.begin();
    table.renew();
    record.ended(before, "renew", None, None, Answer::Nothing)
}

/// What the owner does after the round of that number.
pub(crate) fn between(
    table: &mut ThreadLocal<u64>,
    round: u64,
    record: &mut Record<'_>,
) -> Result<(), AllocError> {
    slots(table, record)?;
    match round % 8 {
        0 | 4 => iter_mut(table, record)?,
        1 => entries_mut(table, record)?,
        2 => {
            for id in 0..12usize {
                get_mut(table, id, record)?;
            }
        }
        3 => {
            drain(table, usize::MAX, record)?;
            iter_mut(table, record)?;
        }
        5 => {
            clear(table, record)?;
            iter_mut(table, record)?;
        }
        6 => {
            drain(table, 3, record)?;
            entries_mut(table, record)?;
        }
        _ => iter_mut(table, record)?,
    }
    slots(table, record)
}

/// Moves the values out with their ids.
fn into_buckets(table: ThreadLocal<u64>, record: &mut Record<'_>) -> Result<(), AllocError> {
    let mut items = Vec::new(record.alloc);
    let before = record.begin();
    let walk = table.into_buckets().into_entries();
    let length = walk.len();
    for (id, value) in walk {
        items.push(Item::entry(id, value))?;
    }
    walked(record, "into_buckets", before, None, length, items)
}

/// Moves the values out.
fn into_iter(table: ThreadLocal<u64>, record: &mut Record<'_>) -> Result<(), AllocError> {
    let mut items = Vec::new(record.alloc);
    let before = record.begin();
    let walk = table.into_iter();
    let length = walk.len();
    for value in walk {
        items.push(Item::value(value))?;
    }
    walked(record, "into_iter", before, None, length, items)
}

/// Ends a table: its values are moved out.
pub(crate) fn end(
    table: ThreadLocal<u64>,
    with_ids: bool,
    record: &mut Record<'_>,
) -> Result<(), AllocError> {
    if with_ids {
        into_buckets(table, record)
    } else {
        into_iter(table, record)
    }
}
