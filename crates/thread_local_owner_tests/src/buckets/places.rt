//! Which buckets stand, and which value a slot has.

use super::insert;
use crate::same::assert_same;
use std::alloc::{AllocError, Global};
use std::cell::Cell;
use std::io::Print;
use std::process::Abort;
use std::test::Fail;
use thread_local_base::Thread;
use thread_local_buckets::{Buckets, CapacityError, IntoIter};

/// How many slots a capacity reserves. Where memory is refused it is asked for once more.
fn slots_of(alloc: Global, capacity: usize) -> Result<usize, CapacityError> {
    let mut buckets = match Buckets::<u32>::with_capacity(alloc, capacity) {
        Err(CapacityError::Memory(_)) => Buckets::with_capacity(alloc, capacity)?,
        made => made?,
    };
    Ok(buckets.slots())
}

#[test]
fn a_capacity_reserves_whole_buckets(rt: HostRuntime) -> Result<(), Fail> {
    for (capacity, slots) in [(0, 0), (1, 1), (3, 3), (4, 7), (7, 7), (8, 15)] {
        let found = slots_of(rt.alloc(), capacity)?;
        assert_same(&rt, (capacity, found), (capacity, slots));
    }
    Ok(())
}

#[test]
fn a_capacity_past_the_last_id_is_refused(rt: HostRuntime) {
    for capacity in [9223372036854775808, usize::MAX] {
        let refused = Buckets::<u32>::with_capacity(rt.alloc(), capacity);
        assert!(rt;
            matches!(refused, Err(CapacityError::TooLarge)),
            "capacity {capacity}"
        );
    }
}

/// Inserts a value and answers what stands at the id. Where memory is refused the value comes back
/// and no bucket is new, and the same call succeeds; else the answer is `None`.
pub fn put(rt: &impl Print, buckets: &mut Buckets<usize>, id: u32, value: usize) -> Option<usize> {
    let slots = buckets.slots();
    match buckets.insert(Thread::new(id as usize), value) {
        Ok(value) => return Some(*value),
        Err(back) => {
            let _told = println!(rt; "refused: insert");
            if back != value {
                return None;
            }
        }
    }
    if buckets.slots() != slots {
        return None;
    }
    match buckets.insert(Thread::new(id as usize), value) {
        Ok(value) => Some(*value),
        Err(_) => None,
    }
}

/// Puts each value at its id in turn. Ends the test where the value doesn't stand there then, or where
/// there are other than so many slots.
pub fn put_each<R: Print + Abort>(
    rt: &R,
    buckets: &mut Buckets<usize>,
    values: [(u32, usize, usize); 3],
) {
    for (id, value, slots) in values {
        let stands = put(rt, buckets, id, value);
        assert_same(rt, (id, stands, buckets.slots()), (id, Some(value), slots));
    }
}

/// Whether a walk gives just these values.
pub fn gives(buckets: Buckets<usize>, values: &[usize]) -> bool {
    let mut walk = buckets.into_iter();
    for value in values {
        if walk.next() != Some(*value) {
            return false;
        }
    }
    walk.next().is_none() && walk.next().is_none()
}

#[test]
fn an_insert_installs_its_own_bucket(rt: HostRuntime) {
    let mut buckets = Buckets::new(rt.alloc());
    let new = buckets.slots();
    put_each(&rt, &mut buckets, [(0, 0, 1), (2, 2, 3), (19, 19, 19)]);
    buckets.clear();
    let cleared = (buckets.slots(), gives(buckets, &[]));
    assert_same(&rt, (new, cleared), (0, (0, true)));
}

#[test]
fn the_first_value_stays(rt: HostRuntime) {
    let mut buckets = Buckets::new(rt.alloc());
    let stands = (put(&rt, &mut buckets, 0, 1), put(&rt, &mut buckets, 0, 2));
    assert_same(
        &rt,
        (stands, gives(buckets, &[1])),
        ((Some(1), Some(1)), true),
    );
}

/// Writes 7 at id 2. Answers whether there is no value at two other ids.
fn write_seven(buckets: &mut Buckets<usize>) -> (bool, bool) {
    if let Some(value) = buckets.get_mut(Thread::new(2)) {
        *value = 7;
    }
    let one = buckets.get_mut(Thread::new(1)).is_none();
    (one, buckets.get_mut(Thread::new(1234)).is_none())
}

#[test]
fn one_value_is_written(rt: HostRuntime) {
    let mut buckets = Buckets::new(rt.alloc());
    let stands = (put(&rt, &mut buckets, 0, 1), put(&rt, &mut buckets, 2, 2));
    assert_same(
        &rt,
        (stands, write_seven(&mut buckets)),
        ((Some(1), Some(2)), (true, true)),
    );
    assert!(rt; gives(buckets, &[1, 7]));
}

/// A number that was inserted.
fn number(alloc: Global) -> Result<Option<u32>, AllocError> {
    let mut numbers = Buckets::new(alloc);
    insert(&mut numbers, 0, 5)?;
    Ok(numbers.into_iter().next())
}

/// Adds to the end of each text.
fn write_texts(texts: &mut Buckets<String>) -> Result<(), AllocError> {
    for text in texts.iter_mut() {
        text.push_str(" and six")?;
    }
    Ok(())
}

/// A text that was inserted, and written in a walk.
fn text_written(alloc: Global) -> Result<Option<String>, AllocError> {
    let text = String::from_str(alloc, "five")?;
    let mut texts = Buckets::new(alloc);
    insert(&mut texts, 2, text)?;
    write_texts(&mut texts)?;
    Ok(texts.into_iter().next())
}

/// A boxed number that was inserted.
fn boxed(alloc: Global) -> Result<Option<u32>, AllocError> {
    let mut boxes = Buckets::new(alloc);
    insert(&mut boxes, 4, Box::new(alloc, 7u32)?)?;
    Ok(boxes.into_iter().next().map(|b| *b))
}

/// What a cell holds that was set where it stands.
fn set_in_a_cell(alloc: Global) -> Result<Option<u64>, AllocError> {
    let mut cells = Buckets::new(alloc);
    match cells.insert(Thread::new(1), Cell::new(8u64)) {
        Ok(cell) => cell.set(9),
        Err(_) => return Err(AllocError),
    }
    Ok(cells.into_iter().next().map(|cell| cell.get()))
}

#[test]
fn values_of_each_kind(rt: HostRuntime) -> Result<(), Fail> {
    let alloc = rt.alloc();
    let others = (number(alloc)?, boxed(alloc)?, set_in_a_cell(alloc)?);
    assert_same(&rt, others, (Some(5), Some(7), Some(9)));
    let text = text_written(alloc)?;
    assert_same(&rt, text.as_deref(), Some("five and six"));
    Ok(())
}

/// Inserts three values of 4096 bytes at the first ids, and writes in each. Answers how many slots
/// there are.
fn write_large(buckets: &mut Buckets<[u64; 512]>) -> Result<usize, AllocError> {
    for id in 0..3u32 {
        insert(buckets, id, [u64::from(id); 512])?;
    }
    for value in buckets.iter_mut() {
        value[511] = value[0].wrapping_add(10);
    }
    Ok(buckets.slots())
}

/// Three numbers of the value that a walk gives next.
fn three_of_next(walk: &mut IntoIter<[u64; 512]>) -> Option<(u64, u64, u64)> {
    walk.next().map(|value| (value[0], value[510], value[511]))
}

#[test]
fn a_large_value(rt: HostRuntime) -> Result<(), Fail> {
    let mut buckets = Buckets::new(rt.alloc());
    assert_same(&rt, write_large(&mut buckets)?, 3);
    let mut walk = buckets.into_iter();
    for wanted in [0u64, 1, 2] {
        let last = wanted.wrapping_add(10);
        assert_same(&rt, three_of_next(&mut walk), Some((wanted, wanted, last)));
    }
    assert!(rt; walk.next().is_none());
    Ok(())
}
