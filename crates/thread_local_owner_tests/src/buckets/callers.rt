//! Callers whose own contracts follow from those of the calls.
ghost use Rattle.std.specs.Prelude.{◌≡◌, ℕ, None, IfOk, IsSome, is_some, sum};
ghost use Rattle.thread_local_base.specs.Buckets.{stands, values};
ghost use Rattle.thread_local_base.specs.Rows.{value_in};
ghost use Rattle.thread_local_base.specs.Walk.{walk};
ghost use Rattle.thread_local_base.specs.Owner.{with_published};

use crate::same::assert_same;
use std::alloc::{AllocError, Global};
use std::cell::Cell;
use std::test::Fail;
use thread_local_base::Thread;
use thread_local_buckets::Buckets;

/// A caller at any type: a value that is inserted is what the walk gives first.
fn inserted_and_taken<T: Send + Drop>(alloc: Global, value: T) -> Result<Option<T>, T> {
    let mut buckets = Buckets::new(alloc);
    match buckets.insert(Thread::new(2), value) {
        Ok(_) => {}
        Err(value) => return Err(value),
    }
    let mut walk = buckets.into_iter();
    Ok(walk.next())
}

/// Writes through what `insert` answers.
fn written(alloc: Global) -> Result<u32, u32>
    ensures { IfOk result (λ there. there ≡ 5) }
{
    let mut buckets = Buckets::new(alloc);
    let there = buckets.insert(Thread::new(0), 4)?;
    *there += 1;
    let there = buckets.insert(Thread::new(0), 9)?;
    Ok(*there)
}

/// Writes one value of a map: it stands there afterwards, and every other is as it was.
fn write_at(buckets: &mut Buckets<u32>, thread: Thread, value: u32)
    requires { IsSome (value_in buckets.old.contents thread.bucket thread.index) }
    ensures { buckets.new.contents ≡ with_published buckets.old.contents thread.bucket thread.index value }
{
    if let Some(there) = buckets.get_mut(thread) {
        *there = value;
    }
}

/// Writes every value of a map: the same ids have a value, and as many slots are reserved.
fn write_all(buckets: &mut Buckets<u32>, value: u32)
    ensures published { (id : ℕ)
        → is_some (values buckets.new.contents id) ≡ is_some (values buckets.old.contents id) }
    ensures reserved { buckets.new.reserved ≡ buckets.old.reserved }
{
    for there in buckets.iter_mut() {
        *there = value;
    }
}

/// Writes the value that a walk gives first.
fn write_first(buckets: &mut Buckets<u32>, value: u32)
    ensures published { (id : ℕ)
        → is_some (values buckets.new.contents id) ≡ is_some (values buckets.old.contents id) }
{
    if let Some(there) = buckets.iter_mut().next() {
        *there = value;
    }
}

/// Drains a map, whose values are dropped one by one: none is left, and the same buckets stand.
fn drop_each<T: Drop>(buckets: &mut Buckets<T>)
    ensures empty { (id : ℕ) → values buckets.new.contents id ≡ None }
    ensures stands { (bucket : ℕ) → stands buckets.new.contents bucket ≡ stands buckets.old.contents bucket }
    ensures reserved { buckets.new.reserved ≡ buckets.old.reserved }
{
    for value in buckets.drain() {
        drop(value);
    }
}

/// Takes the value that a drain gives first: none is left.
fn take_first<T: Drop>(buckets: &mut Buckets<T>) -> Option<T>
    ensures empty { (id : ℕ) → values buckets.new.contents id ≡ None }
    ensures reserved { buckets.new.reserved ≡ buckets.old.reserved }
{
    buckets.drain().next()
}

/// Drains a map at once.
fn empty<T: Drop>(buckets: &mut Buckets<T>)
    ensures empty { (id : ℕ) → values buckets.new.contents id ≡ None }
{
    drop(buckets.drain());
}

/// The sum of a map's values, which are taken out of it.
fn drained_sum(buckets: &mut Buckets<u32>) -> u128
    ensures sum { result ≡ sum (walk (values buckets.old.contents)) }
    ensures empty { (id : ℕ) → values buckets.new.contents id ≡ None }
{
    let mut total = 0u128;
    for value in buckets.drain() {
        total += u128::from(value);
    }
    total
}

/// Whether a text comes back.
fn text_comes_back(alloc: Global) -> Result<bool, AllocError> {
    match inserted_and_taken(alloc, String::from_str(alloc, "seven")?) {
        Ok(Some(text)) => Ok(text.as_str() == "seven"),
        _ => Ok(false),
    }
}

/// Whether a box comes back.
fn box_comes_back(alloc: Global) -> Result<bool, AllocError> {
    match inserted_and_taken(alloc, Box::new(alloc, 7u32)?) {
        Ok(Some(boxed)) => Ok(*boxed == 7),
        _ => Ok(false),
    }
}

/// Whether a cell comes back.
fn cell_comes_back(alloc: Global) -> bool {
    match inserted_and_taken(alloc, Cell::new(7u64)) {
        Ok(Some(cell)) => cell.get() == 7,
        _ => false,
    }
}

/// Whether a value without bytes comes back.
fn unit_comes_back(alloc: Global) -> bool {
    match inserted_and_taken(alloc, ()) {
        Ok(Some(())) => true,
        _ => false,
    }
}

#[test]
fn values_of_any_type_come_back(rt: HostRuntime) -> Result<(), Fail> {
    let alloc = rt.alloc();
    assert_same(&rt, inserted_and_taken(alloc, 7u32)?, Some(7));
    let owned = (text_comes_back(alloc)?, box_comes_back(alloc)?);
    let others = (cell_comes_back(alloc), unit_comes_back(alloc));
    assert_same(&rt, (owned, others), ((true, true), (true, true)));
    Ok(())
}

/// Inserts the numbers 3 and 4.
fn two(alloc: Global) -> Result<Buckets<u32>, u32> {
    let mut buckets = Buckets::new(alloc);
    buckets.insert(Thread::new(0), 3)?;
    buckets.insert(Thread::new(70), 4)?;
    Ok(buckets)
}

#[test]
fn values_are_drained_at_any_type(rt: HostRuntime) -> Result<(), Fail> {
    let mut buckets = two(rt.alloc())?;
    let summed = (drained_sum(&mut buckets), drained_sum(&mut buckets));
    let mut others = two(rt.alloc())?;
    let taken = (take_first(&mut others), take_first(&mut others));
    drop_each(&mut others);
    empty(&mut others);
    assert_same(&rt, (summed, taken), ((7, 0), (Some(3), None)));
    Ok(())
}

/// The sum of the values 3 and 4 once the first is written by a walk.
fn written_first(alloc: Global) -> Result<u128, u32> {
    let mut buckets = two(alloc)?;
    write_first(&mut buckets, 5);
    Ok(drained_sum(&mut buckets))
}

/// The sum of the values 3 and 4 once both are written.
fn written_everywhere(alloc: Global) -> Result<u128, u32> {
    let mut buckets = two(alloc)?;
    write_all(&mut buckets, 8);
    Ok(drained_sum(&mut buckets))
}

#[test]
fn values_are_written(rt: HostRuntime) {
    assert_same(
        &rt,
        [written_first(rt.alloc()), written_everywhere(rt.alloc())],
        [Ok(9), Ok(16)],
    );
}

#[test]
fn a_value_that_stands_is_kept(rt: HostRuntime) {
    assert_same(&rt, written(rt.alloc()).ok(), Some(5));
}
