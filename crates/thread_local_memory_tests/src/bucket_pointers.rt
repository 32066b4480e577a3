//! The pointers of a table: values come back at any type.
ghost use Rattle.std.specs.Prelude.{◌≡◌, ◌^◌, ◌<◌, IfOk};

use crate::same::assert_same;
use std::alloc::{AllocError, Global};
use std::cell::Cell;
use std::mem::replace;
use std::test::Fail;
use thread_local_base::Thread;
use thread_local_buckets::{BucketPointers, FlagSource};

/// A slot's place.
pub fn place(bucket: usize, index: usize) -> Thread
    requires { (bucket < 63) × (index < 2 ^ bucket) }
    ensures { (result.bucket ≡ bucket) × (result.index ≡ index) }
{
    Thread { bucket, index }
}

/// Publishes a value, takes it for another, and drops the rest.
fn there_and_back<T: Send + Drop>(alloc: Global, first: T, second: T) -> Result<T, AllocError>
    ensures { IfOk result (λ x. x ≡ first) }
{
    let mut pointers = BucketPointers::new(alloc);
    pointers.ensure_bucket(3)?;
    pointers.publish_or_drop(place(3, 5), first);
    let value = pointers.get_mut(place(3, 5));
    Ok(replace(value, second))
}

/// Publishes a value, writes another over it, and takes that for a third.
fn written_over<T: Send + Drop>(
    alloc: Global,
    first: T,
    second: T,
    third: T,
) -> Result<T, AllocError>
    ensures { IfOk result (λ x. x ≡ second) }
{
    let mut pointers = BucketPointers::new(alloc);
    pointers.ensure_bucket(4)?;
    pointers.publish_or_drop(place(4, 0), first);
    *pointers.get_mut(place(4, 0)) = second;
    let value = pointers.get_mut(place(4, 0));
    Ok(replace(value, third))
}

/// Whether a text comes back.
fn text_comes_back(alloc: Global) -> Result<bool, AllocError> {
    let first = String::from_str(alloc, "one")?;
    let second = String::from_str(alloc, "two")?;
    Ok(there_and_back(alloc, first, second)?.as_str() == "one")
}

/// Whether a box comes back.
fn box_comes_back(alloc: Global) -> Result<bool, AllocError> {
    let first = Box::new(alloc, 1u32)?;
    let second = Box::new(alloc, 2)?;
    Ok(*there_and_back(alloc, first, second)? == 1)
}

/// Whether a cell, a value without bytes and a large one come back.
fn others_come_back(alloc: Global) -> Result<bool, AllocError> {
    there_and_back(alloc, (), ())?;
    Ok(
        there_and_back(alloc, Cell::new(1u64), Cell::new(2))?.get() == 1
            && there_and_back(alloc, [7u8; 4096], [0; 4096])?[4095] == 7,
    )
}

#[test]
fn values_come_back_at_any_type(rt: HostRuntime) -> Result<(), Fail> {
    let alloc = rt.alloc();
    assert_same(&rt, there_and_back(alloc, 1u32, 2)?, 1);
    let seen = (
        text_comes_back(alloc)?,
        box_comes_back(alloc)?,
        others_come_back(alloc)?,
    );
    assert_same(&rt, seen, (true, true, true));
    Ok(())
}

#[test]
fn a_block_that_is_too_large_is_refused(rt: HostRuntime) -> Result<(), Fail> {
    let mut pointers = BucketPointers::<u64>::new(rt.alloc());
    assert!(rt; pointers.ensure_bucket(62).is_err());
    assert!(rt; !pointers.stands(62));
    pointers.ensure_bucket(10)?;
    assert!(rt; pointers.stands(10));
    Ok(())
}

/// A text that is written over another.
fn text_written_over(alloc: Global) -> Result<String, AllocError> {
    let first = String::from_str(alloc, "one")?;
    let second = String::from_str(alloc, "two")?;
    written_over(alloc, first, second, String::new(alloc))
}

/// Whether a slot with a value and one without are published, and whether their bucket and another
/// one stand.
fn seen_beside(alloc: Global) -> Result<[bool; 4], AllocError> {
    let mut pointers = BucketPointers::new(alloc);
    pointers.ensure_bucket(2)?;
    pointers.publish_or_drop(place(2, 3), 1u32);
    Ok([
        pointers.is_published(place(2, 3)),
        pointers.is_published(place(2, 2)),
        pointers.stands(2),
        pointers.stands(1),
    ])
}

#[test]
fn values_are_written_over(rt: HostRuntime) -> Result<(), Fail> {
    assert_same(&rt, text_written_over(rt.alloc())?.as_str(), "two");
    assert_same(&rt, seen_beside(rt.alloc())?, [true, false, true, false]);
    Ok(())
}
