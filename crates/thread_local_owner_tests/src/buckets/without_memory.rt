//! Values where no memory is left.

use super::insert;
use crate::same::assert_same;
use std::alloc::{AllocError, Global};
use std::test::Fail;
use thread_local_base::Thread;
use thread_local_buckets::Buckets;
use thread_local_test_helpers::memory::{take_all, take_all_but};

/// What an insert without memory answers, how many slots there are then, what the same insert
/// answers with memory, and how many there are then.
fn insert_twice(alloc: Global) -> Result<((Option<u32>, usize), (Option<u32>, usize)), AllocError> {
    let mut buckets = Buckets::new(alloc);
    let taken = take_all(alloc)?;
    let refused = buckets.insert(Thread::new(0), 5u32).err();
    let slots = buckets.slots();
    drop(taken);
    let granted = buckets.insert(Thread::new(0), 5).ok().copied();
    Ok(((refused, slots), (granted, buckets.slots())))
}

#[test]
fn a_refused_insert_hands_back_its_value_and_makes_no_slot(rt: HostRuntime) -> Result<(), Fail> {
    assert_same(&rt, insert_twice(rt.alloc())?, ((Some(5), 0), (Some(5), 1)));
    Ok(())
}

// The bucket of this id takes 8 MiB.
const FAR: u32 = 1048575;

/// Whether a value is inserted in the same bucket again, and whether in a new one, once no memory
/// is left.
fn inserted_without_memory(alloc: Global) -> Result<(bool, bool), AllocError> {
    let mut buckets = Buckets::new(alloc);
    insert(&mut buckets, FAR, 5u64)?;
    drop(buckets.drain());
    let mut others = Buckets::new(alloc);
    let _taken = take_all_but(alloc, 0)?;
    let again = insert(&mut buckets, FAR, 6).is_ok();
    Ok((again, insert(&mut others, FAR, 7u64).is_ok()))
}

#[test]
fn a_second_round_asks_for_no_memory(rt: HostRuntime) -> Result<(), Fail> {
    assert_same(&rt, inserted_without_memory(rt.alloc())?, (true, false));
    Ok(())
}
