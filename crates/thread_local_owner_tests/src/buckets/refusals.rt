//! Values and capacities that are refused memory.

use super::places::{gives, put_each};
use crate::same::assert_same;
use std::alloc::Global;
use std::test::Fail;
use thread_local_buckets::{Buckets, CapacityError};

#[test]
fn a_refused_insert_hands_the_value_back(rt: HostRuntime) {
    let mut buckets = Buckets::new(rt.alloc());
    put_each(&rt, &mut buckets, [(0, 5, 1), (1, 6, 3), (3, 7, 7)]);
    assert!(rt; gives(buckets, &[5, 6, 7]));
}

/// How many slots a capacity of four reserves.
fn slots_of_four(alloc: Global) -> Result<usize, CapacityError> {
    Ok(Buckets::<u64>::with_capacity(alloc, 4)?.slots())
}

#[test]
fn a_refused_capacity_says_so(rt: HostRuntime) -> Result<(), Fail> {
    match slots_of_four(rt.alloc()) {
        Ok(slots) => assert_same(&rt, slots, 7),
        Err(refused) => {
            println!(rt; "refused: with_capacity")?;
            assert!(rt; matches!(refused, CapacityError::Memory(_)));
        }
    }
    Ok(())
}

/// Whether a capacity whose last bucket would be huge is refused memory.
fn is_refused_memory(alloc: Global) -> bool {
    let made = Buckets::<[u64; 8192]>::with_capacity(alloc, (1 << 43) - 1);
    matches!(made, Err(CapacityError::Memory(_)))
}

// The last bucket of this capacity would have 2^58 bytes, so it is refused with no request. Buckets
// are asked for from bucket 0 up, so the first request is the call's: else it would be the test's
// own.
#[test]
fn the_last_bucket_of_a_capacity_is_not_asked_for_first(rt: HostRuntime) -> Result<(), Fail> {
    assert!(rt; is_refused_memory(rt.alloc()));
    if Vec::<u64>::with_capacity(rt.alloc(), 1).is_err() {
        println!(rt; "refused: next")?;
    }
    Ok(())
}
