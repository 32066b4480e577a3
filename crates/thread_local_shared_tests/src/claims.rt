//! Claims that are sent or shared, and those of reserved buckets.

use crate::same::assert_same;
use crate::steps::{Kept, first_number, left, one_shared, publish_claimed, reserved_shared};
use std::cell::Cell;
use std::thread;
use std::thread::Threads;
use thread_local_base::Judge;
use thread_local_ids::Told;
use thread_local_shared_buckets::{Claim, Shared};

impl<T: Drop> Kept<'_, T> {
    /// Publishes a value if the slot is vacant, and answers whether it did.
    fn publish(self, value: T) -> bool {
        publish_claimed(self.into_claim(), value).1
    }
}

/// Publishes 7 in another thread, and answers whether it did.
fn publish_there<R: Threads>(rt: &R, claim: Claim<'_, Cell<u64>>) -> bool {
    let claimed = Kept { claim };
    thread::join(rt, || claimed.publish(Cell::new(7)), || ()).0
}

#[test]
fn a_claim_goes_to_another_thread(rt: HostRuntime) {
    Cell::<u64>::judge();
    let (table, shared) = reserved_shared(&rt, rt.alloc(), 1);
    let published = publish_there(&rt, shared.claim(table.hold(&rt)));
    assert_same(&rt, (published, first_number(shared)), (true, Some(7)));
}

/// What a claim holds, which another thread made.
fn found(claim: &Claim<'_, u32>) -> Option<u32> {
    claim.get().copied()
}

/// What two threads find in one claim, which is given up then.
fn found_by_two<R: Threads>(rt: &R, claim: Claim<'_, u32>) -> (Option<u32>, Option<u32>) {
    let both = thread::join(rt, || found(&claim), || found(&claim));
    claim.give_up();
    both
}

#[test]
fn threads_share_a_claim(rt: HostRuntime) {
    let (table, shared, inserted) = one_shared(rt.alloc(), 5);
    let both = found_by_two(&rt, shared.claim(table.hold(&rt)));
    assert_same(&rt, (inserted, both), (true, (Some(5), Some(5))));
}

/// Whether the buckets 0, 2 and 3 stand.
fn stand(shared: &Shared<u32>) -> [bool; 3] {
    let told = Told::new();
    [
        shared.bucket(0).load(&told).is_some(),
        shared.bucket(2).load(&told).is_some(),
        shared.bucket(3).load(&told).is_some(),
    ]
}

/// Whether a claim has found its slot vacant, and whether 1 is published there.
fn publish_if_vacant(claim: Claim<'_, u32>) -> (bool, bool) {
    let is_vacant = !claim.is_missing() && claim.get().is_none();
    (is_vacant, publish_claimed(claim, 1).1)
}

#[test]
fn reserved_buckets_stand(rt: HostRuntime) {
    let (table, shared) = reserved_shared(&rt, rt.alloc(), 4);
    let reserved = (shared.reserved(), stand(&shared));
    let published = publish_if_vacant(shared.claim(table.hold(&rt)));
    assert_same(
        &rt,
        (reserved, published, left(shared)),
        (
            (7, [true, true, false]),
            (true, true),
            (7, [Some(1), None, None]),
        ),
    );
}
