//! Each value is dropped once, and a claim is forgotten.
ghost use Rattle.std.specs.Prelude.{◌≡◌};
ghost use Rattle.thread_local_ids.specs.Sharings.{Belongs};

use crate::same::assert_same;
use crate::steps::{
    Kept, Table, empty_shared, first_three, look_at_three, one_shared, publish, put, share,
    take_back,
};
use std::alloc::Global;
use std::mem::forget;
use std::process::Abort;
use std::sync::atomic::AtomicU64;
use std::sync::{Arc, Wait};
use thread_local_base::{LocalError, judge_sync};
use thread_local_buckets::Buckets;
use thread_local_ids::HeldId;
use thread_local_shared_buckets::Shared;
use thread_local_test_helpers::counted::{Counted, Drops, dropped};

/// Puts a counted value at each of 100 ids. Answers how often it did.
fn insert_counted(buckets: &mut Buckets<Counted>, drops: &Drops) -> u64 {
    let mut inserted = 0u64;
    for id in 0..100 {
        let Ok(value) = Counted::new(drops) else {
            return inserted;
        };
        if put(buckets, id, value) {
            inserted = inserted.saturating_add(1);
        }
    }
    inserted
}

#[test]
fn each_value_is_dropped_once(rt: HostRuntime) {
    let drops = Arc::new(rt.alloc(), AtomicU64::new(0)).expect(&rt, "memory");
    let mut buckets = Buckets::new(rt.alloc());
    let inserted = insert_counted(&mut buckets, &drops);
    judge_sync::<Counted>();
    let shared = share(buckets, &Table::new(rt.alloc()).start);
    let before = dropped(&drops);
    drop(shared);
    assert_same(&rt, [inserted, before, dropped(&drops)], [100, 0, 100]);
}

/// Publishes a counted value at each of so many ids, and offers another there, which gives way.
/// Answers how often it did.
fn publish_counted<R: Wait + Abort>(
    shared: &Shared<Counted>,
    table: &Table,
    rt: &R,
    alloc: Global,
    drops: &Drops,
    count: u64,
) -> u64
    requires table { table.now.ids.table ≡ shared.now.table }
    requires sharing { Belongs shared.now.sharing shared.now.table }
{
    let mut published = 0u64;
    for _ in 0..count {
        let one = Counted::new(drops).expect(rt, "memory");
        let other = Counted::new(drops).expect(rt, "memory");
        let (held, first) = publish(shared, table.hold(rt), alloc, one);
        let (_held, second) = publish(shared, held, alloc, other);
        if first && !second {
            published = published.saturating_add(1);
        }
    }
    published
}

#[test]
fn each_published_value_is_dropped_once(rt: HostRuntime) {
    let drops = Arc::new(rt.alloc(), AtomicU64::new(0)).expect(&rt, "memory");
    judge_sync::<Counted>();
    let (table, shared) = empty_shared(rt.alloc());
    let published = publish_counted(&shared, &table, &rt, rt.alloc(), &drops, 100);
    let given_way = dropped(&drops);
    let mut values = take_back(shared).0.into_iter();
    drop(values.next());
    let taken = dropped(&drops);
    drop(values);
    assert_same(
        &rt,
        [published, given_way, taken, dropped(&drops)],
        [100, 100, 101, 200],
    );
}

/// What a new claim holds, which is forgotten then.
fn found_and_forgotten(shared: &Shared<u32>, held: HeldId) -> Option<u32>
    requires table { held.right.table ≡ shared.now.table }
    requires sharing { Belongs shared.now.sharing shared.now.table }
{
    let claimed = Kept {
        claim: shared.claim(held),
    };
    let found = claimed.claim.get().copied();
    forget(claimed);
    found
}

/// Two claims of new ids find what stands and are forgotten, and a value is published at a third id.
/// Answers what the two found, and whether the third was published.
fn forget_two<R: Wait>(
    shared: &Shared<u32>,
    table: &Table,
    rt: &R,
    alloc: Global,
) -> Result<([Option<u32>; 2], bool), LocalError>
    requires table { table.now.ids.table ≡ shared.now.table }
    requires sharing { Belongs shared.now.sharing shared.now.table }
{
    let found = [
        found_and_forgotten(shared, table.take(rt)?),
        found_and_forgotten(shared, table.take(rt)?),
    ];
    let (_third, published) = publish(shared, table.take(rt)?, alloc, 6);
    Ok((found, published))
}

// The first is forgotten where a value stands, the second before its bucket does, which the third
// then makes.
#[test]
fn a_forgotten_claim_costs_its_own_slot(rt: HostRuntime) {
    let (table, shared, inserted) = one_shared(rt.alloc(), 5);
    let told = forget_two(&shared, &table, &rt, rt.alloc()).ok();
    let seen = look_at_three(&shared);
    let left = first_three(take_back(shared).0);
    assert_same(
        &rt,
        (inserted, told, seen, left),
        (
            true,
            Some(([Some(5), None], true)),
            [Some(5), None, Some(6)],
            [Some(5), Some(6), None],
        ),
    );
}
