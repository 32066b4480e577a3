//! Blocks are installed with a value in them, and those that come second give way.
ghost use Rattle.std.specs.Prelude.{◌≡◌, ◌<◌, ◌^◌};
ghost use Rattle.thread_local_buckets.specs.Slots.{empty_slots};
ghost use Rattle.thread_local_ids.specs.Sharings.{Belongs};
ghost use Rattle.thread_local_base.specs.Place.{bucket_of};

use crate::same::assert_same;
use crate::steps::{Kept, Table, empty_shared, left, look, take_back};
use std::alloc::Global;
use std::cell::{Cell, RefCell};
use std::process::Abort;
use std::sync::Wait;
use thread_local_base::{Thread, bucket_size};
use thread_local_buckets::Block;
use thread_local_ids::HeldId;
use thread_local_shared_buckets::{Claim, Shared};
use thread_local_test_helpers::memory::take_all_but;

impl<'a, T: Drop> Kept<'a, T> {
    /// Offers a block with a value for the claim's bucket if that was missing, and answers the claim
    /// if it did.
    fn offered(self, block: Block<T, Global>, alloc: &Global, value: T) -> Option<Claim<'a, T>>
        requires heap { (block.heap ≡ alloc.now) × (block.left ≡ 0) }
        requires slots { block.slots ≡ empty_slots (2 ^ bucket_of self.claim.id) }
    {
        let mut claim = self.into_claim();
        let thread = Thread::new(claim.id());
        if !claim.is_missing() {
            block.release(alloc, bucket_size(thread.bucket));
            claim.give_up();
            return None;
        }
        claim.publish_in(alloc, thread, Some(block), value);
        Some(claim)
    }

    /// Makes a block, offers it with a value and gives the claim up. Answers whether it did.
    fn offer(self, alloc: &Global, value: T) -> bool {
        let Ok(block) = Block::new(alloc, bucket_size(Thread::new(self.claim.id()).bucket)) else {
            return false;
        };
        match self.offered(block, alloc, value) {
            Some(claim) => {
                claim.give_up();
                true
            }
            None => false,
        }
    }
}

/// Claims an id that was taken.
fn claim_early<T>(shared: &Shared<T>, held: HeldId) -> Kept<'_, T>
    requires held { held.right.table ≡ shared.now.table }
    requires sharing { Belongs shared.now.sharing shared.now.table }
{
    Kept {
        claim: shared.claim(held),
    }
}

/// Takes the ids 0 to 2, and claims 1 and 2, whose bucket is missing then.
fn claim_two<'a, R: Wait + Abort>(
    rt: &R,
    table: &Table,
    shared: &'a Shared<u32>,
) -> (Kept<'a, u32>, Kept<'a, u32>)
    requires table { table.now.ids.table ≡ shared.now.table }
    requires sharing { Belongs shared.now.sharing shared.now.table }
{
    let _first = table.hold(rt);
    let second = claim_early(shared, table.hold(rt));
    (second, claim_early(shared, table.hold(rt)))
}

/// Offers a block with a value by each claim. Answers how often it did.
fn offer_by_each(claims: Vec<Kept<'_, u64>>, alloc: &Global) -> u64 {
    let mut offered = 0u64;
    for claim in claims {
        if claim.offer(alloc, offered) {
            offered = offered.saturating_add(1);
        }
    }
    offered
}

/// Takes `count` ids and claims them, and then offers a block with a value by each claim. Answers how
/// often it did.
fn offer_by_all<R: Wait + Abort>(
    shared: &Shared<u64>,
    table: &Table,
    rt: &R,
    alloc: &Global,
    count: u64,
) -> u64
    requires table { table.now.ids.table ≡ shared.now.table }
    requires sharing { Belongs shared.now.sharing shared.now.table }
{
    let mut claims = Vec::new(*alloc);
    for _ in 0..count {
        if claims.push(claim_early(shared, table.hold(rt))).is_err() {
            return 0;
        }
    }
    offer_by_each(claims, alloc)
}

/// How many slots an owner has then, and how many values.
fn slots_and_values(shared: Shared<u64>) -> (usize, usize) {
    let mut buckets = take_back(shared).0;
    (buckets.slots(), buckets.into_iter().len())
}

// A thousand claims find bucket 20 missing, and each then offers a block for it. The blocks that
// come second would hold more than 8 GB if none were freed, where 1 GiB is left. Their values are
// published in the block that came first.
#[test]
fn blocks_that_come_second_are_freed(rt: HostRuntime) {
    let (table, shared) = empty_shared(rt.alloc());
    for _ in 0..1_048_575 {
        let _held = table.hold(&rt);
    }
    let alloc = rt.alloc();
    let taken = take_all_but(alloc, 1 << 30).expect(&rt, "memory");
    let offered = offer_by_all(&shared, &table, &rt, &alloc, 1000);
    drop(taken);
    assert_same(
        &rt,
        (offered, slots_and_values(shared)),
        (1000, (1_048_576, 1000)),
    );
}

/// Offers a block with a value by a claim. Answers what walkers find at the ids 1 and 2 then, and what
/// the claim holds.
fn offer_and_look(
    shared: &Shared<u32>,
    claim: Kept<'_, u32>,
    block: Block<u32, Global>,
    alloc: &Global,
    value: u32,
) -> [Option<u32>; 3]
    requires heap { (block.heap ≡ alloc.now) × (block.left ≡ 0) }
    requires slots { block.slots ≡ empty_slots (2 ^ bucket_of claim.claim.id) }
{
    match claim.offered(block, alloc, value) {
        Some(claim) => {
            let found = [look(shared, 1), look(shared, 2), claim.get().copied()];
            claim.give_up();
            found
        }
        None => [None; 3],
    }
}

/// Two claims of one bucket make a block each, before either is offered: the one with 1 in it, the
/// other with 2. Answers what was found after each offer.
fn offer_two(
    shared: &Shared<u32>,
    one: Kept<'_, u32>,
    other: Kept<'_, u32>,
    alloc: &Global,
) -> Option<[[Option<u32>; 3]; 2]> {
    let size = bucket_size(Thread::new(one.claim.id()).bucket);
    let first = Block::new(alloc, size).ok()?;
    let second = match Block::new(alloc, bucket_size(Thread::new(other.claim.id()).bucket)) {
        Ok(block) => block,
        Err(_) => {
            first.release(alloc, size);
            return None;
        }
    };
    Some([
        offer_and_look(shared, one, first, alloc, 1),
        offer_and_look(shared, other, second, alloc, 2),
    ])
}

// Both blocks are made before the first is installed, which publishes its value. The second value is
// published in the first's block.
#[test]
fn the_second_of_two_blocks_gives_way(rt: HostRuntime) {
    let (table, shared) = empty_shared(rt.alloc());
    let (second, third) = claim_two(&rt, &table, &shared);
    let offered = offer_two(&shared, second, third, &rt.alloc());
    assert_same(
        &rt,
        (offered, left(shared)),
        (
            Some([[Some(1), None, Some(1)], [Some(1), Some(2), Some(2)]]),
            (2, [Some(1), Some(2), None]),
        ),
    );
}

/// Fills a slot by a claim that found its bucket missing. Answers whether it did.
fn publish_late(early: Kept<'_, u32>, alloc: Global, value: u32) -> bool {
    let mut claim = early.into_claim();
    if !claim.is_missing() {
        claim.give_up();
        return false;
    }
    let is_filled = claim.fill(alloc, || value).is_ok();
    claim.give_up();
    is_filled
}

#[test]
fn an_early_claim_finds_its_bucket_later(rt: HostRuntime) {
    let (table, shared) = empty_shared(rt.alloc());
    let (second, third) = claim_two(&rt, &table, &shared);
    let offered = third.offer(&rt.alloc(), 7);
    let published = publish_late(second, rt.alloc(), 5);
    assert_same(
        &rt,
        (offered, published, look(&shared, 1), look(&shared, 2)),
        (true, true, Some(5), Some(7)),
    );
}

/// Whether a claim that found its bucket missing asks for no block, and publishes a value.
fn publish_in_room(early: Kept<'_, u32>, alloc: &Global, value: u32) -> bool {
    let mut claim = early.into_claim();
    if !claim.is_missing() {
        claim.give_up();
        return false;
    }
    let thread = Thread::new(claim.id());
    let needs_none = match claim.room(alloc, thread) {
        Ok(block) => {
            let needs_none = block.is_none();
            claim.publish_in(alloc, thread, block, value);
            needs_none
        }
        Err(_) => false,
    };
    claim.give_up();
    needs_none
}

#[test]
fn an_early_claim_makes_no_block_where_its_bucket_stands(rt: HostRuntime) {
    let (table, shared) = empty_shared(rt.alloc());
    let (second, third) = claim_two(&rt, &table, &shared);
    let offered = third.offer(&rt.alloc(), 7);
    let published = publish_in_room(second, &rt.alloc(), 5);
    assert_same(
        &rt,
        (offered, published, left(shared)),
        (true, true, (2, [Some(5), Some(7), None])),
    );
}

/// Makes room for a value by a claim, and frees the block. Answers whether there was one, and whether
/// the bucket is missing still.
fn make_and_release(early: Kept<'_, u32>, alloc: &Global) -> [bool; 2] {
    let mut claim = early.into_claim();
    let thread = Thread::new(claim.id());
    if !claim.is_missing() {
        claim.give_up();
        return [false; 2];
    }
    let was_made = match claim.room(alloc, thread) {
        Ok(Some(block)) => {
            block.release(alloc, bucket_size(thread.bucket));
            true
        }
        _ => false,
    };
    let is_missing = claim.is_missing();
    claim.give_up();
    [was_made, is_missing]
}

#[test]
fn room_for_a_value_installs_nothing(rt: HostRuntime) {
    let (table, shared) = empty_shared(rt.alloc());
    let first = claim_early(&shared, table.hold(&rt));
    let made = make_and_release(first, &rt.alloc());
    assert_same(&rt, (made, left(shared)), ([true; 2], (0, [None; 3])));
}

/// Whether there is memory for a block of `len` slots.
fn made<T>(alloc: &Global, len: usize) -> bool {
    match Block::<T, Global>::new(alloc, len) {
        Ok(block) => {
            block.release(alloc, len);
            true
        }
        Err(_) => false,
    }
}

#[test]
fn a_block_is_made_at_any_type(rt: HostRuntime) {
    let alloc = rt.alloc();
    let are_made = [
        made::<u32>(&alloc, 8),
        made::<String>(&alloc, 1),
        made::<Cell<u64>>(&alloc, 32),
        made::<RefCell<String>>(&alloc, 32),
        made::<u64>(&alloc, 1 << 62),
    ];
    assert_same(&rt, are_made, [true, true, true, true, false]);
}
