//! Claims at concrete types.
ghost use Rattle.std.specs.Prelude.{◌≡◌, ◌≢◌, ◌^◌, ◌⊎◌, MatchBool, MatchOption};
ghost use Rattle.thread_local_ids.specs.Rights.{taken_id};
ghost use Rattle.thread_local_buckets.specs.Slots.{empty_slots};
ghost use Rattle.thread_local_base.specs.Learnt.{Missing, Vacant, Holding};
ghost use Rattle.thread_local_base.specs.Place.{bucket_of};
ghost use Rattle.thread_local_ids.specs.Sharings.{Belongs};

use crate::same::assert_same;
use crate::steps::empty_shared;
use std::alloc::Global;
use std::cell::{Cell, RefCell};
use thread_local_base::{Thread, bucket_size};
use thread_local_buckets::Block;
use thread_local_ids::{HeldId, Token};
use thread_local_shared_buckets::{Claim, Shared};

/// Publishes the value unless the slot holds one.
fn offered<T: Send + Drop>(claim: &mut Claim<'_, T>, value: T)
    requires { claim.old.learnt ≢ Missing }
    ensures same { (claim.new.table ≡ claim.old.table) × (claim.new.id ≡ claim.old.id) }
    ensures published { claim.old.learnt ≡ Vacant → claim.new.learnt ≡ Holding value }
{
    if claim.get().is_none() {
        claim.publish(Thread::new(claim.id()), value);
    }
}

fn number(claim: Claim<'_, u32>) -> HeldId
    ensures { (result.id ≡ claim.entry.id) × (taken_id result.right.before ≡ claim.entry.id) }
{
    claim.give_up()
}

fn text(claim: &mut Claim<'_, String>, value: String)
    requires { claim.old.learnt ≢ Missing }
{
    offered(claim, value)
}

fn boxed(claim: &mut Claim<'_, Box<u32>>, value: Box<u32>)
    requires { claim.old.learnt ≢ Missing }
{
    offered(claim, value)
}

fn cell(claim: &mut Claim<'_, Cell<u64>>)
    requires { claim.old.learnt ≢ Missing }
{
    offered(claim, Cell::new(7));
    if let Some(value) = claim.get() {
        value.set(value.get() / 2);
    }
}

fn ref_cell(claim: &mut Claim<'_, RefCell<String>>, value: RefCell<String>)
    requires { claim.old.learnt ≢ Missing }
{
    offered(claim, value)
}

/// Looks, and gives the claim up.
fn visit<T: Send>(shared: &Shared<T>, held: HeldId) -> HeldId
    requires table { held.right.table ≡ shared.now.table }
    requires sharing { Belongs shared.now.sharing shared.now.table }
    ensures table { result.right.table ≡ held.right.table }
    ensures id { (result.id ≡ held.id) × (taken_id result.right.before ≡ held.id) }
{
    shared.claim(held).give_up()
}

/// What the look lent outlives the claim, and so does a token of it.
fn seen<'a, T: Send + Sync>(claim: Claim<'a, T>) -> (HeldId, Option<(Token<T>, &'a T)>)
    requires { claim.learnt ≢ Missing }
    ensures id { (result.0.id ≡ claim.entry.id) × (taken_id result.0.right.before ≡ claim.entry.id) }
    ensures value { MatchOption result.1 (claim.entry.learnt ≡ Vacant) (λ x.
        (x.0.value ≡ x.1.now) × (claim.entry.learnt ≡ Holding x.1.now)) }
{
    let value = claim.lasting();
    (claim.give_up(), value)
}

fn number_seen<'a>(claim: Claim<'a, u32>) -> (HeldId, Option<(Token<u32>, &'a u32)>)
    requires { claim.learnt ≢ Missing }
    ensures { MatchOption result.1 (claim.entry.learnt ≡ Vacant) (λ x. claim.entry.learnt ≡ Holding x.1.now) }
{
    seen(claim)
}

/// Installs a block for the bucket that was missing, which publishes the value.
fn settled<T: Send>(claim: &mut Claim<'_, T>, block: Block<T, Global>, alloc: &Global, value: T)
    requires missing { claim.old.learnt ≡ Missing }
    requires heap { (block.heap ≡ alloc.now) × (block.left ≡ 0) }
    requires slots { block.slots ≡ empty_slots (2 ^ bucket_of claim.old.id) }
    ensures { claim.new.learnt ≡ Holding value }
{
    let thread = Thread::new(claim.id());
    claim.publish_in(alloc, thread, Some(block), value);
}

fn settled_number(claim: &mut Claim<'_, u32>, block: Block<u32, Global>, alloc: &Global)
    requires missing { claim.old.learnt ≡ Missing }
    requires heap { (block.heap ≡ alloc.now) × (block.left ≡ 0) }
    requires slots { block.slots ≡ empty_slots (2 ^ bucket_of claim.old.id) }
    ensures { claim.new.learnt ≡ Holding 7 }
{
    settled(claim, block, alloc, 7)
}

/// Publishes a value in an empty slot, with a block for its bucket where that is missing. Answers
/// whether there was memory.
fn filled<T: Send + Drop>(claim: &mut Claim<'_, T>, alloc: &Global, value: T) -> bool
    requires empty { (claim.old.learnt ≡ Missing) ⊎ (claim.old.learnt ≡ Vacant) }
    ensures { MatchBool result (claim.new.learnt ≡ Holding value) (claim.new.learnt ≡ Missing) }
{
    claim.set(*alloc, value).is_ok()
}

/// Makes room for a value that never comes. A slot that was vacant stays so.
fn left_empty<T: Send>(claim: &mut Claim<'_, T>, alloc: &Global)
    requires empty { (claim.old.learnt ≡ Missing) ⊎ (claim.old.learnt ≡ Vacant) }
    ensures { claim.old.learnt ≡ Vacant → claim.new.learnt ≡ Vacant }
{
    let thread = Thread::new(claim.id());
    if let Ok(Some(block)) = claim.room(alloc, thread) {
        block.release(alloc, bucket_size(thread.bucket));
    }
}

/// A claim whose slot is empty is filled with 7. Answers whether there was memory, and the id with what
/// the claim has seen.
fn filled_and_seen(
    shared: &Shared<u32>,
    held: HeldId,
    alloc: Global,
) -> Option<(bool, usize, Option<u32>)>
    requires table { held.right.table ≡ shared.now.table }
    requires sharing { Belongs shared.now.sharing shared.now.table }
{
    let mut claim = shared.claim(visit(shared, held));
    if claim.get().is_some() {
        number(claim);
        return None;
    }
    left_empty(&mut claim, &alloc);
    if claim.get().is_some() {
        number(claim);
        return None;
    }
    let is_filled = filled(&mut claim, &alloc, 7);
    if claim.is_missing() {
        number(claim);
        return None;
    }
    let (held, found) = number_seen(claim);
    Some((is_filled, held.id, found.map(|(_, value)| *value)))
}

/// A claim whose bucket is missing is told that a block for it is installed. Answers what it holds then.
fn settled_and_held(shared: &Shared<u32>, held: HeldId, alloc: Global) -> Option<u32>
    requires table { held.right.table ≡ shared.now.table }
    requires sharing { Belongs shared.now.sharing shared.now.table }
{
    let mut claim = shared.claim(held);
    if !claim.is_missing() {
        number(claim);
        return None;
    }
    let thread = Thread::new(claim.id());
    if let Ok(block) = Block::new(&alloc, bucket_size(thread.bucket)) {
        settled_number(&mut claim, block, &alloc);
    }
    let value = claim.get().copied();
    number(claim);
    value
}

#[test]
fn claims_of_numbers_are_filled(rt: HostRuntime) {
    let (table, shared) = empty_shared(rt.alloc());
    let first = table.hold(&rt);
    let second = table.hold(&rt);
    assert_same(
        &rt,
        (
            filled_and_seen(&shared, first, rt.alloc()),
            settled_and_held(&shared, second, rt.alloc()),
        ),
        (Some((true, 0, Some(7))), Some(7)),
    );
}
