//! What slots were published with, as tokens say it: to claims, to walkers and to an owner.
ghost use Rattle.std.specs.Prelude.{◌≡◌, ◌≢◌, ◌-◌, ◌<◌, Some, IfSome, IsSome};
ghost use Rattle.thread_local_ids.specs.Sharings.{Belongs, IsFirst, left_of};
ghost use Rattle.thread_local_base.specs.Buckets.{values};
ghost use Rattle.thread_local_base.specs.Learnt.{Vacant};

use crate::same::assert_same;
use crate::steps::{Table, empty_shared, first_number, publish, reserved_shared, share, take_back};
use std::alloc::Global;
use std::cell::Cell;
use std::process::Abort;
use std::sync::Wait;
use thread_local_base::{Judge, Thread, judge_sync};
use thread_local_buckets::Buckets;
use thread_local_ids::{HeldId, Page, Token, Told};
use thread_local_shared_buckets::{Claim, Shared};

/// Publishes a value, and answers a token of what the slot was published with. In the first sharing
/// the id's note says that value.
pub(crate) fn told<T: Drop>(
    shared: &Shared<T>,
    held: HeldId,
    alloc: Global,
    value: T,
) -> (HeldId, Option<Token<T>>)
    requires held { held.right.table ≡ shared.now.table }
    requires sharing { Belongs shared.now.sharing shared.now.table }
    ensures table { result.0.right.table ≡ shared.now.table }
    ensures id { result.0.id ≡ held.id }
    ensures token { IfSome result.1 (λ token.
        (token.sharing ≡ shared.now.sharing) × (token.id ≡ held.id)) }
    ensures left { IfSome result.1 (λ token.
        IsFirst shared.now.sharing shared.now.table
        → result.0.right.left ≡ left_of T.row (Some token.value)) }
{
    let (held, _) = publish(shared, held, alloc, value);
    let claim = shared.claim(held);
    let token = claim.token();
    (claim.give_up(), token)
}

/// Publishes a value at a new id, and answers a token of what the slot was published with.
pub(crate) fn told_anew<R: Wait + Abort>(
    rt: &R,
    table: &Table,
    shared: &Shared<u32>,
    alloc: Global,
    value: u32,
) -> (HeldId, Token<u32>)
    requires table { table.now.ids.table ≡ shared.now.table }
    requires sharing { Belongs shared.now.sharing shared.now.table }
    ensures table { result.0.right.table ≡ shared.now.table }
    ensures token { (result.1.sharing ≡ shared.now.sharing) × (result.1.id ≡ result.0.id) }
{
    let (held, token) = told(shared, table.hold(rt), alloc, value);
    (held, token.expect(rt, "a token"))
}

/// A value is published in a vacant slot, and the token says it.
fn settled<T>(claim: &mut Claim<'_, T>, value: T) -> Option<Token<T>>
    requires { claim.old.learnt ≡ Vacant }
    ensures some { IsSome result }
    ensures token { IfSome result (λ token.
        (token.sharing ≡ claim.old.sharing) × (token.id ≡ claim.old.id) × (token.value ≡ value)) }
{
    claim.publish(Thread::new(claim.id()), value);
    claim.token()
}

/// What a claim of the same slot holds is what the token says.
fn holds<T: Copy>(claim: &mut Claim<'_, T>, token: &Token<T>) -> T
    requires id { claim.old.id ≡ token.now.id }
    requires sharing { (claim.old.sharing ≡ token.now.sharing) × IsSome claim.old.sharing }
    ensures { result ≡ token.now.value }
{
    claim.agrees(token);
    match claim.get() {
        Some(value) => *value,
        None => unreachable!(),
    }
}

/// The owner finds what two tokens say, under their ids.
fn owned<T>(shared: Shared<T>, one: &Token<T>, other: &Token<T>) -> Buckets<T>
    requires sharing { (shared.sharing ≡ one.now.sharing) × (shared.sharing ≡ other.now.sharing) }
    requires named { IsSome shared.sharing }
    ensures one { values result.contents one.now.id ≡ Some one.now.value }
    ensures other { values result.contents other.now.id ≡ Some other.now.value }
{
    let (buckets, book) = take_back(shared);
    book.tells(one);
    book.tells(other);
    buckets
}

/// Two tokens of one id say the same.
fn are_one(one: &Token<u32>, other: &Token<u32>)
    requires { (one.now.id ≡ other.now.id) × (one.now.sharing ≡ other.now.sharing) × IsSome one.now.sharing }
    ensures { one.now.value ≡ other.now.value }
{
    one.agrees(other);
}

/// What any thread reads, whatever was published meanwhile.
fn read<'a, T: Sync>(shared: &'a Shared<T>, token: &Token<T>) -> &'a T
    requires { (shared.now.sharing ≡ token.now.sharing) × IsSome shared.now.sharing }
    ensures { result.now ≡ token.now.value }
{
    let place = Thread::new(token.id());
    shared.bucket(place.bucket).value(place.index, token)
}

/// What any thread reads by a token, if there is one.
fn read_if_told<'a, T: Sync>(shared: &'a Shared<T>, token: Option<Token<T>>) -> Option<&'a T>
    requires token { IfSome token (λ token. token.sharing ≡ shared.now.sharing) }
    requires named { IsSome shared.now.sharing }
{
    match token {
        Some(token) => Some(read(shared, &token)),
        None => None,
    }
}

/// Another sharing has a name, which isn't that of the one before.
fn renewed<T>(shared: &mut Shared<T>)
    ensures table { shared.new.table ≡ shared.old.table }
    ensures sharing { IsSome shared.new.sharing × (shared.new.sharing ≢ shared.old.sharing) }
    ensures belongs { Belongs shared.new.sharing shared.new.table }
{
    shared.judged();
    shared.renew();
}

/// What the next claim of a token's slot holds, and the id of the token that it answers.
fn held_again(shared: &Shared<u32>, held: HeldId, token: &Token<u32>) -> (u32, Option<usize>)
    requires held { held.right.table ≡ shared.now.table }
    requires id { held.id ≡ token.now.id }
    requires belongs { Belongs shared.now.sharing shared.now.table }
    requires sharing { (shared.now.sharing ≡ token.now.sharing) × IsSome shared.now.sharing }
{
    let mut claim = shared.claim(held);
    let seen = (holds(&mut claim, token), claim.token().map(|t| t.id()));
    claim.give_up();
    seen
}

/// What stands at the ids of two tokens.
fn found_by_two(
    mut buckets: Buckets<u32>,
    one: &Token<u32>,
    other: &Token<u32>,
) -> [Option<u32>; 2] {
    [
        buckets.get_mut(Thread::new(one.id())).copied(),
        buckets.get_mut(Thread::new(other.id())).copied(),
    ]
}

/// What any thread reads by two tokens, and their ids.
fn read_by_two(
    shared: &Shared<u32>,
    one: &Token<u32>,
    other: &Token<u32>,
) -> ((u32, u32), (usize, usize))
    requires one { (shared.now.sharing ≡ one.now.sharing) × IsSome shared.now.sharing }
    requires other { shared.now.sharing ≡ other.now.sharing }
{
    are_one(one, &one.again());
    let read = (*read(shared, &one.again()), *read(shared, other));
    (read, (one.id(), other.id()))
}

#[test]
fn a_token_says_what_was_published(rt: HostRuntime) {
    let (table, shared) = empty_shared(rt.alloc());
    let (held, token) = told_anew(&rt, &table, &shared, rt.alloc(), 7);
    let seen = held_again(&shared, held, &token);
    let (_, other) = told_anew(&rt, &table, &shared, rt.alloc(), 8);
    let (read, ids) = read_by_two(&shared, &token, &other);
    let found = found_by_two(owned(shared, &token, &other), &token, &other);
    assert_same(
        &rt,
        (seen, read, ids, found),
        ((7, Some(0)), (7, 8), (0, 1), [Some(7), Some(8)]),
    );
}

/// Whether a claim has no token, and that of the value that it publishes where its slot is vacant.
fn settled_if_vacant(claim: Claim<'_, u32>, value: u32) -> (bool, Option<Token<u32>>)
    ensures { IfSome result.1 (λ token. token.sharing ≡ claim.entry.sharing) }
{
    let mut claim = claim;
    let has_none = claim.token().is_none();
    if claim.is_missing() || claim.get().is_some() {
        claim.give_up();
        return (has_none, None);
    }
    let token = settled(&mut claim, value);
    claim.give_up();
    (has_none, token)
}

#[test]
fn a_vacant_slot_has_no_token(rt: HostRuntime) {
    let (table, shared) = reserved_shared(&rt, rt.alloc(), 1);
    let (before, token) = settled_if_vacant(shared.claim(table.hold(&rt)), 5);
    let after = read_if_told(&shared, token).copied();
    assert_same(&rt, (before, after), (true, Some(5)));
}

#[test]
fn a_text_is_read_by_its_token(rt: HostRuntime) {
    judge_sync::<String>();
    let (table, shared) = empty_shared(rt.alloc());
    let text = String::new(rt.alloc());
    let (_, token) = told(&shared, table.hold(&rt), rt.alloc(), text);
    let len = read_if_told(&shared, token).map(|text| text.len());
    assert_same(&rt, len, Some(0));
}

/// Cells that threads hand on, in no bucket yet.
fn cells(alloc: Global, page: &Page) -> Shared<Cell<u32>>
    ensures table { result.table ≡ page.now.table }
    ensures belongs { Belongs result.sharing result.table }
{
    Cell::<u32>::judge();
    share(Buckets::new(alloc), page)
}

/// Offers 3 before another sharing begins, and 4 in that. Answers whether there are tokens.
fn told_and_renewed(shared: &mut Shared<Cell<u32>>, held: HeldId, alloc: Global) -> (bool, bool)
    requires held { held.right.table ≡ shared.old.table }
    requires sharing { Belongs shared.old.sharing shared.old.table }
    ensures { shared.new.table ≡ shared.old.table }
{
    let (held, first) = told(shared, held, alloc, Cell::new(3));
    renewed(shared);
    let (_, second) = told(shared, held, alloc, Cell::new(4));
    (first.is_some(), second.is_some())
}

#[test]
fn renewed_buckets_keep_their_values(rt: HostRuntime) {
    let table = Table::new(rt.alloc());
    let mut shared = cells(rt.alloc(), &table.start);
    let told = told_and_renewed(&mut shared, table.hold(&rt), rt.alloc());
    let slots = shared.slots_reached(&table.start, &Told::new()).0;
    assert_same(
        &rt,
        (told, (slots, first_number(shared))),
        ((true, true), (1, Some(3))),
    );
}
