//! The first sharing of a table, in which its history of ids says what slots were published with.
ghost use Rattle.std.specs.Prelude.{◌≡◌, ◌-◌, ◌^◌, ◌<◌, ℕ, true, false};
ghost use mathlib.Core.List.{IsPrefix};
ghost use Rattle.thread_local_base.specs.Buckets.{values};
ghost use Rattle.thread_local_base.specs.Held.{is_held};
ghost use Rattle.thread_local_base.specs.IdMoves.{held_after, published_in};
ghost use Rattle.thread_local_ids.specs.Sharings.{Belongs, IsFirst, left_of};

use crate::same::assert_same;
use crate::steps::{Table, begun, first_three, left, look, put, share, take_back};
use crate::tokens::told_anew;
use std::alloc::Global;
use std::process::Abort;
use std::sync::Wait;
use thread_local_buckets::Buckets;
use thread_local_ids::{Book, HeldId, Page, SharedIds};
use thread_local_shared_buckets::Shared;

/// What the holder of an id finds in its slot, which is what the id's note says.
fn found<T: Copy>(shared: &Shared<T>, held: HeldId) -> Option<T>
    requires held { held.right.table ≡ shared.now.table }
    requires first { IsFirst shared.now.sharing shared.now.table }
    requires sharing { Belongs shared.now.sharing shared.now.table }
    ensures { held.right.left ≡ left_of T.row result }
{
    let claim = shared.claim(held);
    let found = match claim.get() {
        Some(value) => Some(*value),
        None => None,
    };
    claim.give_up();
    found
}

/// Ends the first sharing. The history goes on from a page, and says of the slots of ids that nobody
/// holds what the owner finds there.
fn ended<T>(shared: Shared<T>, ids: SharedIds, page: &Page) -> (Buckets<T>, Book<T>)
    requires table { (ids.table ≡ shared.table) × (page.now.table ≡ shared.table) }
    requires first { IsFirst shared.sharing shared.table }
    ensures early { IsPrefix page.now.moves result.1.moves }
    ensures left { (id : ℕ)
        → id < 2 ^ 63 - 1
        → is_held (held_after result.1.moves) id ≡ false
        → published_in result.1.moves id ≡ left_of T.row (values result.0.contents id) }
{
    let (buckets, book) = take_back(shared);
    let mut book = ids.with_history(book);
    book.extends(page);
    (buckets, book)
}

/// Publishes 7 at a new id, and gives that back. Answers the id, that of the token, and the page.
fn noted<R: Wait + Abort>(
    rt: &R,
    table: &Table,
    shared: &Shared<u32>,
    alloc: Global,
) -> ((usize, usize), Page)
    requires table { table.now.ids.table ≡ shared.now.table }
    requires sharing { Belongs shared.now.sharing shared.now.table }
    ensures { result.1.table ≡ shared.now.table }
{
    let (held, token) = told_anew(rt, table, shared, alloc, 7);
    let ids = (held.id, token.id());
    (ids, table.ids.give(rt, held))
}

#[test]
fn a_note_says_what_the_next_holder_finds(rt: HostRuntime) {
    let (table, shared) = begun(rt.alloc());
    let (ids, page) = noted(&rt, &table, &shared, rt.alloc());
    let seen = [
        found(&shared, table.hold(&rt)),
        found(&shared, table.hold(&rt)),
    ];
    let left = first_three(ended(shared, table.into_ids(), &page).0);
    assert_same(
        &rt,
        (ids, seen, left),
        ((0, 0), [Some(7), None], [Some(7), None, None]),
    );
}

/// Drops all values, and answers the other table that has the buckets then, in its first sharing.
fn cleared<T: Drop>(table: Table, shared: &mut Shared<T>) -> Table
    ensures table { shared.new.table ≡ result.ids.table }
    ensures first { IsFirst shared.new.sharing shared.new.table }
    ensures belongs { Belongs shared.new.sharing shared.new.table }
    ensures reserved { shared.new.reserved ≡ shared.old.reserved }
    ensures grown { shared.new.grown_by_ids ≡ true }
{
    let (table, slots) = table.cleared();
    shared.clear(slots);
    table
}

/// Puts a value at each of two ids, the first in a bucket that is reserved. Answers whether it did.
fn with_two<R: Abort>(rt: &R, alloc: Global) -> (Buckets<u32>, [bool; 2]) {
    let mut buckets = Buckets::with_capacity(alloc, 4).expect(rt, "memory");
    let inserted = [put(&mut buckets, 0, 5), put(&mut buckets, 1234, 6)];
    (buckets, inserted)
}

/// What a walker finds at the two ids.
fn look_at_two(shared: &Shared<u32>) -> [Option<u32>; 2] {
    [look(shared, 0), look(shared, 1234)]
}

#[test]
fn cleared_buckets_are_those_of_a_new_table(rt: HostRuntime) {
    let (buckets, inserted) = with_two(&rt, rt.alloc());
    let table = Table::new(rt.alloc());
    let mut shared = share(buckets, &table.start);
    let before = look_at_two(&shared);
    let table = cleared(table, &mut shared);
    let after = look_at_two(&shared);
    let seen = found(&shared, table.hold(&rt));
    assert_same(
        &rt,
        ((inserted, before), (after, seen, left(shared))),
        (
            ([true; 2], [Some(5), Some(6)]),
            ([None; 2], None, (7, [None; 3])),
        ),
    );
}
