//! Values are handed on, from thread to thread and back out of the buckets.
ghost use Rattle.std.specs.Prelude.{◌≡◌};
ghost use Rattle.thread_local_base.specs.Judged.{Judged};
ghost use Rattle.thread_local_ids.specs.Sharings.{Belongs};

use crate::same::assert_same;
use crate::steps::{
    empty_shared, first_number, look, look_at_three, one_shared, publish, put, take_back,
};
use std::alloc::Global;
use std::cell::{Cell, RefCell};
use std::process::Abort;
use std::sync::Wait;
use std::thread;
use std::thread::Threads;
use thread_local_base::{Judge, judge_sync};
use thread_local_ids::HeldId;
use thread_local_shared_buckets::Shared;

/// Adds to the number at an id, and answers what was there.
fn add(shared: &Shared<Cell<u64>>, held: HeldId, more: u64) -> (HeldId, Option<u64>)
    requires held { held.right.table ≡ shared.now.table }
    requires sharing { Belongs shared.now.sharing shared.now.table }
    ensures table { result.0.right.table ≡ shared.now.table }
    ensures id { result.0.id ≡ held.id }
{
    let claim = shared.claim(held);
    let found = match claim.get() {
        Some(cell) => {
            let found = cell.get();
            cell.set(found.wrapping_add(more));
            Some(found)
        }
        None => None,
    };
    (claim.give_up(), found)
}

/// What the one who claims an id finds, and what a walker finds in another thread meanwhile.
fn look_while_claimed<R: Threads>(
    rt: &R,
    shared: &Shared<u32>,
    held: HeldId,
) -> (Option<u32>, Option<u32>)
    requires table { held.right.table ≡ shared.now.table }
    requires sharing { Belongs shared.now.sharing shared.now.table }
{
    let id = held.id;
    let claim = shared.claim(held);
    let (seen, _) = thread::join(rt, || look(shared, id), || ());
    let own = claim.get().copied();
    claim.give_up();
    (own, seen)
}

/// One thread publishes 7, and the next adds 5 to it. Answers whether the first did, and what the
/// second found.
fn hand_on<R: Threads>(
    rt: &R,
    shared: &Shared<Cell<u64>>,
    held: HeldId,
    alloc: Global,
) -> (bool, Option<u64>)
    requires held { held.right.table ≡ shared.now.table }
    requires sharing { Belongs shared.now.sharing shared.now.table }
{
    let first = || publish(shared, held, alloc, Cell::new(7));
    let (first, _) = thread::join(rt, first, || ());
    let (held, published) = first;
    let (second, _) = thread::join(rt, || add(shared, held, 5), || ());
    (published, second.1)
}

#[test]
fn a_number_is_handed_on_from_thread_to_thread(rt: HostRuntime) {
    Cell::<u64>::judge();
    let (table, shared) = empty_shared(rt.alloc());
    let (published, found) = hand_on(&rt, &shared, table.hold(&rt), rt.alloc());
    assert_same(
        &rt,
        (published, found, first_number(shared)),
        (true, Some(7), Some(12)),
    );
}

#[test]
fn a_walker_sees_a_value_that_is_claimed(rt: HostRuntime) {
    let (table, mut shared, first) = one_shared(rt.alloc(), 9);
    let (own, seen) = look_while_claimed(&rt, &shared, table.hold(&rt));
    let before = [own, seen, look(&shared, 1)];
    let second = put(shared.owner(), 1, 4);
    assert_same(
        &rt,
        ([first, second], before, look_at_three(&shared)),
        (
            [true; 2],
            [Some(9), Some(9), None],
            [Some(9), Some(4), None],
        ),
    );
}

/// Publishes a value in shared buckets of its own, and takes it back out of them. Answers whether
/// there is one.
fn comes_back<R: Wait + Abort, T: Send + Drop>(rt: &R, alloc: Global, value: T) -> bool
    requires judged { Judged T.row }
{
    let (table, shared) = empty_shared(alloc);
    let published = publish(&shared, table.hold(rt), alloc, value).1;
    published && take_back(shared).0.into_iter().next().is_some()
}

#[test]
fn values_of_any_type_come_back(rt: HostRuntime) {
    let alloc = rt.alloc();
    judge_sync::<String>();
    Cell::<u64>::judge();
    RefCell::<String>::judge();
    let come_back = [
        comes_back(&rt, alloc, 7u32),
        comes_back(&rt, alloc, Box::new(alloc, 7u32).expect(&rt, "memory")),
        comes_back(&rt, alloc, String::new(alloc)),
        comes_back(&rt, alloc, Cell::new(7u64)),
        comes_back(&rt, alloc, RefCell::new(String::new(alloc))),
    ];
    assert_same(&rt, come_back, [true; 5]);
}
