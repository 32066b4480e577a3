//! Callers of ids that are proved by contracts alone, and tests that run them.
ghost use Rattle.std.specs.Prelude.{◌≡◌, ◌≢◌, IfOk, IsSome};
ghost use Rattle.thread_local_base.specs.IdMoves.{Take, noted, published_in};
ghost use mathlib.Core.List.{IsPrefix};

use crate::same::assert_same;
use crate::shared_ids::Table;
use std::alloc::Global;
use std::sync::Wait;
use std::test::Fail;
use thread_local_base::{LocalError, ThreadIdManager};
use thread_local_ids::{HeldId, Page, SharedIds};

/// The six ids of three takes, the returns of 1 and of 0, and three takes more, where nobody else
/// takes any.
fn least_ids_come_again(
    alloc: Global,
) -> Result<((usize, usize, usize), (usize, usize, usize)), LocalError>
    ensures { IfOk result (λ ids. ids ≡ ((0, 1, 2), (0, 1, 3))) }
{
    let mut manager = ThreadIdManager::new(alloc);
    let first = manager.alloc()?;
    let second = manager.alloc()?;
    let third = manager.alloc()?;
    manager.free(second);
    manager.free(first);
    let again = (manager.alloc()?, manager.alloc()?, manager.alloc()?);
    Ok(((first, second, third), again))
}

#[test]
fn the_least_ids_come_again(rt: HostRuntime) -> Result<(), Fail> {
    let ids = least_ids_come_again(rt.alloc())?;
    assert_same(&rt, ids, ((0, 1, 2), (0, 1, 3)));
    Ok(())
}

/// Two ids of one table are two, whatever other threads do, and the second was taken after the first.
fn take_two<R: Wait>(
    ids: &SharedIds,
    rt: &R,
    page: &mut Page,
) -> Result<(HeldId, HeldId), LocalError>
    requires { page.old.table ≡ ids.now.table }
    ensures differ { IfOk result (λ two. two.0.id ≢ two.1.id) }
    ensures in_turn { IfOk result (λ two. IsPrefix (noted two.0.right.before Take) two.1.right.before) }
{
    let mut first = ids.take(rt, page)?;
    let mut second = ids.take(rt, page)?;
    first.right.apart(&mut second.right);
    Ok((first, second))
}

#[test]
fn an_id_is_held_once(rt: HostRuntime) -> Result<(), Fail> {
    let table = Table::new(rt.alloc());
    let (first, second) = take_two(&table.ids, &rt, &mut table.start.again())?;
    assert_same(&rt, (first.id, second.id), (0, 1));
    Ok(())
}

/// Two held ids of one table are two, as their rights show.
fn are_two(one: &mut HeldId, other: &mut HeldId)
    requires { one.old.right.table ≡ other.old.right.table }
    ensures differ { one.old.id ≢ other.old.id }
    ensures same { (one.new.id ≡ one.old.id) × (other.new.id ≡ other.old.id) }
{
    one.right.apart(&mut other.right);
}

#[test]
fn two_held_ids_have_two_rights(rt: HostRuntime) -> Result<(), Fail> {
    let table = Table::new(rt.alloc());
    let mut first = table.take(&rt)?;
    let mut second = table.take(&rt)?;
    are_two(&mut first, &mut second);
    assert_same(&rt, (first.id, second.id), (0, 1));
    Ok(())
}

/// Gives an id back, and takes one. The history has what the given id's note says of its slot. If that
/// is a value and the id comes again, its note says the same. It says the same, a value or none, if
/// nothing was done with the ids in between.
fn give_and_take<R: Wait>(
    ids: &SharedIds,
    rt: &R,
    given: HeldId,
) -> Result<(Page, HeldId), LocalError>
    requires held { given.right.table ≡ ids.now.table }
    ensures history { IfOk result (λ both. published_in both.0.moves given.id ≡ given.right.left) }
    ensures value { IfOk result (λ both.
        both.1.id ≡ given.id → IsSome given.right.left → both.1.right.left ≡ given.right.left) }
    ensures at_once { IfOk result (λ both.
        both.1.id ≡ given.id
        → both.1.right.before ≡ both.0.moves
        → both.1.right.left ≡ given.right.left) }
{
    let page = ids.give(rt, given);
    let again = ids.take(rt, &mut page.again())?;
    Ok((page, again))
}

// The first id lies in the word, the second under the lock.
#[test]
fn a_note_comes_back_with_its_id(rt: HostRuntime) -> Result<(), Fail> {
    for id in [0usize, 58] {
        let table = Table::new(rt.alloc());
        for held in 0..id {
            assert_same(&rt, table.take_for_ever(&rt)?, held);
        }
        let given = table.take(&rt)?;
        let (_, again) = give_and_take(&table.ids, &rt, given)?;
        assert_same(&rt, again.id, id);
    }
    Ok(())
}
