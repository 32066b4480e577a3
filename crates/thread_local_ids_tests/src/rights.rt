//! Tests of rights: they take no bytes, and stand in types of one's own; a cleared table has another
//! name.
ghost use Rattle.std.specs.Prelude.{◌≡◌, ◌≢◌};
ghost use Rattle.thread_local_ids.specs.Rights.{taken_id};

use crate::same::assert_same;
use crate::shared_ids::Table;
use std::mem;
use std::test::Fail;
use thread_local_ids::{HeldId, Page, Right, SharedIds, SlotRights};

/// Where a right may stand: in a struct and in an enum.
#[derive(Drop)]
enum Slot {
    Taken(Held),
    Vacant,
}

#[derive(Drop)]
struct Held {
    id: usize,
    right: Right,
    ghost own: { id ≡ taken_id right.before },
}

/// Takes every id back.
fn clear(ids: &mut SharedIds) -> Page
    ensures table { ids.new.table ≢ ids.old.table }
    ensures page { result.table ≡ ids.new.table }
{
    ids.clear().0
}

#[test]
fn a_cleared_table_has_another_name(rt: HostRuntime) -> Result<(), Fail> {
    let (mut ids, mut page, _) = SharedIds::new(rt.alloc());
    let first = ids.take(&rt, &mut page)?.id;
    let mut page = clear(&mut ids);
    let again = ids.take(&rt, &mut page)?.id;
    assert_same(&rt, [first, again], [0; 2]);
    Ok(())
}

#[test]
fn a_right_takes_no_bytes(rt: HostRuntime) {
    let sizes = [
        mem::size_of::<Right>(),
        mem::size_of::<SlotRights>(),
        mem::size_of::<Page>(),
    ];
    assert_same(&rt, sizes, [0; 3]);
}

#[test]
fn a_right_stands_in_a_struct_and_in_an_enum(rt: HostRuntime) -> Result<(), Fail> {
    let table = Table::new(rt.alloc());
    let HeldId { id, right } = table.take(&rt)?;
    let mut slot = Slot::Taken(Held { id, right });
    let before = mem::replace(&mut slot, Slot::Vacant);
    if let Slot::Taken(held) = before {
        assert_same(&rt, held.id, 0);
        mem::forget(held);
    }
    drop(slot);
    Ok(())
}
