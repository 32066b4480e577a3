//! Ids that threads share, also past the 58th, from which on they lie under a lock.
ghost use Rattle.std.specs.Prelude.{◌≡◌, IfOk, []};
ghost use Rattle.std.specs.Coded.{Coded-set};
ghost use Rattle.thread_local_base.specs.IdMoves.{moves_coded};
ghost use Rattle.thread_local_ids.specs.SharedIds.{AreNew};

use crate::same::assert_same;
use std::alloc::{AllocError, Global};
use std::mem::{forget, swap};
use std::sync::Wait;
use std::test::Fail;
use std::thread;
use std::thread::Threads;
use thread_local_base::LocalError;
use thread_local_ids::{HeldId, Page, SharedIds, SlotRights};

/// The ids of a table, with its first page.
#[derive(Drop)]
pub struct Table {
    pub ids: SharedIds,
    pub start: Page,
    ghost of_one: { start.table ≡ ids.table },
    ghost at_first: { start.moves ≡ [] } by { Coded-set moves_coded start.moves [] },
}

impl Table {
    /// A new table.
    pub fn new(alloc: Global) -> Table {
        Table::of(SharedIds::new(alloc))
    }

    /// A new table with room for so many ids.
    fn with_room(alloc: Global, ids: usize) -> Result<Table, AllocError> {
        Ok(Table::of(SharedIds::with_room(alloc, ids)?))
    }

    /// The table of new ids.
    fn of(made: (SharedIds, Page, SlotRights)) -> Table
        requires { AreNew made }
    {
        let (ids, start, _) = made;
        Table { ids, start }
    }

    /// Takes an id.
    pub fn take<R: Wait>(&self, rt: &R) -> Result<HeldId, LocalError>
        ensures { IfOk result (λ held. held.right.table ≡ self.now.ids.table) }
    {
        let mut page = self.start.again();
        self.ids.take(rt, &mut page)
    }

    /// Takes an id, and never gives it back.
    pub fn take_for_ever<R: Wait>(&self, rt: &R) -> Result<usize, LocalError> {
        Ok(self.take(rt)?.id)
    }

    /// Takes an id, and never gives it back. Answers it, and how many ids were held at once by then.
    fn take_and_peak<R: Wait>(&self, rt: &R) -> Result<(usize, usize), LocalError> {
        let held = self.take(rt)?;
        let peak = self.ids.peak(rt, &mut held.right.page());
        Ok((held.id, peak))
    }

    /// The table once every id was taken back.
    fn cleared(self) -> Table {
        let Self { mut ids, start: _ } = self;
        let (start, _) = ids.clear();
        Table { ids, start }
    }

    /// Gives an id back, and answers it.
    fn give<R: Wait>(&self, rt: &R, held: HeldId) -> usize
        requires { held.right.table ≡ self.now.ids.table }
    {
        let id = held.id;
        self.ids.give(rt, held);
        id
    }
}

#[test]
fn the_least_id_is_taken_past_the_first_ones(rt: HostRuntime) -> Result<(), Fail> {
    let table = Table::new(rt.alloc());
    for id in 0..57usize {
        assert_same(&rt, table.take_for_ever(&rt)?, id);
    }
    let first = table.take(&rt)?;
    let further = table.take(&rt)?;
    let last = table.take(&rt)?;
    let taken = (first.id, further.id, last.id);
    assert_same(&rt, taken, (57, 58, 59));
    table.give(&rt, further);
    assert_same(&rt, table.take_for_ever(&rt)?, 58);
    table.give(&rt, last);
    table.give(&rt, first);
    for id in [57, 59, 60] {
        assert_same(&rt, table.take_for_ever(&rt)?, id);
    }
    Ok(())
}

#[test]
fn cleared_ids_and_their_peak_begin_anew(rt: HostRuntime) -> Result<(), Fail> {
    let table = Table::new(rt.alloc());
    for id in 0..60usize {
        assert_same(&rt, table.take_for_ever(&rt)?, id);
    }
    assert_same(&rt, table.take_and_peak(&rt)?, (60, 61));
    let table = table.cleared();
    assert_same(&rt, table.take_and_peak(&rt)?, (0, 1));
    for id in 1..58usize {
        assert_same(&rt, table.take_for_ever(&rt)?, id);
    }
    assert_same(&rt, table.take_and_peak(&rt)?, (58, 59));
    Ok(())
}

#[test]
fn room_that_was_made_is_enough(rt: HostRuntime) -> Result<(), Fail> {
    let table = Table::with_room(rt.alloc(), 67)?;
    // No memory is asked for here, so a refusal would be a fault of the ids.
    for id in 0..67usize {
        assert_same(&rt, table.take_for_ever(&rt)?, id);
    }
    Ok(())
}

#[test]
fn held_ids_are_swapped_moved_and_forgotten(rt: HostRuntime) -> Result<(), Fail> {
    let table = Table::new(rt.alloc());
    let mut first = table.take(&rt)?;
    let mut second = table.take(&rt)?;
    let third = table.take(&rt)?;
    swap(&mut first, &mut second);
    let swapped = (first.id, second.id, third.id);
    let there = &table;
    let given = thread::join(&rt, || there.give(&rt, first), || there.give(&rt, second));
    forget(third);
    let again = table.take(&rt)?;
    let again = table.give(&rt, again);
    assert_same(&rt, (swapped, given, again), ((1, 0, 2), (1, 0), 0));
    // The forgotten id is held, and no other.
    for id in [0, 1, 3] {
        assert_same(&rt, table.take_for_ever(&rt)?, id);
    }
    Ok(())
}
