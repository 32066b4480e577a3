//! The rights to ids, which threads that hold them have, and a new table's rights to its slots. No type
//! here has bytes, and no call does anything at run time.
ghost use Rattle.std.specs.Prelude.{◌≡◌, ◌≢◌, ℕ, Bool, true, false, List, Option};
ghost use types.Logic.{sem};
ghost use base.Stored.{Gv, coded_bool};
ghost use mathlib.Core.List.{IsPrefix};
ghost use denote.Sharing.{said};
ghost use Rattle.thread_local_base.specs.IdMoves.{IdMove, Take, left_coded, moves_coded, held_after, noted};
ghost use Rattle.thread_local_base.specs.Held.{is_held};
ghost use Rattle.thread_local_ids.specs.Rights.{right_in, right_with, seen_by, page_owns, slots_own, taken_id};

use crate::rights::page::Page;
use std::marker::{Model, PhantomData};

/// The right to the id that was taken after some moves of a table, when it was the least: no two values
/// are the right to one id. It shows that the id is held.
///
/// Where it isn't lent, the id's slot may be claimed with it. It has the id's note then, which says what
/// the slot was published with in the table's first sharing: nothing yet, or the code of a value.
///
/// A step that took no id leaves one that isn't held, and shows only which moves the step saw. One that is
/// dropped or forgotten is lost for good, and its id stays out.
#[derive(Drop)]
pub struct Right {
    pub(crate) marker: PhantomData<()>,
    pub ghost table: { ℕ },
    pub ghost before: { List IdMove } by { moves_coded },
    pub ghost held: { Bool } by { coded_bool },
    pub ghost lent: { Bool } by { coded_bool },
    pub ghost left: { Option Gv } by { left_coded },
}

impl Model for Right {
    ghost also_owns = { λ r. right_in r.table r.before r.held r.lent r.left };

    ghost also_shares = { λ r _ κ. said (page_owns r.table (seen_by r.before r.held)) κ };
}

/// A new table's rights to tell what its slots are published with in its first sharing: of none of them
/// anything is told yet.
#[derive(Drop)]
pub struct SlotRights {
    pub(crate) marker: PhantomData<()>,
    pub ghost table: { ℕ },
}

impl Model for SlotRights {
    ghost also_owns = { λ r. slots_own r.table 0 };
}

impl Right {
    /// The page of the moves that it has seen. It ends with the take, where the id is held.
    pub fn page(&self) -> Page
        ensures { (result.table ≡ self.now.table) × (result.moves ≡ seen_by self.now.before self.now.held) }
    {
        Page {
            marker: PhantomData,
        }
    }

    /// Shows that two rights of one table are to different ids.
    pub fn apart(&mut self, other: &mut Right)
        requires held { (self.old.held ≡ true) × (other.old.held ≡ true) }
        ensures ids { self.old.table ≡ other.old.table → taken_id self.old.before ≢ taken_id other.old.before }
        ensures same { (self.new ≡ self.old) × (other.new ≡ other.old) }
    {}

    /// Shows that the id is held after all moves of a later page.
    pub fn held_at(&mut self, page: Page)
        requires held { self.old.held ≡ true }
        requires table { page.table ≡ self.old.table }
        requires later { IsPrefix (noted self.old.before Take) page.moves }
        ensures held { is_held (held_after page.moves) (taken_id self.old.before) ≡ true }
        ensures same { self.new ≡ self.old }
    {}

    /// Lends the right to the caller's proof, as for an invariant of its own.
    pub fn lend(self) -> Right
        requires { (self.held ≡ true) × (self.lent ≡ false) }
        ensures* right { sem 𝓛 (right_with self.table (taken_id self.before) self.left) }
        ensures lent { result ≡ record self { lent = true } }
    {
        let Right { marker: _ } = self;
        Right {
            marker: PhantomData,
        }
    }

    /// Takes back what `lend` gave to the proof, with what the id's note says by now.
    pub fn take_back(self) -> Right
        ghost left: { Option Gv }
        requires lent { (self.held ≡ true) × (self.lent ≡ true) }
        requires* right { sem 𝓛 (right_with self.table (taken_id self.before) left) }
        ensures { result ≡ record self { lent = false; left = left } }
    {
        let Right { marker: _ } = self;
        Right {
            marker: PhantomData,
        }
    }
}

unsafe impl Send for Right {}

unsafe impl Send for SlotRights {}

unsafe impl Sync for Right {}

unsafe impl Sync for SlotRights {}
