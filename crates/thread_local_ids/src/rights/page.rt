//! What was done with the ids of a table. A page has no bytes, and no call does anything at run time.
ghost use Rattle.std.specs.Prelude.{◌≡◌, ℕ, List};
ghost use mathlib.Core.List.{IsPrefix};
ghost use mathlib.Core.Logic.{◌∨₁◌};
ghost use denote.Sharing.{said};
ghost use Rattle.thread_local_base.specs.IdMoves.{IdMove, moves_coded};
ghost use Rattle.thread_local_ids.specs.Rights.{page_with};

use std::marker::{Model, PhantomData};

/// A beginning of a table's history: all that was done with its ids up to some moment, in its
/// order. Each page of the table says for how many ids there was room when it was made or cleared,
/// and there is since.
#[derive(Drop)]
pub struct Page {
    pub marker: PhantomData<()>,
    pub ghost table: { ℕ },
    pub ghost moves: { List IdMove } by { moves_coded },
    pub ghost room: { ℕ },
}

impl Model for Page {
    ghost also_owns = { λ p. page_with p.table p.moves p.room };

    ghost also_shares = { λ p _ κ. said (page_with p.table p.moves p.room) κ };
}

impl Page {
    /// The same once more.
    pub fn again(&self) -> Page
        ensures page { (result.table ≡ self.now.table) × (result.moves ≡ self.now.moves) }
        ensures room { result.room ≡ self.now.room }
    {
        Page {
            marker: PhantomData,
        }
    }

    /// Shows that of two pages of one table one extends the other, and that both say one room.
    pub fn in_line(&self, other: &Page)
        requires { self.now.table ≡ other.now.table }
        ensures room { self.now.room ≡ other.now.room }
        ensures line { IsPrefix self.now.moves other.now.moves ∨₁ IsPrefix other.now.moves self.now.moves }
    {}
}

unsafe impl Send for Page {}

unsafe impl Sync for Page {}
