//! The token of a claim's slot (`token`), and that a claim holds what another token says (`agrees`),
//! or the note of its id (`notes`).
ghost use Rattle.std.specs.Prelude.{◌≡◌, ◌-◌, ◌^◌, ◌<◌, true, is_some, IsSome};
ghost use Rattle.thread_local_base.specs.Learnt.{Holding};
ghost use Rattle.thread_local_ids.specs.Sharings.{is_first, left_of};
ghost use Rattle.thread_local_shared_buckets.specs.Known.{HasLooked, value_held};

use super::ClaimedSlot;
use std::marker::PhantomData;
use thread_local_ids::Token;

impl<'a, T> ClaimedSlot<'a, T> {
    /// A token of what the slot was published with, for who knows its id.
    pub(crate) fn token(&self, id: usize) -> Token<T>
        requires published { is_some (value_held self.now.learnt) ≡ true }
        requires id { id ≡ self.now.id }
        requires in_range { id < 2 ^ 63 - 1 }
        ensures id { (result.sharing ≡ self.now.sharing) × (result.id ≡ id) }
        ensures value { self.now.learnt ≡ Holding result.value }
    {
        Token {
            id,
            marker: PhantomData,
        }
    }

    /// Shows that the slot holds what a token says of its id. At run time it does nothing.
    pub(crate) fn agrees(&mut self, token: &Token<T>)
        requires id { self.old.id ≡ token.now.id }
        requires sharing { self.old.sharing ≡ token.now.sharing }
        requires named { IsSome self.old.sharing }
        requires looked { HasLooked self.old.learnt }
        ensures holds { self.old.learnt ≡ Holding token.now.value }
        ensures same { self.new ≡ self.old }
    {}

    /// Shows that the slot holds what the note of its id says, in the first sharing of the table. At
    /// run time it does nothing.
    pub(crate) fn notes(&mut self)
        requires looked { HasLooked self.old.learnt }
        ensures same { self.new ≡ self.old }
        ensures left { is_first self.old.sharing self.old.table ≡ true
            → self.old.left ≡ left_of T.row (value_held self.old.learnt) }
    {}
}
