//! What every slot of a table held at the end of a sharing.
ghost use Rattle.std.specs.Prelude.{◌≡◌, ◌≢◌, ◌-◌, ◌^◌, ◌<◌, ℕ, Bool, true, List, Option, Some, IsSome, All, map, length, IsPermutation};
ghost use Rattle.std.specs.List.{AllPairs};
ghost use Rattle.std.specs.Coded.{coded_option, coded_ℕ};
ghost use Rattle.thread_local_base.specs.Buckets.{Contents, values};
ghost use Rattle.thread_local_base.specs.Code.{contents_coded};
ghost use Rattle.thread_local_base.specs.Walk.{walk};
ghost use Rattle.thread_local_base.specs.IdMoves.{IdMove, moves_coded};
ghost use Rattle.thread_local_ids.specs.Told.{book_owns, book_with};
ghost use base.Stored.{coded_bool};
ghost use mathlib.Core.List.{IsPrefix};
ghost use denote.Sharing.{said};

use crate::rights::page::Page;
use crate::tokens::token::Token;
use std::marker::{Model, PhantomData};

/// What each slot of a table held when a sharing ended: a published value or none. An owner gets it
/// beside a walk by value, or beside the buckets. It has no bytes, and no call waits or takes memory.
pub struct Book<T> {
    pub marker: PhantomData<T>,
    pub ghost sharing: { Option ℕ } by { coded_option coded_ℕ },
    pub ghost contents: { Contents T } by { contents_coded T.code },
    pub ghost table: { ℕ },
    /// All that was done with the table's ids by then, where that is known.
    pub ghost moves: { List IdMove } by { moves_coded },
    pub ghost whole: { Bool } by { coded_bool },
}

impl<T> Model for Book<T> {
    ghost also_owns = { λ b. book_with T.row b.sharing b.contents b.table b.whole b.moves };

    ghost also_shares = { λ b _ κ. said (book_owns T.row b.sharing b.contents) κ };
}

impl<T> Book<T> {
    /// Shows that the slot of a token's id had the token's value when the sharing ended. At run time
    /// it does nothing.
    pub fn tells(&self, token: &Token<T>)
        requires sharing { token.now.sharing ≡ self.now.sharing }
        requires named { IsSome self.now.sharing }
        ensures value { values self.now.contents token.now.id ≡ Some token.now.value }
        ensures in_range { token.now.id < 2 ^ 63 - 1 }
    {}

    /// Shows that tokens of different ids are all that was published, where there are as many of
    /// them as values: a walk gives their values, in some order. At run time it goes over the tokens
    /// and does nothing with them.
    pub fn tells_all(&self, tokens: &[Token<T>])
        requires sharing { All (λ token. token.sharing ≡ self.now.sharing) tokens.now }
        requires named { IsSome self.now.sharing }
        requires different { AllPairs (λ one other. one.id ≢ other.id) tokens.now }
        requires as_many { length tokens.now ≡ length (walk (values self.now.contents)) }
        ensures { IsPermutation (map (λ token. token.value) tokens.now) (walk (values self.now.contents)) }
    {
        for index in 0..tokens.len() {
            self.tells(&tokens[index]);
        }
    }

    /// A token of the value that the slot of an id had when the sharing ended. So with `tells`, where
    /// the sharing has a name, a value is in the buckets exactly where there is a token of it.
    pub fn token(&self, id: usize) -> Token<T>
        requires in_range { id < 2 ^ 63 - 1 }
        requires published { IsSome (values self.now.contents id) }
        ensures id { (result.sharing ≡ self.now.sharing) × (result.id ≡ id) }
        ensures value { values self.now.contents id ≡ Some result.value }
    {
        Token {
            id,
            marker: PhantomData,
        }
    }

    /// Shows that the history goes on from a page of the table. At run time it does nothing.
    pub fn extends(&mut self, page: &Page)
        requires table { page.now.table ≡ self.old.table }
        requires whole { self.old.whole ≡ true }
        ensures early { IsPrefix page.now.moves self.old.moves }
        ensures same { self.new ≡ self.old }
    {
        let _ = page;
    }
}

impl<T> Drop for Book<T> {
    fn drop(self) {
        let Self { marker: _ } = self;
    }
}

unsafe impl<T> Send for Book<T> {}

unsafe impl<T> Sync for Book<T> {}
