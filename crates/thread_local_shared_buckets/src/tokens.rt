//! The walk over shared buckets that gives each value with a token.
ghost use Rattle.std.specs.Prelude.{◌≡◌, Some, None, IfSome};
ghost use Rattle.std.specs.Iterator.{UpTo};
ghost use Rattle.std.specs.Iterator.SizeHint.{IsWithinCount};
ghost use Rattle.thread_local_shared_buckets.specs.Walks.{CanGo, IsNextWithToken, ids_left};

use crate::iter::Iter;
use std::fmt;
use std::iter::FusedIterator;
use std::marker::Model;
use thread_local_buckets::write_struct;
use thread_local_ids::Token;

/// What `Iter` gives, each value with a token that says that the slot of the token's id was
/// published with it: the ids ascend strictly. Contracts see the walk.
///
/// By such a token a reader knows that two walks gave one value at one id, and that an item is the
/// value of another token that he has (`Token::agrees`). A token is its id at run time, so the walk
/// does no more than `Entries`.
///
/// No call waits or takes memory. Rust's crate has no such walk.
#[derive(Drop)]
pub struct Tokens<'a, T> {
    walk: Iter<'a, T>,
}

impl<'a, T> Model for Tokens<'a, T> {
    ghost use Rattle.thread_local_shared_buckets.specs.Walks.{WalkView, walk_view_coded};

    ghost Value = { WalkView T };

    ghost coded = { walk_view_coded T.code };

    ghost view = { λ tokens. tokens.walk };
}

impl<'a, T> Iter<'a, T> {
    /// This walk, with a token of each value. It goes on where the walk is.
    pub fn with_tokens(self) -> Tokens<'a, T>
        ensures { result ≡ self.entry }
    {
        Tokens { walk: self }
    }
}

impl<'a, T: Sync> Iterator for Tokens<'a, T> {
    type Item = (Token<T>, &'a T);

    ghost can_next = { CanGo T.row };

    ghost next_gives = { IsNextWithToken };

    ghost remaining = { ids_left };

    /// The next value that a look finds, and a token of it, by the same steps as `Iter` goes by.
    fn next(&mut self) -> Option<(Token<T>, &'a T)> {
        self.walk.step()
    }

    /// No value is promised, and there is no upper bound, since others publish meanwhile.
    fn size_hint(&self) -> (usize, Option<usize>)
        ensures hint { result ≡ (0, None) }
        ensures lower { IsWithinCount result.0 (ids_left self.now) }
        ensures upper { IfSome result.1 (UpTo (ids_left self.now)) }
    {
        (0, None)
    }
}

impl<T: Sync> FusedIterator for Tokens<'_, T> {}

impl<T: fmt::Debug> fmt::Debug for Tokens<'_, T> {
    /// The walk's position alone.
    fn fmt<W: fmt::Write>(&self, f: &mut fmt::Formatter<W>) -> fmt::Result {
        write_struct(f, "Tokens", "walk", &self.walk)
    }
}
