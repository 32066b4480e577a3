//! The walk over shared buckets, by ascending id, while other threads publish values.
ghost use Rattle.std.specs.Prelude.{◌≡◌, suc, ◌+◌, ◌-◌, ◌<◌, true, false, None, Some, IfSome, is_some, option_map};
ghost use Rattle.std.specs.Iterator.{UpTo};
ghost use Rattle.std.specs.Iterator.SizeHint.{IsWithinCount};
ghost use Rattle.thread_local_base.specs.Cursor.{cursor_id};
ghost use Rattle.thread_local_shared_buckets.specs.Positions.{owed, OwnIsTold};
ghost use Rattle.thread_local_shared_buckets.specs.Walks.{WalkView, fresh_with, IsNext, IsNextWithToken, CanGo, ids_left};

use crate::announcements::load_announced;
use crate::shared::Shared;
use crate::shown::Shown;
use crate::steps::{Own, Walk};
use std::fmt;
use std::iter::FusedIterator;
use std::marker::Model;
use thread_local_base::Thread;
use thread_local_buckets::{RawIter, take_first, write_struct};
use thread_local_ids::{Token, Told};

/// The values of shared buckets, by ascending id, each lent as `&`, while other threads may publish
/// more. A value that is published behind the walk isn't given, and one ahead of it may be. The walk
/// goes over the buckets that were announced when it was made.
///
/// No call waits or takes memory. A contract sees the sharing, the model's cursor, the walker's own
/// value as long as it is still to be given, and the tokens whose values the walk gives for sure.
/// No contract says which value an item is, but for these: `with_tokens` gives each value with a
/// token, which says it. Rust's crate promises no order, and its size hint counts the values.
#[derive(Drop)]
pub struct Iter<'a, T> {
    walk: Walk<'a, T>,
    shown: Option<Shown<'a, T>>,
}

impl<'a, T> Model for Iter<'a, T> {
    ghost use Rattle.std.specs.Prelude.{option_map, is_some};
    ghost use Rattle.thread_local_shared_buckets.specs.Walks.{WalkView, walk_view_coded};
    ghost use Rattle.thread_local_shared_buckets.specs.Positions.{resting, owed};
    ghost use Rattle.thread_local_shared_buckets.specs.AtHand.{IsWalk};

    ghost Value = { WalkView T };

    ghost coded = { walk_view_coded T.code };

    ghost view = { λ it.
        record {
          sharing = it.walk.buckets.now.sharing;
          cursor = resting it.walk.raw;
          own = option_map owed it.walk.own;
          shown = is_some it.shown;
          told = it.walk.told;
        } };

    ghost invariant = { λ it. IsWalk it.walk };
}

impl<'a, T> Iter<'a, T> {
    /// A walk at the first slot, over the buckets that are announced now.
    fn begun(
        buckets: &'a Shared<T>,
        own: Option<Own<'a, T>>,
        shown: Option<Shown<'a, T>>,
        told: Told<T>,
    ) -> Iter<'a, T>
        requires told { IfSome own (OwnIsTold buckets.now.sharing) }
        ensures { result ≡
            fresh_with
            buckets.now.sharing
            (option_map owed own.entry)
            (is_some shown.entry)
            told }
    {
        let pointers = &buckets.parts().pointers;
        let announced = load_announced(&pointers.announced, &pointers.pointers.pointers, &told);
        let mut left = match &own {
            Some(own) => announced | 1 << own.thread.bucket,
            None => announced,
        };
        // The walk begins in the first bucket, and has those behind it left.
        take_first(&mut left);
        Iter {
            walk: Walk {
                buckets,
                raw: RawIter {
                    yielded: 0,
                    bucket: 0,
                    bucket_size: 1,
                    index: 0,
                },
                own,
                told,
                left,
                row: None,
                seen: None,
                chunks: 0,
                rest: 0,
            },
            shown,
        }
    }

    /// `new`, without the fact that threads may share the values: whoever calls `next` shows it.
    pub fn unshown(buckets: &'a Shared<T>, told: Told<T>) -> Iter<'a, T>
        ensures { result ≡ fresh_with buckets.now.sharing None false told }
    {
        Iter::begun(buckets, None, None, told)
    }
}

impl<'a, T> Iter<'a, T> {
    /// The next value, with a token of it. It is that of the lowest flag at hand: the own value, if it
    /// lies there, and else what was seen with that bit.
    // Always, so that a walk over values alone makes no token.
    #[inline(always)]
    pub(crate) fn step(&mut self) -> Option<(Token<T>, &'a T)>
        requires can_go { CanGo T.row self.old }
        ensures { IsNextWithToken self.old result self.new }
    {
        // That threads may share the values, where their type doesn't say so.
        if let Some(shown) = &self.shown {
            shown.tell();
        }
        if self.walk.rest == 0 && !self.walk.reach() {
            // That the ids are in range.
            let told = &self.walk.told;
            let _ = &told.marker;
            return None;
        }
        let bit = take_first(&mut self.walk.rest);
        let index = (self.walk.chunks - 1) * 64 + bit;
        self.walk.raw.index = index + 1;
        self.walk.raw.yielded += 1;
        let here = match &self.walk.own {
            Some(own) => own.thread.bucket == self.walk.raw.bucket && own.thread.index == index,
            None => false,
        };
        let found = if here {
            match self.walk.own.take() {
                Some(own) => (own.token, own.value),
                None => unreachable!(),
            }
        } else {
            // `None` first: in the other order each value of a walk takes a tenth longer.
            match &self.walk.seen {
                None => unreachable!(),
                Some(seen) => seen.give(bit, self.walk.raw.bucket_size + index - 1),
            }
        };
        self.walk.told.agrees(&found.0);
        Some(found)
    }

    /// The last id that the walk has passed.
    #[inline]
    pub(crate) fn last_id(&self) -> usize
        requires { 0 < cursor_id self.now.cursor }
        ensures { cursor_id self.now.cursor ≡ result + 1 }
    {
        self.walk.raw.index + self.walk.raw.bucket_size - 2
    }
}

impl<'a, T: Sync> Iter<'a, T> {
    /// A walk over all values, from the first slot on, which gives the values of a list's tokens
    /// for sure. A token of another sharing promises nothing.
    pub fn new(buckets: &'a Shared<T>, told: Told<T>) -> Iter<'a, T>
        ensures { result ≡ fresh_with buckets.now.sharing None true told }
    {
        Iter::begun(buckets, None, Some(Shown::new()), told)
    }

    /// `new`, for who passes the value that a token is of. The walk gives this value, too, at the
    /// token's id, whatever the flag says.
    pub fn with_own(
        buckets: &'a Shared<T>,
        token: &Token<T>,
        value: &'a T,
        told: Told<T>,
    ) -> Iter<'a, T>
        requires sharing { token.now.sharing ≡ buckets.now.sharing }
        requires value { token.now.value ≡ value.now }
        ensures { result ≡
            fresh_with
            buckets.now.sharing
            (Some (record { id = token.now.id; value = value.now }))
            true
            told }
    {
        let own = Own {
            thread: Thread::new(token.id()),
            value,
            token: token.again(),
        };
        Iter::begun(buckets, Some(own), Some(Shown::new()), told)
    }
}

impl<'a, T: Sync> Iterator for Iter<'a, T> {
    type Item = &'a T;

    ghost can_next = { CanGo T.row };

    ghost next_gives = { IsNext };

    ghost remaining = { ids_left };

    /// The next value that a look finds. One load of a word of flags is a look at up to 64 slots at
    /// one instant. The call gives the next value that such a look has found, and looks on where
    /// all are given. A walk loads the word of announced buckets once, when it is made, and then
    /// each bucket's pointer and each word of flags at most once.
    fn next(&mut self) -> Option<&'a T> {
        match self.step() {
            Some((_, value)) => Some(value),
            None => None,
        }
    }

    /// No value is promised, and there is no upper bound, since others publish meanwhile.
    fn size_hint(&self) -> (usize, Option<usize>)
        ensures hint { result ≡ (0, None) }
        ensures lower { IsWithinCount result.0 (ids_left self.now) }
        ensures upper { IfSome result.1 (UpTo (ids_left self.now)) }
    {
        (0, None)
    }
}

impl<T: Sync> FusedIterator for Iter<'_, T> {}

impl<T: fmt::Debug> fmt::Debug for Iter<'_, T> {
    /// The walk's position alone. Rust's crate shows the table, too.
    fn fmt<W: fmt::Write>(&self, f: &mut fmt::Formatter<W>) -> fmt::Result {
        write_struct(f, "Iter", "raw", &self.walk.raw)
    }
}
