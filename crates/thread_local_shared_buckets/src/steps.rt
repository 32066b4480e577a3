//! Where a walk is, and how it looks on where no flag is at hand: it loads the next words of flags,
//! until one has a flag that is set.
ghost use Rattle.std.specs.Prelude.{◌≡◌, ◌<◌};
ghost use Rattle.thread_local_base.specs.Judged.{Shareable};
ghost use Rattle.thread_local_shared_buckets.specs.AtHand.{IsWalk, LooksIn, Reaches};

use crate::shared::Shared;
use crate::{Row, Seen};
use thread_local_base::{BUCKETS, Thread, bucket_size};
use thread_local_buckets::{RawIter, flag_word_at, take_first_bucket};
use thread_local_ids::{Token, Told};

/// The walker's own value, the place of its id, and a token of it.
#[derive(Drop)]
pub(crate) struct Own<'a, T> {
    pub(crate) thread: Thread,
    pub(crate) value: &'a T,
    pub(crate) token: Token<T>,
}

/// Where a walk is, and what it has at hand there.
#[derive(Drop)]
pub(crate) struct Walk<'a, T> {
    pub(crate) buckets: &'a Shared<T>,
    /// The place behind the last value that it gave.
    pub(crate) raw: RawIter,
    /// The own value, as long as it is still to be given.
    pub(crate) own: Option<Own<'a, T>>,
    /// The tokens whose values it gives for sure.
    pub(crate) told: Told<T>,
    /// The buckets behind the one that it is in that it has still to walk, a bit each.
    pub(crate) left: u64,
    /// The row of the bucket that it is in, once it has loaded the bucket's pointer and it wasn't
    /// null.
    pub(crate) row: Option<Row<'a, T>>,
    /// What its last look saw, where that found a flag.
    pub(crate) seen: Option<Seen<'a, T>>,
    /// How many chunks of its bucket it has seen.
    pub(crate) chunks: usize,
    /// Those flags of the last of these chunks whose values it hasn't given. The flag of the own
    /// slot is among them, if it lies there.
    pub(crate) rest: u64,
}

impl<'a, T> Walk<'a, T> {
    /// Looks on in the bucket that the walk is in, at one chunk after another, until one has a flag
    /// that is set or the own slot. Each look is one atomic load. It loads the bucket's pointer where
    /// it hasn't found the bucket yet.
    ///
    /// Where no look finds one, the flag of the own slot comes to hand, if it lies in the bucket. The
    /// bucket of the own value always stands, so a look finds its flag, but the code doesn't depend
    /// on it.
    #[inline]
    fn look_in(&mut self)
        requires shareable { Shareable T.row }
        requires walk { IsWalk self.old }
        requires passed { self.old.rest ≡ 0 }
        requires in_table { self.old.raw.bucket < 63 }
        ensures { LooksIn self.old self.new }
    {
        if let None = self.row {
            let walk = &*self;
            let pointers = &walk.buckets.parts().pointers.pointers.pointers;
            self.row = pointers[walk.raw.bucket].load(&walk.told);
        }
        let walk = &*self;
        // The chunk and the flag of the own slot, if it lies in the bucket.
        let mut own_chunk = 0;
        let mut own_flag = 0;
        if let Some(own) = &walk.own {
            if own.thread.bucket == walk.raw.bucket {
                own_chunk = own.thread.index / 64;
                own_flag = 1 << (own.thread.index % 64);
            }
        }
        if let Some(row) = &walk.row {
            let size = walk.raw.bucket_size;
            let told = &walk.told;
            for chunk in walk.chunks..(size + 63) / 64 {
                let seen = row.look(chunk, flag_word_at::<T>(size, chunk), told);
                let set = seen.flags();
                let flags = if chunk == own_chunk {
                    set | own_flag
                } else {
                    set
                };
                if flags != 0 {
                    self.seen = Some(seen);
                    self.chunks = chunk + 1;
                    self.rest = flags;
                    return;
                }
            }
        }
        self.seen = None;
        if own_flag != 0 {
            self.chunks = own_chunk + 1;
            self.rest = own_flag;
        }
    }

    /// Looks on until a flag is at hand, in this bucket or a later one that is left. Answers whether
    /// one is. Where none is left, the walk is past the last bucket then.
    #[inline(always)]
    pub(crate) fn reach(&mut self) -> bool
        requires shareable { Shareable T.row }
        requires walk { IsWalk self.old }
        requires passed { self.old.rest ≡ 0 }
        ensures { Reaches self.old result self.new }
    {
        if self.raw.bucket == BUCKETS {
            return false;
        }
        self.look_in();
        // A bucket that it comes to has no row at hand yet, so here the compiler drops that test.
        while self.rest == 0 {
            let (bucket, size) = if self.left == 0 {
                (BUCKETS, bucket_size(BUCKETS))
            } else {
                take_first_bucket(&mut self.left)
            };
            self.raw.bucket = bucket;
            self.raw.bucket_size = size;
            self.raw.index = 0;
            self.row = None;
            self.chunks = 0;
            if bucket == BUCKETS {
                return false;
            }
            self.look_in();
        }
        true
    }
}
