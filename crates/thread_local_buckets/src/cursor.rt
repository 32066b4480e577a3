//! How an owner's walk finds its next value: it reads the flags of 64 slots at a time, and skips
//! flags that are all 0.
ghost use Rattle.std.specs.Prelude.{◌≡◌, ◌≢◌, ◌+◌, ◌-◌, ◌*◌, ◌/◌, ◌^◌, ◌<◌, ◌≤◌, true, false, [], ◌∷◌, ℕ, length, Some, None, is_some, IsSome};
ghost use Rattle.thread_local_base.specs.Bits.{is_set};
ghost use Rattle.thread_local_base.specs.Place.{id_at};
ghost use Rattle.thread_local_base.specs.Buckets.{Contents, row, stands, values};
ghost use Rattle.thread_local_base.specs.Rows.{value_in, with_slot};
ghost use Rattle.thread_local_base.specs.Walk.{walk, paired};
ghost use Rattle.thread_local_base.specs.Owner.{NoneBelow};
ghost use Rattle.thread_local_buckets.specs.Announced.{AreAhead};
ghost use Rattle.thread_local_buckets.specs.Slots.{flag_word_at};
ghost use Rattle.thread_local_buckets.specs.Cursor.{behind_next, read_to, slot_at, values_left, AreFlagsAt};
ghost use Rattle.thread_local_buckets.specs.Cursor.{HasRead, IsAt, IsOwnerWalk, MayRead};

use crate::{flag_word_at, take_first, take_first_bucket};
use std::fmt;

/// What a walk reads: which buckets stand, and the flags of their slots, 64 to a word. A flag is
/// set where its slot has a value. No call takes memory.
pub trait FlagSource {
    /// The type of the values.
    type Value;

    /// The contents that the flags describe.
    ghost contents: { Self → Contents Self.Value };

    /// The first id whose flag may be read.
    ghost given: { Self → ℕ };

    /// Whether the bucket stands.
    fn stands(&mut self, bucket: usize) -> bool
        requires { bucket < 63 }
        ensures same { self.new ≡ self.old }
        ensures value { result ≡ stands (contents self.old) bucket }
        ensures whole { result ≡ true → length (row (contents self.old) bucket) ≡ 2 ^ bucket }
        ensures absent { result ≡ false → row (contents self.old) bucket ≡ [] };

    /// The flags of a chunk's slots, which begin with slot `chunk * 64` of the bucket. The bits
    /// past the last slot are 0. The caller passes the number of their word.
    fn flags(&mut self, bucket: usize, chunk: usize, flag_word: usize) -> u64
        requires in_table { bucket < 63 }
        requires in_bucket { chunk * 64 < length (row (contents self.old) bucket) }
        requires ahead { given self.old ≤ id_at bucket (chunk * 64) }
        requires flag_word { flag_word ≡ flag_word_at Self.Value.row (2 ^ bucket) chunk }
        ensures same { self.new ≡ self.old }
        ensures value { (bit : ℕ)
            → bit < 64
            → is_set result bit ≡ is_some (value_in (contents self.old) bucket (chunk * 64 + bit)) };
}

/// How many values a walk has given, and a place: behind the last value that a shared walk gave, or
/// behind the flags that an owner's has read. The number is shown by `Debug`, as in the Rust crate;
/// no walk goes by it.
#[derive(Clone, Copy, Debug)]
pub struct RawIter {
    pub yielded: usize,
    pub bucket: usize,
    pub bucket_size: usize,
    pub index: usize,
}

/// Writes a struct of one field, as a derived `Debug` does: what a walk's `Debug` writes. It stands
/// here once, since a builder's steps cost a check more than all else of such an impl.
pub fn write_struct<W: fmt::Write, D: fmt::Debug>(
    f: &mut fmt::Formatter<W>,
    name: &str,
    field: &str,
    value: &D,
) -> fmt::Result {
    f.debug_struct(name).field(field, value).finish()
}

/// Advances past the bucket's next flags that aren't 0 and returns them, or returns 0 where there
/// are none. `chunk` becomes theirs. The bucket must have flags that aren't read, if it stands.
#[inline]
fn flags_in_bucket<P: FlagSource>(source: &mut P, raw: &mut RawIter, chunk: &mut usize) -> u64
    requires at { IsAt (P.contents source.old) raw.old 0 }
    requires inside { raw.old.index < raw.old.bucket_size }
    requires ahead { P.given source.old ≤ read_to raw.old }
    ensures same { source.new ≡ source.old }
    ensures at { IsAt (P.contents source.old) raw.new result }
    ensures ahead { P.given source.old ≤ read_to raw.new }
    ensures yielded { raw.new.yielded ≡ raw.old.yielded }
    ensures bucket { raw.new.bucket ≡ raw.old.bucket }
    ensures behind { result ≡ 0 → NoneBelow (values (P.contents source.old)) (id_at (raw.old.bucket + 1) 0) }
    ensures chunk { result ≢ 0 → chunk.new ≡ (raw.new.index - 64) / 64 }
{
    if !source.stands(raw.bucket) {
        return 0;
    }
    *chunk = raw.index / 64;
    'chunks: loop {
        let flag_word = flag_word_at::<P::Value>(raw.bucket_size, *chunk);
        let flags = source.flags(raw.bucket, *chunk, flag_word);
        raw.index += 64;
        if flags != 0 || raw.index >= raw.bucket_size {
            return flags;
        }
        *chunk += 1;
    }
}

/// Where an owner's walk is, and how many values it has left. It reads the flags of 64 slots at a
/// time, and goes by these until all their values are passed. No call takes memory.
#[derive(Drop)]
pub struct OwnerCursor {
    /// The place behind the slots whose flags it read last, and how many values it has given once
    /// it is there.
    pub raw: RawIter,
    /// The flags that it read last. 0 where it has read none.
    pub read: u64,
    /// The chunk of these flags. It is kept, so that the compiler computes it once for all their
    /// values.
    pub chunk: usize,
    /// Those of them whose values it hasn't passed.
    pub rest: u64,
    /// How many values lie behind these slots.
    pub later: usize,
    /// The announced buckets behind the one that it is in.
    pub left: u64,
}

impl OwnerCursor {
    /// Whether no value is still to come.
    #[inline]
    pub fn is_over(&self) -> bool
        ensures over { result ≡ true → values_left self.now ≡ 0 }
        ensures goes_on { result ≡ false → 0 < values_left self.now }
    {
        self.rest == 0 && self.later == 0
    }

    /// How many values are still to come.
    #[inline]
    pub fn len(&self) -> usize
        requires { values_left self.now < 2 ^ 64 }
        ensures { result ≡ values_left self.now }
    {
        self.rest.count_ones() as usize + self.later
    }

    /// How many values the walk has given, and the place behind the last of them.
    pub fn raw(&self) -> RawIter {
        let passed = self.read & !self.rest;
        RawIter {
            yielded: self
                .raw
                .yielded
                .saturating_sub(self.rest.count_ones() as usize),
            bucket: self.raw.bucket,
            bucket_size: self.raw.bucket_size,
            index: self
                .raw
                .index
                .saturating_sub(passed.leading_zeros() as usize),
        }
    }

    /// Reads the next flags that aren't 0, in its bucket or an announced one behind it, where the
    /// values of those read last are all passed. A value must be left.
    #[inline]
    pub fn read_on<P: FlagSource>(&mut self, source: &mut P)
        requires may_read { MayRead (P.contents source.old) (P.given source.old) self.old }
        requires passed { self.old.rest ≡ 0 }
        ensures same { source.new ≡ source.old }
        ensures read { HasRead (P.contents source.old) (P.given source.old) self.old self.new }
    {
        let mut raw = self.raw;
        let mut left = self.left;
        let mut flags = 0;
        let mut chunk = 0;
        if raw.index < raw.bucket_size {
            flags = flags_in_bucket(source, &mut raw, &mut chunk);
        }
        'buckets: while flags == 0 {
            let (bucket, bucket_size) = take_first_bucket(&mut left);
            raw = RawIter {
                yielded: raw.yielded,
                bucket,
                bucket_size,
                index: 0,
            };
            flags = flags_in_bucket(source, &mut raw, &mut chunk);
        }
        let count = flags.count_ones() as usize;
        raw.yielded += count;
        self.raw = raw;
        self.left = left;
        self.read = flags;
        self.chunk = chunk;
        self.rest = flags;
        self.later -= count;
    }

    /// Passes the next value, whose flag must be at hand, and returns the number of that flag's
    /// bit. The caller takes the value out of the source.
    #[inline]
    pub fn pass<P: FlagSource>(&mut self, source: &mut P) -> usize
        requires walk { IsOwnerWalk (P.contents source.old) self.old }
        requires given { NoneBelow (values (P.contents source.old)) (P.given source.old) }
        requires some { 0 < self.old.rest }
        ensures same { source.new ≡ source.old }
        ensures raw { self.new.raw ≡ self.old.raw }
        ensures read { 64 ≤ self.new.raw.index }
        ensures in_bucket { slot_at self.new.raw result
            < length (row (P.contents source.old) self.new.raw.bucket) }
        ensures published { IsSome
            (value_in (P.contents source.old) self.new.raw.bucket (slot_at self.new.raw result)) }
        ensures ahead { P.given source.old ≤ id_at self.new.raw.bucket (slot_at self.new.raw result) }
        ensures before { id_at self.new.raw.bucket (slot_at self.new.raw result) < read_to self.new.raw }
        ensures left { values_left self.new + 1 ≡ values_left self.old }

        // What is left is a walk of the contents without the value, and the value comes first.
        ensures flags { AreFlagsAt
            (with_slot (P.contents source.old) self.new.raw.bucket (slot_at self.new.raw result) None)
            self.new.raw.bucket (slot_at self.new.raw result) self.new.rest }
        ensures walk { IsOwnerWalk
            (with_slot (P.contents source.old) self.new.raw.bucket (slot_at self.new.raw result) None)
            self.new }
        ensures behind { NoneBelow
            (values (with_slot (P.contents source.old) self.new.raw.bucket (slot_at self.new.raw result) None))
            (id_at self.new.raw.bucket (slot_at self.new.raw result) + 1) }
        ensures first { (v : P.Value)
            → value_in (P.contents source.old) self.new.raw.bucket (slot_at self.new.raw result) ≡ Some v
            → walk (paired (values (P.contents source.old)))
            ≡ (id_at self.new.raw.bucket (slot_at self.new.raw result), v)
            ∷ walk (paired (values
            (with_slot (P.contents source.old) self.new.raw.bucket (slot_at self.new.raw result) None))) }
    {
        let _ = source;
        // A copy, since a proof knows that the word fits 64 bits once it is read.
        let mut rest = self.rest;
        let bit = take_first(&mut rest);
        self.rest = rest;
        bit
    }
}
