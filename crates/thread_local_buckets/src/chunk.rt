//! The layout of a block: the values side by side, and behind them a word of flags for each chunk
//! of 64 slots.
ghost use Rattle.std.specs.Prelude.{◌≡◌};
ghost use prog.Memory.{capped};
ghost use Rattle.thread_local_buckets.specs.Slots.{stride, flag_word_at};

use std::mem::size_of;

/// What a block is aligned as, and the type that a pointer to a block points to. No value of it is
/// made, and a block is no array of it: all values come first, then all words of flags.
pub struct Chunk<T> {
    pub values: [T; 64],
    pub flags: u64,
}

/// How many bytes a value takes. It is proved by hand: the check takes `size_of` of a type parameter
/// in a product alone, and only where that is shown to fit.
#[inline]
pub fn value_size<T>() -> usize
    ensures { result ≡ capped (stride T.row) }
{
    size_of::<T>()
}

/// The number of the word that has a chunk's flags, counted from the start of a block of `len`
/// slots. It means nothing where such a block would be too large.
#[inline]
pub fn flag_word_at<T>(len: usize, chunk: usize) -> usize
    ensures { result ≡ flag_word_at T.row len chunk }
{
    let bytes = len.wrapping_mul(value_size::<T>());
    (bytes.wrapping_add(7) / 8).wrapping_add(chunk)
}
