//! Words of buckets, a bit each, and how a loop takes one bucket after another out of them.
ghost use Rattle.std.specs.Prelude.{◌≡◌, ◌^◌, ◌<◌, false};
ghost use Rattle.thread_local_base.specs.Bits.{IsLowestSet, IsWordBut};

/// A bit for each bucket of a table. It is a struct, since threads share it as a struct of one field.
#[derive(Clone, Copy)]
pub struct BucketBits {
    pub bits: u64,
}

/// The first seven buckets, which are announced from the beginning.
pub(crate) const FIRST_SEVEN: u64 = 127;

/// Takes the lowest set bit out of a word, of buckets or of flags, and returns its number.
#[inline]
pub fn take_first(word: &mut u64) -> usize
    requires { 0 < word.old }
    ensures first { IsLowestSet word.old result }
    ensures rest { IsWordBut word.new word.old result false }
    ensures fewer { word.new < word.old }
{
    let first = word.trailing_zeros() as usize;
    *word &= *word - 1;
    first
}

/// Takes the first bucket out of a word of buckets, and returns its number and its size, which is
/// its bit as a number.
#[inline]
pub fn take_first_bucket(left: &mut u64) -> (usize, usize)
    requires { 0 < left.old }
    ensures first { IsLowestSet left.old result.0 }
    ensures rest { IsWordBut left.new left.old result.0 false }
    ensures size { result.1 ≡ 2 ^ result.0 }
    ensures fewer { left.new < left.old }
{
    let before = *left;
    let bucket = take_first(left);
    (bucket, (before - *left) as usize)
}
