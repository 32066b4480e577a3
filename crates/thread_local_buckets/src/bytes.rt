//! How many bytes a block of slots takes: its values, the words of its flags, and what rounds it up
//! to its alignment.
ghost use Rattle.std.specs.Prelude.{◌≡◌};
ghost use prog.Memory.{align, size};
ghost use Rattle.thread_local_buckets.specs.Slots.{slots_ty, Fits};

use crate::chunk::{Chunk, flag_word_at};
use std::mem::align_of;

/// The alignment of a block, which doesn't depend on how many slots it has.
fn block_align<T>() -> usize
    ensures { result ≡ align (slots_ty T.row 64) }
{
    align_of::<Chunk<T>>()
}

/// How many bytes a block of `len` slots takes, where it may have as many: up to the end of its
/// words, rounded up to its alignment.
pub(crate) fn bytes_of_block<T>(len: usize) -> usize
    ensures { Fits T.row len → result ≡ size (slots_ty T.row len) }
{
    let align = block_align::<T>();
    let end = flag_word_at::<T>(len, len.div_ceil(64))
        .wrapping_mul(8)
        .wrapping_add(align - 1);
    end - end % align
}
