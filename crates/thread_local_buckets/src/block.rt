//! A block of slots in the hands of one owner: each slot empty, or with a value.
ghost use Rattle.std.specs.Prelude.{◌≡◌, ℕ, ◌+◌, ◌<◌, List, length, Option, IfOk};
ghost use prog.Memory.{size};
ghost use base.Stored.{coded_list};
ghost use Rattle.std.specs.Coded.{coded_option};
ghost use Rattle.thread_local_buckets.specs.Slots.{block_owns, chunks, slots_ty, flag_word_at, Fits, empty_slots};

use crate::bytes::bytes_of_block;
use crate::chunk::{Chunk, flag_word_at, value_size};
use crate::emptying::EmptyingBlock;
use std::alloc::{AllocError, Allocator};
use std::marker::{Model, PhantomData};
use std::mem::align_of;

/// The values of a block take fewer bytes than this. A block, with its flags and padding, then
/// takes fewer than 2^63.
const VALUES_LIMIT: usize = 1 << 58;

/// A block of slots, with the right to free it. The flags of its last `left` chunks aren't made
/// yet.
pub struct Block<T, A: Allocator> {
    pub at: *mut Chunk<T>,
    pub marker: PhantomData<A>,
    pub ghost heap: { A },
    pub ghost slots: { List (Option T) } by { coded_list (coded_option T.code) },
    pub ghost left: { ℕ },
}

impl<T, A: Allocator> Model for Block<T, A> {
    ghost also_owns = { λ b. block_owns T.row (A.dealloc_token b.heap) b.at b.slots b.left };
}

impl<T, A: Allocator> Block<T, A> {
    /// A block of `len` empty slots that takes `bytes`, none of whose flags are made.
    fn allocate(alloc: &A, len: usize, bytes: usize) -> Result<Block<T, A>, AllocError>
        requires fits { Fits T.row len }
        requires size { bytes ≡ size (slots_ty T.row len) }
        ensures { IfOk result (λ b.
            (b.heap ≡ alloc.now) × (b.slots ≡ empty_slots len) × (b.left ≡ chunks len)) }
    {
        let _ = len;
        match alloc.allocate(bytes, align_of::<Chunk<T>>()) {
            Ok(room) => Ok(Block {
                at: room as *mut Chunk<T>,
                marker: PhantomData,
            }),
            Err(error) => Err(error),
        }
    }

    /// Makes the flags of the next chunk, none of them set. `flag_word` is the number of their word.
    #[inline]
    fn push(&mut self, chunk: usize, flag_word: usize)
        requires next { (chunk + self.old.left ≡ chunks (length self.old.slots)) × (0 < self.old.left) }
        requires flag_word { flag_word ≡ flag_word_at T.row (length self.old.slots) chunk }
        ensures { (self.new.heap ≡ self.old.heap)
            × (self.new.slots ≡ self.old.slots)
            × (self.new.left + 1 ≡ self.old.left) }
    {
        let _ = chunk;
        unsafe {
            (self.at as *mut u64).add(flag_word).write(0);
        }
    }

    /// A block of `len` empty slots. It asks for memory once. `Err` means out of memory, or that
    /// the values would take 2^58 bytes or more, or that the allocator doesn't serve the alignment.
    pub fn new(alloc: &A, len: usize) -> Result<Block<T, A>, AllocError>
        ensures { IfOk result (λ b. (b.heap ≡ alloc.now) × (b.slots ≡ empty_slots len) × (b.left ≡ 0)) }
    {
        if len.saturating_mul(value_size::<T>()) >= VALUES_LIMIT {
            return Err(AllocError);
        }
        let mut block = Block::allocate(alloc, len, bytes_of_block::<T>(len))?;
        let count = len.div_ceil(64);
        // Most blocks have one chunk, whose word needs no loop.
        if count == 1 {
            block.push(0, flag_word_at::<T>(len, 0));
            return Ok(block);
        }
        'chunks: for chunk in 0..count {
            block.push(chunk, flag_word_at::<T>(len, chunk));
        }
        Ok(block)
    }

    /// Frees a block whose slots are all empty.
    pub fn release(self, alloc: &A, len: usize)
        requires { (self.heap ≡ alloc.now) × (self.slots ≡ empty_slots len) × (self.left ≡ 0) }
    {
        EmptyingBlock::of(self, len).deallocate(alloc, len, bytes_of_block::<T>(len));
    }
}

unsafe impl<T: Send, A: Allocator + Send> Send for Block<T, A> {}
