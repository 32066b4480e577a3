//! Blocks of slots: how much memory they take, and which are refused.

use crate::same::assert_same;
use std::alloc::{AllocError, Global};
use std::mem::size_of;
use std::test::Fail;
use thread_local_buckets::{Block, Buckets, Chunk, flag_word_at, value_size};
use thread_local_test_helpers::memory::take_all_but;
use thread_local_test_helpers::refusing::Refusing;

/// Whether there is no block of so many slots.
fn is_refused(alloc: Global, len: usize) -> bool {
    match Block::<u64, Global>::new(&alloc, len) {
        Ok(block) => {
            block.release(&alloc, len);
            false
        }
        Err(_) => true,
    }
}

/// For how many bytes a block of so many numbers asks.
fn bytes_asked(len: usize) -> usize {
    let alloc = Refusing::new();
    if let Ok(block) = Block::<u64, Refusing>::new(&alloc, len) {
        block.release(&alloc, len);
    }
    alloc.bytes()
}

// A word of flags lies behind all values of its block, at a multiple of 8 bytes, whatever their
// size.
#[test]
fn the_words_of_flags_lie_behind_the_values(rt: HostRuntime) {
    let numbers = [
        flag_word_at::<()>(64, 0),
        flag_word_at::<u8>(1, 0),
        flag_word_at::<u8>(128, 1),
        flag_word_at::<u64>(128, 1),
    ];
    assert_same(
        &rt,
        (numbers, value_size::<()>(), value_size::<u64>()),
        ([0, 1, 17, 129], 0, 8),
    );
}

#[test]
fn a_chunk_is_64_values_and_a_word(rt: HostRuntime) {
    let sizes = (
        size_of::<Chunk<()>>(),
        size_of::<Chunk<u8>>(),
        size_of::<Chunk<u64>>(),
    );
    assert_same(&rt, sizes, (8, 72, 520));
}

// A block of fewer slots than 64 takes no room behind its last.
#[test]
fn a_slot_takes_a_bit_and_a_value(rt: HostRuntime) {
    let small = [
        bytes_asked(1),
        bytes_asked(2),
        bytes_asked(4),
        bytes_asked(8),
        bytes_asked(16),
        bytes_asked(32),
    ];
    let large = [bytes_asked(64), bytes_asked(128), bytes_asked(1 << 20)];
    assert_same(
        &rt,
        (small, large),
        ([16, 24, 40, 72, 136, 264], [520, 1040, 8_519_680]),
    );
}

// The values of the first take half of the limit of 2^58 bytes, and those of the second all of it.
#[test]
fn a_block_below_the_limit_is_asked_for(rt: HostRuntime) {
    assert_same(
        &rt,
        (bytes_asked(1 << 54), bytes_asked(1 << 55)),
        (146_366_987_889_541_120, 0),
    );
}

#[test]
fn a_block_that_is_too_large_is_refused(rt: HostRuntime) {
    let refused = (
        is_refused(rt.alloc(), 1 << 59),
        is_refused(rt.alloc(), 1 << 63),
    );
    assert_same(
        &rt,
        (refused, is_refused(rt.alloc(), 1 << 10)),
        ((true, true), false),
    );
}

/// Tables with so many reserved slots, as many as given.
fn tables(alloc: Global, count: u32, slots: usize) -> Result<Vec<Buckets<u64>>, AllocError> {
    let mut tables = Vec::with_capacity(alloc, count as usize)?;
    for _ in 0..count {
        let Ok(table) = Buckets::with_capacity(alloc, slots) else {
            return Err(AllocError);
        };
        tables.push(table)?;
    }
    Ok(tables)
}

// Where the 1048575 slots of a table took 16 bytes each, 32 tables would fit into half a GiB.
#[test]
fn sixty_large_tables_fit_into_half_a_gib(rt: HostRuntime) -> Result<(), Fail> {
    let alloc = rt.alloc();
    let taken = take_all_but(alloc, 1 << 29)?;
    let made = tables(alloc, 60, 1_048_575).is_ok();
    drop(taken);
    assert!(rt; made);
    Ok(())
}
