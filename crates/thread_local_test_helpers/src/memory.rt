//! A bound on a test's memory: all the rest is taken first. So a leak is refused on any machine, or
//! every request is. Under `rt try` small requests are granted all the same, from memory that its
//! checks keep, so `tools/test` leaves the tests of files that use `take_all` to the gate.

use std::alloc::{AllocError, Global};

/// How many blocks are asked for at most: at 1 GiB each they fill the address space of a process.
const MOST: usize = 1 << 17;

/// Takes blocks of `bytes` bytes until one is refused. Nobody writes to them, so they cost
/// addresses alone.
fn take_until_refused(blocks: &mut Vec<Vec<u8>>, alloc: Global, bytes: usize) {
    for _ in 0..MOST {
        let Ok(block) = Vec::with_capacity(alloc, bytes) else {
            return;
        };
        if blocks.push(block).is_err() {
            return;
        }
    }
}

/// Takes all memory that blocks of 4 MiB and more can have, except `bytes` bytes. It is free again
/// when the blocks are dropped.
pub fn take_all_but(alloc: Global, bytes: usize) -> Result<Vec<Vec<u8>>, AllocError> {
    let mut blocks = Vec::with_capacity(alloc, MOST)?;
    let spare: Vec<u8> = Vec::with_capacity(alloc, bytes)?;
    let mut size = 1usize << 45;
    for _ in 0..24 {
        take_until_refused(&mut blocks, alloc, size);
        size /= 2;
    }
    drop(spare);
    Ok(blocks)
}

/// Takes all memory, so that each request is refused until the blocks are dropped.
///
/// Below 2 KiB each size is taken by itself: the C library keeps small blocks by their sizes, and
/// may grant one where it refuses a smaller one.
pub fn take_all(alloc: Global) -> Result<Vec<Vec<u8>>, AllocError> {
    let mut blocks = take_all_but(alloc, 0)?;
    let mut size = 1usize << 21;
    for _ in 0..10 {
        take_until_refused(&mut blocks, alloc, size);
        size /= 2;
    }
    let mut size = 2048usize;
    for _ in 0..128 {
        take_until_refused(&mut blocks, alloc, size);
        size = size.saturating_sub(16);
    }
    take_until_refused(&mut blocks, alloc, 8);
    Ok(blocks)
}
