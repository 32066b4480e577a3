//! Buffers of a pool: what they hold when they are handed out, and what room they bring along.
ghost use Rattle.std.specs.Prelude.{◌≡◌, [], IfOk};

use crate::same::assert_same;
use std::alloc::{AllocError, Global};
use std::sync::Wait;
use thread_local_pool::{Buffer, Pool};

/// What is written to an empty buffer is what stands in it.
fn one_byte<R: Wait>(buffer: &mut Buffer<'_, R>, byte: u8) -> Result<usize, AllocError>
    requires { buffer.old ≡ [] }
    ensures { IfOk result (λ count. count ≡ 1) }
{
    buffer.bytes_mut().push(byte)?;
    Ok(buffer.bytes().len())
}

/// Puts bytes into a buffer, as many as are asked for. Answers whether it was empty.
pub fn fill<R: Wait>(mut buffer: Buffer<'_, R>, count: usize) -> Result<bool, AllocError> {
    let was_empty = buffer.bytes().is_empty();
    for _ in 0..count {
        buffer.bytes_mut().push(7)?;
    }
    Ok(was_empty && buffer.bytes().len() == count)
}

/// Whether a buffer is empty and has room for 1000 bytes.
fn has_room<R: Wait>(buffer: &Buffer<'_, R>) -> bool {
    buffer.bytes().is_empty() && buffer.bytes().capacity() >= 1000
}

/// Whether a new buffer is empty, and has room for 1000 bytes.
fn another_has_room<R: Wait>(pool: &Pool<Vec<u8>>, rt: &R) -> Option<bool> {
    let Ok(buffer) = pool.buffer(rt) else {
        return None;
    };
    Some(has_room(&buffer))
}

/// How many bytes a new buffer holds, and for how many it has room.
pub fn measure_another<R: Wait>(pool: &Pool<Vec<u8>>, rt: &R) -> Option<(usize, usize)> {
    let Ok(buffer) = pool.buffer(rt) else {
        return None;
    };
    let bytes = buffer.bytes();
    Some((bytes.len(), bytes.capacity()))
}

/// Puts so many bytes into a new buffer. Answers whether it was empty.
fn fill_another<R: Wait>(pool: &Pool<Vec<u8>>, rt: &R, count: usize) -> Option<bool> {
    fill(pool.buffer(rt).ok()?, count).ok()
}

#[test]
fn a_buffer_keeps_its_room(rt: HostRuntime) {
    let pool = Pool::new(rt.alloc());
    let filled = fill_another(&pool, &rt, 1000);
    assert_same(
        &rt,
        (filled, another_has_room(&pool, &rt)),
        (Some(true), Some(true)),
    );
}

/// Four buffers that are held at once.
fn take_four<'a, R: Wait>(
    pool: &'a Pool<Vec<u8>>,
    rt: &'a R,
    alloc: Global,
) -> Option<Vec<Buffer<'a, R>>> {
    let mut buffers = Vec::new(alloc);
    for _ in 0..4 {
        let Ok(buffer) = pool.buffer(rt) else {
            return None;
        };
        buffers.push(buffer).ok()?;
    }
    Some(buffers)
}

/// Puts 1000 bytes into each of four buffers that are held at once, and lets them go. Answers how
/// many were empty.
fn fill_four<R: Wait>(pool: &Pool<Vec<u8>>, rt: &R, alloc: Global) -> Option<usize> {
    let buffers = take_four(pool, rt, alloc)?;
    let mut empty = 0usize;
    for buffer in buffers {
        if fill(buffer, 1000) == Ok(true) {
            empty = empty.wrapping_add(1);
        }
    }
    Some(empty)
}

/// Whether each of four buffers that are held at once is empty and has room for 1000 bytes, and
/// what a fifth has.
fn measure_four_and_a_fifth<R: Wait>(
    pool: &Pool<Vec<u8>>,
    rt: &R,
    alloc: Global,
) -> Option<(bool, Option<(usize, usize)>)> {
    let buffers = take_four(pool, rt, alloc)?;
    let have_room = buffers.iter().all(|buffer| has_room(buffer));
    Some((have_room, measure_another(pool, rt)))
}

#[test]
fn four_buffers_keep_their_room_and_a_fifth_has_none(rt: HostRuntime) {
    let pool = Pool::new(rt.alloc());
    let empty = fill_four(&pool, &rt, rt.alloc());
    let measured = measure_four_and_a_fifth(&pool, &rt, rt.alloc());
    assert_same(
        &rt,
        (empty, measured),
        (Some(4), Some((true, Some((0, 0))))),
    );
}

/// Of a vector that the pool has, how many bytes it holds and whether it has room for so many. None
/// where the pool had none.
fn measure_what_was_left<R: Wait>(
    pool: &Pool,
    rt: &R,
    alloc: Global,
    room: usize,
) -> Option<(usize, bool)> {
    let Ok(bytes) = pool.get(rt, || Vec::new(alloc)) else {
        return None;
    };
    if bytes.is_new() {
        return None;
    }
    Some((bytes.len(), bytes.capacity() >= room))
}

#[test]
fn a_dropped_buffer_leaves_no_byte(rt: HostRuntime) {
    let alloc = rt.alloc();
    for count in [0usize, 1, 64, 65, 100_000] {
        let pool = Pool::new(alloc);
        let was_empty = fill_another(&pool, &rt, count);
        let left = measure_what_was_left(&pool, &rt, alloc, count);
        assert_same(&rt, (was_empty, left), (Some(true), Some((0, true))));
    }
}

/// A struct that holds a pool of bytes.
#[derive(Drop)]
struct Bytes {
    pool: Pool,
}

#[test]
fn a_pool_without_a_type_is_one_of_bytes(rt: HostRuntime) {
    let bytes = Bytes {
        pool: Pool::new(rt.alloc()),
    };
    assert_same(&rt, measure_another(&bytes.pool, &rt), Some((0, 0)));
}

/// What is told when 5 is written to a new buffer, and whether it stands there.
fn write_five<R: Wait>(pool: &Pool<Vec<u8>>, rt: &R) -> Option<(usize, bool)> {
    let Ok(mut buffer) = pool.buffer(rt) else {
        return None;
    };
    let count = one_byte(&mut buffer, 5).ok()?;
    Some((count, buffer.bytes().as_slice() == [5].as_slice()))
}

#[test]
fn what_is_written_stands(rt: HostRuntime) {
    let pool = Pool::new(rt.alloc());
    assert_same(&rt, write_five(&pool, &rt), Some((1, true)));
}
