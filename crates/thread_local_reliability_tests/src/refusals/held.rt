//! `Local`s that are held at once.

use std::alloc::Global;
use std::io::Print;
use std::sync::Wait;
use thread_local::ThreadLocal;
use thread_local::local::Local;

/// A table of numbers that asked for nothing yet.
pub(crate) fn numbers(alloc: Global) -> ThreadLocal<u32> {
    ThreadLocal::new(alloc)
}

/// Publishes a number. Answers what the slot holds then, or None where memory was refused.
fn published<R: Wait>(local: &mut Local<'_, u32, R>, number: u32) -> Option<u32> {
    local.get_or(|| number).ok().copied()
}

/// Room for so many `Local`s, asked for once more where it is refused.
fn room<'a, R: Wait + Print>(
    rt: &R,
    alloc: Global,
    count: usize,
) -> Option<Vec<Local<'a, u32, R>>> {
    match Vec::with_capacity(alloc, count) {
        Ok(room) => Some(room),
        Err(_) => {
            let _told = println!(rt; "refused: room");
            Vec::with_capacity(alloc, count).ok()
        }
    }
}

/// So many `Local`s, taken one after another. None: one was refused, which is told.
pub fn taken<'a, R: Wait + Print>(
    table: &'a ThreadLocal<u32>,
    rt: &'a R,
    alloc: Global,
    count: usize,
) -> Option<Vec<Local<'a, u32, R>>> {
    let mut locals = room(rt, alloc, count)?;
    for _ in 0..count {
        let Ok(local) = table.local(rt) else {
            let _told = println!(rt; "refused: local");
            return None;
        };
        locals.push(local).ok()?;
    }
    Some(locals)
}

/// Whether the `Local` at an index publishes a number, and isn't refused memory.
pub fn publishes<R: Wait>(locals: &mut [Local<'_, u32, R>], index: usize, number: u32) -> bool {
    match locals.get_mut(index) {
        Some(local) => published(local, number) == Some(number),
        None => false,
    }
}

/// Whether one of them is reserved.
pub fn is_one_reserved<R: Wait>(locals: &[Local<'_, u32, R>]) -> bool {
    locals.iter().any(|local| local.is_reserved())
}

/// The first four of them publish in the order in which they were taken. Answers which of them
/// weren't refused memory.
pub fn four_publish<R: Wait>(locals: &mut [Local<'_, u32, R>]) -> [bool; 4] {
    [
        publishes(locals, 0, 1),
        publishes(locals, 1, 2),
        publishes(locals, 2, 3),
        publishes(locals, 3, 4),
    ]
}

/// So do the latter four of eight.
pub fn latter_four_publish<R: Wait>(locals: &mut [Local<'_, u32, R>]) -> [bool; 4] {
    [
        publishes(locals, 4, 5),
        publishes(locals, 5, 6),
        publishes(locals, 6, 7),
        publishes(locals, 7, 8),
    ]
}
