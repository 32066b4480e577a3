//! Tables of types that judge themselves.
ghost use Rattle.std.proofs.Common.{inl, pos, rules};
ghost use Rattle.std.specs.Borrow.{u32};
ghost use Rattle.thread_local.specs.Containing.{cell, text, vector};
ghost use Rattle.thread_local.specs.Parts.{structure};
ghost use Rattle.thread_local_contract_tests.specs.contracts.judged.Entry.{the_type};

use crate::same::assert_same;
use std::alloc::Global;
use std::cell::{Cell, OnceCell};
use std::cmp::Reverse;
use std::collections::{BinaryHeap, VecDeque};
use std::default::MadeWith;
use std::num::{NonZeroU32, Wrapping};
use std::sync::Wait;
use std::sync::atomic::AtomicU64;
use std::sync::atomic::Ordering::SeqCst;
use std::time::Duration;
use thread_local::ThreadLocal;
use thread_local_base::Judge;

/// Publishes a value in a table. Answers what the table has then.
fn passed<T: Send + Drop, R: Wait>(table: ThreadLocal<T>, rt: &R, value: T) -> Option<T> {
    if !is_set(&table, rt, value) {
        return None;
    }
    table.into_iter().next()
}

/// Whether a new `Local` sets a value.
fn is_set<T: Send + Drop, R: Wait>(table: &ThreadLocal<T>, rt: &R, value: T) -> bool {
    match table.local(rt) {
        Ok(mut local) => local.set(value).is_ok(),
        Err(_) => false,
    }
}

/// Publishes a value in a table of its own. Answers what the table has then.
fn kept<T: Judge + Send + Drop, R: Wait>(alloc: Global, rt: &R, value: T) -> Option<T> {
    T::judge();
    passed(ThreadLocal::new(alloc), rt, value)
}

/// The same, of a table that is made through a trait's bound.
fn kept_where_made<T: Judge + Send + Drop, R: Wait>(alloc: Global, rt: &R, value: T) -> Option<T> {
    passed(ThreadLocal::made_with(alloc), rt, value)
}

/// A type of the user's own, which threads may share.
#[derive(Debug, PartialEq, Drop)]
struct Point {
    across: u32,
    up: u32,
}

impl Judge for Point {
    ghost everywhere = { Prim.search rules };
}

/// One that threads may not share, for its cell.
#[derive(Drop)]
struct Entry {
    size: u32,
    offset: i32,
    reads: Cell<u32>,
    name: String,
    lines: Vec<u32>,
}

impl Judge for Entry {
    ghost everywhere = { structure the_type (λ v. tt) (Prim.search rules, (inl (pos 0, Prim.search rules), (cell u32, (text, (vector u32 (Prim.search rules), tt))))) };
}

fn plain_values<R: Wait>(
    alloc: Global,
    rt: &R,
) -> (
    Option<i64>,
    Option<char>,
    Option<NonZeroU32>,
    Option<Duration>,
) {
    (
        kept(alloc, rt, -5),
        kept(alloc, rt, 'a'),
        kept(alloc, rt, NonZeroU32::MAX),
        kept(alloc, rt, Duration::from_secs(3)),
    )
}

fn counter<R: Wait>(alloc: Global, rt: &R) -> Option<u64> {
    kept(alloc, rt, AtomicU64::new(7)).map(|it| it.load(SeqCst))
}

fn is_text_kept<R: Wait>(alloc: Global, rt: &R) -> bool {
    let Ok(text) = format!(in alloc; "seven") else {
        return false;
    };
    kept(alloc, rt, text).is_some_and(|it| it.as_str() == "seven")
}

fn shared_values<R: Wait>(alloc: Global, rt: &R) -> (Option<Point>, Option<u64>, bool) {
    (
        kept_where_made(alloc, rt, Point { across: 3, up: 4 }),
        counter(alloc, rt),
        is_text_kept(alloc, rt),
    )
}

#[test]
fn tables_keep_values_without_parts(rt: HostRuntime) {
    assert_same(
        &rt,
        plain_values(rt.alloc(), &rt),
        (
            Some(-5),
            Some('a'),
            Some(NonZeroU32::MAX),
            Some(Duration::from_secs(3)),
        ),
    );
    assert_same(
        &rt,
        shared_values(rt.alloc(), &rt),
        (Some(Point { across: 3, up: 4 }), Some(7), true),
    );
}

fn values_of_parts<R: Wait>(
    alloc: Global,
    rt: &R,
) -> (
    Option<(u8, u32)>,
    Option<(u8, char, Option<u32>)>,
    Option<[u64; 3]>,
    Option<Result<u8, bool>>,
) {
    (
        kept(alloc, rt, (1, 2)),
        kept(alloc, rt, (1, 'b', Some(2))),
        kept(alloc, rt, [1, 2, 3]),
        kept(alloc, rt, Err(true)),
    )
}

fn front<R: Wait>(alloc: Global, rt: &R) -> Option<u8> {
    let mut queue = VecDeque::new(alloc);
    queue.push_back(Cell::new(6u8)).ok()?;
    kept(alloc, rt, queue)?.front().map(|cell| cell.get())
}

fn greatest<R: Wait>(alloc: Global, rt: &R) -> Option<u8> {
    let mut heap = BinaryHeap::new(alloc);
    heap.push(3u8).ok()?;
    heap.push(8).ok()?;
    kept(alloc, rt, heap)?.peek().copied()
}

fn is_unset_cell_kept<R: Wait>(alloc: Global, rt: &R) -> bool {
    kept(alloc, rt, OnceCell::<u8>::new()).is_some_and(|it| it.get().is_none())
}

fn is_entry_kept<R: Wait>(alloc: Global, rt: &R) -> bool {
    let Ok(name) = format!(in alloc; "seven") else {
        return false;
    };
    let entry = Entry {
        size: 2,
        offset: -4,
        reads: Cell::new(3),
        name,
        lines: Vec::new(alloc),
    };
    kept(alloc, rt, entry).is_some_and(|it| {
        (it.size, it.offset, it.reads.get(), it.lines.len()) == (2, -4, 3, 0)
            && it.name.as_str() == "seven"
    })
}

fn values_around_others<R: Wait>(
    alloc: Global,
    rt: &R,
) -> (
    Option<Wrapping<u8>>,
    Option<Reverse<u8>>,
    [Option<u8>; 2],
    bool,
) {
    (
        kept_where_made(alloc, rt, Wrapping(9)),
        kept(alloc, rt, Reverse(4)),
        [front(alloc, rt), greatest(alloc, rt)],
        is_unset_cell_kept(alloc, rt),
    )
}

#[test]
fn tables_keep_values_of_parts(rt: HostRuntime) {
    assert!(rt; is_entry_kept(rt.alloc(), &rt));
    assert_same(
        &rt,
        values_of_parts(rt.alloc(), &rt),
        (
            Some((1, 2)),
            Some((1, 'b', Some(2))),
            Some([1, 2, 3]),
            Some(Err(true)),
        ),
    );
    assert_same(
        &rt,
        values_around_others(rt.alloc(), &rt),
        (
            Some(Wrapping(9)),
            Some(Reverse(4)),
            [Some(6), Some(8)],
            true,
        ),
    );
}
