//! Callers of walks at concrete types and generic ones, and tests that run them.
ghost use Rattle.std.specs.Prelude.{◌≡◌, true, Some};

use crate::callers::{is_sent, sync};
use crate::same::assert_same;
use std::alloc::Global;
use std::sync::Wait;
use thread_local::ThreadLocal;
use thread_local::local::Local;
use thread_local_base::judge_sync;
use thread_local_buckets::{IntoIter, IterMut};
use thread_local_shared_buckets::{Entries, Iter, Tokens};

/// The walk of a `Local` that holds a value gives it.
fn finds_own<R: Wait>(local: &Local<'_, u32, R>, number: u32) -> bool
    requires { local.now.value ≡ Some number }
    ensures { result ≡ true }
{
    for value in local.iter() {
        if *value == number {
            return true;
        }
    }
    false
}

/// The greatest id that has a number.
fn last_id(table: &ThreadLocal<u32>) -> Option<usize> {
    let mut last = None;
    for (id, _) in table.entries() {
        last = Some(id);
    }
    last
}

fn numbers(table: &ThreadLocal<u32>) -> u32 {
    let mut sum = 0u32;
    for number in table {
        sum = sum.wrapping_add(*number);
    }
    sum
}

/// At some types the check doesn't find that threads may share their values, and `judge_sync` shows
/// it.
fn texts(table: &ThreadLocal<String>) -> usize {
    judge_sync::<String>();
    let mut bytes = 0usize;
    for text in table {
        bytes = bytes.wrapping_add(text.len());
    }
    bytes
}

/// The walk that `iter` answers needs nothing shown.
fn texts_by_iter(table: &ThreadLocal<String>) -> usize {
    let mut bytes = 0usize;
    for text in table.iter() {
        bytes = bytes.wrapping_add(text.len());
    }
    bytes
}

fn counted<T: Send + Sync>(table: &ThreadLocal<T>) -> usize {
    let mut count = 0usize;
    for _ in table {
        count = count.wrapping_add(1);
    }
    count
}

fn counted_by_entries<T: Send + Sync>(table: &ThreadLocal<T>) -> usize {
    let mut count = 0usize;
    for (_, _) in table.entries() {
        count = count.wrapping_add(1);
    }
    count
}

fn counted_by_iter<T: Send + Sync>(table: &ThreadLocal<T>) -> usize {
    table.iter().count()
}

/// A value that holds a reference.
#[derive(Drop)]
struct Reading<'a> {
    number: &'a u64,
}

trait Numbered {
    fn number(&self) -> u64;
}

impl Numbered for Reading<'_> {
    fn number(&self) -> u64 {
        *self.number
    }
}

/// A loop over values that hold references stands in a function that is generic over them.
fn summed<T: Numbered + Sync>(table: &ThreadLocal<T>) -> u64 {
    let mut sum = 0u64;
    for value in table.iter() {
        sum = sum.wrapping_add(value.number());
    }
    sum
}

fn readings(table: &ThreadLocal<Reading<'_>>) -> (u64, usize) {
    (summed(table), counted(table))
}

/// Or the walk is folded.
fn readings_folded(table: &ThreadLocal<Reading<'_>>) -> u64 {
    table
        .iter()
        .fold(0u64, |sum, reading| sum.wrapping_add(*reading.number))
}

fn readings_of_a_local<R: Wait>(local: &Local<'_, Reading<'_>, R>) -> u64 {
    local
        .iter()
        .fold(0u64, |sum, reading| sum.wrapping_add(*reading.number))
}

/// How many values a table has, by three walks.
fn counts<T: Send + Sync>(table: &ThreadLocal<T>) -> [usize; 3] {
    [
        counted(table),
        counted_by_entries(table),
        counted_by_iter(table),
    ]
}

/// Two `Local`s publish 3 and 4. Answers whether the walk of the second gives its own.
fn publish_two<R: Wait>(
    first: &mut Local<'_, u32, R>,
    second: &mut Local<'_, u32, R>,
) -> Option<bool> {
    first.get_or(|| 3).ok()?;
    let own = *second.get_or(|| 4).ok()?;
    Some(finds_own(second, own))
}

#[test]
fn walks_give_two_numbers(rt: HostRuntime) {
    let table = ThreadLocal::new(rt.alloc());
    let own = publish_two(
        &mut table.local(&rt).expect(&rt, "an id"),
        &mut table.local(&rt).expect(&rt, "an id"),
    );
    assert_same(
        &rt,
        (own, last_id(&table), numbers(&table), counts(&table)),
        (Some(true), Some(1), 7, [2; 3]),
    );
}

/// Whether a `Local` publishes a text of four bytes.
fn publish_four<R: Wait>(local: &mut Local<'_, String, R>, alloc: Global) -> bool {
    match String::from_str(alloc, "four") {
        Ok(text) => local.set(text).is_ok(),
        Err(_) => false,
    }
}

#[test]
fn walks_give_a_text(rt: HostRuntime) {
    judge_sync::<String>();
    let table = ThreadLocal::new(rt.alloc());
    let is_set = publish_four(&mut table.local(&rt).expect(&rt, "an id"), rt.alloc());
    assert_same(
        &rt,
        (is_set, texts(&table), texts_by_iter(&table)),
        (true, 4, 4),
    );
}

/// A `Local` publishes a reference to a number. Answers the sum that its walk gives.
fn publish_reading<'a, R: Wait>(
    local: &mut Local<'_, Reading<'a>, R>,
    number: &'a u64,
) -> Option<u64> {
    local.get_or(|| Reading { number }).ok()?;
    Some(readings_of_a_local(local))
}

#[test]
fn walks_give_a_value_that_holds_a_reference(rt: HostRuntime) {
    let number = 5;
    let table = sync(rt.alloc());
    let own = publish_reading(&mut table.local(&rt).expect(&rt, "an id"), &number);
    assert_same(
        &rt,
        (own, readings(&table), readings_folded(&table)),
        (Some(5), (5, 1), 5),
    );
}

fn shared_walk<T: Send + Sync>(walk: &Iter<'_, T>) {
    is_sent(walk);
}

fn shared_entries<T: Send + Sync>(walk: &Entries<'_, T>) {
    is_sent(walk);
}

fn shared_tokens<T: Send + Sync>(walk: &Tokens<'_, T>) {
    is_sent(walk);
}

fn lending_walk<T: Send>(walk: &IterMut<'_, T>) {
    is_sent(walk);
}

fn taking_walk<T: Send>(walk: &IntoIter<T>) {
    is_sent(walk);
}
