//! Walks that were made with tokens: what a caller has of them holds the tokens' values.
ghost use Rattle.std.specs.Prelude.{◌≡◌, ◌≢◌, ◌+◌, ◌<◌, ◌≤◌, All, Contains, IfOk, IfSome, IsSome, sum_by};
ghost use Rattle.std.specs.List.{AllPairs};
ghost use Rattle.thread_local.specs.TokenLists.{AllOf};

use crate::same::assert_same;
use std::alloc::{AllocError, Global};
use std::sync::Wait;
use std::thread;
use std::thread::Threads;
use thread_local::ThreadLocal;
use thread_local::iter::{iter_gives_told, tokens_give_told};
use thread_local::local::Local;
use thread_local::table::{Token, Told};

/// A table's walk with tokens gives the value of each token of a list, at its id, once.
fn given(
    table: &ThreadLocal<u32>,
    told: Told<u32>,
    alloc: Global,
) -> Result<Vec<(usize, u32)>, AllocError>
    ensures ascending { IfOk result (λ given. AllPairs (λ one other. one.0 < other.0) given.items) }
    ensures all { IfOk result (λ given.
        AllOf
        table.now.sharing
        (λ p. Contains given.items (p.id, p.value))
        told) }
{
    tokens_give_told::<u32>();
    let mut given = Vec::new(alloc);
    for (token, value) in table.iter_told(told).with_tokens() {
        given.push((token.id(), *value))?;
    }
    Ok(given)
}

/// So it gives those of two tokens.
fn given_two(
    table: &ThreadLocal<u32>,
    one: &Token<u32>,
    other: &Token<u32>,
    alloc: Global,
) -> Result<Vec<(usize, u32)>, AllocError>
    requires sharing { (one.now.sharing ≡ table.now.sharing) × (other.now.sharing ≡ table.now.sharing) }
    requires named { IsSome table.now.sharing }
    ensures one { IfOk result (λ given. Contains given.items (one.now.id, one.now.value)) }
    ensures other { IfOk result (λ given. Contains given.items (other.now.id, other.now.value)) }
{
    given(table, Told::new().and(one).and(other), alloc)
}

fn added(total: Option<u64>, value: u64) -> Option<u64>
    ensures { IfSome result (λ sum. IfSome total (λ had. sum ≡ had + value) × IsSome total) }
{
    total?.checked_add(value)
}

/// The sum of what a table's walk gives, if it fits: at least that of the values of tokens of
/// different ids.
fn summed(table: &ThreadLocal<u64>, told: Told<u64>) -> Option<u64>
    requires named { IsSome table.now.sharing }
    requires sharing { All (λ p. p.sharing ≡ table.now.sharing) told }
    requires apart { AllPairs (λ one other. one.id ≢ other.id) told }
    ensures { IfSome result (λ total. sum_by (λ p. p.value) told ≤ total) }
{
    iter_gives_told::<u64>();
    let mut total = Some(0);
    for value in table.iter_told(told) {
        total = added(total, *value);
    }
    total
}

/// The list of two tokens of different ids.
fn both(one: &Token<u64>, other: &Token<u64>) -> Told<u64>
    requires apart { one.now.id ≢ other.now.id }
    requires sharing { one.now.sharing ≡ other.now.sharing }
    ensures sharing { All (λ p. p.sharing ≡ one.now.sharing) result }
    ensures apart { AllPairs (λ one other. one.id ≢ other.id) result }
    ensures sum { sum_by (λ p. p.value) result ≡ one.now.value + other.now.value }
{
    Told::new().and(one).and(other)
}

/// Publishes a value with a new `Local`.
fn published<'a, R: Wait>(
    table: &'a ThreadLocal<u64>,
    rt: &'a R,
    value: u64,
) -> Option<(Local<'a, u64, R>, Token<u64>)>
    ensures table { IfSome result (λ kept. kept.0.table ≡ table.now.table) }
    ensures told { IfSome result (λ kept.
        (kept.1.sharing ≡ table.now.sharing)
        × (kept.1.id ≡ kept.0.id)
        × (kept.1.value ≡ value)) }
{
    let Ok(mut local) = table.local(rt) else {
        return None;
    };
    let token = local.publish(value).ok()?;
    Some((local, token))
}

/// Two threads publish a value each. Once both have ended, a walk's sum is at least that of the two.
fn summed_over_two<R: Threads + Wait + Sync>(
    table: &ThreadLocal<u64>,
    rt: &R,
    first: u64,
    second: u64,
) -> Option<u64>
    requires named { IsSome table.now.sharing }
    ensures { IfSome result (λ total. first + second ≤ total) }
{
    let (one, other) = thread::join(
        rt,
        || -> Option<(Local<'_, u64, R>, Token<u64>)>
            ensures table { IfSome result (λ kept. kept.0.table ≡ table.entry.now.table) }
            ensures told { IfSome result (λ kept.
                (kept.1.sharing ≡ table.entry.now.sharing)
                × (kept.1.id ≡ kept.0.id)
                × (kept.1.value ≡ first)) }
        { published(table, rt, first) },
        || -> Option<(Local<'_, u64, R>, Token<u64>)>
            ensures table { IfSome result (λ kept. kept.0.table ≡ table.entry.now.table) }
            ensures told { IfSome result (λ kept.
                (kept.1.sharing ≡ table.entry.now.sharing)
                × (kept.1.id ≡ kept.0.id)
                × (kept.1.value ≡ second)) }
        { published(table, rt, second) },
    );
    let (mut one, of_one) = one?;
    let (mut other, of_other) = other?;
    one.apart(&mut other);
    summed(table, both(&of_one, &of_other))
}

// The first three of a list.
fn first_three(list: &[(usize, u32)]) -> [Option<(usize, u32)>; 3] {
    [
        list.first().copied(),
        list.get(1).copied(),
        list.get(2).copied(),
    ]
}

// What a table's walk finds, where two `Local`s published 6 and 7.
fn published_and_found<R: Wait>(
    table: &ThreadLocal<u32>,
    rt: &R,
    alloc: Global,
) -> Option<[Option<(usize, u32)>; 3]>
    requires named { IsSome table.now.sharing }
{
    let Ok(mut one) = table.local(rt) else {
        return None;
    };
    let Ok(mut other) = table.local(rt) else {
        return None;
    };
    let of_one = one.publish(6).ok()?;
    let of_other = other.publish(7).ok()?;
    Some(first_three(&given_two(table, &of_one, &of_other, alloc).ok()?))
}

#[test]
fn a_walk_gives_what_tokens_say(rt: HostRuntime) {
    let table = ThreadLocal::<u32>::new(rt.alloc());
    assert_same(
        &rt,
        published_and_found(&table, &rt, rt.alloc()),
        Some([Some((0, 6)), Some((1, 7)), None]),
    );
}

#[test]
fn a_walk_sums_up_what_two_threads_published(rt: HostRuntime) {
    let table = ThreadLocal::<u64>::new(rt.alloc());
    let sum = summed_over_two(&table, &rt, 7, 35);
    let again = summed_over_two(&table, &rt, 1, 2);
    assert_same(&rt, (sum, again), (Some(42), None));
}
