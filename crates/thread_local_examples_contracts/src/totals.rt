//! Totals of what was published, read through tokens: of tokens at hand, and of the parts of several
//! threads. And a value that is found again, where the proof rules out that it is made twice.
ghost use Rattle.std.specs.Prelude.{◌≡◌, ◌<◌, All, IfOk, IfSome, IsSome, length, map, slice_index_or, sum};
ghost use Rattle.thread_local_examples_contracts.specs.Sums.{HaveParts};

use std::alloc::{AllocError, Global};
use std::sync::Wait;
use std::thread;
use std::thread::Threads;
use thread_local::ThreadLocal;
use thread_local::local::Local;
use thread_local::table::Token;
use thread_local::thread_id::LocalError;

/// The sum of the values that the tokens name, where it fits into 64 bits. A fold needs no proof
/// file, but it has to be bound before it is answered.
pub fn total(table: &ThreadLocal<u64>, tokens: &[Token<u64>]) -> Option<u64>
    requires sharing { All (λ token. token.sharing ≡ table.now.sharing) tokens.now }
    requires named { IsSome table.now.sharing }
    ensures { IfSome result (λ total. total ≡ sum (map (λ token. token.value) tokens.now)) }
{
    let total = tokens
        .iter()
        .try_fold(0u64, |sum, token| sum.checked_add(*table.value(token)))?;
    Some(total)
}

/// Publishes a part, and answers a token of it. The `Local` keeps the id until it is dropped.
fn publish<'a, R: Wait>(
    table: &'a ThreadLocal<u64>,
    rt: &'a R,
    part: u64,
) -> Result<(Local<'a, u64, R>, Token<u64>), LocalError>
    ensures { IfOk result (λ kept. (kept.1.sharing ≡ table.now.sharing) × (kept.1.value ≡ part)) }
{
    let mut local = table.local(rt)?;
    match local.publish(part) {
        Ok(token) => Ok((local, token)),
        Err(_) => Err(LocalError::Memory(AllocError)),
    }
}

/// The sum of the parts, each read by its worker's token.
fn added_up<R: Wait>(
    table: &ThreadLocal<u64>,
    parts: &[u64],
    answers: &[Result<(Local<'_, u64, R>, Token<u64>), LocalError>],
) -> Option<u64>
    requires as_many { length answers.now ≡ length parts.now }
    requires each { HaveParts table.now.sharing parts.now answers.now }
    requires named { IsSome table.now.sharing }
    ensures { IfSome result (λ total. total ≡ sum parts.now) }
{
    let mut total = 0u64;
    for index in 0..parts.len() {
        match &answers[index] {
            Ok((_, token)) => total = total.checked_add(*table.value(token))?,
            Err(_) => return None,
        }
    }
    Some(total)
}

/// The sum of the parts, each of which a thread of its own publishes. None: no id or no memory was
/// left, or the sum doesn't fit into 64 bits.
pub fn sum_of_parts<R: Threads + Wait + Sync>(rt: &R, alloc: Global, parts: &[u64]) -> Option<u64>
    ensures { IfSome result (λ total. total ≡ sum parts.now) }
{
    let table = ThreadLocal::new(alloc);
    let answers = thread::map_indices(
        rt,
        alloc,
        parts.len(),
        &|index: usize| -> Result<(Local<'_, u64, R>, Token<u64>), LocalError>
            requires { index < length parts.now }
            ensures { IfOk result (λ kept.
                (kept.1.sharing ≡ table.sharing) × (kept.1.value ≡ slice_index_or parts.entry.now index 0)) }
        { publish(&table, rt, parts[index]) },
    );
    match answers {
        Ok(answers) => added_up(&table, parts, &answers),
        Err(AllocError) => None,
    }
}

/// Gives this `Local` a number where it has none, and finds what it has. The second closure is proved
/// never to run, since `unreachable!` stands only where no run comes.
pub fn given_and_found<R: Wait>(
    local: &mut Local<'_, u64, R>,
    number: u64,
) -> Result<(u64, u64), AllocError>
    ensures same { IfOk result (λ read. read.1 ≡ read.0) }
{
    let given = *local.get_or(|| number)?;
    let found = *local.get_or(|| unreachable!())?;
    Ok((given, found))
}

#[cfg(test)]
mod tests {
    use super::*;

    /// The total of two parts, by their tokens.
    fn total_of_two<R: Wait>(
        table: &ThreadLocal<u64>,
        rt: &R,
        first: u64,
        second: u64,
    ) -> Option<Option<u64>>
        requires named { IsSome table.now.sharing }
    {
        let (_first, one) = publish(table, rt, first).ok()?;
        let (_second, other) = publish(table, rt, second).ok()?;
        Some(total(table, &[one, other]))
    }

    #[test]
    fn tokens_are_added_up(rt: HostRuntime) {
        for (second, wanted) in [(35, Some(42)), (u64::MAX, None)] {
            let table = ThreadLocal::new(rt.alloc());
            assert!(rt; total_of_two(&table, &rt, 7, second) == Some(wanted));
        }
    }

    #[test]
    fn parts_of_threads_are_added_up(rt: HostRuntime) {
        let two = sum_of_parts(&rt, rt.alloc(), &[7, 35]);
        let none = sum_of_parts(&rt, rt.alloc(), &[]);
        let large = sum_of_parts(&rt, rt.alloc(), &[u64::MAX, 1]);
        assert!(rt; (two, none, large) == (Some(42), Some(0), None));
    }

    /// What a first `Local` of a table was given, and what it found.
    fn read<R: Wait>(table: &ThreadLocal<u64>, rt: &R) -> Option<(u64, u64)> {
        given_and_found(&mut table.local(rt).ok()?, 7).ok()
    }

    #[test]
    fn a_value_is_made_once(rt: HostRuntime) {
        let table = ThreadLocal::new(rt.alloc());
        assert!(rt; read(&table, &rt) == Some((7, 7)));
    }
}
