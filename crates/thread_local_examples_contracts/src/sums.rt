//! A sum over workers: each publishes its part and hands its token back, and the owner adds up what
//! the table holds. The contract says that this is the sum of the parts.
ghost use Rattle.std.specs.Prelude.{◌≡◌, ◌≢◌, ◌<◌, true, All, IfOk, IfSome, IsSome, length, map, slice_index_or, sum};
ghost use Rattle.std.specs.List.{AllPairs};
ghost use Rattle.thread_local_examples_contracts.specs.Sums.{HaveParts};

use std::alloc::{AllocError, Global};
use std::sync::Wait;
use std::thread;
use std::thread::Threads;
use thread_local::ThreadLocal;
use thread_local::iter::IntoIter;
use thread_local::local::{Local, SetError};
use thread_local::table::Token;
use thread_local::thread_id::LocalError;

/// Why no sum was answered.
#[derive(Clone, Copy, PartialEq, Debug)]
pub enum SumError {
    /// Out of memory, or no id was left.
    Local(LocalError),
    /// The table held other values than the parts.
    Mixed,
}

/// Publishes a part.
fn publish<'a, R: Wait>(
    sums: &'a ThreadLocal<u64>,
    rt: &'a R,
    part: u64,
) -> Result<(Local<'a, u64, R>, Token<u64>), SumError>
    ensures { IfOk result (λ kept. (kept.1.sharing ≡ sums.now.sharing) × (kept.1.value ≡ part)) }
{
    let mut local = sums.local(rt).map_err(SumError::Local)?;
    match local.publish(part) {
        Ok(token) => Ok((local, token)),
        Err(SetError::Occupied(_)) => Err(SumError::Mixed),
        Err(SetError::Memory(_)) => Err(SumError::Local(LocalError::Memory(AllocError))),
    }
}

/// Whether no two tokens have one id.
fn differ(tokens: &[Token<u64>]) -> bool
    ensures { result ≡ true → AllPairs (λ one other. one.id ≢ other.id) tokens.now }
{
    for one in 0..tokens.len() {
        for other in one + 1..tokens.len() {
            if tokens[one].id() == tokens[other].id() {
                return false;
            }
        }
    }
    true
}

/// The sum of the values that a walk has still to give, where it fits into 64 bits. A fold needs no
/// invariant: the check finds the proof by itself, but not where the fold is the function's last
/// expression.
fn checked_sum(mut values: IntoIter<u64>) -> Option<u64>
    ensures { IfSome result (λ total. total ≡ sum values) }
{
    let total = values.try_fold(0u64, |sum, value| sum.checked_add(value))?;
    Some(total)
}

/// `checked_sum`, which always fits. Who copies it also copies what the proof
/// knows at each turn of its loop: `proofs/sums/added_up/Invariants.antt`.
fn added_up(values: IntoIter<u64>) -> u128
    ensures { result ≡ sum values }
{
    // So the count fits.
    let _ = values.len();
    let mut total = 0u128;
    for value in values {
        total += u128::from(value);
    }
    total
}

/// The sum of the parts that the tokens name, where they are all that was published.
fn total(sums: ThreadLocal<u64>, tokens: &[Token<u64>]) -> Result<u128, SumError>
    requires sharing { All (λ token. token.sharing ≡ sums.sharing) tokens.now }
    requires named { IsSome sums.sharing }
    ensures { IfOk result (λ total. total ≡ sum (map (λ token. token.value) tokens.now)) }
{
    let (values, book) = sums.into_iter_and_book();
    if values.len() != tokens.len() || !differ(tokens) {
        return Err(SumError::Mixed);
    }
    book.tells_all(tokens);
    Ok(added_up(values))
}

/// The tokens of all workers, in the order of their parts.
fn tokens_of<R: Wait>(
    sums: &ThreadLocal<u64>,
    parts: &[u64],
    answers: &[Result<(Local<'_, u64, R>, Token<u64>), SumError>],
    alloc: Global,
) -> Result<Vec<Token<u64>>, SumError>
    requires as_many { length answers.now ≡ length parts.now }
    requires each { HaveParts sums.now.sharing parts.now answers.now }
    ensures sharing { IfOk result (λ tokens. All (λ token. token.sharing ≡ sums.now.sharing) tokens.items) }
    ensures values { IfOk result (λ tokens. map (λ token. token.value) tokens.items ≡ parts.now) }
{
    let _ = sums;
    let _ = parts;
    let mut tokens = Vec::new(alloc);
    for index in 0..answers.len() {
        match &answers[index] {
            Ok((_, token)) => {
                if tokens.push(token.again()).is_err() {
                    return Err(SumError::Local(LocalError::Memory(AllocError)));
                }
            }
            Err(error) => return Err(*error),
        }
    }
    Ok(tokens)
}

/// The sum of the parts, each of which a thread of its own publishes, where one can be made.
pub fn sum_of_parts<R: Threads + Wait + Sync>(
    rt: &R,
    alloc: Global,
    parts: &[u64],
) -> Result<u128, SumError>
    ensures { IfOk result (λ total. total ≡ sum parts.now) }
{
    let sums = ThreadLocal::new(alloc);
    let tokens = published(rt, alloc, &sums, parts)?;
    total(sums, &tokens)
}

/// Each part is published by a thread of its own, which keeps its id until all have published.
fn published<R: Threads + Wait + Sync>(
    rt: &R,
    alloc: Global,
    sums: &ThreadLocal<u64>,
    parts: &[u64],
) -> Result<Vec<Token<u64>>, SumError>
    ensures sharing { IfOk result (λ tokens. All (λ token. token.sharing ≡ sums.now.sharing) tokens.items) }
    ensures values { IfOk result (λ tokens. map (λ token. token.value) tokens.items ≡ parts.now) }
{
    let answers = thread::map_indices(
        rt,
        alloc,
        parts.len(),
        &|index: usize| -> Result<(Local<'_, u64, R>, Token<u64>), SumError>
            requires { index < length parts.now }
            ensures { IfOk result (λ kept.
                (kept.1.sharing ≡ sums.entry.now.sharing) × (kept.1.value ≡ slice_index_or parts.entry.now index 0)) }
        { publish(sums, rt, parts[index]) },
    );
    match answers {
        Ok(answers) => tokens_of(sums, parts, &answers, alloc),
        Err(AllocError) => Err(SumError::Local(LocalError::Memory(AllocError))),
    }
}

#[cfg(test)]
mod tests {
    use super::*;

    #[test]
    fn workers_add_up_their_parts(rt: HostRuntime) {
        let two = sum_of_parts(&rt, rt.alloc(), &[7, 35]);
        let none = sum_of_parts(&rt, rt.alloc(), &[]);
        let large = sum_of_parts(&rt, rt.alloc(), &[u64::MAX, 1, u64::MAX]);
        assert!(rt; (two, none, large) == (Ok(42), Ok(0), Ok(36893488147419103231)));
    }

    /// Two workers that hold their ids at once publish a part each. Answers the first one's token.
    fn publish_two<R: Wait>(
        sums: &ThreadLocal<u64>,
        rt: &R,
        first: u64,
        second: u64,
    ) -> Option<Token<u64>>
        ensures { IfSome result (λ token. token.sharing ≡ sums.now.sharing) }
    {
        let (_first, token) = publish(sums, rt, first).ok()?;
        let (_second, _) = publish(sums, rt, second).ok()?;
        Some(token)
    }

    /// Whether two parts are published, and their sum.
    fn sum_of_two<R: Wait>(
        sums: ThreadLocal<u64>,
        rt: &R,
        first: u64,
        second: u64,
    ) -> (bool, Option<u64>) {
        let published = publish_two(&sums, rt, first, second).is_some();
        (published, checked_sum(sums.into_iter()))
    }

    #[test]
    fn a_sum_past_64_bits_is_refused(rt: HostRuntime) {
        for (other, wanted) in [
            (35, Some(42)),
            (u64::MAX - 7, Some(u64::MAX)),
            (u64::MAX - 6, None),
        ] {
            let sums = ThreadLocal::new(rt.alloc());
            assert!(rt; sum_of_two(sums, &rt, 7, other) == (true, wanted));
        }
    }

    /// The total of two parts by the first one's token alone.
    fn total_of_one<R: Wait>(sums: ThreadLocal<u64>, rt: &R) -> Option<Result<u128, SumError>>
        requires named { IsSome sums.sharing }
    {
        let token = publish_two(&sums, rt, 7, 8)?;
        Some(total(sums, &[token]))
    }

    #[test]
    fn a_value_that_no_token_names_is_noticed(rt: HostRuntime) {
        let sums = ThreadLocal::new(rt.alloc());
        assert!(rt; total_of_one(sums, &rt) == Some(Err(SumError::Mixed)));
    }
}
