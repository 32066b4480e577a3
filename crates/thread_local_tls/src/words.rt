//! Reads the words of a command line: the moves of `ids`, or the workers and numbers of `tally`.
//! Only the moves take memory.
ghost use Rattle.std.specs.Prelude.{◌≡◌, ◌<◌, length, None, Some, IsNone, IfSome, IfOk, IsErrOf};
ghost use Rattle.std.specs.Char.{is_ascii_digit};
ghost use Rattle.std.specs.List.{list_all};
ghost use Rattle.thread_local_tls.specs.Words.{texts, number_of, moves_of, move_then, moves_named, NamesMoves, tally_of};
ghost use Rattle.thread_local_tls.specs.Limits.{limited, IsWithinLimits};

use crate::fault::Fault;
use crate::moves::Move;
use std::alloc::Global;

/// The moves of a command line of `ids`, without the program's name. It takes memory for them.
pub fn moves_named(alloc: Global, words: &[String]) -> Result<Vec<Move>, Fault>
    ensures ok { IfOk result (λ moves. moves_named (texts words.now) ≡ Some moves.items) }
    ensures usage { IsErrOf result Fault.Usage → moves_named (texts words.now) ≡ None }
    ensures memory { IsErrOf result Fault.Memory → NamesMoves (texts words.now) }
    ensures no_write { IsErrOf result Fault.Write → ⊥ }
{
    match words.split_first() {
        Some((command, words)) if command.as_str() == "ids" && !words.is_empty() => moves(
            alloc, words,
        ),
        _ => Err(Fault::Usage),
    }
}

/// The moves that the words spell. It takes memory for them.
fn moves(alloc: Global, words: &[String]) -> Result<Vec<Move>, Fault>
    ensures ok { IfOk result (λ moves. moves_of (texts words.now) ≡ Some moves.items) }
    ensures usage { IsErrOf result Fault.Usage → moves_of (texts words.now) ≡ None }
    ensures no_write { IsErrOf result Fault.Write → ⊥ }
{
    let mut moves = Vec::new(alloc);
    let mut rest = words;
    while !rest.is_empty() {
        let Some((step, after)) = first_move(rest) else {
            return Err(Fault::Usage);
        };
        moves.push(step)?;
        rest = after;
    }
    Ok(moves)
}

/// The first move that the words spell, and the words after it.
fn first_move(words: &[String]) -> Option<(Move, &[String])>
    ensures none { IsNone result → 0 < length words.now → moves_of (texts words.now) ≡ None }
    ensures some { IfSome result (λ first.
        moves_of (texts words.now) ≡ move_then first.0 (moves_of (texts first.1.now))) }
    ensures shorter { IfSome result (λ first. length first.1.now < length words.now) }
{
    let (word, after) = words.split_first()?;
    if word.as_str() == "take" {
        return Some((Move::Take, after));
    }
    if word.as_str() == "give" {
        let (id, after) = after.split_first()?;
        let id = number(id.as_str())?;
        return Some((Move::Give(id), after));
    }
    None
}

/// The workers and the numbers of a command line of `tally`, without the program's name. None means
/// that it is no tally, or one beyond the limits.
pub fn tally_of(words: &[String]) -> Option<(usize, u64)>
    ensures value { result ≡ tally_of (texts words.now) }
    ensures limits { IfSome result (λ tally. IsWithinLimits tally.0 tally.1) }
{
    let [command, workers, numbers] = words else {
        return None;
    };
    if command.as_str() != "tally" {
        return None;
    }
    let workers = number(workers.as_str())?;
    let numbers = number(numbers.as_str())?;
    limited(workers, numbers as u64)
}

/// The workers and the numbers of a tally, if they are within the limits.
fn limited(workers: usize, numbers: u64) -> Option<(usize, u64)>
    ensures value { result ≡ limited workers numbers }
    ensures limits { IfSome result (λ tally. IsWithinLimits tally.0 tally.1) }
{
    if 1 <= workers && workers <= 64 && numbers <= 1_000_000 {
        Some((workers, numbers))
    } else {
        None
    }
}

/// A number: one or more ASCII digits with a value below 2^64. Leading zeros are allowed, signs
/// aren't.
fn number(word: &str) -> Option<usize>
    ensures { result ≡ number_of word.now }
{
    if word.is_empty() || !is_digits(word) {
        return None;
    }
    word.parse().ok()
}

/// Whether each byte is an ASCII digit.
fn is_digits(word: &str) -> bool
    ensures { result ≡ list_all is_ascii_digit word.now }
{
    word.bytes().all(|byte| byte.is_ascii_digit())
}
