//! A mailbox: two threads publish a letter each, swap tokens, and read each other's letter while
//! both still have their ids.
ghost use Rattle.std.specs.Prelude.{◌≡◌, IfOk, IsSome};

use std::alloc::AllocError;
use std::sync::Wait;
use std::thread;
use std::thread::Threads;
use thread_local::ThreadLocal;
use thread_local::local::{Local, SetError};
use thread_local::table::Token;
use thread_local::thread_id::LocalError;

/// Why no letters were swapped.
#[derive(Clone, Copy, PartialEq, Debug)]
pub enum MailError {
    /// Out of memory, or no id was left.
    Local(LocalError),
    /// An earlier holder of the id left a letter.
    Occupied,
}

/// Publishes a letter, and answers a token of it. The slot stays the thread's until the `Local` is
/// dropped.
fn post<'a, R: Wait>(
    letters: &'a ThreadLocal<u64>,
    rt: &'a R,
    letter: u64,
) -> Result<(Local<'a, u64, R>, Token<u64>), MailError>
    ensures { IfOk result (λ posted. (posted.1.sharing ≡ letters.now.sharing) × (posted.1.value ≡ letter)) }
{
    let mut local = letters.local(rt).map_err(MailError::Local)?;
    match local.publish(letter) {
        Ok(token) => Ok((local, token)),
        Err(SetError::Occupied(_)) => Err(MailError::Occupied),
        Err(SetError::Memory(_)) => Err(MailError::Local(LocalError::Memory(AllocError))),
    }
}

/// What each of two threads reads of the other.
pub fn swap<R: Threads + Wait + Sync>(
    letters: &ThreadLocal<u64>,
    rt: &R,
    first: u64,
    second: u64,
) -> Result<(u64, u64), MailError>
    requires named { IsSome letters.now.sharing }
    ensures { IfOk result (λ read. (read.0 ≡ second) × (read.1 ≡ first)) }
{
    // Of a table of this function's own, which the closures borrow, the clauses would say
    // `letters.sharing`.
    let (one, other) = thread::join(
        rt,
        || -> Result<(Local<'_, u64, R>, Token<u64>), MailError>
            ensures { IfOk result (λ posted. (posted.1.sharing ≡ letters.entry.now.sharing) × (posted.1.value ≡ first)) }
        { post(letters, rt, first) },
        || -> Result<(Local<'_, u64, R>, Token<u64>), MailError>
            ensures { IfOk result (λ posted. (posted.1.sharing ≡ letters.entry.now.sharing) × (posted.1.value ≡ second)) }
        { post(letters, rt, second) },
    );
    let (_one, to_other) = one?;
    let (_other, to_one) = other?;
    Ok(thread::join(rt, || *letters.value(&to_one), || *letters.value(&to_other)))
}

#[cfg(test)]
mod tests {
    use super::*;

    #[test]
    fn two_threads_read_each_other(rt: HostRuntime) {
        let letters = ThreadLocal::new(rt.alloc());
        let read = swap(&letters, &rt, 11, 22);
        let again = swap(&letters, &rt, 33, 44);
        let letters = letters.into_iter().len();
        assert!(rt; (read, again, letters) == (Ok((22, 11)), Err(MailError::Occupied), 2));
    }
}
