//! Requests for memory that are refused. `tools/refusals` runs these tests with the first request
//! refused, with the second, and so on until no request is refused any more. Each test holds
//! whichever it is, and says which call was refused; with ample memory it says nothing.

mod cleared;
pub(crate) mod held;

use crate::same::assert_same;
use held::{four_publish, numbers};
use std::alloc::{AllocError, Global};
use std::cell::Cell;
use std::io::Print;
use std::mem::forget;
use std::sync::Wait;
use std::test::Fail;
use thread_local::ThreadLocal;
use thread_local::local::{Local, SetError, TryError};
use thread_local_base::LocalError;
use thread_local_buckets::{CapacityError, IntoIter};

/// A call that publishes a value.
#[derive(Clone, Copy, PartialEq, Eq)]
pub(crate) enum Publishing {
    GetOr,
    GetOrTry,
    GetOrDefault,
    Set,
}

impl Publishing {
    /// Each of them.
    pub(crate) const ALL: [Publishing; 4] = [
        Publishing::GetOr,
        Publishing::GetOrTry,
        Publishing::GetOrDefault,
        Publishing::Set,
    ];

    /// The call's name.
    fn name(self) -> &'static str {
        match self {
            Publishing::GetOr => "get_or",
            Publishing::GetOrTry => "get_or_try",
            Publishing::GetOrDefault => "get_or_default",
            Publishing::Set => "set",
        }
    }

    /// Publishes a number, or the default, and counts the calls of the closure. An error is want of
    /// memory.
    pub(crate) fn publish<R: Wait>(
        self,
        local: &mut Local<'_, u32, R>,
        number: u32,
        calls: &Cell<u32>,
    ) -> Result<u32, AllocError> {
        let made = || {
            calls.set(calls.get().wrapping_add(1));
            number
        };
        match self {
            Publishing::GetOr => Ok(*local.get_or(made)?),
            Publishing::GetOrTry => match local.get_or_try(|| Ok::<u32, ()>(made())) {
                Ok(value) => Ok(*value),
                Err(TryError::Memory(error)) => Err(error),
                Err(TryError::Create(())) => Ok(0),
            },
            Publishing::GetOrDefault => Ok(*local.get_or_default()?),
            Publishing::Set => match local.set(number) {
                Ok(()) => Ok(local.get().copied().unwrap_or(0)),
                Err(SetError::Memory(back)) if back == number => Err(AllocError),
                Err(_) => Ok(0),
            },
        }
    }

    /// Publishes a number, or the default, at a place that holds nothing. Answers whether the call
    /// did as it promises. An error is want of memory, after which no closure was called, and the
    /// place holds nothing.
    fn tried<R: Wait + Print>(
        self,
        local: &mut Local<'_, u32, R>,
        rt: &R,
        number: u32,
    ) -> Result<bool, AllocError> {
        let calls = Cell::new(0);
        match self.publish(local, number, &calls) {
            Ok(got) => {
                let (wanted, called) = self.wanted(number);
                Ok(got == wanted && calls.get() == called && self.stands(local, number))
            }
            Err(error) => {
                let _told = println!(rt; "refused: {}", self.name());
                if calls.get() != 0 || local.get().is_some() {
                    return Ok(false);
                }
                Err(error)
            }
        }
    }

    /// Whether a place finds what was published there for a number.
    fn stands<R: Wait>(self, local: &Local<'_, u32, R>, number: u32) -> bool {
        local.get() == Some(&self.wanted(number).0)
    }

    /// What is published in the place of a number, and how often a closure is called for it.
    pub(crate) fn wanted(self, number: u32) -> (u32, u32) {
        match self {
            Publishing::GetOr | Publishing::GetOrTry => (number, 1),
            Publishing::GetOrDefault => (0, 0),
            Publishing::Set => (number, 0),
        }
    }

    /// Takes a `Local`, which publishes a number. A call that is refused is made again, once it is
    /// seen that the earlier places find what they found. Answers the `Local`, and whether each call
    /// did as it promises.
    fn joined<'a, R: Wait + Print, F: Fn() -> bool>(
        self,
        table: &'a ThreadLocal<u32>,
        rt: &'a R,
        number: u32,
        earlier_stand: F,
    ) -> Result<(Local<'a, u32, R>, bool), LocalError>
        requires { F.IsAlwaysCallable earlier_stand }
    {
        let (mut local, stood) = match taken(table, rt) {
            Ok(local) => (local, true),
            Err(LocalError::Memory(_)) => {
                let stood = earlier_stand();
                (taken(table, rt)?, stood)
            }
            Err(LocalError::Exhausted) => return Err(LocalError::Exhausted),
        };
        let done = match self.tried(&mut local, rt, number) {
            Ok(done) => done,
            Err(_) => earlier_stand() && self.tried(&mut local, rt, number) == Ok(true),
        };
        Ok((local, stood && done && earlier_stand()))
    }

    /// Three `Local`s that are held at once publish 6, 7 and 8. Answers whether each call did as it
    /// promises.
    fn by_three<R: Wait + Print>(
        self,
        table: &ThreadLocal<u32>,
        rt: &R,
    ) -> Result<bool, LocalError> {
        let (first, one) = self.joined(table, rt, 6, || true)?;
        let (second, two) = self.joined(table, rt, 7, || self.stands(&first, 6))?;
        let (_third, three) = self.joined(
            table,
            rt,
            8,
            || self.stands(&first, 6) && self.stands(&second, 7),
        )?;
        Ok(one && two && three)
    }
}

/// A `Local`. An error that is want of memory is told.
fn taken<'a, R: Wait + Print>(
    table: &'a ThreadLocal<u32>,
    rt: &'a R,
) -> Result<Local<'a, u32, R>, LocalError> {
    let had = table.local(rt);
    if matches!(had, Err(LocalError::Memory(_))) {
        let _told = println!(rt; "refused: local");
    }
    had
}

/// A table of which so many ids are held, for good. A `Local` that was refused is asked for again.
fn with_held<R: Wait + Print>(
    rt: &R,
    alloc: Global,
    count: usize,
) -> Result<ThreadLocal<u32>, LocalError> {
    let table = ThreadLocal::<u32>::new(alloc);
    for _ in 0..count {
        match taken(&table, rt) {
            Ok(local) => forget(local),
            Err(_) => forget(table.local(rt)?),
        }
    }
    Ok(table)
}

/// What a walk by value gives, of the first four values.
fn first_four(mut values: IntoIter<u32>) -> [Option<u32>; 4] {
    [values.next(), values.next(), values.next(), values.next()]
}

/// What is published where three `Local`s publish beside so many that hold their ids. None where a
/// call doesn't do as it promises.
fn published_beside<R: Wait + Print>(
    call: Publishing,
    rt: &R,
    alloc: Global,
    held: usize,
) -> Result<Option<[Option<u32>; 4]>, LocalError> {
    let table = with_held(rt, alloc, held)?;
    let as_promised = call.by_three(&table, rt)?;
    let published = first_four(table.into_iter());
    Ok(as_promised.then_some(published))
}

/// What is published in two tables. Of three ids the second is the first that needs memory, or the
/// first is the last of its bucket.
fn published_in_two<R: Wait + Print>(
    call: Publishing,
    rt: &R,
    alloc: Global,
) -> Result<[Option<[Option<u32>; 4]>; 2], LocalError> {
    let first = published_beside(call, rt, alloc, 57)?;
    let second = published_beside(call, rt, alloc, 62)?;
    Ok([first, second])
}

#[test]
fn a_refused_get_or_succeeds_when_it_is_made_again(rt: HostRuntime) {
    let published = published_in_two(Publishing::GetOr, &rt, rt.alloc());
    assert!(rt; published == Ok([Some([Some(6), Some(7), Some(8), None]); 2]));
}

#[test]
fn a_refused_get_or_try_succeeds_when_it_is_made_again(rt: HostRuntime) {
    let published = published_in_two(Publishing::GetOrTry, &rt, rt.alloc());
    assert!(rt; published == Ok([Some([Some(6), Some(7), Some(8), None]); 2]));
}

#[test]
fn a_refused_get_or_default_succeeds_when_it_is_made_again(rt: HostRuntime) {
    let published = published_in_two(Publishing::GetOrDefault, &rt, rt.alloc());
    assert!(rt; published == Ok([Some([Some(0), Some(0), Some(0), None]); 2]));
}

#[test]
fn a_refused_set_succeeds_when_it_is_made_again(rt: HostRuntime) {
    let published = published_in_two(Publishing::Set, &rt, rt.alloc());
    assert!(rt; published == Ok([Some([Some(6), Some(7), Some(8), None]); 2]));
}

/// What is drained of a table, of the first four values.
fn drained(table: &mut ThreadLocal<u32>) -> [Option<u32>; 4] {
    let mut values = table.drain();
    [values.next(), values.next(), values.next(), values.next()]
}

#[test]
fn a_round_after_a_drain_is_refused_nothing(rt: HostRuntime) -> Result<(), Fail> {
    let mut table = with_held(&rt, rt.alloc(), 57)?;
    let first = Publishing::GetOr.by_three(&table, &rt) == Ok(true);
    let numbers = drained(&mut table);
    let second = Publishing::Set.by_three(&table, &rt) == Ok(true);
    let again = drained(&mut table);
    assert_same(&rt, (first, second), (true, true));
    assert_same(
        &rt,
        (numbers, again),
        (
            [Some(6), Some(7), Some(8), None],
            [Some(6), Some(7), Some(8), None],
        ),
    );
    Ok(())
}

#[test]
fn a_table_with_a_capacity_has_its_slots_or_is_refused(rt: HostRuntime) -> Result<(), Fail> {
    match ThreadLocal::<u64>::with_capacity(rt.alloc(), 4) {
        Ok(table) => {
            let mut table = table;
            assert_same(&rt, table.slots(), 7);
        }
        Err(error) => {
            println!(rt; "refused: with_capacity")?;
            assert!(rt; matches!(error, CapacityError::Memory(_)));
        }
    }
    Ok(())
}

#[test]
fn out_of_memory_never_stands_for_a_capacity_that_is_too_large(rt: HostRuntime) {
    let too_large = ThreadLocal::<u64>::with_capacity(rt.alloc(), 9223372036854775808);
    assert!(rt; matches!(too_large, Err(CapacityError::TooLarge)));
}

// No machine gives room for all ids, so the call is refused at its first request. The second request
// is the test's own: the call asks for no bucket.
#[test]
fn the_room_for_ids_is_asked_for_before_any_bucket(rt: HostRuntime) -> Result<(), Fail> {
    let refused = ThreadLocal::<u64>::with_capacity(rt.alloc(), 9223372036854775807);
    assert!(rt; matches!(refused, Err(CapacityError::Memory(_))));
    if Vec::<u64>::with_capacity(rt.alloc(), 1).is_err() {
        println!(rt; "refused: next")?;
    }
    Ok(())
}

/// Which of four `Local`s that are held at once aren't refused memory when they publish.
fn four_held_publish<R: Wait + Print>(
    table: &ThreadLocal<u32>,
    rt: &R,
    alloc: Global,
) -> Option<[bool; 4]> {
    let mut locals = held::taken(table, rt, alloc, 4)?;
    Some(four_publish(&mut locals))
}

/// A `Local`, or None where it was refused.
fn had<'a, R: Wait + Print>(table: &'a ThreadLocal<u32>, rt: &'a R) -> Option<Local<'a, u32, R>> {
    let local = table.local(rt).ok();
    if local.is_none() {
        let _told = println!(rt; "refused: local");
    }
    local
}

#[test]
fn nothing_is_refused_within_the_capacity(rt: HostRuntime) -> Result<(), Fail> {
    match ThreadLocal::<u32>::with_capacity(rt.alloc(), 4) {
        Ok(table) => assert_same(
            &rt,
            four_held_publish(&table, &rt, rt.alloc()),
            Some([true; 4]),
        ),
        Err(error) => {
            println!(rt; "refused: with_capacity")?;
            assert!(rt; matches!(error, CapacityError::Memory(_)));
        }
    }
    Ok(())
}

/// Publishes 6, and counts the calls of the closure. None is out of memory.
fn publish_six<R: Wait>(local: &mut Local<'_, u32, R>, calls: &Cell<u32>) -> Option<u32> {
    local
        .get_or(|| {
            calls.set(calls.get().wrapping_add(1));
            6
        })
        .ok()
        .copied()
}

/// Whether nothing was called and nothing is found after a refusal, and 6 is published then.
fn is_published_then<R: Wait>(local: &mut Local<'_, u32, R>, calls: &Cell<u32>) -> bool {
    calls.get() == 0 && local.get().is_none() && publish_six(local, calls) == Some(6)
}

/// Publishes 6, and once more where memory was refused. Answers whether the closure was called
/// once, and only where nothing was refused.
fn calls_once<R: Wait + Print>(mut local: Local<'_, u32, R>, rt: &R) -> bool {
    let calls = Cell::new(0);
    let mut as_promised = true;
    if publish_six(&mut local, &calls).is_none() {
        let _told = println!(rt; "refused: get_or");
        as_promised = is_published_then(&mut local, &calls);
    }
    as_promised && calls.get() == 1 && local.get() == Some(&6)
}

#[test]
fn a_refusal_calls_no_closure(rt: HostRuntime) {
    let table = numbers(rt.alloc());
    let Some(local) = had(&table, &rt) else {
        return;
    };
    assert!(rt; calls_once(local, &rt));
}

/// Whether a closure's error is told as such. None is out of memory.
fn is_told<R: Wait>(local: &mut Local<'_, u32, R>, error: &'static str) -> Option<bool> {
    match local.get_or_try(|| Err(error)) {
        Err(TryError::Memory(_)) => None,
        Err(TryError::Create(told)) => Some(told == error),
        Ok(_) => Some(false),
    }
}

/// Whether a closure's error is told as such, the second time where memory was refused.
fn is_told_then<R: Wait + Print>(
    local: &mut Local<'_, u32, R>,
    rt: &R,
    error: &'static str,
) -> bool {
    if let Some(as_such) = is_told(local, error) {
        return as_such;
    }
    let _told = println!(rt; "refused: get_or_try");
    is_told(local, error) == Some(true)
}

/// Whether two errors are told as such, and then a value is published.
fn publishes_after_errors<R: Wait + Print>(mut local: Local<'_, u32, R>, rt: &R) -> bool {
    is_told_then(&mut local, rt, "a") && is_told_then(&mut local, rt, "b") && calls_once(local, rt)
}

#[test]
fn no_memory_is_asked_for_after_an_error_of_the_closure(rt: HostRuntime) {
    let table = numbers(rt.alloc());
    let Some(local) = had(&table, &rt) else {
        return;
    };
    assert!(rt; publishes_after_errors(local, &rt));
}
