//! Callers over a `Local`'s seat, which name no runtime, so they are proved to return, and a test
//! that makes each call of a seat.
ghost use Rattle.std.specs.Prelude.{◌≡◌, IfOk, IfSome, IsSome, None, Some, true};
ghost use Rattle.thread_local.specs.Held.{is_held};
ghost use Rattle.thread_local.specs.IdMoves.{Take, held_after, noted};

use crate::callers::{crosses, is_sent};
use crate::same::assert_same;
use std::alloc::AllocError;
use std::cell::RefCell;
use std::mem::swap;
use std::sync::Wait;
use thread_local::ThreadLocal;
use thread_local::local::{Local, Seat, SetError};
use thread_local::table::{Token, Told};

/// The first of two values stays, and the second closure isn't called.
fn kept_by_a_seat(seat: &mut Seat<'_, u32>, first: u32, second: u32) -> Result<u32, AllocError>
    requires { seat.old.value ≡ None }
    ensures { IfOk result (λ got. (got ≡ first) × (seat.new.value ≡ Some got)) }
{
    seat.get_or(|| first)?;
    Ok(*seat.get_or(|| second)?)
}

/// What that leaves is the `Local`'s view.
fn kept_by_a_local<R: Wait>(
    local: &mut Local<'_, u32, R>,
    first: u32,
    second: u32,
) -> Result<u32, AllocError>
    requires { local.old.value ≡ None }
    ensures { IfOk result (λ got. (got ≡ first) × (local.new.value ≡ Some got)) }
{
    kept_by_a_seat(local.seat_mut(), first, second)
}

/// Two `Local`s with their seats swapped have each other's views.
fn swap_seats<'a, R: Wait>(one: &mut Local<'a, u32, R>, other: &mut Local<'a, u32, R>)
    ensures { (one.new ≡ other.old) × (other.new ≡ one.old) }
{
    swap(one.seat_mut(), other.seat_mut());
}

/// Two seats of one table have two ids, and one was taken before the other.
fn differ(one: &mut Seat<'_, u32>, other: &mut Seat<'_, u32>) -> bool
    requires { one.old.table ≡ other.old.table }
    ensures differ { result ≡ true }
    ensures same { (one.new ≡ one.old) × (other.new ≡ other.old) }
{
    one.apart(other);
    one.in_line(other);
    one.id() != other.id()
}

/// The id is held at the page that ends with its take.
fn is_held_at_its_take(seat: &mut Seat<'_, u32>)
    ensures held { is_held (held_after (noted seat.old.before Take)) seat.old.id ≡ true }
    ensures same { seat.new ≡ seat.old }
{
    let page = seat.page();
    seat.held_at(page);
}

/// A seat with the token's id holds the token's value.
fn holds(seat: &mut Seat<'_, u32>, token: &Token<u32>) -> Option<u32>
    requires { (token.now.sharing ≡ seat.old.sharing) × IsSome seat.old.sharing }
    ensures { IfSome result (λ value. value ≡ token.now.value) }
{
    if seat.id() != token.id() {
        return None;
    }
    seat.agrees(token);
    seat.get().copied()
}

fn generic_seat<T: Send>(seat: &mut Seat<'_, T>) {
    is_sent(&seat);
}

fn ref_cell_seat(seat: &mut Seat<'_, RefCell<String>>) {
    is_sent(&seat);
}

fn shared_seat<T: Send + Sync>(seat: &Seat<'_, T>) {
    crosses(seat);
}

/// The value that each call answers which fills a seat, told a number of its own.
fn answered(seat: &mut Seat<'_, u32>) -> [Option<u32>; 5] {
    [
        seat.get_or(|| 1).ok().copied(),
        seat.get_or_default().ok().copied(),
        seat.get_or_try(|| Ok::<u32, bool>(2)).ok().copied(),
        seat.get_or_try_lasting(|| Ok::<u32, bool>(3)).ok().copied(),
        seat.try_fill(|| Ok::<u32, bool>(4)).is_ok().then_some(4),
    ]
}

/// What a seat answers otherwise: its id, whether it is reserved, its value, that of its token, and
/// how many values three walks give.
fn told(seat: &Seat<'_, u32>) -> (usize, bool, Option<u32>, Option<usize>, [usize; 3]) {
    (
        seat.id(),
        seat.is_reserved(),
        seat.get().copied(),
        seat.token().map(|token| token.id()),
        [
            seat.iter().count(),
            seat.iter_told(Told::new()).count(),
            seat.tokens().count(),
        ],
    )
}

/// What the calls answer that fill a new `Local`'s seat, and what the seat answers then.
fn filled<R: Wait>(
    table: &ThreadLocal<u32>,
    rt: &R,
) -> Option<
    (
        [Option<u32>; 5],
        (usize, bool, Option<u32>, Option<usize>, [usize; 3]),
    ),
> {
    let mut local = table.local(rt).ok()?;
    Some((answered(local.seat_mut()), told(local.seat())))
}

#[test]
fn a_seat_answers_its_value(rt: HostRuntime) {
    let table = ThreadLocal::new(rt.alloc());
    assert_same(
        &rt,
        filled(&table, &rt),
        Some((
            [Some(1), Some(1), Some(1), Some(1), Some(4)],
            (0, false, Some(1), Some(0), [1; 3]),
        )),
    );
}

/// What a seat without a value keeps of two, and whether it takes another then.
fn kept<R: Wait>(table: &ThreadLocal<u32>, rt: &R) -> Option<(u32, bool)> {
    let Ok(mut local) = table.local(rt) else {
        return None;
    };
    if local.get().is_some() {
        return None;
    }
    let kept = kept_by_a_local(&mut local, 5, 6).ok()?;
    Some((kept, local.seat_mut().set(7) == Err(SetError::Occupied(7))))
}

#[test]
fn a_seat_keeps_the_first_of_two_values(rt: HostRuntime) {
    let table = ThreadLocal::new(rt.alloc());
    assert_same(&rt, kept(&table, &rt), Some((5, true)));
}

/// Whether two seats differ, once they are swapped, and what the first holds by the token of what
/// the second published before.
fn swapped<R: Wait>(table: &ThreadLocal<u32>, rt: &R) -> Option<(bool, Option<u32>)>
    requires { IsSome table.now.sharing }
{
    let Ok(mut one) = table.local(rt) else {
        return None;
    };
    let Ok(mut other) = table.local(rt) else {
        return None;
    };
    let Ok(token) = other.seat_mut().publish(8) else {
        return None;
    };
    swap_seats(&mut one, &mut other);
    is_held_at_its_take(one.seat_mut());
    let differ = differ(one.seat_mut(), other.seat_mut());
    Some((differ, holds(one.seat_mut(), &token)))
}

#[test]
fn a_swapped_seat_takes_its_value_along(rt: HostRuntime) {
    let table = ThreadLocal::new(rt.alloc());
    assert_same(&rt, swapped(&table, &rt), Some((true, Some(8))));
}
