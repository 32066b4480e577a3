//! Callers at concrete types and generic ones, and tests that run them.
ghost use Rattle.std.specs.Prelude.{◌≡◌, IfOk, IfSome, IsSome, None, Some, Ok, OnOk, OnErr, true, sum};
ghost use Rattle.thread_local.specs.Capacity.{reserved_slots};
ghost use Rattle.thread_local.specs.IterMut.{iter_mut_rest};
ghost use Rattle.thread_local.specs.Judged.{Judged};

use crate::same::assert_same;
use std::alloc::{AllocError, Global};
use std::cell::{Cell, RefCell};
use std::default::MadeWith;
use std::sync::Wait;
use thread_local::ThreadLocal;
use thread_local::iter::IterMut;
use thread_local::local::{Local, TryError};
use thread_local::table::CapacityError;
use thread_local_base::{Judge, judge_sync};
use thread_local_shared_buckets::Iter;

/// Takes what may go to another thread and be shared by threads.
pub fn crosses<X: Send + Sync>(_: &X) {}

/// Takes what may go to another thread.
pub fn is_sent<X: Send>(_: &X) {}

/// The second value of two is the first one's.
fn first_of_two<R: Wait>(
    local: &mut Local<'_, u32, R>,
    first: u32,
    second: u32,
) -> Result<u32, AllocError>
    requires { local.old.value ≡ None }
    ensures { IfOk result (λ got. got ≡ first) }
{
    local.get_or(|| first)?;
    Ok(*local.get_or(|| second)?)
}

/// After an error of the closure the next call isn't refused memory.
fn granted_after_an_error<R: Wait>(local: &mut Local<'_, u32, R>, value: u32) -> bool
    ensures { result ≡ true }
{
    match local.try_fill(|| Err::<u32, bool>(false)) {
        Err(TryError::Create(_)) => local.get_or(|| value).is_ok(),
        _ => true,
    }
}

/// After an error of the closure the slot is still empty.
fn empty_after_an_error<R: Wait>(local: &mut Local<'_, u32, R>, error: u64)
    requires { local.old.value ≡ None }
    ensures { local.new.value ≡ None }
{
    match local.try_fill(|| Err::<u32, u64>(error)) {
        Ok(()) => unreachable!(),
        Err(_) => {}
    }
}

/// And another closure fills it.
fn second_try<R: Wait>(
    local: &mut Local<'_, u32, R>,
    error: u64,
    second: u32,
) -> Result<u32, AllocError>
    requires { local.old.value ≡ None }
    ensures { IfOk result (λ got. got ≡ second) }
{
    match local.try_fill(|| Err::<u32, u64>(error)) {
        Ok(()) => unreachable!(),
        Err(TryError::Memory(refused)) => Err(refused),
        Err(TryError::Create(_)) => Ok(*local.get_or(|| second)?),
    }
}

/// `get_or_try` in its long form: the value is there after `Ok`.
fn filled_and_read<R: Wait>(local: &mut Local<'_, u32, R>, made: Result<u32, u64>) -> Option<u32>
    requires { local.old.value ≡ None }
    ensures filled { IfSome result (λ got. local.new.value ≡ Some got) }
    ensures made { IfSome result (λ got. made ≡ Ok got) }
    ensures empty { result ≡ None → local.new.value ≡ None }
{
    match local.try_fill(|| made) {
        Ok(()) => local.get().copied(),
        Err(_) => None,
    }
}

/// At any type, with any error.
fn filled_or_empty<T: Send + Drop, E: Drop, R: Wait>(
    local: &mut Local<'_, T, R>,
    made: Result<T, E>,
) -> Result<(), TryError<E>>
    ensures ok { OnOk result (IsSome local.new.value) }
    ensures err { OnErr result (local.new.value ≡ None) }
{
    match local.try_fill(move || made) {
        Ok(()) => Ok(()),
        Err(error) => Err(error),
    }
}

/// A reference that outlives the borrow of the `Local`, with what an error leaves.
fn lasting_second<'a, R: Wait>(
    local: &mut Local<'a, u32, R>,
    error: u64,
    second: u32,
) -> Option<&'a u32>
    requires { local.old.value ≡ None }
    ensures made { IfSome result (λ there. (there.now ≡ second) × (local.new.value ≡ Some there.now)) }
    ensures empty { result ≡ None → local.new.value ≡ None }
{
    match local.get_or_try_lasting(|| Err::<u32, u64>(error)) {
        Ok(_) => unreachable!(),
        Err(_) => local.get_or_try_lasting(|| Ok::<u32, u64>(second)).ok(),
    }
}

/// Nor is one at any type, where the bucket is known to stand.
fn filled_where_known<T: Send + Drop, E: Drop, R: Wait>(
    local: &mut Local<'_, T, R>,
    made: Result<T, E>,
) -> bool
    requires { local.old.known ≡ true }
    ensures { result ≡ true }
{
    !matches!(local.try_fill(move || made), Err(TryError::Memory(_)))
}

/// Where a value is held, a closure that can't be called is taken.
fn held<R: Wait>(local: &mut Local<'_, u32, R>, value: u32) -> Result<u32, AllocError>
    requires { local.old.value ≡ None }
    ensures { IfOk result (λ got. got ≡ value) }
{
    local.get_or(|| value)?;
    Ok(*local.get_or(|| unreachable!())?)
}

/// Where a value is held, no call is refused memory, and none ends with an error of its closure.
fn held_is_answered<R: Wait>(local: &mut Local<'_, u32, R>, value: u32) -> bool
    requires { IsSome local.old.value }
    ensures answered { result ≡ true }
    ensures held { IsSome local.new.value }
{
    local.get_or(|| value).is_ok()
}

fn held_is_answered_by_default<R: Wait>(local: &mut Local<'_, u32, R>) -> bool
    ensures { result ≡ true }
{
    local.get().is_none() || local.get_or_default().is_ok()
}

fn held_is_no_error<R: Wait>(local: &mut Local<'_, u32, R>) -> bool
    requires { IsSome local.old.value }
    ensures { result ≡ true }
{
    local.get_or_try(|| Err::<u32, bool>(false)).is_ok()
}

fn held_is_full<R: Wait>(local: &mut Local<'_, u32, R>) -> bool
    requires { IsSome local.old.value }
    ensures answered { result ≡ true }
    ensures held { IsSome local.new.value }
{
    local.try_fill(|| Err::<u32, bool>(false)).is_ok()
}

/// The error is what the closure answered.
fn error_of_the_closure<R: Wait>(local: &mut Local<'_, u32, R>, error: u64) -> u64
    ensures { result ≡ error }
{
    match local.get_or_try(|| Err::<u32, u64>(error)) {
        Err(TryError::Create(told)) => told,
        _ => error,
    }
}

fn error_of_a_filling<R: Wait>(local: &mut Local<'_, u32, R>, error: u64) -> u64
    ensures { result ≡ error }
{
    match local.try_fill(|| Err::<u32, u64>(error)) {
        Err(TryError::Create(told)) => told,
        _ => error,
    }
}

/// The sum of what an owner's walk has still to give.
fn added_up(values: IterMut<'_, u64>) -> u128
    ensures { result ≡ sum (iter_mut_rest values.entry) }
{
    // So the count fits.
    let _ = values.len();
    let mut total = 0u128;
    for value in values {
        total += u128::from(*value);
    }
    total
}

/// A reserved `Local` is not refused memory.
fn never_refused<R: Wait>(local: &mut Local<'_, u32, R>, value: u32) -> bool
    ensures { result ≡ true }
{
    if local.is_reserved() {
        local.get_or(|| value).is_ok()
    } else {
        true
    }
}

/// A `Local` is reserved exactly where its id is below the table's reserved slots.
fn reserved_below_seven<R: Wait>(table: &ThreadLocal<u32>, rt: &R) -> bool
    requires { table.now.reserved ≡ 7 }
    ensures { result ≡ true }
{
    match table.local(rt) {
        Ok(local) => local.is_reserved() == (local.id() < 7),
        Err(_) => true,
    }
}

/// A `Local` keeps its id, whatever it publishes.
fn keeps_its_id<T: Send, R: Wait>(local: &mut Local<'_, T, R>, value: T) -> bool
where
    T: Drop,
    ensures { result ≡ true }
{
    let id = local.id();
    let published = local.get_or(|| value).is_ok();
    local.id() == id || !published
}

/// Two `Local`s that are held at once have two ids.
fn have_two_ids<T, R: Wait>(table: &ThreadLocal<T>, rt: &R) -> Option<bool>
    ensures { IfSome result (λ differ. differ ≡ true) }
{
    let Ok(mut first) = table.local(rt) else {
        return None;
    };
    let Ok(mut second) = table.local(rt) else {
        return None;
    };
    first.apart(&mut second);
    Some(first.id() != second.id())
}

fn number(alloc: Global) -> ThreadLocal<u32>
    ensures { result.reserved ≡ 0 }
{
    let table = ThreadLocal::new(alloc);
    crosses(&table);
    table
}

fn text(alloc: Global) -> ThreadLocal<String> {
    judge_sync::<String>();
    let table = ThreadLocal::new(alloc);
    crosses(&table);
    table
}

fn cell(alloc: Global) -> ThreadLocal<Cell<u64>> {
    Cell::<u64>::judge();
    let table = ThreadLocal::new(alloc);
    crosses(&table);
    table
}

fn ref_cell(alloc: Global) -> ThreadLocal<RefCell<String>> {
    let table = ThreadLocal::made_with(alloc);
    crosses(&table);
    table
}

fn generic<T: Send>(alloc: Global) -> ThreadLocal<T>
    requires judged { Judged T.row }
{
    let table = ThreadLocal::new(alloc);
    crosses(&table);
    table
}

fn with_room(alloc: Global, ids: usize) -> Result<ThreadLocal<u32>, CapacityError>
    ensures { IfOk result (λ table. table.reserved ≡ reserved_slots ids) }
{
    ThreadLocal::with_capacity(alloc, ids)
}

pub fn sync<T: Send + Sync>(alloc: Global) -> ThreadLocal<T> {
    ThreadLocal::new(alloc)
}

/// A walk gives its values with nothing that waits.
fn sum(walk: Iter<'_, u32>) -> u32 {
    let mut sum = 0u32;
    for value in walk {
        sum = sum.wrapping_add(*value);
    }
    sum
}

/// So does that of a `Local`.
fn sum_of<R: Wait>(local: &Local<'_, u32, R>) -> u32 {
    sum(local.iter())
}

/// A `Local` that holds no value.
fn empty_local<'a, R: Wait>(table: &'a ThreadLocal<u32>, rt: &'a R) -> Option<Local<'a, u32, R>>
    ensures { IfSome result (λ local. local.value ≡ None) }
{
    let Ok(local) = table.local(rt) else {
        return None;
    };
    if local.get().is_some() {
        return None;
    }
    Some(local)
}

/// Which caller is run at an empty slot.
#[derive(Drop)]
enum Caller {
    FirstOfTwo,
    SecondTry,
    LastingSecond,
    Held,
    EmptyAfterAnError,
    FailedAndRead,
    FilledAndRead,
}

/// What a caller gets at an empty slot, told 1 and 2 or one of them, and what the slot holds then.
fn got<R: Wait>(local: &mut Local<'_, u32, R>, caller: Caller) -> [Option<u32>; 2]
    requires { local.old.value ≡ None }
{
    let got = match caller {
        Caller::FirstOfTwo => first_of_two(local, 1, 2).ok(),
        Caller::SecondTry => second_try(local, 1, 2).ok(),
        Caller::LastingSecond => lasting_second(local, 1, 2).copied(),
        Caller::Held => held(local, 1).ok(),
        Caller::EmptyAfterAnError => {
            empty_after_an_error(local, 1);
            None
        }
        Caller::FailedAndRead => filled_and_read(local, Err(1)),
        Caller::FilledAndRead => filled_and_read(local, Ok(2)),
    };
    [got, local.get().copied()]
}

/// The same by a `Local` of a new table.
fn got_anew<R: Wait>(rt: &R, alloc: Global, caller: Caller) -> Option<[Option<u32>; 2]> {
    let table = number(alloc);
    Some(got(&mut empty_local(&table, rt)?, caller))
}

#[test]
fn callers_of_an_empty_slot_are_answered(rt: HostRuntime) {
    let alloc = rt.alloc();
    let filled = [
        got_anew(&rt, alloc, Caller::FirstOfTwo),
        got_anew(&rt, alloc, Caller::Held),
        got_anew(&rt, alloc, Caller::SecondTry),
        got_anew(&rt, alloc, Caller::LastingSecond),
        got_anew(&rt, alloc, Caller::FilledAndRead),
    ];
    let left_empty = [
        got_anew(&rt, alloc, Caller::EmptyAfterAnError),
        got_anew(&rt, alloc, Caller::FailedAndRead),
    ];
    let (one, two) = (Some([Some(1); 2]), Some([Some(2); 2]));
    assert_same(
        &rt,
        (filled, left_empty),
        ([one, one, two, two, two], [Some([None; 2]); 2]),
    );
}

/// Whether a `Local` with an empty slot is granted memory after an error, keeps its id, and is
/// answered by default.
fn granted<R: Wait>(local: &mut Local<'_, u32, R>) -> [bool; 3] {
    [
        granted_after_an_error(local, 5),
        keeps_its_id(local, 6),
        held_is_answered_by_default(local),
    ]
}

/// Whether callers are answered where a value is held.
fn answered<R: Wait>(local: &mut Local<'_, u32, R>) -> [bool; 3]
    requires { IsSome local.old.value }
{
    [
        held_is_answered(local, 7),
        held_is_full(local),
        held_is_no_error(local),
    ]
}

/// Both, one after the other, and what the slot holds then.
fn granted_and_answered<R: Wait>(
    local: &mut Local<'_, u32, R>,
) -> Option<([bool; 3], [bool; 3], u32)> {
    let granted = granted(local);
    if local.get().is_none() {
        return None;
    }
    let answered = answered(local);
    Some((granted, answered, *local.get()?))
}

/// The errors that callers are told at an empty slot, whether another fills it with 10, and the sum
/// of the table's values then.
fn errors_and_filled<R: Wait>(local: &mut Local<'_, u32, R>) -> ([u64; 2], bool, u32) {
    let errors = [error_of_the_closure(local, 8), error_of_a_filling(local, 9)];
    let is_filled = filled_or_empty::<u32, bool, R>(local, Ok(10)).is_ok();
    (errors, is_filled, sum_of(local))
}

#[test]
fn callers_are_granted_memory_and_told_errors(rt: HostRuntime) {
    let (one, other) = (number(rt.alloc()), number(rt.alloc()));
    let granted = granted_and_answered(&mut one.local(&rt).expect(&rt, "an id"));
    let told = errors_and_filled(&mut other.local(&rt).expect(&rt, "an id"));
    assert_same(
        &rt,
        (granted, told),
        (Some(([true; 3], [true; 3], 5)), ([8, 9], true, 10)),
    );
}

/// Whether callers aren't refused memory at a reserved slot, which is filled with 4.
fn fill_reserved<R: Wait>(local: &mut Local<'_, u32, R>) -> Option<([bool; 2], u32)> {
    if !local.is_reserved() {
        return None;
    }
    let granted = [
        filled_where_known(local, Ok::<u32, bool>(4)),
        never_refused(local, 5),
    ];
    Some((granted, *local.get()?))
}

/// A table with room for four ids, of which seven slots are reserved.
fn with_seven(alloc: Global) -> Option<ThreadLocal<u32>>
    ensures { IfSome result (λ table. table.reserved ≡ 7) }
{
    with_room(alloc, 4).ok()
}

/// How many slots new tables of four types have.
fn slots_of_new(alloc: Global) -> [usize; 4] {
    [
        generic::<u8>(alloc).slots(),
        ref_cell(alloc).slots(),
        text(alloc).slots(),
        cell(alloc).slots(),
    ]
}

/// A `Local` publishes 7.
fn publish_seven<R: Wait>(table: &ThreadLocal<u64>, rt: &R) -> Option<()> {
    let Ok(mut local) = table.local(rt) else {
        return None;
    };
    local.set(7).ok()
}

/// The sum of what an owner's walk gives, where a `Local` published 7.
fn added_up_to_seven<R: Wait>(mut table: ThreadLocal<u64>, rt: &R) -> Option<u128> {
    publish_seven(&table, rt)?;
    Some(added_up(table.iter_mut()))
}

#[test]
fn callers_of_a_table_are_answered(rt: HostRuntime) {
    let table = with_seven(rt.alloc()).expect(&rt, "memory");
    let filled = fill_reserved(&mut table.local(&rt).expect(&rt, "an id"));
    let of_ids = (reserved_below_seven(&table, &rt), have_two_ids(&table, &rt));
    let added = added_up_to_seven(sync(rt.alloc()), &rt);
    assert_same(
        &rt,
        (slots_of_new(rt.alloc()), filled, of_ids, added),
        ([0; 4], Some(([true; 2], 4)), (true, Some(true)), Some(7)),
    );
}

fn generic_local<T: Send, R: Wait + Sync>(local: Local<'_, T, R>) {
    is_sent(&local);
}

fn ref_cell_local<R: Wait + Sync>(local: Local<'_, RefCell<String>, R>) {
    is_sent(&local);
}

fn shared_local<T: Send + Sync, R: Wait + Sync>(local: &Local<'_, T, R>) {
    crosses(local);
}
