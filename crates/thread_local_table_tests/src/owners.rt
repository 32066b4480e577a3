//! What an owner finds in a table and in the buckets that it lends.
ghost use Rattle.std.specs.Prelude.{◌≡◌, ◌≢◌, [], true, All, IfSome, IsPermutation, IsSome, length, map, sum};
ghost use Rattle.std.specs.List.{AllPairs};
ghost use Rattle.thread_local_base.specs.Buckets.{values};
ghost use Rattle.thread_local_base.specs.Walk.{walk};
ghost use Rattle.thread_local_buckets.specs.Drain.{drain_rest};
ghost use Rattle.thread_local_buckets.specs.IterMut.{iter_mut_rest};

use crate::locals::{lends, numbers, publish_and_forget, published_by_another};
use crate::same::assert_same;
use std::alloc::{AllocError, Global};
use std::sync::Wait;
use std::test::Fail;
use thread_local::ThreadLocal;
use thread_local::table::Token;
use thread_local_base::Thread;
use thread_local_buckets::{Buckets, Drain, IntoIter, IterMut};

/// How many values a walk lends, and their sum.
fn lent(walk: IterMut<'_, u32>) -> (usize, u128)
    ensures count { result.0 ≡ length (iter_mut_rest walk.entry) }
    ensures sum { result.1 ≡ sum (iter_mut_rest walk.entry) }
{
    // So the count fits.
    let _ = walk.len();
    let mut count = 0usize;
    let mut total = 0u128;
    for value in walk {
        count += 1;
        total += u128::from(*value);
    }
    (count, total)
}

/// How many values buckets have, and their sum.
fn counted(buckets: &mut Buckets<u32>) -> (usize, u128)
    ensures count { result.0 ≡ length (walk (values buckets.old.contents)) }
    ensures sum { result.1 ≡ sum (walk (values buckets.old.contents)) }
    ensures reserved { buckets.new.reserved ≡ buckets.old.reserved }
{
    lent(buckets.iter_mut())
}

/// The same of the buckets that a table lends: it keeps its name and its reserved slots.
fn counted_in_a_table(table: &mut ThreadLocal<u32>) -> (usize, u128)
    ensures { (table.new.table ≡ table.old.table) × (table.new.reserved ≡ table.old.reserved) }
{
    counted(table.buckets_mut())
}

/// The same of the buckets that a table is taken apart into.
fn counted_by_value(table: ThreadLocal<u32>) -> (usize, u128) {
    counted(&mut table.into_buckets())
}

/// How many values of any type a table's buckets have.
fn counted_of_any_type<T>(table: &mut ThreadLocal<T>) -> usize
    ensures { (table.new.table ≡ table.old.table) × (table.new.reserved ≡ table.old.reserved) }
{
    table.buckets_mut().iter_mut().len()
}

/// Puts a value into a table's slot of the id 2.
fn put(table: &mut ThreadLocal<u32>, value: u32) -> Result<(), AllocError> {
    match table.buckets_mut().insert(Thread::new(2), value) {
        Ok(_) => Ok(()),
        Err(_) => Err(AllocError),
    }
}

/// What a walk by value gives first, of three values.
fn three_moved_out(table: ThreadLocal<u32>) -> [Option<u32>; 3] {
    let mut values = table.into_iter();
    [values.next(), values.next(), values.next()]
}

fn counted_twice(table: &mut ThreadLocal<u32>) -> ((usize, u128), usize) {
    (counted_in_a_table(table), counted_of_any_type(table))
}

#[test]
fn an_owner_finds_and_puts_values_in_a_table(rt: HostRuntime) -> Result<(), Fail> {
    let mut table = numbers(rt.alloc());
    let published = published_by_another(&table, &rt, 7);
    put(&mut table, 30)?;
    let found = counted_twice(&mut table);
    let are_lent = lends(&mut table, &[7, 30]);
    assert_same(
        &rt,
        (published, found, are_lent, three_moved_out(table)),
        (
            Some([None, Some(7), Some(7)]),
            ((2, 37), 2),
            true,
            [Some(7), Some(30), None],
        ),
    );
    Ok(())
}

/// The ids and numbers of two values, as an owner's walk lends them.
fn first_two(table: &mut ThreadLocal<u32>) -> [Option<(usize, u32)>; 2] {
    let mut entries = table.entries_mut();
    let first = entries.next().map(|(id, number)| (id, *number));
    [first, entries.next().map(|(id, number)| (id, *number))]
}

/// The id of the first value of any type.
fn first_id<T: Drop>(table: ThreadLocal<T>) -> Option<usize> {
    table.into_entries().next().map(|(id, _)| id)
}

/// Takes all values of any type out of a table, which keeps its name, and answers whether there
/// were any.
fn drained<T: Drop>(table: &mut ThreadLocal<T>) -> bool
    ensures { table.new.table ≡ table.old.table }
{
    let mut any = false;
    for value in table.drain() {
        drop(value);
        any = true;
    }
    any
}

/// Drops all values of any type, and keeps the reserved slots.
fn drop_each<T: Drop>(buckets: &mut Buckets<T>)
    ensures { buckets.new.reserved ≡ buckets.old.reserved }
{
    for value in buckets.drain() {
        drop(value);
    }
}

/// The same of the buckets that a table lends: it keeps its name and its reserved slots.
fn drop_each_in_a_table<T: Drop>(table: &mut ThreadLocal<T>)
    ensures { (table.new.table ≡ table.old.table) × (table.new.reserved ≡ table.old.reserved) }
{
    drop_each(table.buckets_mut());
}

// Drains a table twice, and drops what is left. Answers whether there were values either time, and
// how many slots it had then.
fn drained_twice(table: &mut ThreadLocal<u32>) -> (bool, bool, usize) {
    let taken = (drained(table), drained(table), table.slots());
    drop_each_in_a_table(table);
    taken
}

#[test]
fn an_owner_finds_ids_and_drains_a_table(rt: HostRuntime) -> Result<(), Fail> {
    let mut table = numbers(rt.alloc());
    let forgotten = publish_and_forget(&table, &rt, 7);
    put(&mut table, 30)?;
    let first = (forgotten, first_two(&mut table));
    let taken = drained_twice(&mut table);
    let next = published_by_another(&table, &rt, 8);
    assert_same(
        &rt,
        (first, taken, next, first_id(table)),
        (
            (Some(7), [Some((0, 7)), Some((2, 30))]),
            (true, false, 1 + 2),
            Some([None, Some(8), Some(8)]),
            Some(1),
        ),
    );
    Ok(())
}

/// What a drain gives first, of three values.
fn first_three_drained(table: &mut ThreadLocal<u32>) -> [Option<u32>; 3] {
    let mut values = table.drain();
    [values.next(), values.next(), values.next()]
}

#[test]
fn a_table_is_drained_of_each_value(rt: HostRuntime) -> Result<(), Fail> {
    let mut table = numbers(rt.alloc());
    let forgotten = publish_and_forget(&table, &rt, 7);
    put(&mut table, 30)?;
    assert_same(
        &rt,
        (forgotten, first_three_drained(&mut table)),
        (Some(7), [Some(7), Some(30), None]),
    );
    Ok(())
}

/// Clears the buckets that a table lends, and answers how many slots they have then: the reserved
/// ones and no more.
fn slots_once_cleared(table: &mut ThreadLocal<u32>) -> usize
    ensures { result ≡ table.old.reserved }
{
    let buckets = table.buckets_mut();
    buckets.clear();
    buckets.slots()
}

// Makes the bucket of the id 3, which is the fourth.
fn put_fourth(table: &mut ThreadLocal<u32>) -> bool {
    table.buckets_mut().insert(Thread::new(3), 40).is_ok()
}

// How many slots a table of the capacity 2 has with a fourth value, and once its buckets are cleared.
fn slots_of_two(alloc: Global) -> Option<(bool, usize, usize, usize)> {
    let mut table = ThreadLocal::with_capacity(alloc, 2).ok()?;
    let is_made = put_fourth(&mut table);
    let before = table.slots();
    Some((
        is_made,
        before,
        slots_once_cleared(&mut table),
        table.slots(),
    ))
}

#[test]
fn cleared_buckets_have_the_reserved_slots(rt: HostRuntime) {
    assert_same(&rt, slots_of_two(rt.alloc()), Some((true, 1 + 2 + 4, 3, 3)));
}

/// Writes the value at an id, and answers what stood there. The table keeps its name and its
/// reserved slots.
fn write_at<T>(table: &mut ThreadLocal<T>, id: usize, value: T) -> Result<T, T>
    ensures { (table.new.table ≡ table.old.table) × (table.new.reserved ≡ table.old.reserved) }
{
    match table.get_mut(id) {
        Some(there) => Ok(std::mem::replace(there, value)),
        None => Err(value),
    }
}

/// No id past the last has a value.
fn past_the_last(table: &mut ThreadLocal<u32>) -> bool
    ensures { result ≡ true }
{
    table.get_mut(9223372036854775807).is_none()
}

#[test]
fn an_owner_reaches_a_value_by_its_id(rt: HostRuntime) -> Result<(), Fail> {
    let mut table = numbers(rt.alloc());
    put(&mut table, 30)?;
    let written = [2, 0, 3, 9223372036854775806].map(|id| write_at(&mut table, id, 40));
    let again = write_at(&mut table, 2, 50);
    let past = past_the_last(&mut table);
    assert_same(
        &rt,
        (written, again, past, counted_by_value(table)),
        ([Ok(30), Err(40), Err(40), Err(40)], Ok(40), true, (1, 50)),
    );
    Ok(())
}

/// A walk by value gives the values of the tokens, where there are as many.
fn walked<T: Drop>(table: ThreadLocal<T>, tokens: &[Token<T>]) -> Option<IntoIter<T>>
    requires sharing { All (λ token. token.sharing ≡ table.sharing) tokens.now }
    requires named { IsSome table.sharing }
    requires different { AllPairs (λ one other. one.id ≢ other.id) tokens.now }
    ensures { IfSome result (λ walked. IsPermutation (map (λ token. token.value) tokens.now) walked) }
{
    let (walked, book) = table.into_iter_and_book();
    if walked.len() != tokens.len() {
        return None;
    }
    book.tells_all(tokens);
    Some(walked)
}

/// So does a drain.
fn drained_as_told<'a, T: Drop>(
    table: &'a mut ThreadLocal<T>,
    tokens: &[Token<T>],
) -> Option<Drain<'a, T>>
    requires sharing { All (λ token. token.sharing ≡ table.old.sharing) tokens.now }
    requires named { IsSome table.old.sharing }
    requires different { AllPairs (λ one other. one.id ≢ other.id) tokens.now }
    ensures { IfSome result (λ drain.
        IsPermutation (map (λ token. token.value) tokens.now) (drain_rest drain)) }
{
    let (buckets, book) = table.buckets_mut_and_book();
    let drain = buckets.drain();
    if drain.len() != tokens.len() {
        return None;
    }
    book.tells_all(tokens);
    Some(drain)
}

/// And a walk that lends them for writing.
fn lent_as_told<'a, T>(table: &'a mut ThreadLocal<T>, tokens: &[Token<T>]) -> Option<IterMut<'a, T>>
    requires sharing { All (λ token. token.sharing ≡ table.old.sharing) tokens.now }
    requires named { IsSome table.old.sharing }
    requires different { AllPairs (λ one other. one.id ≢ other.id) tokens.now }
    ensures { IfSome result (λ walk.
        IsPermutation (map (λ token. token.value) tokens.now) (iter_mut_rest walk)) }
{
    let (buckets, book) = table.buckets_mut_and_book();
    let walk = buckets.iter_mut();
    if walk.len() != tokens.len() {
        return None;
    }
    book.tells_all(tokens);
    Some(walk)
}

/// Writes 0 over each value that a walk lends, and answers the sum of those that stood there.
fn zeroed(walk: IterMut<'_, u32>) -> u128
    ensures { result ≡ sum (iter_mut_rest walk.entry) }
{
    // So the count fits.
    let _ = walk.len();
    let mut total = 0u128;
    for value in walk {
        total += u128::from(*value);
        *value = 0;
    }
    total
}

/// So an owner says which values it changed: they are those of the tokens.
fn zeroed_as_told(table: &mut ThreadLocal<u32>, tokens: &[Token<u32>]) -> Option<u128>
    requires sharing { All (λ token. token.sharing ≡ table.old.sharing) tokens.now }
    requires named { IsSome table.old.sharing }
    requires different { AllPairs (λ one other. one.id ≢ other.id) tokens.now }
    ensures { IfSome result (λ total. total ≡ sum (map (λ token. token.value) tokens.now)) }
{
    Some(zeroed(lent_as_told(table, tokens)?))
}

/// A table whose slots were cleared in one loan gives nothing in that loan.
fn emptied<T: Drop>(table: &mut ThreadLocal<T>) -> IterMut<'_, T>
    ensures { iter_mut_rest result ≡ [] }
{
    let buckets = table.buckets_mut();
    buckets.clear();
    buckets.iter_mut()
}

// Two `Local`s that are held at once publish a number each. Answers the tokens.
fn two_told<R: Wait>(
    table: &ThreadLocal<u32>,
    rt: &R,
    first: u32,
    second: u32,
) -> Option<(Token<u32>, Token<u32>)>
    ensures sharing { IfSome result (λ told.
        (told.0.sharing ≡ table.now.sharing) × (told.1.sharing ≡ table.now.sharing)) }
    ensures different { IfSome result (λ told. told.0.id ≢ told.1.id) }
{
    let mut one = table.local(rt).ok()?;
    let mut other = table.local(rt).ok()?;
    one.apart(&mut other);
    Some((one.publish(first).ok()?, other.publish(second).ok()?))
}

// The sum of two numbers that an owner writes 0 over, and whether these lie there then.
fn zeroed_of_two<R: Wait>(alloc: Global, rt: &R) -> Option<(Option<u128>, bool)> {
    let mut table = numbers(alloc);
    let (one, other) = two_told(&table, rt, 7, 8)?;
    let total = zeroed_as_told(&mut table, &[one, other]);
    Some((total, lends(&mut table, &[0, 0])))
}

// How many values a drain gives, where two are told.
fn drained_of_two<R: Wait>(alloc: Global, rt: &R) -> Option<usize> {
    let mut table = numbers(alloc);
    let (one, other) = two_told(&table, rt, 7, 8)?;
    Some(drained_as_told(&mut table, &[one, other])?.len())
}

// How many a walk by value gives.
fn walked_of_two<R: Wait>(alloc: Global, rt: &R) -> Option<usize> {
    let table = numbers(alloc);
    let (one, other) = two_told(&table, rt, 7, 8)?;
    Some(walked(table, &[one, other])?.len())
}

// How many are left in a cleared table, where two were told.
fn left_of_two<R: Wait>(alloc: Global, rt: &R) -> Option<usize> {
    let mut table = numbers(alloc);
    two_told(&table, rt, 7, 8)?;
    Some(emptied(&mut table).len())
}

#[test]
fn an_owner_finds_what_tokens_tell(rt: HostRuntime) {
    assert_same(
        &rt,
        (
            zeroed_of_two(rt.alloc(), &rt),
            drained_of_two(rt.alloc(), &rt),
            walked_of_two(rt.alloc(), &rt),
            left_of_two(rt.alloc(), &rt),
        ),
        (Some((Some(15), true)), Some(2), Some(2), Some(0)),
    );
}
