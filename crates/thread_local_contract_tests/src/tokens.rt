//! What slots were published with, as tokens say it: to threads, to whoever takes an id later, and
//! to the owner.
ghost use Rattle.std.specs.Prelude.{◌≡◌, true, IfSome, IsSome, None, Some};
ghost use Rattle.thread_local_base.specs.Judged.{Judged};
ghost use Rattle.thread_local_base.specs.Buckets.{values};

use crate::same::assert_same;
use std::alloc::Global;
use std::cell::Cell;
use std::sync::Wait;
use std::thread;
use std::thread::Threads;
use thread_local::ThreadLocal;
use thread_local::local::{Local, SetError};
use thread_local_base::{Judge, Thread, judge_sync};
use thread_local_buckets::Buckets;
use thread_local_ids::{Book, Token, Told};
use thread_local_shared_buckets::Tokens;

/// Publishes a value with a new `Local`, and answers a token of what the slot holds.
fn told<T: Send + Drop, R: Wait>(table: &ThreadLocal<T>, rt: &R, value: T) -> Option<Token<T>>
    ensures { IfSome result (λ token. token.sharing ≡ table.now.sharing) }
{
    let Ok(mut local) = table.local(rt) else {
        return None;
    };
    local.get_or(move || value).ok()?;
    local.token()
}

/// A value that is set in an empty slot is what the token says.
fn set_and_told<T, R: Wait>(local: &mut Local<'_, T, R>, value: T) -> Option<Token<T>>
where
    T: Drop,
    requires { local.old.value ≡ None }
    ensures token { IfSome result (λ token.
        (token.sharing ≡ local.old.sharing) × (token.id ≡ local.old.id) × (token.value ≡ value)) }
    ensures same { local.new.id ≡ local.old.id }
{
    local.set(value).ok()?;
    local.token()
}

/// Where a `Local` has the token's id, it holds the token's value.
fn resumed<T: Copy, R: Wait>(table: &ThreadLocal<T>, rt: &R, token: &Token<T>) -> Option<T>
    requires { (token.now.sharing ≡ table.now.sharing) × IsSome table.now.sharing }
    ensures { IfSome result (λ value. value ≡ token.now.value) }
{
    let Ok(mut local) = table.local(rt) else {
        return None;
    };
    if local.id() != token.id() {
        return None;
    }
    local.agrees(token);
    match local.get() {
        Some(value) => Some(*value),
        None => unreachable!(),
    }
}

/// What a table with one sharing more reads by a token of the one that it has.
fn read_at_last(table: &mut ThreadLocal<u32>, token: &Token<u32>) -> u32
    requires { (token.now.sharing ≡ table.old.sharing) × IsSome table.old.sharing }
    ensures { result ≡ token.now.value }
{
    let read = *table.value(token);
    table.renew();
    read
}

/// The owner's buckets hold what two tokens say, at their ids.
fn owned<T>(table: ThreadLocal<T>, one: &Token<T>, other: &Token<T>) -> Buckets<T>
    requires sharing { (one.now.sharing ≡ table.sharing) × (other.now.sharing ≡ table.sharing) }
    requires named { IsSome table.sharing }
    ensures one { values result.contents one.now.id ≡ Some one.now.value }
    ensures other { values result.contents other.now.id ≡ Some other.now.value }
{
    let (buckets, book) = table.into_buckets_and_book();
    book.tells(one);
    book.tells(other);
    buckets
}

/// What a token says is what the book has a token of.
fn told_again<T>(book: &Book<T>, token: &Token<T>) -> Token<T>
    requires sharing { token.now.sharing ≡ book.now.sharing }
    requires named { IsSome book.now.sharing }
    ensures { result ≡ token.now }
{
    book.tells(token);
    book.token(token.id())
}

/// What an owner's buckets hold at a token's id.
fn found<T: Copy>(buckets: &mut Buckets<T>, token: &Token<T>) -> Option<T> {
    buckets.get_mut(Thread::new(token.id())).copied()
}

fn owned_and_found<T: Copy>(
    table: ThreadLocal<T>,
    one: &Token<T>,
    other: &Token<T>,
) -> (Option<T>, Option<T>)
    requires sharing { (one.now.sharing ≡ table.sharing) × (other.now.sharing ≡ table.sharing) }
    requires named { IsSome table.sharing }
{
    let mut buckets = owned(table, one, other);
    (found(&mut buckets, one), found(&mut buckets, other))
}

/// Whether a shared walk that runs to its end gives as many values as expected.
fn walks_with<T: Sync>(table: &ThreadLocal<T>, token: &Token<T>, expected: usize) -> bool
    requires { (token.now.sharing ≡ table.now.sharing) × IsSome table.now.sharing }
{
    table.iter_told(Told::new().and(token)).count() == expected
}

// What two threads read, each by the other's token, and whether walks with the tokens give two.
fn read_and_walked<R: Threads>(
    table: &ThreadLocal<u32>,
    rt: &R,
    mine: &Token<u32>,
    yours: &Token<u32>,
) -> ((u32, u32), (bool, bool))
    requires mine { mine.now.sharing ≡ table.now.sharing }
    requires yours { yours.now.sharing ≡ table.now.sharing }
    requires named { IsSome table.now.sharing }
{
    let read = thread::join(rt, || *table.value(yours), || *table.value(mine));
    let walked = (walks_with(table, mine, 2), walks_with(table, yours, 2));
    (read, walked)
}

/// Where two walks of one sharing come to one id, they give one value.
fn give_the_same(one: &mut Tokens<'_, u32>, other: &mut Tokens<'_, u32>) -> bool
    requires { (one.old.sharing ≡ other.old.sharing) × IsSome one.old.sharing }
    ensures { result ≡ true }
{
    let (Some((token, value)), Some((other_token, other_value))) = (one.next(), other.next()) else {
        return true;
    };
    if token.id() != other_token.id() {
        return true;
    }
    token.agrees(&other_token);
    *value == *other_value
}

/// Where a walk comes to the id of a token, it gives the token's value.
fn gives_what_is_told(walk: &mut Tokens<'_, u32>, told: &Token<u32>, value: u32) -> bool
    requires sharing { (walk.old.sharing ≡ told.now.sharing) × IsSome told.now.sharing }
    requires value { told.now.value ≡ value }
    ensures { result ≡ true }
{
    let Some((token, item)) = walk.next() else {
        return true;
    };
    if token.id() != told.id() {
        return true;
    }
    told.agrees(&token);
    *item == value
}

/// So is the value of a `Local` what a walk gives at its id, whoever walks.
fn is_given_as_it_is_held<R: Wait>(
    table: &ThreadLocal<u32>,
    local: &mut Local<'_, u32, R>,
    value: u32,
) -> bool
    requires sharing { (local.old.sharing ≡ table.now.sharing) × IsSome table.now.sharing }
    requires value { local.old.value ≡ Some value }
    ensures { result ≡ true }
{
    match local.token() {
        Some(token) => gives_what_is_told(&mut table.tokens(), &token, value),
        None => false,
    }
}

/// The id and the value that a walk gives with a token.
fn entry(item: (Token<u32>, &u32)) -> (usize, u32) {
    let (token, value) = item;
    (token.id(), *value)
}

/// What a walk gives first and second, and whether it gives no more and tells no bound.
fn first_two(walk: Tokens<'_, u32>) -> (Option<(usize, u32)>, Option<(usize, u32)>, bool) {
    let mut walk = walk;
    let first = walk.next().map(entry);
    let second = walk.next().map(entry);
    let over = walk.size_hint() == (0, None) && walk.next().is_none() && walk.next().is_none();
    (first, second, over)
}

/// How many values a walk with tokens gives.
fn counted<T: Sync>(table: &ThreadLocal<T>) -> usize {
    table.tokens().count()
}

/// What the walks with tokens of a table and of a `Local` give, where two `Local`s published 6 and 7.
fn published_and_walked<R: Wait>(
    table: &ThreadLocal<u32>,
    rt: &R,
) -> Option<[(Option<(usize, u32)>, Option<(usize, u32)>, bool); 3]> {
    let Ok(mut first) = table.local(rt) else {
        return None;
    };
    let Ok(mut second) = table.local(rt) else {
        return None;
    };
    first.set(6).ok()?;
    second.set(7).ok()?;
    let of_the_second = first_two(second.tokens());
    Some([
        first_two(table.tokens()),
        first_two(first.tokens()),
        of_the_second,
    ])
}

#[test]
fn walks_give_each_value_with_a_token(rt: HostRuntime) {
    let table = ThreadLocal::<u32>::new(rt.alloc());
    let walked = published_and_walked(&table, &rt);
    let count = counted(&table);
    let same = give_the_same(&mut table.tokens(), &mut table.tokens());
    let both = (Some((0, 6)), Some((1, 7)), true);
    assert_same(&rt, (walked, count, same), (Some([both; 3]), 2, true));
}

/// Whether a walk gives what a new `Local` holds, which publishes 5.
fn held_and_given<R: Wait>(table: &ThreadLocal<u32>, rt: &R) -> Option<bool>
    requires named { IsSome table.now.sharing }
{
    let Ok(mut local) = table.local(rt) else {
        return None;
    };
    let value = *local.get_or(|| 5).ok()?;
    Some(is_given_as_it_is_held(table, &mut local, value))
}

#[test]
fn a_walk_gives_what_a_local_holds(rt: HostRuntime) {
    let table = ThreadLocal::<u32>::new(rt.alloc());
    assert_same(&rt, held_and_given(&table, &rt), Some(true));
}

/// Sets 3 where a `Local` finds nothing.
fn set_three<R: Wait>(local: &mut Local<'_, u32, R>) -> Option<Token<u32>>
    ensures { IfSome result (λ token. token.sharing ≡ local.old.sharing) }
{
    match local.get() {
        None => set_and_told(local, 3),
        Some(_) => None,
    }
}

/// A `Local` sets 3, and while it is held another thread publishes 5. Answers their tokens, with what
/// is read and walked by them.
fn told_by_two<R: Threads + Wait + Sync>(
    table: &ThreadLocal<u32>,
    rt: &R,
) -> Option<((Token<u32>, Token<u32>), ((u32, u32), (bool, bool)))>
    requires named { IsSome table.now.sharing }
    ensures mine { IfSome result (λ told. told.0.0.sharing ≡ table.now.sharing) }
    ensures yours { IfSome result (λ told. told.0.1.sharing ≡ table.now.sharing) }
{
    let Ok(mut first) = table.local(rt) else {
        return None;
    };
    let mine = set_three(&mut first)?;
    let yours = thread::join(rt, || told(table, rt, 5), || {}).0?;
    let answers = read_and_walked(table, rt, &mine, &yours);
    Some(((mine, yours), answers))
}

#[test]
fn threads_read_each_other_by_tokens(rt: HostRuntime) {
    let table = ThreadLocal::<u32>::new(rt.alloc());
    let told = told_by_two(&table, &rt).expect(&rt, "two tokens");
    let ((mine, yours), answers) = told;
    let ids = (mine.id(), yours.id());
    let owned = owned_and_found(table, &mine, &yours);
    assert_same(
        &rt,
        (answers, ids, owned),
        (((5, 3), (true, true)), (0, 1), (Some(3), Some(5))),
    );
}

/// The id that a book tells once more, and what the walk beside it gives first.
fn told_again_and_first(table: ThreadLocal<u32>, token: &Token<u32>) -> (usize, Option<u32>)
    requires { (token.now.sharing ≡ table.sharing) × IsSome table.sharing }
{
    let (mut walk, book) = table.into_iter_and_book();
    (told_again(&book, token).id(), walk.next())
}

#[test]
fn a_book_tells_what_a_token_told(rt: HostRuntime) {
    let table = ThreadLocal::<u32>::new(rt.alloc());
    let token = told(&table, &rt, 8).expect(&rt, "a token");
    assert_same(&rt, told_again_and_first(table, &token), (0, Some(8)));
}

// What a `Local` of another thread has by a token, and then one beside another, with the other's id.
fn resumed_apart_and_beside<R: Threads + Wait + Sync>(
    table: &ThreadLocal<u32>,
    rt: &R,
    token: &Token<u32>,
) -> Option<(Option<u32>, Option<u32>, usize)>
    requires { (token.now.sharing ≡ table.now.sharing) × IsSome table.now.sharing }
{
    let apart = thread::join(rt, || resumed(table, rt, token), || {}).0;
    let Ok(first) = table.local(rt) else {
        return None;
    };
    Some((apart, resumed(table, rt, token), first.id()))
}

#[test]
fn the_next_holder_of_an_id_goes_on(rt: HostRuntime) {
    let table = ThreadLocal::<u32>::new(rt.alloc());
    let token = told(&table, &rt, 8).expect(&rt, "a token");
    assert_same(
        &rt,
        resumed_apart_and_beside(&table, &rt, &token),
        Some((Some(8), None, 0)),
    );
}

/// Whether a text is read by its token, while the table is borrowed and another is asked for.
fn is_read_as_told<R: Wait>(table: &ThreadLocal<String>, rt: &R, alloc: Global) -> Option<bool>
    requires named { IsSome table.now.sharing }
{
    let text = String::from_str(alloc, "kept").ok()?;
    let token = told(table, rt, text)?;
    let read = table.value(&token);
    let other = told(table, rt, String::new(alloc));
    Some(other.is_some() && read.as_str() == "kept")
}

#[test]
fn a_text_is_read_while_the_table_is_borrowed(rt: HostRuntime) {
    judge_sync::<String>();
    let table = ThreadLocal::<String>::new(rt.alloc());
    assert_same(&rt, is_read_as_told(&table, &rt, rt.alloc()), Some(true));
}

/// A table of cells, which threads hand on and don't share.
fn cells(alloc: Global) -> ThreadLocal<Cell<u32>>
    ensures { IsSome result.sharing }
{
    Cell::<u32>::judge();
    ThreadLocal::new(alloc)
}

fn owned_cell(table: ThreadLocal<Cell<u32>>, token: &Token<Cell<u32>>) -> Option<u32>
    requires { (token.now.sharing ≡ table.sharing) × IsSome table.sharing }
{
    let mut buckets = owned(table, token, &token.again());
    buckets
        .get_mut(Thread::new(token.id()))
        .map(|cell| cell.get())
}

#[test]
fn an_owner_finds_a_cell_by_its_token(rt: HostRuntime) {
    let table = cells(rt.alloc());
    let (token, ()) = thread::join(&rt, || told(&table, &rt, Cell::new(4)), || {});
    let token = token.expect(&rt, "a token");
    let cell = owned_cell(table, &token);
    assert_same(&rt, (token.id(), cell), (0, Some(4)));
}

/// A token of a table of any type, for whoever has the table next.
fn generic<T: Send + Drop, R: Wait>(alloc: Global, rt: &R, value: T) -> Option<Buckets<T>>
    requires judged { Judged T.row }
{
    let table = ThreadLocal::new(alloc);
    let token = told(&table, rt, value)?;
    Some(owned(table, &token, &token))
}

fn add_one(table: &mut ThreadLocal<u32>) {
    for value in table.iter_mut() {
        *value = value.wrapping_add(1);
    }
}

// Publishes a value with a new `Local`. Answers its id, and what is read by its token.
fn told_and_read<R: Wait>(table: &ThreadLocal<u32>, rt: &R, value: u32) -> Option<(usize, u32)>
    requires { IsSome table.now.sharing }
{
    let token = told(table, rt, value)?;
    Some((token.id(), *table.value(&token)))
}

#[test]
fn another_sharing_has_other_tokens(rt: HostRuntime) {
    let mut table = ThreadLocal::<u32>::new(rt.alloc());
    let first = told(&table, &rt, 6).expect(&rt, "a token");
    let read = read_at_last(&mut table, &first);
    add_one(&mut table);
    table.renew();
    let renewed = told_and_read(&table, &rt, 0);
    table.clear();
    let cleared = told_and_read(&table, &rt, 9);
    let is_any_type_told = generic(rt.alloc(), &rt, 2u8).is_some();
    assert_same(
        &rt,
        (read, renewed, cleared, is_any_type_told),
        (6, Some((0, 7)), Some((0, 9)), true),
    );
}

// What a new `Local` is told when it sets 1, and when it then sets 2, and what it finds.
fn set_twice<R: Wait>(
    table: &ThreadLocal<u32>,
    rt: &R,
) -> Option<([Result<(), SetError<u32>>; 2], Option<u32>)> {
    let Ok(mut local) = table.local(rt) else {
        return None;
    };
    Some(([local.set(1), local.set(2)], local.get().copied()))
}

#[test]
fn a_value_is_set_once(rt: HostRuntime) {
    let table = ThreadLocal::<u32>::new(rt.alloc());
    assert_same(
        &rt,
        set_twice(&table, &rt),
        Some(([Ok(()), Err(SetError::Occupied(2))], Some(1))),
    );
}
