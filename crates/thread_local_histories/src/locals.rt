//! The calls of a `Local`, each recorded.
ghost use Rattle.std.specs.Prelude.{◌≡◌, IfOk, IfSome, IsSome};

use crate::history::{Answer, Call, Item, Record};
use std::alloc::AllocError;
use std::mem::forget;
use std::sync::Wait;
use thread_local::ThreadLocal;
use thread_local::iter::{Entries, Iter, Tokens};
use thread_local::local::{Local, SetError, TryError};
use thread_local::table::Token;
use thread_local::thread_id::LocalError;

/// A `Local` with the number that the history knows it by.
#[derive(Drop)]
pub(crate) struct Held<'a, R: Wait> {
    number: u64,
    local: Local<'a, u64, R>,
}

/// A token of a table's sharing, which has not ended. Any thread may read the value by it.
#[derive(Drop)]
pub(crate) struct Told<'a> {
    table: &'a ThreadLocal<u64>,
    token: Token<u64>,
    ghost sharing: { token.sharing ≡ table.now.sharing },
    ghost named: { IsSome table.now.sharing },
}

impl<'a> Told<'a> {
    /// The same token once more.
    pub(crate) fn again(&self) -> Told<'a> {
        Told {
            table: self.table,
            token: self.token.again(),
        }
    }

    /// Reads the value.
    pub(crate) fn read(&self, record: &mut Record<'_>) -> Result<(), AllocError> {
        let id = self.token.id() as u64;
        let before = record.begin();
        let value = *self.table.value(&self.token);
        record.ended(before, "value", None, Some(id), Answer::Number(value))
    }
}

/// Takes a `Local`, and answers its id or why there is none.
fn local_or_none<'a, R: Wait>(
    table: &'a ThreadLocal<u64>,
    rt: &'a R,
) -> (Answer, Option<Local<'a, u64, R>>)
    ensures { IfSome result.1 (λ local. local.sharing ≡ table.now.sharing) }
{
    match table.local(rt) {
        Ok(local) => (Answer::Number(local.id() as u64), Some(local)),
        Err(LocalError::Memory(_)) => (Answer::Memory, None),
        Err(LocalError::Exhausted) => (Answer::Exhausted, None),
    }
}

/// Takes a `Local`, or records why there is none.
fn taken<'a, R: Wait>(
    table: &'a ThreadLocal<u64>,
    rt: &'a R,
    number: u64,
    record: &mut Record<'_>,
) -> Result<Option<Local<'a, u64, R>>, AllocError>
    ensures { IfOk result (λ taken. IfSome taken (λ local. local.sharing ≡ table.now.sharing)) }
{
    let before = record.begin();
    let (answer, local) = local_or_none(table, rt);
    record.ended(before, "local", Some(number), None, answer)?;
    Ok(local)
}

/// Publishes a value. Answers the id or why it isn't published, and a token where it is.
fn published<R: Wait>(local: &mut Local<'_, u64, R>, value: u64) -> (Answer, Option<Token<u64>>)
    ensures told { IfSome result.1 (λ token. token.sharing ≡ local.old.sharing) }
    ensures same { local.new.sharing ≡ local.old.sharing }
{
    match local.publish(value) {
        Ok(token) => (Answer::Number(token.id() as u64), Some(token)),
        Err(SetError::Occupied(back)) => (Answer::Back(back), None),
        Err(SetError::Memory(_)) => (Answer::Memory, None),
    }
}

/// What `get_or` answers.
fn got_or_made<R: Wait>(local: &mut Local<'_, u64, R>, value: u64) -> Answer {
    match local.get_or(|| value) {
        Ok(there) => Answer::Number(*there),
        Err(_) => Answer::Memory,
    }
}

/// What `get_or_try` answers, with a closure that makes a value or fails.
fn tried<R: Wait>(local: &mut Local<'_, u64, R>, made: Result<u64, u64>) -> Answer {
    match local.get_or_try(|| made) {
        Ok(there) => Answer::Number(*there),
        Err(TryError::Memory(_)) => Answer::Memory,
        Err(TryError::Create(error)) => Answer::Error(error),
    }
}

/// What `set` answers.
fn set<R: Wait>(local: &mut Local<'_, u64, R>, value: u64) -> Answer {
    match local.set(value) {
        Ok(()) => Answer::Nothing,
        Err(SetError::Occupied(back)) => Answer::Back(back),
        Err(SetError::Memory(_)) => Answer::Memory,
    }
}

/// The id of the token that a `Local` tells.
fn token_of<R: Wait>(local: &Local<'_, u64, R>) -> Answer {
    match local.token() {
        Some(token) => Answer::Number(token.id() as u64),
        None => Answer::Nothing,
    }
}

/// Publishes a value. Answers a token of what the slot holds.
fn publish<R: Wait>(
    local: &mut Local<'_, u64, R>,
    number: u64,
    record: &mut Record<'_>,
) -> Result<Option<Token<u64>>, AllocError>
    ensures { IfOk result (λ told. IfSome told (λ token. token.sharing ≡ local.old.sharing)) }
{
    let value = record.fresh();
    let before = record.begin();
    let (answer, told) = published(local, value);
    record.ended(before, "publish", Some(number), Some(value), answer)?;
    match answer {
        Answer::Back(_) => Ok(local.token()),
        _ => Ok(told),
    }
}

impl<'a, R: Wait> Held<'a, R> {
    /// Takes a `Local`.
    pub(crate) fn take(
        table: &'a ThreadLocal<u64>,
        rt: &'a R,
        record: &mut Record<'_>,
    ) -> Result<Option<Held<'a, R>>, AllocError> {
        let number = record.fresh();
        Ok(match taken(table, rt, number, record)? {
            Some(local) => Some(Held { number, local }),
            None => None,
        })
    }

    /// Takes a `Local` and publishes a value at once. Answers a token of what its slot holds.
    pub(crate) fn tell(
        table: &'a ThreadLocal<u64>,
        rt: &'a R,
        record: &mut Record<'_>,
    ) -> Result<Option<(Held<'a, R>, Option<Told<'a>>)>, AllocError>
        requires { IsSome table.now.sharing }
    {
        let number = record.fresh();
        let Some(mut local) = taken(table, rt, number, record)? else {
            return Ok(None);
        };
        let told = match publish(&mut local, number, record)? {
            Some(token) => Some(Told { table, token }),
            None => None,
        };
        Ok(Some((Held { number, local }, told)))
    }

    /// Drops the `Local`.
    pub(crate) fn give_back(self, record: &mut Record<'_>) -> Result<(), AllocError> {
        let Self { number, local } = self;
        let before = record.begin();
        drop(local);
        record.ended(before, "drop", Some(number), None, Answer::Nothing)
    }

    /// Forgets the `Local`, whose id stays held.
    pub(crate) fn leave(self, record: &mut Record<'_>) -> Result<(), AllocError> {
        let Self { number, local } = self;
        let before = record.begin();
        forget(local);
        record.ended(before, "forget", Some(number), None, Answer::Nothing)
    }

    pub(crate) fn get(&self, record: &mut Record<'_>) -> Result<(), AllocError> {
        let before = record.begin();
        let answer = Answer::of(self.local.get().copied());
        record.ended(before, "get", Some(self.number), None, answer)
    }

    pub(crate) fn token(&self, record: &mut Record<'_>) -> Result<(), AllocError> {
        let before = record.begin();
        let answer = token_of(&self.local);
        record.ended(before, "token", Some(self.number), None, answer)
    }

    pub(crate) fn get_or(&mut self, record: &mut Record<'_>) -> Result<(), AllocError> {
        let value = record.fresh();
        let before = record.begin();
        let answer = got_or_made(&mut self.local, value);
        record.ended(before, "get_or", Some(self.number), Some(value), answer)
    }

    /// `get_or_try`, with a closure that makes a value.
    pub(crate) fn get_or_try(&mut self, record: &mut Record<'_>) -> Result<(), AllocError> {
        let value = record.fresh();
        let before = record.begin();
        let answer = tried(&mut self.local, Ok(value));
        record.ended(before, "get_or_try", Some(self.number), Some(value), answer)
    }

    /// `get_or_try`, with a closure that fails.
    pub(crate) fn fail(&mut self, record: &mut Record<'_>) -> Result<(), AllocError> {
        let error = record.fresh();
        let before = record.begin();
        let answer = tried(&mut self.local, Err(error));
        record.ended(before, "fail", Some(self.number), Some(error), answer)
    }

    pub(crate) fn set(&mut self, record: &mut Record<'_>) -> Result<(), AllocError> {
        let value = record.fresh();
        let before = record.begin();
        let answer = set(&mut self.local, value);
        record.ended(before, "set", Some(self.number), Some(value), answer)
    }

    /// `publish`, whose token is let go.
    pub(crate) fn publish(&mut self, record: &mut Record<'_>) -> Result<(), AllocError> {
        publish(&mut self.local, self.number, record)?;
        Ok(())
    }

    /// A walk that gives up to `most` values, and ends there.
    pub(crate) fn walk(&self, most: usize, record: &mut Record<'_>) -> Result<(), AllocError> {
        let items = Vec::with_capacity(record.alloc, ROOM)?;
        let before = record.begin();
        let items = with_values(items, self.local.iter(), most)?;
        walked("walk", Some(self.number), most, before, items, record)
    }
}

/// How many values a walk's memory has room for at first.
const ROOM: usize = 32;

/// Adds up to `most` values of a walk.
fn with_values(
    mut items: Vec<Item>,
    walk: Iter<'_, u64>,
    most: usize,
) -> Result<Vec<Item>, AllocError> {
    for value in walk {
        items.push(Item::value(*value))?;
        if items.len() == most {
            break;
        }
    }
    Ok(items)
}

/// Adds up to `most` values with their ids.
fn with_entries(
    mut items: Vec<Item>,
    walk: Entries<'_, u64>,
    most: usize,
) -> Result<Vec<Item>, AllocError> {
    for (id, value) in walk {
        items.push(Item::entry(id, *value))?;
        if items.len() == most {
            break;
        }
    }
    Ok(items)
}

/// Adds up to `most` values with the ids of their tokens.
fn with_tokens(
    mut items: Vec<Item>,
    walk: Tokens<'_, u64>,
    most: usize,
) -> Result<Vec<Item>, AllocError> {
    for (token, value) in walk {
        items.push(Item::entry(token.id(), *value))?;
        if items.len() == most {
            break;
        }
    }
    Ok(items)
}

/// Keeps a walk that gave up to `most` values.
fn walked(
    name: &'static str,
    local: Option<u64>,
    most: usize,
    before: u64,
    items: Vec<Item>,
    record: &mut Record<'_>,
) -> Result<(), AllocError> {
    let after = record.stamp();
    let asked = if most == usize::MAX {
        None
    } else {
        Some(most as u64)
    };
    let call = Call::walk(name, local, asked, Answer::Nothing, items);
    record.keep(before, after, call)
}

/// A walk over the shared table that gives up to `most` values, and ends there.
pub(crate) fn walk(
    table: &ThreadLocal<u64>,
    most: usize,
    record: &mut Record<'_>,
) -> Result<(), AllocError> {
    let items = Vec::with_capacity(record.alloc, ROOM)?;
    let before = record.begin();
    let items = with_values(items, table.iter(), most)?;
    walked("walk", None, most, before, items, record)
}

/// A walk over the shared table with ids that gives up to `most` values, and ends there.
pub(crate) fn entries(
    table: &ThreadLocal<u64>,
    most: usize,
    record: &mut Record<'_>,
) -> Result<(), AllocError> {
    let items = Vec::with_capacity(record.alloc, ROOM)?;
    let before = record.begin();
    let items = with_entries(items, table.entries(), most)?;
    walked("entries", None, most, before, items, record)
}

/// A walk over the shared table with tokens that gives up to `most` values, and ends there. Its
/// items tell the ids of the tokens.
pub(crate) fn tokens(
    table: &ThreadLocal<u64>,
    most: usize,
    record: &mut Record<'_>,
) -> Result<(), AllocError> {
    let items = Vec::with_capacity(record.alloc, ROOM)?;
    let before = record.begin();
    let items = with_tokens(items, table.tokens(), most)?;
    walked("tokens", None, most, before, items, record)
}
