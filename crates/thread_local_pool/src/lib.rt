//! A pool of values that threads use one after another, as buffers of bytes.
#![tactic(auto)]

ghost use Rattle.std.specs.Prelude.{◌≡◌, true, Some, None, is_none, [], Ok, Err, IfOk, IsOkAnd, MatchResult};

use std::alloc::Global;
use std::cell::Cell;
use std::fmt;
use std::marker::Model;
use std::sync::Wait;
use thread_local::ThreadLocal;
use thread_local::local::Local;
use thread_local::table::Judge;
use thread_local::thread_id::LocalError;

mod lends;
mod walks;

pub use walks::{PoolDrain, PoolIntoIter, PoolIterMut};

/// Values that are expensive to make, which threads borrow and give back. Threads share a pool
/// through a `&`. Only `get`, `get_or_try`, `buffer`, `Pooled::take` and the drop of what they lend
/// may wait for the lock of the pool's table, and only the first three take memory. Dropping the
/// pool drops its values, whose drop may wait. A `Pool` without a type is one of bytes. Rust's
/// crate has no such type.
///
/// Whoever has the pool alone is its owner, and walks over the values that were put back.
#[derive(Drop)]
pub struct Pool<T = Vec<u8>> {
    table: ThreadLocal<Cell<Option<T>>>,
    alloc: Global,
}

impl<T> Pool<T> {
    /// A pool with no value.
    pub fn new(alloc: Global) -> Pool<T>
    where
        T: Send,
    {
        Cell::<Option<T>>::judge();
        Pool {
            table: ThreadLocal::new(alloc),
            alloc,
        }
    }

    /// A value of the pool, as its last holder left it, or one that the closure makes. It takes the
    /// least id that isn't held. So where at most n values are held at once, at most n are made,
    /// unless one is taken out (`Pooled::take`) or the owner drains or clears the pool.
    ///
    /// May wait, and takes memory, as `ThreadLocal::local` and `Local::get_or` do; the closure runs
    /// with no lock held, and may wait, too. `Memory` means out of memory, and `Exhausted` that all
    /// 2^63 - 1 ids are held; then the closure isn't called.
    pub fn get<'a, F: FnOnce() -> T + Drop, R: Wait>(
        &'a self,
        rt: &'a R,
        create: F,
    ) -> Result<Pooled<'a, T, R>, LocalError>
        requires { F.pre create }
        ensures created { IfOk result (λ pooled. pooled.is_new ≡ true → F.post create pooled.value) }
    {
        let (local, found) = self.take_out(rt)?;
        Ok(Pooled::of(local, found, create))
    }

    /// `get`, where the closure may fail. Its error is the inner one: the id goes back with an
    /// empty cell, and its next holder makes a value. It waits, takes memory and refuses as `get`
    /// does.
    pub fn get_or_try<'a, F: FnOnce() -> Result<T, E> + Drop, E, R: Wait>(
        &'a self,
        rt: &'a R,
        create: F,
    ) -> Result<Result<Pooled<'a, T, R>, E>, LocalError>
        requires { F.pre create }
        ensures created { IfOk result (λ told.
            MatchResult told
            (λ pooled. pooled.is_new ≡ true → F.post create (Ok pooled.value))
            (λ error. F.post create (Err error))) }
    {
        let (local, found) = self.take_out(rt)?;
        Ok(Pooled::tried(local, found, create))
    }

    /// A `Local` whose cell is empty, and the value that the cell held, if there was one.
    fn take_out<'a, R: Wait>(
        &'a self,
        rt: &'a R,
    ) -> Result<(Local<'a, Cell<Option<T>>, R>, Option<T>), LocalError> {
        let mut local = self.table.local(rt)?;
        let found = local.get_or_default()?.replace(None);
        Ok((local, found))
    }
}

impl<T> fmt::Debug for Pool<T> {
    ghost use Rattle.std.specs.Prelude.{codes};

    ghost debug_output = { λ _. Some (codes "Pool { .. }") };

    /// Shows no value, since threads may hold them.
    fn fmt<W: fmt::Write>(&self, f: &mut fmt::Formatter<W>) -> fmt::Result {
        f.write_str("Pool { .. }")
    }
}

impl Pool<Vec<u8>> {
    /// An empty buffer, with the room that its last holder left. Where at most n buffers are held
    /// at once, at most n are made, unless the owner drains or clears the pool. It may wait, takes
    /// memory and refuses as `get` does.
    pub fn buffer<'a, R: Wait>(&'a self, rt: &'a R) -> Result<Buffer<'a, R>, LocalError>
        ensures empty { IfOk result (λ buffer. buffer ≡ []) }
    {
        let (local, found) = self.take_out(rt)?;
        let mut left = found.unwrap_or(Vec::new(self.alloc));
        left.clear();
        Ok(Buffer { local, bytes: left })
    }
}

/// A value of a pool, reached by `*`. Dropping it puts the value back as it is then, and gives its
/// id back, which may wait. A forgotten one keeps its id and its value. Beside the drop only `take`
/// waits, and no call takes memory. The value is moved out of the pool and back: put a large one
/// into a `Box`.
///
/// Contracts see the value, and whether it is new.
pub struct Pooled<'a, T, R: Wait> {
    local: Local<'a, Cell<Option<T>>, R>,
    value: T,
    is_new: bool,
}

impl<'a, T, R: Wait> Model for Pooled<'a, T, R> {
    ghost use Rattle.thread_local_pool.specs.Pooled.{PooledView, pooled_view_coded};

    ghost Value = { PooledView T };

    ghost coded = { pooled_view_coded T.code };

    ghost view = { λ pooled. record { value = pooled.value; is_new = pooled.is_new } };
}

impl<'a, T, R: Wait> Pooled<'a, T, R> {
    /// A value that came from the cell of a `Local`, or was made for it.
    fn new(local: Local<'a, Cell<Option<T>>, R>, value: T, is_new: bool) -> Pooled<'a, T, R>
        ensures { result ≡ record { value = value; is_new = is_new } }
    {
        Pooled {
            local,
            value,
            is_new,
        }
    }

    /// The value that was found in the cell of a `Local`, or a new one that the closure makes.
    fn of<F: FnOnce() -> T + Drop>(
        local: Local<'a, Cell<Option<T>>, R>,
        found: Option<T>,
        create: F,
    ) -> Pooled<'a, T, R>
        requires { found ≡ None → F.pre create }
        ensures is_new { result.is_new ≡ is_none found }
        ensures kept { (value : T) → found ≡ Some value → result.value ≡ value }
        ensures created { found ≡ None → F.post create result.value }
    {
        match found {
            Some(value) => Pooled::new(local, value, false),
            None => Pooled::new(local, create(), true),
        }
    }

    /// `of`, where the closure may fail.
    fn tried<F: FnOnce() -> Result<T, E> + Drop, E>(
        local: Local<'a, Cell<Option<T>>, R>,
        found: Option<T>,
        create: F,
    ) -> Result<Pooled<'a, T, R>, E>
        requires { found ≡ None → F.pre create }
        ensures is_new { IfOk result (λ pooled. pooled.is_new ≡ is_none found) }
        ensures kept { (value : T) → found ≡ Some value → IsOkAnd result (λ pooled. pooled.value ≡ value) }
        ensures created { MatchResult result
            (λ pooled. pooled.is_new ≡ true → F.post create (Ok pooled.value))
            (λ error. F.post create (Err error)) }
    {
        match found {
            Some(value) => Ok(Pooled::new(local, value, false)),
            None => match create() {
                Ok(value) => Ok(Pooled::new(local, value, true)),
                Err(error) => Err(error),
            },
        }
    }

    /// Whether `get` or `get_or_try` called its closure, and no earlier holder had the value.
    pub fn is_new(&self) -> bool
        ensures { result ≡ self.now.is_new }
    {
        self.is_new
    }

    /// The value, moved out. The id goes back with an empty cell, so its next holder makes another
    /// value. May wait, as the drop does, and takes no memory.
    pub fn take(self) -> T
        ensures { result ≡ self.entry.value }
    {
        let Self {
            local: _,
            value,
            is_new: _,
        } = self;
        value
    }
}

impl<'a, T: Drop, R: Wait> Drop for Pooled<'a, T, R> {
    fn drop(self) {
        let Self {
            local,
            value,
            is_new: _,
        } = self;
        put_back(local, value);
    }
}

/// A buffer of a pool. Dropping it empties it, puts it back with its room, and gives its id back,
/// which may wait. A forgotten one keeps its id and its bytes. No other call waits or takes memory.
/// Contracts see the bytes.
pub struct Buffer<'a, R: Wait> {
    local: Local<'a, Cell<Option<Vec<u8>>>, R>,
    bytes: Vec<u8>,
}

impl<'a, R: Wait> Model for Buffer<'a, R> {
    ghost use Rattle.std.specs.Prelude.{List, ℕ};

    ghost Value = { List ℕ };

    ghost view = { λ buffer. buffer.bytes.items };
}

impl<'a, R: Wait> Buffer<'a, R> {
    /// The bytes, for reading.
    pub fn bytes(&self) -> &Vec<u8>
        ensures { result.now.items ≡ self.now }
    {
        &self.bytes
    }
}

impl<'a, R: Wait> Drop for Buffer<'a, R> {
    fn drop(self) {
        let Self { local, mut bytes } = self;
        bytes.clear();
        put_back(local, bytes);
    }
}

/// Leaves a value in its cell, where the next holder of the id finds it, and gives the id back.
fn put_back<T: Drop, R: Wait>(local: Local<'_, Cell<Option<T>>, R>, value: T) {
    if let Some(cell) = local.get() {
        cell.set(Some(value));
    }
}
