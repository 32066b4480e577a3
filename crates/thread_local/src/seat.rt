//! The part of a `Local` that names no runtime: an id with its slot, and the table that both are of.
ghost use Rattle.std.specs.Prelude.{◌≡◌, ◌≢◌, ◌-◌, ◌^◌, ◌<◌, nat_lt, ⊤, is_some, true, false, None, Some, Ok, Err};
ghost use Rattle.std.specs.Prelude.{OnOk, OnErr, IfOk, IfErr, IsOk, IsSome, option_map, alloc_error, Result};
ghost use Rattle.thread_local_base.specs.Answers.{Get, GetOr, Found, Refused, Failed, answer};
ghost use Rattle.thread_local_base.specs.Cursor.{fresh_cursor};
ghost use Rattle.thread_local_base.specs.IdMoves.{Take, held_after, noted, published_in};
ghost use Rattle.thread_local_ids.specs.Sharings.{IsFirst, left_of};
ghost use Rattle.thread_local_base.specs.Held.{is_held};
ghost use mathlib.Core.List.{IsPrefix};
ghost use mathlib.Core.Logic.{◌∨₁◌};
ghost use Rattle.thread_local.specs.Errors.{IfCreate};
ghost use Rattle.thread_local.specs.Locals.{knows, knowing, own_of, token_of, holding};
ghost use Rattle.thread_local.specs.Locals.{IsAnswered, IsFilled, Fills, Fails, IsRefused, EndsWithReturn};
ghost use Rattle.thread_local_shared_buckets.specs.Walks.{fresh_with};

use crate::error::{SetError, TryError};
use crate::table::ThreadLocal;
use std::alloc::{AllocError, Global};
use std::default::MadeWith;
use std::fmt;
use std::marker::Model;
use std::sync::Wait;
use thread_local_ids::{Page, Token, Told};
use thread_local_shared_buckets::{Claim, Iter, Tokens};

// `get_or` and `get_or_default` stand in seat/lends.rt.
mod lends;

/// A `Local` without its runtime: an id of a table, and what is known of the id's slot. A `Local`
/// lends it by `seat` and `seat_mut`, and nobody has one by value. Where two are swapped, each takes
/// its id and its table along, and the drop of a `Local` gives back the id of the seat that it has
/// then.
///
/// No call takes a lock. What some run of the caller's may wait and take memory: a closure or its
/// drop, `T::made_with`, the Debug of `T`. Otherwise they are proved to return, and so is a caller's
/// function over a `&mut Seat`. Only `set`, `publish` and the `get_or` family (`get_or`,
/// `get_or_default`, `get_or_try`, `get_or_try_lasting`, `try_fill`) take memory, for a bucket.
/// References that calls answer live no longer than the borrow of the seat, but that of
/// `get_or_try_lasting`.
///
/// Contracts see the table's name and its sharing, the id, the number of reserved slots, what was
/// done with the table's ids before the take, and what is known of the id's slot: its value, if
/// there is one, and whether its bucket is known to stand.
///
/// Rust's crate has no such type. Its table has `get` and the `get_or` family but `try_fill` and
/// `get_or_try_lasting`; the other calls are the port's own.
pub struct Seat<'a, T> {
    pub(crate) table: &'a ThreadLocal<T>,
    pub(crate) claim: Claim<'a, T>,
}

impl<'a, T> Model for Seat<'a, T> {
    ghost use Rattle.thread_local.specs.Locals.{LocalView, local_view, local_view_coded, IsLocalOf};

    ghost Value = { LocalView T };

    ghost coded = { local_view_coded T.code };

    ghost view = { λ seat. local_view seat.table.now seat.claim };

    ghost invariant = { λ seat. IsLocalOf seat.table.now seat.claim };
}

impl<'a, T> Seat<'a, T> {
    /// The value, or None. It reads what the seat knows already, without an atomic operation.
    pub fn get(&self) -> Option<&T>
        ensures { answer {E = ⊤} (knows self.now) Get ≡ Found (option_map (λ x. x.now) result) }
    {
        self.claim.get()
    }

    /// The id. Rust's crate keeps a thread's id to itself.
    pub fn id(&self) -> usize
        ensures id { result ≡ self.now.id }
        ensures in_range { result < 2 ^ 63 - 1 }
    {
        self.claim.id()
    }

    /// What the slot was published with, as a token, where it holds a value: whoever has the token
    /// reads that value through the table, for as long as the sharing lasts, and an owner finds it
    /// who ends the sharing by a call that answers a book. Without a sharing it answers a token that
    /// is good for nothing. It reads what the seat knows already, without an atomic operation.
    pub fn token(&self) -> Option<Token<T>>
        ensures { result ≡ token_of self.now }
    {
        self.claim.token()
    }

    /// Shows that the slot holds what a token of this id and this sharing says, whichever `Local`
    /// had the id then. At run time it does nothing. It takes `&mut`, since only who has a claim
    /// alone knows what proofs keep of it.
    pub fn agrees(&mut self, token: &Token<T>)
        requires id { self.old.id ≡ token.now.id }
        requires sharing { self.old.sharing ≡ token.now.sharing }
        requires named { IsSome self.old.sharing }
        ensures holds { self.old.value ≡ Some token.now.value }
        ensures same { self.new ≡ self.old }
    {
        self.claim.agrees(token);
    }

    /// Shows that two seats of one table have different ids. At run time it does nothing.
    pub fn apart(&mut self, other: &mut Seat<'_, T>)
        requires { self.old.table ≡ other.old.table }
        ensures ids { self.old.id ≢ other.old.id }
        ensures same { (self.new ≡ self.old) × (other.new ≡ other.old) }
    {
        self.claim.apart(&mut other.claim)
    }

    /// The page of the table's ids that ends with the take of this id. At run time it does nothing.
    pub fn page(&self) -> Page
        ensures { (result.table ≡ self.now.table) × (result.moves ≡ noted self.now.before Take) }
    {
        self.claim.page()
    }

    /// Shows that of two seats of one table one was taken before the other. At run time it does
    /// nothing.
    pub fn in_line(&self, other: &Seat<'_, T>)
        requires { self.now.table ≡ other.now.table }
        ensures { IsPrefix (noted self.now.before Take) (noted other.now.before Take)
            ∨₁ IsPrefix (noted other.now.before Take) (noted self.now.before Take) }
    {
        self.page().in_line(&other.page());
    }

    /// Shows that the id is held after all moves of a later page. At run time it does nothing.
    pub fn held_at(&mut self, page: Page)
        requires table { page.table ≡ self.old.table }
        requires later { IsPrefix (noted self.old.before Take) page.moves }
        ensures held { is_held (held_after page.moves) self.old.id ≡ true }
        ensures same { self.new ≡ self.old }
    {
        self.claim.held_at(page);
    }

    /// Gives the id back to its table, from 58 on under the lock, and answers the page that ends with
    /// the return.
    pub(crate) fn give_back<R: Wait>(self, rt: &R) -> Page
        ensures table { result.table ≡ self.entry.table }
        ensures moves { EndsWithReturn self.entry result.moves }
        ensures left { IsFirst self.entry.sharing self.entry.table
            → published_in result.moves self.entry.id ≡ left_of T.row self.entry.value }
    {
        let Self { table, claim } = self;
        table.ids.give(rt, claim.give_up())
    }

    /// Whether the slot is one of the table's reserved slots. If so, the `get_or` family is never
    /// refused memory.
    pub fn is_reserved(&self) -> bool
        ensures reserved { result ≡ nat_lt self.now.id self.now.reserved }
        ensures known { result ≡ true → self.now.known ≡ true }
    {
        let table = self.table;
        self.id() < table.buckets.reserved()
    }

    /// Fills the slot if it is empty.
    #[inline]
    pub(crate) fn fill<F: FnOnce() -> T + Drop>(&mut self, create: F) -> Result<(), AllocError>
        requires { self.old.value ≡ None → F.pre create }
        ensures ok { OnOk result (IsFilled ⊤ (F.post create) self.old self.new) }
        ensures err { OnErr result (IsRefused ⊤ self.old self.new) }
        ensures granted { self.old.known ≡ true → IsOk result }
        ensures has_value { IsSome self.old.value → IsOk result }
    {
        let table = self.table;
        self.claim.fill(table.alloc, create)
    }

    /// Publishes a value that is at hand, where the slot is empty. `Occupied` gives it back where
    /// the slot holds one, and `Memory` where its bucket is missing and memory has run out. As
    /// `OnceCell::set` of Rust.
    pub fn set(&mut self, value: T) -> Result<(), SetError<T>>
        ensures ok { OnOk result ((self.old.value ≡ None) × (self.new ≡ knowing self.old (holding value))) }
        ensures occupied { (given : T)
            → result ≡ Err (SetError.Occupied given)
            → IsSome self.old.value × (given ≡ value) × (self.new ≡ self.old) }
        ensures memory { (given : T)
            → result ≡ Err (SetError.Memory given)
            → (self.old.value ≡ None) × (self.old.known ≡ false) × (given ≡ value) × (self.new ≡ self.old) }
    {
        if self.get().is_some() {
            return Err(SetError::Occupied(value));
        }
        let table = self.table;
        match self.claim.set(table.alloc, value) {
            Ok(()) => Ok(()),
            Err(value) => Err(SetError::Memory(value)),
        }
    }

    /// `set`, which also answers a token of what it published.
    pub fn publish(&mut self, value: T) -> Result<Token<T>, SetError<T>>
        ensures ok { IfOk result (λ token.
            (self.old.value ≡ None)
            × (self.new ≡ knowing self.old (holding value))
            × (token ≡ record { sharing = self.old.sharing; id = self.old.id; value = value })) }
        ensures occupied { (given : T)
            → result ≡ Err (SetError.Occupied given)
            → IsSome self.old.value × (given ≡ value) × (self.new ≡ self.old) }
        ensures memory { (given : T)
            → result ≡ Err (SetError.Memory given)
            → (self.old.value ≡ None) × (self.old.known ≡ false) × (given ≡ value) × (self.new ≡ self.old) }
    {
        self.set(value)?;
        Ok(self.token().unwrap())
    }

    /// `get_or_try` without the value. Call it where the proof has to know what the seat knows
    /// afterwards: this call and `get_or_try_lasting` say that. One can't say what it leaves where
    /// it answers a reference to its own borrow beside an error of any type. After `Ok`, `get`
    /// answers the value. `Create` hands on the closure's error. `Memory` means out of memory for
    /// the bucket, and the closure isn't called. After either the slot is still empty, so another
    /// closure may be tried: after `Create` its bucket stands, so that memory isn't asked for again.
    pub fn try_fill<F: FnOnce() -> Result<T, E> + Drop, E>(
        &mut self,
        create: F,
    ) -> Result<(), TryError<E>>
        requires { self.old.value ≡ None → F.pre create }
        ensures ok { OnOk result (IsFilled E (λ value. F.post create (Ok value)) self.old self.new) }
        ensures create { (error : E)
            → result ≡ Err (TryError.Create error)
            → Fails (λ e. F.post create (Err e)) self.old self.new error }
        ensures memory { result ≡ Err (TryError.Memory alloc_error) → IsRefused E self.old self.new }
        ensures granted { self.old.known ≡ true → result ≢ Err (TryError.Memory alloc_error) }
        ensures has_value { IsSome self.old.value → IsOk result }
        ensures failed { IfErr result (λ error. IfCreate error (λ e. F.post create (Err e))) }
        ensures empty { OnErr result (self.new.value ≡ None) }
    {
        let table = self.table;
        match self.claim.try_fill(table.alloc, create)? {
            Ok(()) => Ok(()),
            Err(error) => Err(TryError::Create(error)),
        }
    }

    /// The value. Where the slot is empty, memory for a missing bucket is asked for. Then the closure
    /// is called and its value is published, with the bucket if that was missing. `Create` hands on
    /// the closure's error: nothing is published, and the bucket stands. `Memory` means out of memory
    /// for the bucket, and the closure isn't called. Rust's crate makes the value before its bucket,
    /// takes `&self`, and doesn't answer out of memory. It is `try_fill` and then `get`, which stand
    /// for it where the proof goes on afterwards.
    pub fn get_or_try<F: FnOnce() -> Result<T, E> + Drop, E>(
        &mut self,
        create: F,
    ) -> Result<&T, TryError<E>>
        requires { self.old.value ≡ None → F.pre create }
        ensures ok { IfOk result (λ there.
            IsAnswered E (λ value. F.post create (Ok value)) self.old there.now) }
        ensures create { (error : E)
            → result ≡ Err (TryError.Create error)
            → (answer (knows self.old) (GetOr (Err error) false) ≡ Failed error) × F.post create (Err error) }
        ensures memory { result ≡ Err (TryError.Memory alloc_error)
            → (made : Result T E)
            → answer (knows self.old) (GetOr made true) ≡ Refused }
        ensures granted { self.old.known ≡ true → result ≢ Err (TryError.Memory alloc_error) }
        ensures has_value { IsSome self.old.value → IsOk result }
        ensures failed { IfErr result (λ error. IfCreate error (λ e. F.post create (Err e))) }
    {
        self.try_fill(create)?;
        Ok(self.get().unwrap())
    }
}

impl<'a, T: Sync> Seat<'a, T> {
    /// `get_or_try`, whose reference lasts as long as the table is lent and isn't bound to the
    /// borrow of the seat, as in Rust's crate. So it also says what it leaves: after `Ok` the view
    /// has the value, and after `Err` it still has none, though after `Create` the bucket is known
    /// to stand. It needs `T: Sync`, since another thread may get the id while the reference lives.
    pub fn get_or_try_lasting<F: FnOnce() -> Result<T, E> + Drop, E>(
        &mut self,
        create: F,
    ) -> Result<&'a T, TryError<E>>
        requires { self.old.value ≡ None → F.pre create }
        ensures ok { IfOk result (λ there.
            Fills E (λ value. F.post create (Ok value)) self.old self.new there.now) }
        ensures create { (error : E)
            → result ≡ Err (TryError.Create error)
            → Fails (λ e. F.post create (Err e)) self.old self.new error }
        ensures memory { result ≡ Err (TryError.Memory alloc_error) → IsRefused E self.old self.new }
        ensures granted { self.old.known ≡ true → result ≢ Err (TryError.Memory alloc_error) }
        ensures has_value { IsSome self.old.value → IsOk result }
        ensures failed { IfErr result (λ error. IfCreate error (λ e. F.post create (Err e))) }
        ensures empty { OnErr result (self.new.value ≡ None) }
    {
        self.try_fill(create)?;
        Ok(self.claim.lasting().unwrap().1)
    }

    /// The values of the table by ascending id, each lent as `&`, while others may publish more. A
    /// walk that runs to its end gives the seat's own value, where there is one.
    pub fn iter(&self) -> Iter<'_, T>
        ensures begins { result.cursor ≡ fresh_cursor }
        ensures own { result.own ≡ own_of self.now }
        ensures shown { result.shown ≡ true }
        ensures sharing { result.sharing ≡ self.now.sharing }
    {
        self.iter_told(Told::new())
    }

    /// `iter`, which gives what the tokens of a list say, too, as `ThreadLocal::iter_told` does.
    pub fn iter_told(&self, told: Told<T>) -> Iter<'_, T>
        ensures { result ≡ fresh_with self.now.sharing (own_of self.now) true told }
    {
        let table = self.table;
        match self.claim.lasting() {
            Some((token, value)) => Iter::with_own(&table.buckets, &token, value, told),
            None => Iter::new(&table.buckets, told),
        }
    }

    /// `iter`, with a token of each value, as `ThreadLocal::tokens` gives them.
    pub fn tokens(&self) -> Tokens<'_, T>
        ensures begins { result.cursor ≡ fresh_cursor }
        ensures own { result.own ≡ own_of self.now }
        ensures shown { result.shown ≡ true }
        ensures sharing { result.sharing ≡ self.now.sharing }
    {
        self.iter().with_tokens()
    }
}

impl<'a, T: fmt::Debug> fmt::Debug for Seat<'a, T> {
    ghost use Rattle.thread_local.specs.Text.{local_text};

    ghost debug_output = { λ seat. local_text T.debug_output seat.value };

    /// Writes the value, if there is one, as Rust's crate writes a whole table.
    fn fmt<W: fmt::Write>(&self, f: &mut fmt::Formatter<W>) -> fmt::Result {
        write!(f, "ThreadLocal {{ local_data: {:?} }}", self.get())
    }
}
