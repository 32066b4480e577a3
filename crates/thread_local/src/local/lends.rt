//! Stands apart since, as a limit of the toolchain, no clause in a type's own file names its `the_row`.
//! Here a `Local` lends its seat, and two of the seat's calls stand once more.
ghost use Rattle.std.specs.Prelude.{◌≡◌, ⊤, true, None, IsOk, IsSome, Result, [], MatchResult};
ghost use types.Logic.{sem};
ghost use denote.Follow.{follows, follows_so};
ghost use mathlib.Core.Option.{none};
ghost use mir.Syntax.{named};
ghost use Rattle.thread_local_base.specs.Answers.{GetOr, Refused, answer};
ghost use Rattle.thread_local.specs.Locals.{knows, IsAnswered, Fills, IsRefused};
ghost use Rattle.thread_local.specs.contracts.local.By.{the_row as by_row};
ghost use Rattle.thread_local.specs.contracts.local.Seated.{the_row};
ghost use Rattle.thread_local.specs.contracts.seat.Seat.{the_row as seat_row};

use super::{GivesBack, Local, Seated};
use std::alloc::{AllocError, Global};
use std::default::MadeWith;
use std::ops::{Deref, DerefMut};
use std::sync::Wait;

impl<P: GivesBack> Seated<P> {
    /// The seat, for writing: the `Local` keeps what is left in its place, and its drop gives back
    /// that seat's id.
    #[inline]
    pub fn seat_mut(&mut self) -> &mut P::Seat
        ensures* writes_back { sem 𝓛
            (follows (the_row P.row P.Seat.row) P.Seat.row
            self.entry.ghost_name result.ghost_name (λ left. left)) }
        ensures seat { result.now ≡ self.old }
    {
        &mut self.seat
    }
}

impl<P: GivesBack> Deref for Seated<P> {
    type Target = P::Seat;

    ghost deref_gives = { λ local seat. seat ≡ local };

    /// The seat.
    #[inline]
    fn deref(&self) -> &P::Seat
        ensures { result.now ≡ self.now }
    {
        &self.seat
    }
}

impl<P: GivesBack> DerefMut for Seated<P> {
    ghost deref_mut_gives = { λ local seat. seat ≡ local };

    /// The seat, for writing.
    #[inline]
    fn deref_mut(&mut self) -> &mut P::Seat
        ensures* writes_back { sem 𝓛
            (follows (the_row P.row P.Seat.row) P.Seat.row
            self.entry.ghost_name result.ghost_name (λ left. left)) }
        ensures seat { result.now ≡ self.old }
    {
        self.seat_mut()
    }
}

impl<'a, T, R: Wait> Local<'a, T, R> {
    /// `Seat::get_or`. It stands here too, since through `deref_mut` a proof wouldn't know what view
    /// it leaves.
    #[inline]
    pub fn get_or<F: FnOnce() -> T + Drop>(&mut self, create: F) -> Result<&T, AllocError>
        requires { self.old.value ≡ None → F.pre create }
        // Once the borrow of the answer ends, the view has the value that was answered. Where
        // memory was refused, it is the old view.
        ensures* leaves { sem 𝓛
            (follows_so
            (the_row (by_row (record { mir = named 1; lft = [] }) T.row R.row) (seat_row (record { mir = named 1; lft = [] }) T.row))
            (the_row (by_row (record { mir = named 1; lft = [] }) T.row R.row) (seat_row (record { mir = named 1; lft = [] }) T.row))
            self.entry.ghost_name none (λ _ _. ⊤)
            (λ left.
            MatchResult result
            (λ there. Fills ⊤ (F.post create) self.old left there.now)
            (λ _. IsRefused ⊤ self.old left))) }
        ensures answers { MatchResult result (λ there. IsAnswered ⊤ (F.post create) self.old there.now) (λ _.
            (made : Result T ⊤) → answer (knows self.old) (GetOr made true) ≡ Refused) }
        ensures granted { self.old.known ≡ true → IsOk result }
        ensures has_value { IsSome self.old.value → IsOk result }
    {
        self.seat.fill(create)?;
        Ok(self.seat.get().unwrap())
    }

    /// `Seat::get_or_default`, which stands here too for the same reason.
    #[inline]
    pub fn get_or_default(&mut self) -> Result<&T, AllocError>
    where
        T: MadeWith<Global>,
        // Once the borrow of the answer ends, the view has the value that was answered. Where
        // memory was refused, it is the old view.
        ensures* leaves { sem 𝓛
            (follows_so
            (the_row (by_row (record { mir = named 1; lft = [] }) T.row R.row) (seat_row (record { mir = named 1; lft = [] }) T.row))
            (the_row (by_row (record { mir = named 1; lft = [] }) T.row R.row) (seat_row (record { mir = named 1; lft = [] }) T.row))
            self.entry.ghost_name none (λ _ _. ⊤)
            (λ left.
            MatchResult result (λ there. Fills ⊤ T.is_made_with self.old left there.now)
            (λ _. IsRefused ⊤ self.old left))) }
        ensures answers { MatchResult result (λ there. IsAnswered ⊤ T.is_made_with self.old there.now) (λ _.
            (made : Result T ⊤) → answer (knows self.old) (GetOr made true) ≡ Refused) }
        ensures granted { self.old.known ≡ true → IsOk result }
        ensures has_value { IsSome self.old.value → IsOk result }
    {
        let table = self.seat.table;
        let alloc = table.alloc;
        self.get_or(|| T::made_with(alloc))
    }
}
