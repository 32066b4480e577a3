//! Stands apart since, as a limit of the toolchain, no clause in a type's own file names its `the_row`.
//! Here are the calls of a seat that answer a reference and say what they leave as well.
ghost use Rattle.std.specs.Prelude.{◌≡◌, ⊤, true, None, IsOk, IsSome, Result, [], MatchResult};
ghost use types.Logic.{sem};
ghost use denote.Follow.{follows_so};
ghost use mathlib.Core.Option.{none};
ghost use mir.Syntax.{named};
ghost use Rattle.thread_local_base.specs.Answers.{GetOr, Refused, answer};
ghost use Rattle.thread_local.specs.Locals.{knows, IsAnswered, Fills, IsRefused};
ghost use Rattle.thread_local.specs.contracts.seat.Seat.{the_row};

use super::Seat;
use std::alloc::{AllocError, Global};
use std::default::MadeWith;

impl<'a, T> Seat<'a, T> {
    /// The value. Where the slot is empty, memory for a missing bucket is asked for. Then the closure
    /// is called and its value is published, with the bucket if that was missing. `Err` means out
    /// of memory for the bucket, and the closure isn't called. Rust's crate makes the value before
    /// its bucket, takes `&self`, and doesn't answer out of memory.
    #[inline]
    pub fn get_or<F: FnOnce() -> T + Drop>(&mut self, create: F) -> Result<&T, AllocError>
        requires { self.old.value ≡ None → F.pre create }
        // Once the borrow of the answer ends, the view has the value that was answered. Where
        // memory was refused, it is the old view.
        ensures* leaves { sem 𝓛
            (follows_so (the_row (record { mir = named 1; lft = [] }) T.row)
            (the_row (record { mir = named 1; lft = [] }) T.row) self.entry.ghost_name
            none (λ _ _. ⊤)
            (λ left.
            MatchResult result
            (λ there. Fills ⊤ (F.post create) self.old left there.now)
            (λ _. IsRefused ⊤ self.old left))) }
        ensures answers { MatchResult result (λ there. IsAnswered ⊤ (F.post create) self.old there.now) (λ _.
            (made : Result T ⊤) → answer (knows self.old) (GetOr made true) ≡ Refused) }
        ensures granted { self.old.known ≡ true → IsOk result }
        ensures has_value { IsSome self.old.value → IsOk result }
    {
        self.fill(create)?;
        Ok(self.get().unwrap())
    }

    /// The value. Where the slot is empty, `T::made_with` makes it and it is published as by
    /// `get_or`. `Err` means out of memory for the bucket. Each `T: Default` has `MadeWith`, which
    /// calls `T::default`; texts and collections have it too, and keep the table's allocator.
    #[inline]
    pub fn get_or_default(&mut self) -> Result<&T, AllocError>
    where
        T: MadeWith<Global>,
        // Once the borrow of the answer ends, the view has the value that was answered. Where
        // memory was refused, it is the old view.
        ensures* leaves { sem 𝓛
            (follows_so (the_row (record { mir = named 1; lft = [] }) T.row)
            (the_row (record { mir = named 1; lft = [] }) T.row) self.entry.ghost_name
            none (λ _ _. ⊤)
            (λ left.
            MatchResult result (λ there. Fills ⊤ T.is_made_with self.old left there.now)
            (λ _. IsRefused ⊤ self.old left))) }
        ensures answers { MatchResult result (λ there. IsAnswered ⊤ T.is_made_with self.old there.now) (λ _.
            (made : Result T ⊤) → answer (knows self.old) (GetOr made true) ≡ Refused) }
        ensures granted { self.old.known ≡ true → IsOk result }
        ensures has_value { IsSome self.old.value → IsOk result }
    {
        let table = self.table;
        let alloc = table.alloc;
        self.get_or(|| T::made_with(alloc))
    }
}
