//! A value without bytes, by which a walk knows that threads may share the values that it lends.
ghost use Rattle.thread_local_base.specs.Judged.{Shareable};
ghost use Rattle.thread_local_base.specs.Fact.{fact};
ghost use denote.Sharing.{said};

use std::marker::{Model, PhantomData};

/// Shows that a `&` to a value of the type means the same to every thread. No call does anything at
/// run time.
///
/// A trait's method isn't given the bounds of its impl. So a walk over shared values stores this
/// from where it is made, for `next`.
#[derive(Drop)]
pub struct Shown<'a, T> {
    marker: PhantomData<&'a T>,
}

impl<'a, T> Model for Shown<'a, T> {
    ghost also_owns = { λ _. fact (Shareable T.row) };

    ghost also_shares = { λ _ _ κ. said (fact (Shareable T.row)) κ };
}

impl<'a, T: Sync> Shown<'a, T> {
    /// Shows it of a type that threads may share.
    pub fn new() -> Shown<'a, T> {
        Shown {
            marker: PhantomData,
        }
    }
}

impl<'a, T> Shown<'a, T> {
    /// Tells the proof of its caller that threads may share the values. At run time it does nothing.
    pub fn tell(&self)
        ensures shareable { Shareable T.row }
    {}
}

unsafe impl<T> Send for Shown<'_, T> {}

unsafe impl<T> Sync for Shown<'_, T> {}
