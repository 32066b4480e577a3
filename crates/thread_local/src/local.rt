//! What a thread has in a table: an id of its own, through which it finds or makes its value.
ghost use Rattle.std.specs.Prelude.{◌≡◌};
ghost use Rattle.thread_local_base.specs.IdMoves.{published_in};
ghost use Rattle.thread_local_ids.specs.Sharings.{IsFirst, left_of};
ghost use Rattle.thread_local.specs.Locals.{EndsWithReturn};

pub use crate::error::{SetError, TryError};
pub use crate::seat::Seat;
use crate::table::ThreadLocal;
use std::fmt;
use std::marker::{Model, PhantomData};
use std::sync::Wait;
use thread_local_ids::Page;
pub use thread_local_ids::left::a_value_left_is_found;

// How a `Local` lends its seat stands in local/lends.rt.
mod lends;

/// What one thread has in a table: an id, its own until the drop, and what is known of the id's
/// slot. That is its `Seat`, and a `Local` has the seat's calls by their names.
///
/// Dropping it keeps the value and gives the id back, from 58 on under the table's lock: that may
/// wait, and takes no memory. Of its calls `give_back` alone takes the lock. A forgotten `Local`
/// keeps its id until the table is cleared.
///
/// Contracts see of it what they see of its seat.
///
/// Rust's crate finds the running thread by itself, and has no such type.
pub type Local<'a, T, R> = Seated<By<'a, T, R>>;

/// A seat, and by what it is given back: a `Local` is such a pair. Generic over the second, which
/// says the type of the first, since a proof follows no `&mut` to a type that names a lifetime.
pub struct Seated<P: GivesBack> {
    pub(crate) by: P,
    pub(crate) seat: P::Seat,
}

/// What a seat is given back by, when its `Local` is dropped.
pub trait GivesBack {
    type Seat;

    fn give_back(self, seat: Self::Seat);
}

/// The runtime of a `Local`, by which its drop may wait.
pub struct By<'a, T, R: Wait> {
    pub(crate) rt: &'a R,
    pub(crate) of: PhantomData<&'a ThreadLocal<T>>,
}

impl<'a, T, R: Wait> GivesBack for By<'a, T, R> {
    type Seat = Seat<'a, T>;

    fn give_back(self, seat: Seat<'a, T>) {
        let Self { rt, of: _ } = self;
        seat.give_back(rt);
    }
}

impl<P: GivesBack> Model for Seated<P> {
    ghost Value = { P.Seat };

    ghost coded = { P.Seat.code };

    ghost view = { λ local. local.seat };
}

impl<P: GivesBack> Seated<P> {
    /// The seat, for code that names no runtime.
    #[inline]
    pub fn seat(&self) -> &P::Seat
        ensures { result.now ≡ self.now }
    {
        &self.seat
    }
}

impl<'a, T, R: Wait> Local<'a, T, R> {
    /// What the drop does, which answers the page that ends with the return of this id: a later
    /// `local_after` with it gets an id at most this one, unless another `Local` has this one then.
    pub fn give_back(self) -> Page
        ensures table { result.table ≡ self.entry.table }
        ensures moves { EndsWithReturn self.entry result.moves }
        ensures left { IsFirst self.entry.sharing self.entry.table
            → published_in result.moves self.entry.id ≡ left_of T.row self.entry.value }
    {
        let Self { by, seat } = self;
        let By { rt, of: _ } = by;
        seat.give_back(rt)
    }
}

impl<P: GivesBack> Drop for Seated<P> {
    fn drop(self) {
        let Self { by, seat } = self;
        by.give_back(seat);
    }
}

impl<'a, T: fmt::Debug, R: Wait> fmt::Debug for Local<'a, T, R> {
    ghost use Rattle.thread_local.specs.Text.{local_text};

    ghost debug_output = { λ local. local_text T.debug_output local.value };

    /// Writes the seat.
    fn fmt<W: fmt::Write>(&self, f: &mut fmt::Formatter<W>) -> fmt::Result {
        self.seat.fmt(f)
    }
}
