//! A token that says which value a slot holds while a sharing lasts.
ghost use Rattle.std.specs.Prelude.{◌≡◌, ◌-◌, ◌^◌, ◌<◌, ℕ, Option, IsSome};
ghost use Rattle.std.specs.Coded.{coded_option, coded_ℕ};

use std::marker::{Model, PhantomData};

/// Stands for the published value of one id in one sharing of its table. A sharing begins when a
/// table is made, cleared or renewed, and lasts until an owner's call lends or takes the values.
///
/// It is the id at run time. Contracts see the sharing, the id and the value. Of a cell they see
/// which cell it is, and not what it holds. A token that is made while the table has no sharing is
/// good for nothing. It may be sent and shared whatever the type is. No call waits or takes memory.
/// Rust's crate has no such type.
pub struct Token<T> {
    pub id: usize,
    pub marker: PhantomData<T>,
    pub ghost sharing: { Option ℕ } by { coded_option coded_ℕ },
    pub ghost value: { T },
}

impl<T> Model for Token<T> {
    ghost use Rattle.std.specs.Prelude.{◌≡◌, ◌-◌, ◌^◌, ◌<◌, Some};
    ghost use Rattle.thread_local_ids.specs.TokenViews.{TokenView, token_view_coded};
    ghost use Rattle.thread_local_ids.specs.Told.{tells};
    ghost use denote.Sharing.{said};

    ghost Value = { TokenView T };

    ghost coded = { token_view_coded T.code };

    ghost view = { λ p. record { sharing = p.sharing; id = p.id; value = p.value } };

    ghost invariant = { λ p. p.id < 2 ^ 63 - 1 };

    ghost also_owns = { λ p. tells T.row p.sharing p.id (Some p.value) };

    ghost also_shares = { λ p _ κ. said (tells T.row p.sharing p.id (Some p.value)) κ };
}

impl<T> Token<T> {
    /// The id.
    pub fn id(&self) -> usize
        ensures id { result ≡ self.now.id }
        ensures in_range { result < 2 ^ 63 - 1 }
    {
        self.id
    }

    /// The same token once more. The language makes no value `Copy` that owns what a proof knows.
    pub fn again(&self) -> Token<T>
        ensures { result ≡ self.now }
    {
        Token {
            id: self.id,
            marker: PhantomData,
        }
    }

    /// Shows that two tokens of one id and one sharing have one value. At run time it does nothing.
    pub fn agrees(&self, other: &Token<T>)
        requires id { self.now.id ≡ other.now.id }
        requires sharing { self.now.sharing ≡ other.now.sharing }
        requires named { IsSome self.now.sharing }
        ensures { self.now.value ≡ other.now.value }
    {}
}

impl<T> Drop for Token<T> {
    fn drop(self) {
        let Self { id: _, marker: _ } = self;
    }
}

unsafe impl<T> Send for Token<T> {}

unsafe impl<T> Sync for Token<T> {}
