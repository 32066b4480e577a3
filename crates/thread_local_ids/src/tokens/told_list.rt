//! A list of tokens, for a walk that gives the values of all of them.
ghost use Rattle.std.specs.Prelude.{◌≡◌, ◌-◌, ◌^◌, ◌<◌, List, [], ◌∷◌, All};
ghost use base.Stored.{coded_list};
ghost use Rattle.thread_local_ids.specs.TokenViews.{TokenView, token_view_coded};
ghost use Rattle.thread_local_ids.specs.TokenLists.{AllOf};

use crate::tokens::token::Token;
use std::marker::{Model, PhantomData};

/// Tokens whose values a walk is to give for sure (`ThreadLocal::iter_told`), or whose slots a count
/// is to have (`ThreadLocal::slots_and_peak`). The list borrows none of them, and contracts alone see
/// what is in it: it has no bytes, and no call does anything at run time. It may be sent and shared
/// whatever the type is. Rust's crate has no such type.
pub struct Told<T> {
    pub marker: PhantomData<T>,
    pub ghost tokens: { List (TokenView T) } by { coded_list (token_view_coded T.code) },
}

impl<T> Model for Told<T> {
    ghost use Rattle.std.specs.Prelude.{◌≡◌, ◌-◌, ◌^◌, ◌<◌, All, List};
    ghost use base.Stored.{coded_list};
    ghost use Rattle.thread_local_ids.specs.TokenViews.{TokenView, token_view_coded};
    ghost use Rattle.thread_local_ids.specs.TokenLists.{tell_each};
    ghost use denote.Sharing.{said};

    ghost Value = { List (TokenView T) };

    ghost coded = { coded_list (token_view_coded T.code) };

    ghost view = { λ t. t.tokens };

    ghost invariant = { λ t. All (λ p. p.id < 2 ^ 63 - 1) t.tokens };

    ghost also_owns = { λ t. tell_each T.row t.tokens };

    ghost also_shares = { λ t _ κ. said (tell_each T.row t.tokens) κ };
}

impl<T> Told<T> {
    /// The empty list.
    #[inline]
    pub fn new() -> Told<T>
        ensures { result ≡ [] }
    {
        Told {
            marker: PhantomData,
        }
    }

    /// The same list once more, for another walk.
    #[inline]
    pub fn again(&self) -> Told<T>
        ensures { result ≡ self.now }
    {
        Told {
            marker: PhantomData,
        }
    }

    /// The list with one more token, which stays the caller's. Its sharing may be another than that
    /// of the tokens before it.
    #[inline]
    pub fn and(&self, token: &Token<T>) -> Told<T>
        ensures { result ≡ token.now ∷ self.now }
    {
        let _ = token;
        Told {
            marker: PhantomData,
        }
    }

    /// Shows that each token of this one's id and sharing has its value.
    #[inline]
    pub fn agrees(&self, token: &Token<T>)
        ensures { AllOf
            token.now.sharing
            (λ p. p.id ≡ token.now.id → p.value ≡ token.now.value)
            self.now }
    {}
}

impl<T> Drop for Told<T> {
    fn drop(self) {
        let Self { marker: _ } = self;
    }
}

unsafe impl<T> Send for Told<T> {}

unsafe impl<T> Sync for Told<T> {}
