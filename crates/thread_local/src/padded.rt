//! A value that shares no line of the cache with another.
ghost use Rattle.std.specs.Prelude.{◌≡◌};

use std::fmt;
use std::marker::Model;

mod judged;
mod lends;

/// A value with room around it, so that the lines of 64 bytes that it lies on hold no other value
/// of the table, wherever its bucket begins: a thread that writes its value doesn't take the lines
/// of others' away from them. A slot of up to 8 bytes takes 128.
///
/// Contracts see the value. No call waits or takes memory, unless `T::default` does, which
/// `default` runs. In Rust the crate's users pad by alignment, which a table here refuses above 16
/// bytes.
#[derive(Drop)]
#[repr(C)]
pub struct Padded<T> {
    before: [u64; 7],
    value: T,
    after: [u64; 8],
}

impl<T> Model for Padded<T> {
    ghost Value = { T };

    ghost coded = { T.code };

    ghost view = { λ padded. padded.value };
}

impl<T> Padded<T> {
    /// Pads a value.
    pub fn new(value: T) -> Padded<T>
        ensures { result ≡ value }
    {
        Padded {
            before: [0; 7],
            value,
            after: [0; 8],
        }
    }

    /// The value, moved out.
    pub fn into_inner(self) -> T
        ensures { result ≡ self }
    {
        let Padded {
            before: _,
            value,
            after: _,
        } = self;
        value
    }
}

impl<T> From<T> for Padded<T> {
    ghost from_gives = { λ value padded. padded ≡ value };

    fn from(value: T) -> Padded<T> {
        Padded::new(value)
    }
}

impl<T: Default> Default for Padded<T> {
    ghost is_default = { λ padded. T.is_default padded };

    fn default() -> Padded<T> {
        Padded::new(T::default())
    }
}

impl<T: fmt::Debug> fmt::Debug for Padded<T> {
    /// Shows the value alone, as a field.
    fn fmt<W: fmt::Write>(&self, f: &mut fmt::Formatter<W>) -> fmt::Result {
        f.debug_struct("Padded")
            .field("value", &self.value)
            .finish()
    }
}
