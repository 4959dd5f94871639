//! A list of values, which contracts see as the list.

ghost use Rattle.std.specs.Prelude.{◌≡◌};

use std::marker::Model;

/// A list of values.
#[derive(Drop)]
pub struct Entries<T> {
    entries: Vec<T>,
}

impl<T> Model for Entries<T> {
    ghost use Rattle.std.specs.Prelude.{List};

    ghost Value = { List T };

    ghost view = { λ e. e.entries.items };
}

impl<T> Entries<T> {
    /// The list of these. Takes no memory.
    pub fn from_vec(entries: Vec<T>) -> Entries<T>
        ensures { result ≡ entries.items }
    {
        Entries { entries }
    }

    /// The values, lent. Takes no memory.
    pub fn as_slice(&self) -> &[T]
        ensures { result.now ≡ self.now }
    {
        self.entries.as_slice()
    }
}
