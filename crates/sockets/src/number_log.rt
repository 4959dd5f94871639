//! Numbers that were noted, for clauses alone: it has no bytes.

ghost use Rattle.std.specs.Prelude.{◌≡◌, ℕ, List, [], ◌∷◌, ◌++◌};
ghost use Rattle.std.specs.Coded.{coded_list, coded_ℕ};
ghost use base.Fml.{ftrue};

use std::marker::Model;

/// Numbers in the order in which they were noted. A caller learns nothing from this: it is for clauses on how long a
/// wait may last, and on the places that were read.
#[derive(Drop)]
pub struct NumberLog {
    pub ghost entries: { List ℕ } by { coded_list coded_ℕ },
}

impl Model for NumberLog {
    ghost also_owns = { λ _. ftrue };
}

impl NumberLog {
    /// Nothing was noted. Takes no memory.
    pub fn new() -> NumberLog
        ensures { result.entries ≡ [] }
    {
        NumberLog {}
    }

    /// Notes a number after the earlier ones. Takes no memory.
    pub fn note(&mut self, number: u64)
        ensures { self.new.entries ≡ self.old.entries ++ number ∷ [] }
    {
        let _ = number;
    }
}
