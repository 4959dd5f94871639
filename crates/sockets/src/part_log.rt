//! The parts in which a text was written, for clauses alone: it has no bytes.

ghost use Rattle.std.specs.Prelude.{◌≡◌, List, [], ◌∷◌, ◌++◌};
ghost use Rattle.std.specs.Coded.{coded_list};
ghost use Rattle.sockets.specs.Logs.{Part, coded_part};
ghost use base.Fml.{ftrue};

use std::marker::Model;

/// Parts of a text in the order in which they were written. A caller learns nothing from this: it is for the clauses of
/// `ErrorStream`.
#[derive(Drop)]
pub struct PartLog {
    pub ghost entries: { List Part } by { coded_list coded_part },
}

impl Model for PartLog {
    ghost also_owns = { λ _. ftrue };
}

impl PartLog {
    /// Nothing was written. Takes no memory.
    pub fn new() -> PartLog
        ensures { result.entries ≡ [] }
    {
        PartLog {}
    }

    /// Notes a part, and how many of its bytes the system took. Takes no memory.
    pub fn note(&mut self, bytes: &[u8], taken: u64)
        ensures { self.new.entries ≡ self.old.entries ++ record { bytes = bytes.now; taken = taken } ∷ [] }
    {
        let _ = bytes;
        let _ = taken;
    }
}
