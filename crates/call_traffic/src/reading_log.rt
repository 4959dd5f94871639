//! Readings of ports' counts, only for clauses: it has no bytes.

ghost use Rattle.std.specs.Prelude.{◌≡◌, List, [], ◌∷◌, ◌++◌};
ghost use Rattle.std.specs.Coded.{coded_list};
ghost use Rattle.call_traffic.specs.Reading.{Reading, coded_reading};
ghost use base.Fml.{ftrue};

use std::marker::Model;

/// Readings in the order in which they were noted. A program learns nothing from this: a `PortCounter` uses it in its
/// clauses to say which readings it gave.
#[derive(Drop)]
pub struct ReadingLog {
    pub ghost entries: { List Reading } by { coded_list coded_reading },
}

impl Model for ReadingLog {
    ghost also_owns = { λ _. ftrue };
}

impl ReadingLog {
    /// Nothing was noted. Takes no memory.
    pub fn new() -> ReadingLog
        ensures { result.entries ≡ [] }
    {
        ReadingLog {}
    }

    /// Notes after the earlier readings that `count` datagrams had come at a port. Takes no memory.
    pub fn note(&mut self, port: u16, count: u64)
        ensures { self.new.entries ≡ self.old.entries ++ record { port = port; count = count } ∷ [] }
    {
        let _ = port;
        let _ = count;
    }
}
