//! What actions result in.

ghost use Rattle.std.specs.Prelude.{◌≡◌};
ghost use Rattle.call_messages.specs.Dressed.{no_message};

use events::Sent;
use std::alloc::Global;
use std::marker::Model;
use transactions::Change;

/// What actions result in: the changes of the transactions and the datagrams that are sent, each in order, and the
/// number of tokens made. All that takes memory has been done.
#[derive(Drop)]
pub struct Dressed {
    pub changes: Vec<Change>,
    pub sends: Vec<Sent>,
    pub made: u64,
}

impl Model for Dressed {
    ghost use Rattle.call_messages.specs.Dressed as words;

    ghost Value = { words.Dressed };

    ghost view = { λ d. record { changes = d.changes.items; sends = d.sends.items; made = d.made } };
}

impl Dressed {
    /// No message. Takes no memory.
    pub fn no_message(alloc: Global) -> Dressed
        ensures { result ≡ no_message }
    {
        Dressed {
            changes: Vec::new(alloc),
            sends: Vec::new(alloc),
            made: 0,
        }
    }
}
