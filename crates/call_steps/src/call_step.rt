//! What a call does for an event, as one value.

ghost use Rattle.std.specs.Prelude.{◌≡◌, ℕ};
ghost use Rattle.calls.specs.Changes.{FitsChange, entered};
ghost use Rattle.calls.specs.State.{Standing};
ghost use Rattle.call_steps.specs.Effects.{effect, no_effect};

use call_core::NoteOfCall;
use call_messages::Dressed;
use calls::CallChange;
use events::Sent;
use std::alloc::Global;

/// What a call does for an event: planned, with nothing changed.
#[derive(Drop)]
pub struct CallStep {
    /// What changes among the calls.
    pub change: CallChange,
    /// The messages, with the changes of the transactions and the number of tokens made.
    pub dressed: Dressed,
    /// The ACK of a 2xx that is among them, which is sent again where that 2xx comes again (RFC 3261 section
    /// 13.2.2.4).
    pub ack: Option<Sent>,
    /// What happens to a call, if that is reported.
    pub note: Option<NoteOfCall>,
}

impl CallStep {
    /// Nothing is done. Takes no memory.
    pub(crate) fn nothing(alloc: Global) -> CallStep
        ensures row { (calls : Standing) (now : ℕ) → effect calls now result ≡ no_effect calls }
        ensures fits { (calls : Standing) (now : ℕ) → FitsChange calls now result.change }
        ensures begun { (calls : Standing) (now : ℕ) → (entered calls now result.change).standing.begun ≡ calls.begun }
        ensures made { result.dressed.made ≡ 0 }
    {
        CallStep {
            change: CallChange::Unchanged,
            dressed: Dressed {
                changes: Vec::new(alloc),
                sends: Vec::new(alloc),
                made: 0,
            },
            ack: None,
            note: None,
        }
    }
}
