//! The ACKs of 2xx that are sent again.

ghost use Rattle.std.specs.Prelude.{◌≡◌, find, ◌==◌};
ghost use Rattle.std.specs.Option.{option_copied};

use events::Sent;

/// The ACK of a 2xx, which is sent again where that 2xx comes again (RFC 3261 section 13.2.2.4).
pub struct KeptAck {
    /// The number of the transaction of its INVITE.
    pub id: usize,
    pub sent: Sent,
}

impl Drop for KeptAck {
    fn drop(self) {
        let KeptAck { id: _, sent: _ } = self;
    }
}

/// What changes among the ACKs that are sent again.
#[derive(Drop)]
pub enum AckChange {
    /// Nothing.
    Stay,
    /// This one is kept, in place of one for the same INVITE.
    Keeps(KeptAck),
    /// The transaction of the INVITE with this number ended.
    Ends(usize),
}

fn has_number(ack: &KeptAck, id: usize) -> bool
    ensures { result ≡ ack.now.id == id }
{
    ack.id == id
}

/// The ACK that is kept for this transaction. Takes no memory.
pub(crate) fn kept_ack(acks: &[KeptAck], id: usize) -> Option<&KeptAck>
    ensures { option_copied result ≡ find (λ ack. ack.id == id) acks.now }
{
    acks.iter().find(|ack| has_number(ack, id))
}
