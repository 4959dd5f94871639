//! What the calls of the table return.

ghost use Rattle.std.specs.Prelude.{◌≡◌};
ghost use Rattle.transactions.specs.Contents.{stray};

use sip_uri::Addr;
use text::Text;
use transaction_machines::State;

/// Bytes to send, and where to.
#[derive(Drop)]
pub struct Outgoing {
    pub to: Addr,
    pub bytes: Text<'static>,
}

/// What became of a message. A number is that of a transaction.
#[derive(Clone, Copy)]
pub enum Verdict {
    /// A request that began a transaction.
    New(usize),
    /// A request that came before.
    Repeat,
    /// A message that changes nothing for the core.
    Swallowed,
    /// A response to a request of the core, or an ACK to a 2xx: it goes up.
    Up(usize),
    /// A response or an ACK that belongs to no transaction.
    Stray,
}

/// What became of a message, and what is to be sent.
#[derive(Drop)]
pub struct Reception {
    pub verdict: Verdict,
    /// The state before, of the transaction that the message belongs to.
    pub before: Option<State>,
    pub send: Option<Outgoing>,
}

impl Reception {
    /// Of a message that belongs to no transaction.
    pub(crate) fn stray() -> Reception
        ensures { result ≡ stray }
    {
        Reception {
            verdict: Verdict::Stray,
            before: None,
            send: None,
        }
    }
}

/// What a request of the server's own began, and what is to be sent.
#[derive(Drop)]
pub struct Started {
    /// The number of the transaction. None for an ACK, which begins none.
    pub id: Option<usize>,
    pub send: Outgoing,
}

/// What a timer did.
#[derive(Drop)]
pub enum Fired {
    /// The same bytes are sent again.
    Send(Outgoing),
    /// No response came, or no ACK, and the transaction ended.
    TimedOut,
    /// The transaction ended.
    Ended,
}
