//! The inputs of a transaction.

use sip_message::Class;

/// The timers of RFC 3261 section 17 by their letters, L and M of RFC 6026, and N, which ends an abandoned INVITE.
#[derive(Clone, Copy, Debug, PartialEq, Eq, PartialOrd, Ord)]
pub enum TimerKind {
    A,
    B,
    D,
    E,
    F,
    G,
    H,
    I,
    J,
    K,
    L,
    M,
    N,
}

/// The inputs of a transaction.
#[derive(Clone, Copy)]
pub enum Input {
    /// The request of a server transaction comes again.
    Repeat,
    /// An ACK comes.
    Ack,
    /// The core answers.
    Answer(Class),
    /// A response comes.
    Response(Class),
    /// The core no longer waits for a response.
    Abandon,
    /// A timer fires.
    Fires(TimerKind),
}
