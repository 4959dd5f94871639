//! What a step answers.

use sip_message::MessageError;

/// Why an event was dropped: nothing is sent for it.
#[derive(Clone, Copy)]
pub enum Why {
    /// The datagram can't be read, and is not a request that can be answered. Its first fault.
    Unread(MessageError),
    /// A response that belongs to no request of the server's.
    Stray,
    /// An ACK that nobody waits for.
    Ack,
    /// An ACK or a response whose branch doesn't begin as RFC 3261 section 8.1.1.7 says.
    NoBranch,
    /// The moment is 2^60 milliseconds or later.
    Clock,
    /// No token is left.
    Spent,
}

/// What became of an event.
#[derive(Clone, Copy)]
pub enum Taken {
    Done,
    Dropped(Why),
    /// A request for which no transaction is left.
    Shed,
    /// No timer was due.
    Idle,
}
