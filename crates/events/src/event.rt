//! What happens to the server.

use sip_uri::Addr;
use text::{Text, Texts};

/// Something that happens to the server: when, in milliseconds, and with which salt.
pub struct Event {
    /// The moment, in milliseconds.
    pub now: u64,
    /// The prefix of the words that the server makes up at this event.
    pub salt: u64,
    pub what: What,
}

impl Drop for Event {
    fn drop(self) {
        let Event {
            now: _,
            salt: _,
            what: _,
        } = self;
    }
}

/// What happens.
pub enum What {
    /// Bytes came from a telephone. Contracts see them as a list.
    Datagram { source: Addr, bytes: Text<'static> },
    /// The moment of a timer may have come.
    Due,
    /// For a long time no media have come in the call of this number.
    Silent(u64),
    /// These are the office's users from now on.
    Users(Texts<'static>),
}

impl Drop for What {
    fn drop(self) {
        match self {
            What::Datagram {
                source: _,
                bytes: _,
            } => {}
            What::Due => {}
            What::Silent(_) => {}
            What::Users(_) => {}
        }
    }
}
