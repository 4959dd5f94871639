//! What a row is given besides the message.

use sip_uri::Addr;

/// The moment of an event in milliseconds, its salt, and where its datagram came from.
#[derive(Clone, Copy)]
pub struct Setting {
    pub now: u64,
    pub salt: u64,
    pub source: Addr,
}
