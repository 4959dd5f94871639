//! Where a datagram goes next.

use sip_uri::Addr;

/// Where the datagrams of a port go: to this place, and from this port of the server.
#[derive(Clone, Copy, PartialEq, Eq)]
pub struct Hop {
    pub to: Addr,
    pub from: u16,
}
