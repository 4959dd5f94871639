//! Addresses in the system's form.

use sip_uri::Addr;
use std::net::{Ipv4Addr, SocketAddr};

/// An address of the system.
pub(crate) fn to_system(addr: Addr) -> SocketAddr {
    let [a, b, c, d] = addr.ip;
    SocketAddr::from((Ipv4Addr::new(a, b, c, d), addr.port))
}

/// An address in the server's form. None for an IPv6 address.
pub(crate) fn from_system(addr: SocketAddr) -> Option<Addr> {
    match addr {
        SocketAddr::V4(v4) => Some(Addr {
            ip: v4.ip().octets(),
            port: v4.port(),
        }),
        SocketAddr::V6(_) => None,
    }
}
