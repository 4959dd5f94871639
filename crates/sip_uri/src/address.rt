//! Where a request to a URI goes (RFC 3261 sections 18.1.1, 19.1.2 and RFC 3263 section 4.2).

ghost use Rattle.std.specs.Prelude.{◌≡◌, unwrap_or};
ghost use Rattle.sip_uri.specs.Address.{default_port, address_of};

use crate::uri::{Addr, Host, Uri};

/// The port of a SIP URI, and of a sent-by, that names none.
const DEFAULT_PORT: u16 = 5060;

/// The port that is written, or 5060 if none is. Takes no memory.
pub fn port_or_default(port: Option<u16>) -> u16
    ensures port { result ≡ unwrap_or port default_port }
{
    port.unwrap_or(DEFAULT_PORT)
}

/// Where a request to this URI goes: to the address of its host and to its port, 5060 if it names none. None if its
/// host is a name. Takes no memory.
pub fn address_of(uri: &Uri<'_>) -> Option<Addr>
    ensures address { result ≡ address_of uri.now }
{
    match uri.host {
        Host::Ip4(ip) => Some(Addr {
            ip,
            port: port_or_default(uri.port),
        }),
        Host::Name(_) => None,
    }
}
