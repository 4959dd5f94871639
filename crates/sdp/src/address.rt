//! Addresses of connections.

use text::Text;

/// The address of a `c=` line (RFC 4566 section 5.7), of the network type `IN`.
pub enum Address<'a> {
    /// Address type `IP4`: the four octets of a unicast address, which is below 224.0.0.0.
    Ip4([u8; 4]),
    /// Address type `IP4`: an address from 224.0.0.0 to 239.255.255.255 with `/ttl`, and perhaps `/count`, as written.
    Multicast(Text<'a>),
    /// Address type `IP6`: the text after it, as written.
    Ip6(Text<'a>),
    /// Address type `IP4`: a host name, as written.
    Name(Text<'a>),
}

impl Drop for Address<'_> {
    fn drop(self) {
        match self {
            Address::Ip4(_) => {}
            Address::Multicast(_) => {}
            Address::Ip6(_) => {}
            Address::Name(_) => {}
        }
    }
}
