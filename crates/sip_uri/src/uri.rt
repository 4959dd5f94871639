//! The values of URIs, names and addresses.

use std::marker::Model;
use text::Text;

/// An IPv4 address and a port, as a socket has them.
#[derive(Clone, Copy, PartialEq, Eq)]
pub struct Addr {
    pub ip: [u8; 4],
    pub port: u16,
}

/// Where a URI points: the four octets of an IPv4 address, or a host name as written.
pub enum Host<'a> {
    Ip4([u8; 4]),
    Name(Text<'a>),
}

impl Drop for Host<'_> {
    fn drop(self) {
        match self {
            Host::Ip4(_) => {}
            Host::Name(_) => {}
        }
    }
}

/// A parameter, as written: `name` or `name=value`.
pub struct Param<'a> {
    pub name: Text<'a>,
    pub value: Option<Text<'a>>,
}

impl Drop for Param<'_> {
    fn drop(self) {
        let Param { name: _, value: _ } = self;
    }
}

/// Parameters in order, which contracts see as a list.
#[derive(Drop)]
pub struct Params<'a> {
    entries: Vec<Param<'a>>,
}

impl<'a> Model for Params<'a> {
    ghost use Rattle.std.specs.Prelude.{List};
    ghost use Rattle.sip_uri.specs.declared.uri.Param.{Param};

    ghost Value = { List Param };

    ghost view = { λ p. p.entries.items };
}

impl<'a> Params<'a> {
    ghost use Rattle.std.specs.Prelude.{◌≡◌};

    /// The list of these parameters. Takes no memory.
    pub fn from_vec(entries: Vec<Param<'a>>) -> Params<'a>
        ensures { result ≡ entries.entry.items }
    {
        Params { entries }
    }

    /// The parameters. Takes no memory.
    pub fn into_vec(self) -> Vec<Param<'a>>
        ensures { result.items ≡ self.entry }
    {
        self.entries
    }

    /// The parameters, lent.
    pub fn as_slice(&self) -> &[Param<'a>]
        ensures { result.now ≡ self.now }
    {
        &self.entries
    }
}

/// A URI of the scheme `sip` (RFC 3261 section 19.1.1). The user is unescaped, and includes the password.
pub struct Uri<'a> {
    pub user: Option<Text<'a>>,
    pub host: Host<'a>,
    pub port: Option<u16>,
    pub params: Params<'a>,
    pub headers: Params<'a>,
}

impl Drop for Uri<'_> {
    fn drop(self) {
        let Uri {
            user: _,
            host: _,
            port: _,
            params: _,
            headers: _,
        } = self;
    }
}

/// A URI with a display name and the parameters of its header, as in From, To and Contact (RFC 3261 section 20.10).
/// The display is the text between the quotation marks, as written.
pub struct NameAddr<'a> {
    pub display: Option<Text<'a>>,
    pub uri: Uri<'a>,
    pub params: Params<'a>,
}

impl Drop for NameAddr<'_> {
    fn drop(self) {
        let NameAddr {
            display: _,
            uri: _,
            params: _,
        } = self;
    }
}

impl<'a> NameAddr<'a> {
    ghost use Rattle.std.specs.Prelude.{◌≡◌};

    /// The URI and the header's parameters, without the display. Takes no memory.
    pub fn into_uri_and_params(self) -> (Uri<'a>, Params<'a>)
        ensures { result ≡ (self.entry.uri, self.entry.params) }
    {
        let NameAddr {
            display: _,
            uri,
            params,
        } = self;
        (uri, params)
    }
}
