//! The line of a datagram.

ghost use Rattle.std.specs.Prelude.{◌≡◌};
ghost use Rattle.scripts.specs.Reading.{head_from, head_of};

use crate::number::{length_of, number_of, port_of};
use sip_uri::{Addr, ip4};
use text::cut;

/// What the line of a datagram says: when it comes, with which salt, from where, and how many bytes it has.
#[derive(Clone, Copy)]
pub(crate) struct Head {
    pub now: u64,
    pub salt: u64,
    pub source: Addr,
    pub count: usize,
}

#[tactic(auto, unfolding(crate::specs::Reading::head_from))]
fn head_from(now: &[u8], salt: &[u8], ip: &[u8], port: &[u8], length: &[u8]) -> Option<Head>
    ensures { result ≡ head_from now.now salt.now ip.now port.now length.now }
{
    let now = number_of(now)?;
    let salt = number_of(salt)?;
    let ip = ip4(ip)?;
    let port = port_of(port)?;
    let count = length_of(length)?;
    Some(Head {
        now,
        salt,
        source: Addr { ip, port },
        count,
    })
}

/// What the fields after `D` say.
#[tactic(auto, unfolding(crate::specs::Reading::head_of))]
pub(crate) fn head_of(fields: &[u8]) -> Option<Head>
    ensures { result ≡ head_of fields.now }
{
    let (now, rest) = cut(fields, b' ');
    let (salt, rest) = cut(rest?, b' ');
    let (ip, rest) = cut(rest?, b' ');
    let (port, rest) = cut(rest?, b' ');
    head_from(now, salt, ip, port, rest?)
}
