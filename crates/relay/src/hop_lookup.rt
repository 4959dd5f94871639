//! One look-up in a table.
ghost use Rattle.std.specs.Prelude.{◌≡◌, MatchOption, IfSome, None, Some};
ghost use Rattle.std.specs.FinMap as map;

use port_pool::RelayTable;
use sip_uri::Addr;

/// A datagram that is forwarded: the bytes are those passed in.
#[derive(Clone, Copy)]
pub struct Out<'a> {
    pub from: u16,
    pub to: Addr,
    pub bytes: &'a [u8],
}

/// Where a datagram at a port goes next, or None if the port has no row.
pub fn forward<'a>(table: &RelayTable, port: u16, bytes: &'a [u8]) -> Option<Out<'a>>
    ensures row { MatchOption result (map.get table.now port ≡ None) (λ out. map.get table.now port ≡ Some (record { to = out.to; from = out.from })) }
    ensures bytes { IfSome result (λ out. out.bytes ≡ bytes.entry) }
{
    let hop = table.hop(port)?;
    Some(Out {
        from: hop.from,
        to: hop.to,
        bytes,
    })
}
