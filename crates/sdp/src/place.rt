//! Where a medium is to be sent.

ghost use Rattle.std.specs.Prelude.{◌≡◌};
ghost use Rattle.sdp.specs.PlaceOf.{place_of};

use crate::address::Address;
use crate::description::{Description, Media};
use std::marker::Model;

/// An address and a port.
#[derive(Drop)]
pub struct Place<'m, 'a> {
    pub address: &'m Address<'a>,
    pub port: u16,
}

impl<'m, 'a> Model for Place<'m, 'a> {
    ghost use Rattle.sdp.specs.Place.{Place};

    ghost Value = { Place };

    ghost view = { λ p. record { address = p.address.now; port = p.port } };
}

/// Where the medium of this description is to be sent: to its own address, or otherwise to the session's, with its
/// port (RFC 4566 sections 5.7 and 5.14). `None` if neither has an address.
pub fn place_of<'m, 'a>(
    description: &'m Description<'a>,
    medium: &'m Media<'a>,
) -> Option<Place<'m, 'a>>
    ensures { result ≡ place_of description.now medium.now }
{
    let own = medium.connection.as_ref();
    let address = own.or(description.connection.as_ref())?;
    Some(Place {
        address,
        port: medium.port,
    })
}
