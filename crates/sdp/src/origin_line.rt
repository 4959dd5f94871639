//! The value of an `o=` line (RFC 4566 section 5.2).

ghost use Rattle.std.specs.Prelude.{◌≡◌};
ghost use Rattle.text.specs.Cut.{before};
ghost use Rattle.sdp.specs.Origins.{behind_space};

use crate::class::{is_number, is_token, is_word};
use crate::description::Origin;
use std::marker::Model;
use text::{Text, cut};

/// What comes before the first space, and what comes after it: nothing if there is none.
pub(crate) fn cut_space(text: &[u8]) -> (&[u8], &[u8])
    ensures front { result.0.now ≡ before 32 text.now }
    ensures back { result.1.now ≡ behind_space text.now }
{
    match cut(text, b' ') {
        (front, Some(back)) => (front, back),
        (front, None) => (front, &[]),
    }
}

/// Six fields separated by single spaces.
#[derive(Drop)]
pub(crate) struct OriginParts<'a> {
    username: &'a [u8],
    id: &'a [u8],
    version: &'a [u8],
    network_type: &'a [u8],
    address_type: &'a [u8],
    address: &'a [u8],
}

impl<'a> Model for OriginParts<'a> {
    ghost use Rattle.sdp.specs.declared.description.Origin.{Origin};

    ghost Value = { Origin };

    ghost view = { λ o. record {
      username = o.username.now;
      id = o.id.now;
      version = o.version.now;
      network_type = o.network_type.now;
      address_type = o.address_type.now;
      address = o.address.now;
    } };
}

impl<'a> OriginParts<'a> {
    ghost use Rattle.std.specs.Prelude.{◌≡◌};
    ghost use Rattle.sdp.specs.Origins.{origin_of, is_origin};

    /// The fields of a text: each ends at the next space.
    #[tactic(auto, unfolding(crate::specs::Origins::origin_of))]
    pub(crate) fn of(text: &'a [u8]) -> OriginParts<'a>
        ensures { result ≡ origin_of text.now }
    {
        let (username, rest) = cut_space(text);
        let (id, rest) = cut_space(rest);
        let (version, rest) = cut_space(rest);
        let (network_type, rest) = cut_space(rest);
        let (address_type, address) = cut_space(rest);
        OriginParts {
            username,
            id,
            version,
            network_type,
            address_type,
            address,
        }
    }

    /// Whether each field is well formed.
    #[tactic(auto, unfolding(crate::specs::Origins::is_origin))]
    pub(crate) fn is_well_formed(&self) -> bool
        ensures { result ≡ is_origin self.now }
    {
        is_word(self.username)
            && is_number(self.id)
            && is_number(self.version)
            && is_token(self.network_type)
            && is_token(self.address_type)
            && is_word(self.address)
    }

    /// The origin with these fields. Takes no memory.
    pub(crate) fn origin(&self) -> Origin<'a>
        ensures { result ≡ self.now }
    {
        Origin {
            username: Text::lent(self.username),
            id: Text::lent(self.id),
            version: Text::lent(self.version),
            network_type: Text::lent(self.network_type),
            address_type: Text::lent(self.address_type),
            address: Text::lent(self.address),
        }
    }
}
