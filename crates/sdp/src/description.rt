//! Descriptions and their media.

use crate::address::Address;
use crate::line::Lines;
use std::marker::Model;
use text::{Text, Texts};

/// The fields of an `o=` line (RFC 4566 section 5.2), as written. In a description that was read, the id and the
/// version are decimal digits.
pub struct Origin<'a> {
    pub username: Text<'a>,
    pub id: Text<'a>,
    pub version: Text<'a>,
    pub network_type: Text<'a>,
    pub address_type: Text<'a>,
    pub address: Text<'a>,
}

impl Drop for Origin<'_> {
    fn drop(self) {
        let Origin {
            username: _,
            id: _,
            version: _,
            network_type: _,
            address_type: _,
            address: _,
        } = self;
    }
}

/// A medium: an `m=` line and the lines under it (RFC 4566 sections 5 and 5.14). In a description that was read, a
/// count is 1 or more, and there is a format.
pub struct Media<'a> {
    /// What is sent, such as `audio`.
    pub kind: Text<'a>,
    /// 0 if the medium is not used.
    pub port: u16,
    /// How many ports, if a number is written after the port.
    pub count: Option<u16>,
    /// The transport protocol, such as `RTP/AVP`.
    pub proto: Text<'a>,
    /// In order of preference.
    pub formats: Texts<'a>,
    /// The value of the `i=` line.
    pub info: Option<Text<'a>>,
    /// The address of the `c=` line.
    pub connection: Option<Address<'a>>,
    /// The lines after those: `b`, `k` and `a`.
    pub after: Lines<'a>,
}

impl Drop for Media<'_> {
    fn drop(self) {
        let Media {
            kind: _,
            port: _,
            count: _,
            proto: _,
            formats: _,
            info: _,
            connection: _,
            after: _,
        } = self;
    }
}

/// Media in order, which contracts see as a list.
#[derive(Drop)]
pub struct MediaList<'a> {
    media: Vec<Media<'a>>,
}

impl<'a> Model for MediaList<'a> {
    ghost use Rattle.std.specs.Prelude.{List};
    ghost use Rattle.sdp.specs.declared.description.Media.{Media};

    ghost Value = { List Media };

    ghost view = { λ m. m.media.items };
}

impl<'a> MediaList<'a> {
    ghost use Rattle.std.specs.Prelude.{◌≡◌};

    /// The list of these media. Takes no memory.
    pub fn from_vec(media: Vec<Media<'a>>) -> MediaList<'a>
        ensures { result ≡ media.entry.items }
    {
        MediaList { media }
    }

    /// The media. Takes no memory.
    pub fn into_vec(self) -> Vec<Media<'a>>
        ensures { result.items ≡ self.entry }
    {
        self.media
    }

    /// The media, lent.
    pub fn as_slice(&self) -> &[Media<'a>]
        ensures { result.now ≡ self.now }
    {
        &self.media
    }
}

/// A description of a session (RFC 4566 section 5), of version 0.
pub struct Description<'a> {
    pub origin: Origin<'a>,
    /// The lines between `o=` and the session's `c=`: `s`, `i`, `u`, `e` and `p`.
    pub before: Lines<'a>,
    /// The address of the session's `c=` line.
    pub connection: Option<Address<'a>>,
    /// The session's lines after those: `b`, `t`, `r`, `z`, `k` and `a`.
    pub after: Lines<'a>,
    pub media: MediaList<'a>,
}

impl Drop for Description<'_> {
    fn drop(self) {
        let Description {
            origin: _,
            before: _,
            connection: _,
            after: _,
            media: _,
        } = self;
    }
}
