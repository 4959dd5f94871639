//! Which way a medium goes.

ghost use Rattle.std.specs.Prelude.{◌≡◌};
ghost use Rattle.sdp.specs.WayOf.{way_named, way_on, first_way, way_of, sends, receives};

use crate::description::{Description, Media};
use crate::line::Line;

/// The direction of a medium, from the side that wrote the description (RFC 3264 section 5.1, RFC 4566 section 6).
#[derive(Clone, Copy)]
pub enum Way {
    SendReceive,
    SendOnly,
    ReceiveOnly,
    Inactive,
}

impl Way {
    ghost use Rattle.std.specs.Prelude.{◌≡◌};
    ghost use Rattle.sdp.specs.WayOf.{sends, receives};

    /// Whether the side that wrote the description sends.
    pub fn sends(self) -> bool
        ensures { result ≡ sends self }
    {
        match self {
            Way::SendReceive | Way::SendOnly => true,
            Way::ReceiveOnly | Way::Inactive => false,
        }
    }

    /// Whether the side that wrote the description receives.
    pub fn receives(self) -> bool
        ensures { result ≡ receives self }
    {
        match self {
            Way::SendReceive | Way::ReceiveOnly => true,
            Way::SendOnly | Way::Inactive => false,
        }
    }
}

fn way_named(text: &[u8]) -> Option<Way>
    ensures { result ≡ way_named text.now }
{
    if text == b"sendrecv".as_slice() {
        Some(Way::SendReceive)
    } else if text == b"sendonly".as_slice() {
        Some(Way::SendOnly)
    } else if text == b"recvonly".as_slice() {
        Some(Way::ReceiveOnly)
    } else if text == b"inactive".as_slice() {
        Some(Way::Inactive)
    } else {
        None
    }
}

fn way_on(line: &Line<'_>) -> Option<Way>
    ensures { result ≡ way_on line.now }
{
    if line.letter == b'a' {
        way_named(line.value.as_bytes())
    } else {
        None
    }
}

fn first_way(lines: &[Line<'_>]) -> Option<Way>
    ensures { result ≡ first_way lines.now }
{
    for line in lines {
        if let Some(way) = way_on(line) {
            return Some(way);
        }
    }
    None
}

/// Which way the medium of this description goes. The first direction attribute among its own lines decides, or
/// otherwise the first among the session's; without any it goes both ways (RFC 4566 section 6, RFC 3264 section 5.1).
#[tactic(auto, unfolding(crate::specs::WayOf::way_of))]
pub fn way_of(description: &Description<'_>, medium: &Media<'_>) -> Way
    ensures { result ≡ way_of description.now medium.now }
{
    match first_way(medium.after.as_slice()) {
        Some(own) => own,
        None => first_way(description.after.as_slice()).unwrap_or(Way::SendReceive),
    }
}
