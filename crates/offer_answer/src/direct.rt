//! What an offer and an answer mean.

ghost use Rattle.std.specs.Prelude.{◌≡◌, length, IfOk};
ghost use Rattle.offer_answer.specs.Direct.{is_hold, sent_to, destination, side, is_answered, matching_formats, stream_of, direct};

use crate::formats::formats_match;
use crate::stream::{Side, Stream};
use sdp::{Address, Description, Media, Way, keep_formats, place_of, way_of};
use sip_uri::Addr;
use std::alloc::{AllocError, Global};
use text::{Text, Texts, both};

/// The address at which nothing is wanted (RFC 3264 section 8.4).
pub(crate) const HOLD: [u8; 4] = [0, 0, 0, 0];

/// Whether this is 0.0.0.0.
pub(crate) fn is_hold(address: &Address<'_>) -> bool
    ensures { result ≡ is_hold address.now }
{
    match address {
        Address::Ip4(octets) => *octets == HOLD,
        Address::Multicast(_) | Address::Ip6(_) | Address::Name(_) => false,
    }
}

fn sent_to(address: &Address<'_>, port: u16) -> Option<Addr>
    ensures { result ≡ sent_to address.now port }
{
    if is_hold(address) {
        return None;
    }
    match address {
        Address::Ip4(octets) => Some(Addr { ip: *octets, port }),
        Address::Multicast(_) | Address::Ip6(_) | Address::Name(_) => None,
    }
}

/// Where media for this medium are sent, if anywhere: to no address but an IPv4 address that is not 0.0.0.0 (RFC 3264
/// sections 5.1 and 8.4).
pub fn destination(description: &Description<'_>, medium: &Media<'_>) -> Option<Addr>
    ensures { result ≡ destination description.now medium.now }
{
    let place = place_of(description, medium)?;
    sent_to(place.address, place.port)
}

fn side(from: Way, to: Way, formats: Texts<'static>, destination: Option<Addr>) -> Side
    ensures { result ≡ side from to formats.entry destination }
{
    Side {
        on: from.sends() && to.receives() && destination.is_some(),
        formats,
        to: destination,
    }
}

#[tactic(auto, unfolding(crate::specs::Direct::is_answered))]
fn is_answered(offer: &Media<'_>, answer: &Media<'_>, format: &Text<'_>) -> bool
    ensures { result ≡ is_answered offer.now answer.now format.now }
{
    answer
        .formats
        .as_slice()
        .iter()
        .any(|g| formats_match(offer, format, answer, g))
}

/// The formats of the offer that match one of the answer.
fn matching_formats(
    alloc: Global,
    offer: &Media<'_>,
    answer: &Media<'_>,
) -> Result<Texts<'static>, AllocError>
    ensures { IfOk result (λ t. t ≡ matching_formats offer.now answer.now) }
{
    let mut found = Vec::new(alloc);
    for format in offer.formats.as_slice() {
        if !is_answered(offer, answer, format) {
            continue;
        }
        found.push(format.keep(alloc)?)?;
    }
    Ok(Texts::from_vec(found))
}

#[tactic(auto, unfolding(crate::specs::Direct::stream_of))]
fn stream_of(
    alloc: Global,
    offer: &Description<'_>,
    offered: &Media<'_>,
    answer: &Description<'_>,
    answered: &Media<'_>,
) -> Result<Stream, AllocError>
    ensures { IfOk result (λ s. s ≡ stream_of offer.now offered.now answer.now answered.now) }
{
    if offered.port == 0 || answered.port == 0 {
        return Ok(Stream::Rejected);
    }
    let (out, back) = (way_of(offer, offered), way_of(answer, answered));
    let what = both(offered.kind.keep(alloc), offered.proto.keep(alloc));
    let formats = both(
        keep_formats(alloc, &answered.formats),
        matching_formats(alloc, offered, answered),
    );
    let ((kind, proto), (listed, shared)) = both(what, formats)?;
    Ok(Stream::Used {
        kind,
        proto,
        to_answerer: side(out, back, listed, destination(answer, answered)),
        to_offerer: side(back, out, shared, destination(offer, offered)),
    })
}

/// What an offer and its answer mean, passed directly: a stream for each medium, in order (RFC 3264 sections 5 to 8).
/// The answer has as many media as the offer.
pub fn meaning(
    alloc: Global,
    offer: &Description<'_>,
    answer: &Description<'_>,
) -> Result<Vec<Stream>, AllocError>
    requires { length offer.now.media ≡ length answer.now.media }
    ensures { IfOk result (λ streams. streams.items ≡ direct offer.now answer.now) }
{
    let mut streams = Vec::new(alloc);
    let answers = answer.media.as_slice();
    for (i, offered) in offer.media.as_slice().iter().enumerate() {
        streams.push(stream_of(alloc, offer, offered, answer, &answers[i])?)?;
    }
    Ok(streams)
}
