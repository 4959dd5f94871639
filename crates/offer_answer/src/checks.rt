//! Checks that keep a bad offer or answer out.

ghost use Rattle.std.specs.Prelude.{◌≡◌, [], ◌∷◌, Some, None, IfErr, OnOk, length};
ghost use Rattle.std.specs.Option.{option_copied};
ghost use Rattle.sdp.specs.PlaceOf.{address_of_medium, place_of};
ghost use Rattle.offer_answer.specs.declared.fault.OfferFault.TheVariants.{HostName, Ip6Address, MulticastAddress, OwnPlace};
ghost use Rattle.offer_answer.specs.Joined.{is_server};
ghost use Rattle.offer_answer.specs.Checks.{first_fault, is_name, is_ip6, is_multicast, is_ip4, is_relay_port, is_own_place, is_carried, used_fault, medium_fault, first_medium_fault, least_media, offer_fault, is_good_place, is_same_media, accepted_fault, answered_fault, first_answered_fault, answer_fault};

use crate::direct::is_hold;
use crate::fault::{AnswerFault, OfferFault};
use crate::range::OwnRange;
use sdp::{Address, Description, Media, place_of};

fn is_server(address: &Address<'_>, ip: [u8; 4]) -> bool
    ensures { result ≡ is_server ip address.now }
{
    match address {
        Address::Ip4(octets) => *octets == ip,
        Address::Multicast(_) | Address::Ip6(_) | Address::Name(_) => false,
    }
}

fn is_relay_port(range: OwnRange, port: u32) -> bool
    ensures { result ≡ is_relay_port range port }
{
    u32::from(range.first) <= port && port <= u32::from(range.last)
}

/// Whether the medium is wanted at the server's own address, and the port or the one above is a relay port. 0.0.0.0 is
/// nobody's own.
fn is_own_place(range: OwnRange, description: &Description<'_>, medium: &Media<'_>) -> bool
    ensures { result ≡ is_own_place range (place_of description.now medium.now) }
{
    let Some(place) = place_of(description, medium) else {
        return false;
    };
    let port = u32::from(place.port);
    !is_hold(place.address)
        && is_server(place.address, range.ip)
        && (is_relay_port(range, port) || is_relay_port(range, port + 1))
}

fn address_of_medium<'m, 'a>(
    description: &'m Description<'a>,
    medium: &'m Media<'a>,
) -> Option<&'m Address<'a>>
    ensures { option_copied result ≡ address_of_medium description.now medium.now }
{
    place_of(description, medium).map(|place| place.address)
}

fn is_carried(proto: &[u8]) -> bool
    ensures { result ≡ is_carried proto.now }
{
    proto == b"RTP/AVP".as_slice()
        || proto == b"RTP/AVPF".as_slice()
        || proto == b"RTP/SAVP".as_slice()
        || proto == b"RTP/SAVPF".as_slice()
}

/// The fault of the place of an offered medium.
fn place_fault(
    range: OwnRange,
    description: &Description<'_>,
    medium: &Media<'_>,
) -> Option<OfferFault>
    ensures { result ≡ first_fault (
        (is_name (address_of_medium description.now medium.now), HostName)
        ∷ (is_ip6 (address_of_medium description.now medium.now), Ip6Address)
        ∷ (is_multicast (address_of_medium description.now medium.now), MulticastAddress)
        ∷ (is_own_place range (place_of description.now medium.now), OwnPlace)
        ∷ []) }
{
    let own = is_own_place(range, description, medium);
    match address_of_medium(description, medium) {
        Some(Address::Name(_)) => Some(OfferFault::HostName),
        Some(Address::Ip6(_)) => Some(OfferFault::Ip6Address),
        Some(Address::Multicast(_)) => Some(OfferFault::MulticastAddress),
        Some(Address::Ip4(_)) | None => own.then_some(OfferFault::OwnPlace),
    }
}

#[tactic(auto, unfolding(crate::specs::Checks::used_fault))]
fn used_fault(
    range: OwnRange,
    description: &Description<'_>,
    medium: &Media<'_>,
) -> Option<OfferFault>
    ensures { result ≡ used_fault range description.now medium.now }
{
    if !is_carried(medium.proto.as_bytes()) {
        return Some(OfferFault::Protocol);
    }
    if medium.count.is_some() {
        return Some(OfferFault::PortCount);
    }
    place_fault(range, description, medium)
}

fn medium_fault(
    range: OwnRange,
    description: &Description<'_>,
    medium: &Media<'_>,
) -> Option<OfferFault>
    ensures { result ≡ medium_fault range description.now medium.now }
{
    if medium.port == 0 {
        return None;
    }
    used_fault(range, description, medium)
}

fn first_medium_fault(range: OwnRange, description: &Description<'_>) -> Option<OfferFault>
    ensures { result ≡ first_medium_fault range description.now description.now.media }
{
    for medium in description.media.as_slice() {
        if let Some(fault) = medium_fault(range, description, medium) {
            return Some(fault);
        }
    }
    None
}

fn least_media(previous: Option<&Description<'_>>) -> usize
    ensures { result ≡ least_media (option_copied previous.entry) }
{
    match previous {
        Some(description) => description.media.as_slice().len(),
        None => 0,
    }
}

/// Checks an offer, of which `previous` is the description that the same end gave before, if any, as an offer or as an
/// answer. The first fault is the refusal: first whether media are missing, then medium by medium, where the port is
/// not 0, in the order of `OfferFault`. Takes no memory.
pub fn check_offer(
    new: &Description<'_>,
    previous: Option<&Description<'_>>,
    range: OwnRange,
) -> Result<(), OfferFault>
    ensures ok { OnOk result (offer_fault range new.now (option_copied previous.entry) ≡ None) }
    ensures refused { IfErr result (λ fault.
        offer_fault range new.now (option_copied previous.entry) ≡ Some fault) }
{
    if new.media.as_slice().len() < least_media(previous) {
        return Err(OfferFault::FewerMedia);
    }
    match first_medium_fault(range, new) {
        Some(fault) => Err(fault),
        None => Ok(()),
    }
}

fn is_ip4(address: Option<&Address<'_>>) -> bool
    ensures { result ≡ is_ip4 (option_copied address.entry) }
{
    match address {
        Some(Address::Ip4(_)) => true,
        Some(Address::Multicast(_) | Address::Ip6(_) | Address::Name(_)) | None => false,
    }
}

fn is_good_place<'m, 'a>(
    range: OwnRange,
    description: &'m Description<'a>,
    medium: &'m Media<'a>,
) -> bool
    ensures { result ≡ is_good_place range description.now medium.now }
{
    medium.count.is_none()
        && is_ip4(address_of_medium(description, medium))
        && !is_own_place(range, description, medium)
}

fn is_same_media(offered: &Media<'_>, answered: &Media<'_>) -> bool
    ensures { result ≡ is_same_media offered.now answered.now }
{
    answered.kind == offered.kind && answered.proto == offered.proto
}

#[tactic(auto, unfolding(crate::specs::Checks::accepted_fault))]
fn accepted_fault(
    range: OwnRange,
    offered: &Media<'_>,
    answer: &Description<'_>,
    answered: &Media<'_>,
) -> Option<AnswerFault>
    ensures { result ≡ accepted_fault range offered.now answer.now answered.now }
{
    if !is_same_media(offered, answered) {
        return Some(AnswerFault::OtherMedia);
    }
    if offered.port == 0 {
        return Some(AnswerFault::UnwantedPort);
    }
    if !is_good_place(range, answer, answered) {
        return Some(AnswerFault::BadPlace);
    }
    None
}

fn answered_fault(
    range: OwnRange,
    offered: &Media<'_>,
    answer: &Description<'_>,
    answered: &Media<'_>,
) -> Option<AnswerFault>
    ensures { result ≡ answered_fault range offered.now answer.now answered.now }
{
    if answered.port == 0 {
        return None;
    }
    accepted_fault(range, offered, answer, answered)
}

fn first_answered_fault(
    range: OwnRange,
    offered: &[Media<'_>],
    answer: &Description<'_>,
) -> Option<AnswerFault>
    requires { length answer.now.media ≡ length offered.now }
    ensures { result ≡ first_answered_fault range offered.now answer.now answer.now.media }
{
    for (i, answered) in answer.media.as_slice().iter().enumerate() {
        if let Some(fault) = answered_fault(range, &offered[i], answer, answered) {
            return Some(fault);
        }
    }
    None
}

/// Checks the answer to an offer. The first fault is the refusal: first whether there are as many media, then medium by
/// medium, where the answer's port is not 0, in the order of `AnswerFault`. Takes no memory.
pub fn check_answer(
    offer: &Description<'_>,
    answer: &Description<'_>,
    range: OwnRange,
) -> Result<(), AnswerFault>
    ensures ok { OnOk result (answer_fault range offer.now answer.now ≡ None) }
    ensures refused { IfErr result (λ fault. answer_fault range offer.now answer.now ≡ Some fault) }
{
    let offered = offer.media.as_slice();
    if answer.media.as_slice().len() != offered.len() {
        return Err(AnswerFault::NumberOfMedia);
    }
    match first_answered_fault(range, offered, answer) {
        Some(fault) => Err(fault),
        None => Ok(()),
    }
}
