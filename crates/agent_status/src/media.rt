//! The media of a call's session.

ghost use Rattle.std.specs.Prelude.{◌≡◌, IfOk};
ghost use Rattle.agent_status.specs.Sessions.{direction, direction_by, encoding, first_encoding, is_sent, media_of, medium_status};

use call_media::{End, Session};
use offer_answer::{destination, rtpmap_of};
use sdp::{Description, Media, way_of};
use status::{Direction, MediumStatus};
use std::alloc::{AllocError, Global};
use text::Text;

/// Whether media go from the side that describes the medium in the first way to the side that describes it in the
/// other.
fn is_sent(
    own: &Description<'_>,
    medium: &Media<'_>,
    other: &Description<'_>,
    other_medium: &Media<'_>,
) -> bool
    ensures { result ≡ is_sent own.now medium.now other.now other_medium.now }
{
    medium.port != 0
        && other_medium.port != 0
        && way_of(own, medium).sends()
        && way_of(other, other_medium).receives()
        && destination(other, other_medium).is_some()
}

fn encoding<'m>(medium: &'m Media<'_>, format: &'m Text<'_>) -> &'m [u8]
    ensures { result.now ≡ encoding medium.now format.now }
{
    match rtpmap_of(medium, format.as_bytes()) {
        Some(text) => text,
        None => format.as_bytes(),
    }
}

fn first_encoding<'m>(medium: &'m Media<'_>, formats: &'m [Text<'_>]) -> &'m [u8]
    ensures { result.now ≡ first_encoding medium.now formats.now }
{
    match formats.first() {
        Some(format) => encoding(medium, format),
        None => &[],
    }
}

fn direction(from_caller: bool, from_callee: bool) -> Direction
    ensures { result ≡ direction from_caller from_callee }
{
    match (from_caller, from_callee) {
        (true, true) => Direction::Both,
        (true, false) => Direction::FromCaller,
        (false, true) => Direction::FromCallee,
        (false, false) => Direction::Neither,
    }
}

fn direction_by(offerer: End, from_offerer: bool, from_answerer: bool) -> Direction
    ensures { result ≡ direction_by offerer from_offerer from_answerer }
{
    match offerer {
        End::Caller => direction(from_offerer, from_answerer),
        End::Callee => direction(from_answerer, from_offerer),
    }
}

/// A medium of an offer with this answer.
fn medium_status(
    alloc: Global,
    offerer: End,
    offer: &Description<'_>,
    offered: &Media<'_>,
    answer: &Description<'_>,
    answered: &Media<'_>,
) -> Result<MediumStatus, AllocError>
    ensures { IfOk result (λ status. status ≡ medium_status offerer offer.now offered.now answer.now answered.now) }
{
    let from_offerer = is_sent(offer, offered, answer, answered);
    let from_answerer = is_sent(answer, answered, offer, offered);
    let codec = first_encoding(answered, answered.formats.as_slice());
    Ok(MediumStatus {
        kind: answered.kind.keep(alloc)?,
        codec: Text::from_slice(alloc, codec)?,
        direction: direction_by(offerer, from_offerer, from_answerer),
    })
}

/// The media of a session, in order.
pub(crate) fn media_of(alloc: Global, session: &Session) -> Result<Vec<MediumStatus>, AllocError>
    ensures { IfOk result (λ media. media.items ≡ media_of session.now) }
{
    let (offer, answer) = (session.offer_taken.get(), session.answer_taken.get());
    let pairs = offer.media.as_slice().iter().zip(answer.media.as_slice());
    let mut media = Vec::new(alloc);
    for (offered, answered) in pairs {
        let medium = medium_status(alloc, session.offerer, offer, offered, answer, answered)?;
        media.push(medium)?;
    }
    Ok(media)
}
