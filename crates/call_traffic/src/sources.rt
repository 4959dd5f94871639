//! Where the RTP of each end should come from, according to the descriptions of both.

ghost use Rattle.std.specs.Prelude.{◌≡◌};
ghost use Rattle.call_traffic.specs.Sources.{first_source, source, source_in, sources_of};

use call_media::{End, Session};
use offer_answer::destination;
use sdp::{Description, Media, way_of};
use sip_uri::Addr;

/// Where the RTP of each end should come from, if any should.
#[derive(Clone, Copy)]
pub(crate) struct Sources {
    pub(crate) caller: Option<Addr>,
    pub(crate) callee: Option<Addr>,
}

/// Where the RTP of a medium should come from, given how each end describes the medium. It is the first end's own
/// place, if both use the medium, this end sends, and the other end receives (RFC 3264 sections 5.1, 6.1 and 8.4).
fn source(
    own: &Description<'_>,
    medium: &Media<'_>,
    other: &Description<'_>,
    other_medium: &Media<'_>,
) -> Option<Addr>
    ensures { result ≡ source own.now medium.now other.now other_medium.now }
{
    let is_used = medium.port != 0 && other_medium.port != 0;
    let is_sent = way_of(own, medium).sends() && way_of(other, other_medium).receives();
    if is_used && is_sent && destination(other, other_medium).is_some() {
        destination(own, medium)
    } else {
        None
    }
}

/// That of the first medium whose RTP should come.
fn first_source(
    own: &Description<'_>,
    media: &[Media<'_>],
    other: &Description<'_>,
    others: &[Media<'_>],
) -> Option<Addr>
    ensures { result ≡ first_source own.now media.now other.now others.now }
{
    let [medium, media @ ..] = media else {
        return None;
    };
    let [other_medium, others @ ..] = others else {
        return None;
    };
    match source(own, medium, other, other_medium) {
        Some(place) => Some(place),
        None => first_source(own, media, other, others),
    }
}

fn source_in(own: &Description<'_>, other: &Description<'_>) -> Option<Addr>
    ensures { result ≡ source_in own.now other.now }
{
    first_source(own, own.media.as_slice(), other, other.media.as_slice())
}

/// Where the RTP of each end should come from, while this session lasts: from a medium that is held, none should.
/// Takes no memory.
pub(crate) fn sources_of(session: &Session) -> Sources
    ensures { result ≡ sources_of session.now }
{
    let (offer, answer) = (session.offer_taken.get(), session.answer_taken.get());
    let (offerer, answerer) = (source_in(offer, answer), source_in(answer, offer));
    match session.offerer {
        End::Caller => Sources {
            caller: offerer,
            callee: answerer,
        },
        End::Callee => Sources {
            caller: answerer,
            callee: offerer,
        },
    }
}
