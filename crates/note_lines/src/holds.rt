//! Whether a call is held.

ghost use Rattle.std.specs.Prelude.{◌≡◌};
ghost use Rattle.std.specs.List.{list_any};
ghost use Rattle.offer_answer.specs.Direct.{stream_of, streams_of};
ghost use Rattle.note_lines.specs.Holds.{goes_both_ways, is_held};

use offer_answer::destination;
use sdp::{Description, Media, way_of};

/// Whether media of this medium of an offer, and of its answer, are sent to both ends.
#[tactic(auto, unfolding(offer_answer::specs::Direct::stream_of))]
fn goes_both_ways(
    offer: &Description<'_>,
    offered: &Media<'_>,
    answer: &Description<'_>,
    answered: &Media<'_>,
) -> bool
    ensures { result ≡ goes_both_ways (stream_of offer.now offered.now answer.now answered.now) }
{
    if offered.port == 0 || answered.port == 0 {
        return false;
    }
    let (out, back) = (way_of(offer, offered), way_of(answer, answered));
    let to_answerer = out.sends() && back.receives() && destination(answer, answered).is_some();
    let to_offerer = back.sends() && out.receives() && destination(offer, offered).is_some();
    to_answerer && to_offerer
}

/// Whether media of one of these media are sent to both ends.
fn any_goes_both_ways(
    offer: &Description<'_>,
    offered: &[Media<'_>],
    answer: &Description<'_>,
    answered: &[Media<'_>],
) -> bool
    ensures { result ≡ list_any goes_both_ways (streams_of offer.now offered.now answer.now answered.now) }
{
    let [asked, offered @ ..] = offered else {
        return false;
    };
    let [given, answered @ ..] = answered else {
        return false;
    };
    goes_both_ways(offer, asked, answer, given)
        || any_goes_both_ways(offer, offered, answer, answered)
}

/// Whether a call with this offer and answer is held: no medium goes both ways (RFC 3264 section 8.4). A rejected
/// medium does not, nor one that is wanted at 0.0.0.0. Takes no memory.
pub(crate) fn is_held(offer: &Description<'_>, answer: &Description<'_>) -> bool
    ensures { result ≡ is_held offer.now answer.now }
{
    !any_goes_both_ways(
        offer,
        offer.media.as_slice(),
        answer,
        answer.media.as_slice(),
    )
}
