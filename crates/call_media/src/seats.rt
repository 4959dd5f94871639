//! Which pair faces which end.

ghost use Rattle.std.specs.Prelude.{◌≡◌, ◌++◌, ◌+◌, ◌≤◌, ◌*◌, IfOk, OnOk, length, map};
ghost use Rattle.std.specs.Option.{option_copied};
ghost use Rattle.call_media.specs.Seats.{behind_two, first, fresh_seat, media_in_use, needs_pairs, pairs_left, pairs_needed, port_to_answerer, port_to_offerer, rest, seat_in_use, seat_of, seated, seats_in_use};

use crate::seat::Seat;
use port_pool::Pair;
use sdp::{Description, Media};
use std::alloc::{AllocError, Global};

fn seat_in_use(
    offered: &Media<'_>,
    to_offerer: u16,
    to_answerer: u16,
    answered: &Media<'_>,
) -> Option<Seat>
    ensures { result ≡ seat_in_use offered.now to_offerer to_answerer answered.now }
{
    if offered.port == 0 || answered.port == 0 {
        return None;
    }
    Some(Seat {
        offerer: to_offerer,
        answerer: to_answerer,
    })
}

fn push_media_in_use(
    seats: &mut Vec<Option<Seat>>,
    offered: &[Media<'_>],
    answers_sent: &[Media<'_>],
    offers_sent: &[Media<'_>],
    answered: &[Media<'_>],
) -> Result<(), AllocError>
    ensures { OnOk result (seats.new.items ≡ seats.old.items
        ++ media_in_use offered.now answers_sent.now offers_sent.now answered.now) }
{
    let [ox, offered @ ..] = offered else {
        return Ok(());
    };
    let [sx, answers_sent @ ..] = answers_sent else {
        return Ok(());
    };
    let [oy, offers_sent @ ..] = offers_sent else {
        return Ok(());
    };
    let [sy, answered @ ..] = answered else {
        return Ok(());
    };
    seats.push(seat_in_use(ox, sx.port, oy.port, sy))?;
    push_media_in_use(seats, offered, answers_sent, offers_sent, answered)
}

/// The pairs of a session's media, one after the other; none for a medium that an end rejects. The session is the offer
/// and the answer taken, and what the server sent on in place of them.
pub fn seats_in_use(
    alloc: Global,
    offer_taken: &Description<'_>,
    answer_sent: &Description<'_>,
    offer_sent: &Description<'_>,
    answer_taken: &Description<'_>,
) -> Result<Vec<Option<Seat>>, AllocError>
    ensures { IfOk result (λ seats. seats.items
        ≡ seats_in_use offer_taken.now answer_sent.now offer_sent.now answer_taken.now) }
{
    let mut seats = Vec::new(alloc);
    push_media_in_use(
        &mut seats,
        offer_taken.media.as_slice(),
        answer_sent.media.as_slice(),
        offer_sent.media.as_slice(),
        answer_taken.media.as_slice(),
    )?;
    Ok(seats)
}

/// The pairs of the first medium.
fn first(kept: &[Option<Seat>]) -> Option<Seat>
    ensures { result ≡ first kept.now }
{
    match kept {
        [seat, ..] => *seat,
        [] => None,
    }
}

/// The pairs of those after it.
fn rest(kept: &[Option<Seat>]) -> &[Option<Seat>]
    ensures { result.now ≡ rest kept.now }
{
    match kept {
        [_, more @ ..] => more,
        [] => &[],
    }
}

fn needs_pairs(medium: &Media<'_>, kept: Option<Seat>) -> bool
    ensures { result ≡ needs_pairs medium.now kept }
{
    medium.port != 0 && kept.is_none()
}

/// How many fresh pairs an offer of these media asks for, over those of the media in use: two for each medium that is
/// offered and was not in use. Takes no memory.
pub fn pairs_needed(media: &[Media<'_>], kept: &[Option<Seat>]) -> usize
    ensures count { result ≡ pairs_needed media.now kept.now }
    ensures most { pairs_needed media.now kept.now ≤ 2 * length media.now }
{
    let [medium, media @ ..] = media else {
        return 0;
    };
    let more = pairs_needed(media, rest(kept));
    if needs_pairs(medium, first(kept)) {
        2 + more
    } else {
        more
    }
}

/// Of two fresh pairs the first faces the caller.
fn fresh_seat(caller_offers: bool, fresh: &[Pair]) -> Option<Seat>
    ensures { result ≡ fresh_seat caller_offers fresh.now }
{
    let [lower, higher, ..] = fresh else {
        return None;
    };
    let seat = Seat {
        offerer: lower.even,
        answerer: higher.even,
    };
    if caller_offers {
        Some(seat)
    } else {
        Some(seat.across())
    }
}

fn seat_of(
    caller_offers: bool,
    medium: &Media<'_>,
    kept: Option<Seat>,
    fresh: &[Pair],
) -> Option<Seat>
    ensures { result ≡ seat_of caller_offers medium.now kept fresh.now }
{
    if medium.port == 0 {
        return None;
    }
    if needs_pairs(medium, kept) {
        return fresh_seat(caller_offers, fresh);
    }
    kept
}

fn behind_two(fresh: &[Pair]) -> &[Pair]
    ensures { result.now ≡ behind_two fresh.now }
{
    match fresh {
        [_, _, more @ ..] => more,
        _ => &[],
    }
}

fn pairs_left<'p>(medium: &Media<'_>, kept: Option<Seat>, fresh: &'p [Pair]) -> &'p [Pair]
    ensures { result.now ≡ pairs_left medium.now kept fresh.now }
{
    if needs_pairs(medium, kept) {
        behind_two(fresh)
    } else {
        fresh
    }
}

fn push_seated(
    seats: &mut Vec<Option<Seat>>,
    caller_offers: bool,
    media: &[Media<'_>],
    kept: &[Option<Seat>],
    fresh: &[Pair],
) -> Result<(), AllocError>
    ensures { OnOk result (seats.new.items ≡ seats.old.items ++ seated caller_offers media.now kept.now fresh.now) }
{
    let [medium, media @ ..] = media else {
        return Ok(());
    };
    let of_first = first(kept);
    seats.push(seat_of(caller_offers, medium, of_first, fresh))?;
    let fresh = pairs_left(medium, of_first, fresh);
    push_seated(seats, caller_offers, media, rest(kept), fresh)
}

/// The pairs of an offer of the caller, or of the callee: medium by medium, over those of the media in use, which are
/// kept, and over fresh ones, of which the lower faces the caller. `kept` is as the offerer sees it.
pub fn seat_media(
    alloc: Global,
    caller_offers: bool,
    media: &[Media<'_>],
    kept: &[Option<Seat>],
    fresh: &[Pair],
) -> Result<Vec<Option<Seat>>, AllocError>
    ensures { IfOk result (λ seats. seats.items ≡ seated caller_offers media.now kept.now fresh.now) }
{
    let mut seats = Vec::new(alloc);
    push_seated(&mut seats, caller_offers, media, kept, fresh)?;
    Ok(seats)
}

fn port_to_offerer(seat: Option<Seat>) -> u16
    ensures { result ≡ port_to_offerer seat }
{
    seat.map_or(0, |seat| seat.offerer)
}

fn port_to_answerer(seat: Option<Seat>) -> u16
    ensures { result ≡ port_to_answerer seat }
{
    seat.map_or(0, |seat| seat.answerer)
}

/// The ports that the offerer gets in its answer: 0 for a medium without pairs.
pub fn ports_to_offerer(alloc: Global, seats: &[Option<Seat>]) -> Result<Vec<u16>, AllocError>
    ensures { IfOk result (λ ports. ports.items ≡ map port_to_offerer seats.now) }
{
    seats
        .iter()
        .map(|seat| port_to_offerer(*seat))
        .collect(alloc)
}

/// The ports that the answerer gets in the offer: 0 for a medium without pairs.
pub fn ports_to_answerer(alloc: Global, seats: &[Option<Seat>]) -> Result<Vec<u16>, AllocError>
    ensures { IfOk result (λ ports. ports.items ≡ map port_to_answerer seats.now) }
{
    seats
        .iter()
        .map(|seat| port_to_answerer(*seat))
        .collect(alloc)
}
