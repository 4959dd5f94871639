//! What an offer of an end is based on: what the end gave before, and the pairs of the media in use.

ghost use Rattle.std.specs.Prelude.{◌≡◌, IfOk, map, option_map};
ghost use Rattle.std.specs.Option.{option_copied};
ghost use Rattle.call_media.specs.Seats.{across};
ghost use Rattle.call_media.specs.Sessions.{pairs_listed, previous, seats_kept, seats_of, seats_seen_by};

use crate::end::End;
use crate::seat::Seat;
use crate::seats::seats_in_use;
use crate::session::Session;
use port_pool::Pair;
use sdp::Description;
use std::alloc::{AllocError, Global};

/// What this end gave before, as an offer or as an answer (RFC 3264 section 8).
pub(crate) fn previous(session: Option<&Session>, end: End) -> Option<&Description<'static>>
    ensures { option_copied result ≡ previous end (option_copied session.entry) }
{
    let session = session?;
    if end == session.offerer {
        Some(session.offer_taken.get())
    } else {
        Some(session.answer_taken.get())
    }
}

fn seats_of(alloc: Global, session: &Session) -> Result<Vec<Option<Seat>>, AllocError>
    ensures { IfOk result (λ seats. seats.items ≡ seats_of session.now) }
{
    let seats = seats_in_use(
        alloc,
        session.offer_taken.get(),
        session.answer_sent.get(),
        session.offer_sent.get(),
        session.answer_taken.get(),
    )?;
    Ok(seats)
}

/// The same pairs, where the other end offers.
fn seats_across(alloc: Global, seats: &[Option<Seat>]) -> Result<Vec<Option<Seat>>, AllocError>
    ensures { IfOk result (λ other. other.items ≡ map (option_map across) seats.now) }
{
    seats
        .iter()
        .map(|seat| seat.map(|seat| seat.across()))
        .collect(alloc)
}

fn seats_seen_by(
    alloc: Global,
    session: &Session,
    end: End,
) -> Result<Vec<Option<Seat>>, AllocError>
    ensures { IfOk result (λ seats. seats.items ≡ seats_seen_by end session.now) }
{
    let seats = seats_of(alloc, session)?;
    if end == session.offerer {
        return Ok(seats);
    }
    seats_across(alloc, &seats)
}

/// The pairs of the media in use, as this end sees them.
pub(crate) fn seats_kept(
    alloc: Global,
    session: Option<&Session>,
    end: End,
) -> Result<Vec<Option<Seat>>, AllocError>
    ensures { IfOk result (λ seats. seats.items ≡ seats_kept end (option_copied session.entry)) }
{
    match session {
        Some(session) => seats_seen_by(alloc, session, end),
        None => Ok(Vec::new(alloc)),
    }
}

/// The pairs that the session uses, borrowed.
pub(crate) fn pairs_listed(session: Option<&Session>) -> &[Pair]
    ensures { result.now ≡ pairs_listed (option_copied session.entry) }
{
    match session {
        Some(session) => session.pairs.as_slice(),
        None => &[],
    }
}
