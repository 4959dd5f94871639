//! The lines of a session's rows, as the pool of ports takes them.

ghost use Rattle.std.specs.Prelude.{ℕ, ◌≡◌, ◌==◌, ◌||◌, ◌++◌, [], ◌∷◌, IfOk, OnOk, IsTrue, All, map, if◌then◌else◌};
ghost use Rattle.std.specs.FinMap as finmap;
ghost use Rattle.port_pool.specs.Changes.{LeadFrom};
ghost use Rattle.port_pool.specs.Pool.{AreHeld, changes_of, row_after, with_changes};
ghost use Rattle.offer_answer.specs.Rows.{HasRows, above, are_distinct, medium_named, media_named, media_pairs, pair_named, pairs_named};
ghost use Rattle.offer_answer.specs.Session.{HasAbove, HoldsPairs, leads_by, line_of, session_lines};

use crate::direct::destination;
use port_pool::{Change, Hop, Pool, RelayLine};
use sdp::{Description, Media};
use sip_uri::Addr;
use std::alloc::{AllocError, Global};

/// The port above a place, where there is one.
fn above(place: Option<Addr>) -> Option<Addr>
    ensures { result ≡ above place }
{
    let place = place?;
    let ip = place.ip;
    let port = place.port.checked_add(1)?;
    Some(Addr { ip, port })
}

fn line_of(port: u16, to: Option<Addr>, from: u16) -> RelayLine
    ensures { result ≡ line_of (record { port = port; to = to; from = from }) }
{
    RelayLine {
        port,
        hop: to.map(|to| Hop { to, from }),
    }
}

/// The lines of a pair: of its even port, and of the one above.
fn push_pair(
    lines: &mut Vec<RelayLine>,
    port: u16,
    to: Option<Addr>,
    from: u16,
) -> Result<(), AllocError>
    requires port { HasAbove port }
    requires from { HasAbove from }
    ensures { OnOk result (lines.new.items ≡ lines.old.items ++ map line_of (pair_named port to from)) }
{
    lines.push(line_of(port, to, from))?;
    lines.push(line_of(port + 1, above(to), from + 1))?;
    Ok(())
}

/// The lines of a medium that neither end rejects, of which one pair faces the offerer and one the answerer.
fn push_pairs(
    lines: &mut Vec<RelayLine>,
    to_offerer: u16,
    answerer: Option<Addr>,
    to_answerer: u16,
    offerer: Option<Addr>,
) -> Result<(), AllocError>
    requires offerer { HasAbove to_offerer }
    requires answerer { HasAbove to_answerer }
    ensures { OnOk result (lines.new.items ≡ lines.old.items
        ++ map line_of (pair_named to_offerer answerer to_answerer ++ pair_named to_answerer offerer to_offerer)) }
{
    push_pair(lines, to_offerer, answerer, to_answerer)?;
    push_pair(lines, to_answerer, offerer, to_offerer)
}

/// The lines of a medium, if neither end rejects it.
fn push_medium(
    lines: &mut Vec<RelayLine>,
    offer_taken: &Description<'_>,
    offered: &Media<'_>,
    to_offerer: u16,
    to_answerer: u16,
    answer_taken: &Description<'_>,
    answered: &Media<'_>,
) -> Result<(), AllocError>
    requires { All HasAbove (if offered.now.port == 0 || answered.now.port == 0 then [] else to_offerer ∷ to_answerer ∷ []) }
    ensures { OnOk result (lines.new.items ≡ lines.old.items
        ++ map line_of (medium_named offer_taken.now offered.now to_offerer to_answerer answer_taken.now answered.now)) }
{
    if offered.port == 0 || answered.port == 0 {
        return Ok(());
    }
    push_pairs(
        lines,
        to_offerer,
        destination(answer_taken, answered),
        to_answerer,
        destination(offer_taken, offered),
    )
}

/// The lines of these media.
fn push_media(
    lines: &mut Vec<RelayLine>,
    offer_taken: &Description<'_>,
    offered: &[Media<'_>],
    answers_sent: &[Media<'_>],
    offers_sent: &[Media<'_>],
    answer_taken: &Description<'_>,
    answered: &[Media<'_>],
) -> Result<(), AllocError>
    requires { All HasAbove (media_pairs offered.now answers_sent.now offers_sent.now answered.now) }
    ensures { OnOk result (lines.new.items ≡ lines.old.items
        ++ map line_of (media_named offer_taken.now offered.now answers_sent.now offers_sent.now answer_taken.now answered.now)) }
{
    let [ox, offered @ ..] = offered else {
        return Ok(());
    };
    let [sx, answers_sent @ ..] = answers_sent else {
        return Ok(());
    };
    let [oy, offers_sent @ ..] = offers_sent else {
        return Ok(());
    };
    let [sy, answered @ ..] = answered else {
        return Ok(());
    };
    push_medium(lines, offer_taken, ox, sx.port, oy.port, answer_taken, sy)?;
    push_media(
        lines,
        offer_taken,
        offered,
        answers_sent,
        offers_sent,
        answer_taken,
        answered,
    )
}

/// A line for each port that a session names: the ports of its pairs, each with the hop that it asks for, if any. The
/// session is the offer and the answer taken, and what the server sent on in place of them.
pub fn session_lines(
    alloc: Global,
    offer_taken: &Description<'_>,
    answer_sent: &Description<'_>,
    offer_sent: &Description<'_>,
    answer_taken: &Description<'_>,
) -> Result<Vec<RelayLine>, AllocError>
    requires { All HasAbove (pairs_named offer_taken.now answer_sent.now offer_sent.now answer_taken.now) }
    ensures { IfOk result (λ lines. lines.items
        ≡ session_lines offer_taken.now answer_sent.now offer_sent.now answer_taken.now) }
{
    let mut lines = Vec::new(alloc);
    push_media(
        &mut lines,
        offer_taken,
        offer_taken.media.as_slice(),
        answer_sent.media.as_slice(),
        offer_sent.media.as_slice(),
        answer_taken,
        answer_taken.media.as_slice(),
    )?;
    Ok(lines)
}

/// The pairs of a medium, if neither end rejects it.
fn push_named(
    pairs: &mut Vec<u16>,
    offered: &Media<'_>,
    to_offerer: u16,
    to_answerer: u16,
    answered: &Media<'_>,
) -> Result<(), AllocError>
    ensures { OnOk result (pairs.new.items ≡ pairs.old.items
        ++ (if offered.now.port == 0 || answered.now.port == 0 then [] else to_offerer ∷ to_answerer ∷ [])) }
{
    if offered.port == 0 || answered.port == 0 {
        return Ok(());
    }
    pairs.push(to_offerer)?;
    pairs.push(to_answerer)?;
    Ok(())
}

/// The pairs of these media.
fn push_all_named(
    pairs: &mut Vec<u16>,
    offered: &[Media<'_>],
    answers_sent: &[Media<'_>],
    offers_sent: &[Media<'_>],
    answered: &[Media<'_>],
) -> Result<(), AllocError>
    ensures { OnOk result (pairs.new.items ≡ pairs.old.items
        ++ media_pairs offered.now answers_sent.now offers_sent.now answered.now) }
{
    let [ox, offered @ ..] = offered else {
        return Ok(());
    };
    let [sx, answers_sent @ ..] = answers_sent else {
        return Ok(());
    };
    let [oy, offers_sent @ ..] = offers_sent else {
        return Ok(());
    };
    let [sy, answered @ ..] = answered else {
        return Ok(());
    };
    push_named(pairs, ox, sx.port, oy.port, sy)?;
    push_all_named(pairs, offered, answers_sent, offers_sent, answered)
}

/// The pairs that a session uses, by their even ports: for each medium that neither end rejects, the one that faces the
/// offerer and the one that faces the answerer.
pub fn session_pairs(
    alloc: Global,
    offer_taken: &Description<'_>,
    answer_sent: &Description<'_>,
    offer_sent: &Description<'_>,
    answer_taken: &Description<'_>,
) -> Result<Vec<u16>, AllocError>
    ensures { IfOk result (λ pairs. pairs.items
        ≡ pairs_named offer_taken.now answer_sent.now offer_sent.now answer_taken.now) }
{
    let mut pairs = Vec::new(alloc);
    push_all_named(
        &mut pairs,
        offer_taken.media.as_slice(),
        answer_sent.media.as_slice(),
        offer_sent.media.as_slice(),
        answer_taken.media.as_slice(),
    )?;
    Ok(pairs)
}

/// The changes of the relay table that put the rows of a call's session in place of its former ones. With them the
/// table has the rows of the session, and none at the call's other ports.
pub fn plan_session(
    alloc: Global,
    pool: &Pool,
    call: u64,
    offer_taken: &Description<'_>,
    answer_sent: &Description<'_>,
    offer_sent: &Description<'_>,
    answer_taken: &Description<'_>,
) -> Result<Vec<Change>, AllocError>
    requires holds { HoldsPairs pool.now call offer_taken.now answer_sent.now offer_sent.now answer_taken.now }
    requires distinct { IsTrue (are_distinct (pairs_named offer_taken.now answer_sent.now offer_sent.now answer_taken.now)) }
    ensures changes { IfOk result (λ changes. changes.items ≡ changes_of pool.now call
        (session_lines offer_taken.now answer_sent.now offer_sent.now answer_taken.now)) }
    ensures held { IfOk result (λ changes. AreHeld pool.now changes.items) }
    ensures leads { IfOk result (λ changes.
        LeadFrom pool.now.rows (with_changes pool.now changes.items).rows changes.items) }
    ensures rows { IfOk result (λ changes. HasRows (leads_by (with_changes pool.now changes.items).rows)
        offer_taken.now answer_sent.now offer_sent.now answer_taken.now) }
    ensures ports { IfOk result (λ changes. (port : ℕ) → finmap.get (with_changes pool.now changes.items).rows port
        ≡ row_after pool.now call (session_lines offer_taken.now answer_sent.now offer_sent.now answer_taken.now) port) }
{
    pool.pairs_never_meet();
    let lines = session_lines(alloc, offer_taken, answer_sent, offer_sent, answer_taken)?;
    let changes = pool.plan_commit(call, &lines)?;
    Ok(changes)
}
