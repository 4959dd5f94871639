//! The lines of what happens to a call.

ghost use Rattle.std.specs.Prelude.{◌≡◌, ◌++◌, ◌∷◌, [], codes, OnOk, OnErr, Some};
ghost use Rattle.std.specs.List.{flat_map};
ghost use Rattle.sip_uri.specs.Writing.{BeginsWith};
ghost use Rattle.note_lines.specs.CallLines.{after_field, by_field, call_field, change_line, failed_line, from_field, left_line, media_fields, method_field, method_name, over_line, status_field, stood_field, to_field, why_field, word_of_change};
ghost use Rattle.note_lines.specs.Holds.{is_held};
ghost use Rattle.note_lines.specs.Lines.{field_text, line_end, line_text, word_text};

use crate::holds::is_held;
use crate::ledger::Entry;
use crate::lines::{end_line, put_number, put_text, put_time, put_word, put_words};
use crate::media_counts::MediaCounts;
use call_core::{End, OfferMethod};
use call_media::Session;
use std::alloc::AllocError;

/// Begins a line with the call's number.
pub(crate) fn put_call(out: &mut Vec<u8>, word: &[u8], entry: &Entry) -> Result<(), AllocError>
    ensures ok { OnOk result (out.new.items ≡ out.old.items ++ word_text word.now ++ field_text (call_field entry.now)) }
    ensures err { OnErr result (BeginsWith out.old.items out.new.items) }
{
    put_word(out, word)?;
    put_number(out, b"call", entry.number)
}

/// Begins a line with the call's number, and who called whom.
fn put_parties(out: &mut Vec<u8>, word: &[u8], entry: &Entry) -> Result<(), AllocError>
    ensures ok { OnOk result (out.new.items ≡ out.old.items ++ word_text word.now
        ++ flat_map field_text (call_field entry.now ∷ from_field entry.now ∷ to_field entry.now ∷ [])) }
    ensures err { OnErr result (BeginsWith out.old.items out.new.items) }
{
    put_call(out, word, entry)?;
    put_text(out, b"from", entry.from.as_bytes())?;
    put_text(out, b"to", entry.to.as_bytes())
}

/// Which end did it.
fn put_by(out: &mut Vec<u8>, entry: &Entry, end: End) -> Result<(), AllocError>
    ensures ok { OnOk result (out.new.items ≡ out.old.items ++ field_text (by_field entry.now end)) }
    ensures err { OnErr result (BeginsWith out.old.items out.new.items) }
{
    put_text(out, b"by", entry.user(end))
}

fn put_status(out: &mut Vec<u8>, status: u16) -> Result<(), AllocError>
    ensures ok { OnOk result (out.new.items ≡ out.old.items ++ field_text (status_field status)) }
    ensures err { OnErr result (BeginsWith out.old.items out.new.items) }
{
    put_number(out, b"status", u64::from(status))
}

/// How long it took since the call began.
fn put_after(out: &mut Vec<u8>, entry: &Entry, now: u64) -> Result<(), AllocError>
    ensures ok { OnOk result (out.new.items ≡ out.old.items ++ field_text (after_field entry.now now)) }
    ensures err { OnErr result (BeginsWith out.old.items out.new.items) }
{
    put_time(out, b"after", now.saturating_sub(entry.begun))
}

fn put_why(out: &mut Vec<u8>, why: &[u8]) -> Result<(), AllocError>
    ensures ok { OnOk result (out.new.items ≡ out.old.items ++ field_text (why_field why.now)) }
    ensures err { OnErr result (BeginsWith out.old.items out.new.items) }
{
    put_words(out, b"why", why)
}

/// How many datagrams of media came from the caller, and how many from the callee.
fn put_counts(out: &mut Vec<u8>, counts: MediaCounts) -> Result<(), AllocError>
    ensures ok { OnOk result (out.new.items ≡ out.old.items ++ flat_map field_text (media_fields (Some counts))) }
    ensures err { OnErr result (BeginsWith out.old.items out.new.items) }
{
    put_number(out, b"media-from-caller", counts.from_caller)?;
    put_number(out, b"media-from-callee", counts.from_callee)
}

/// The counts of a call's media, if anyone counts them.
fn put_media(out: &mut Vec<u8>, media: Option<MediaCounts>) -> Result<(), AllocError>
    ensures ok { OnOk result (out.new.items ≡ out.old.items ++ flat_map field_text (media_fields media)) }
    ensures err { OnErr result (BeginsWith out.old.items out.new.items) }
{
    match media {
        Some(counts) => put_counts(out, counts),
        None => Ok(()),
    }
}

/// How long the call lasted, and how much media it carried: the end of its last line.
fn put_stood(
    out: &mut Vec<u8>,
    entry: &Entry,
    media: Option<MediaCounts>,
    now: u64,
) -> Result<(), AllocError>
    ensures ok { OnOk result (out.new.items ≡ out.old.items ++ flat_map field_text (stood_field entry.now now ∷ media_fields media) ++ line_end) }
    ensures err { OnErr result (BeginsWith out.old.items out.new.items) }
{
    put_time(out, b"stood", entry.stood(now))?;
    put_media(out, media)?;
    end_line(out)
}

/// The call began.
#[tactic(auto, unfolding(crate::specs::Lines::line_text))]
pub(crate) fn put_begun(out: &mut Vec<u8>, entry: &Entry) -> Result<(), AllocError>
    ensures ok { OnOk result (out.new.items ≡ out.old.items
        ++ line_text (codes "call-begun") (call_field entry.now ∷ from_field entry.now ∷ to_field entry.now ∷ [])) }
    ensures err { OnErr result (BeginsWith out.old.items out.new.items) }
{
    put_parties(out, b"call-begun", entry)?;
    end_line(out)
}

/// A line with a status: the callee rings, or an offer inside the call was refused.
#[tactic(auto, unfolding(crate::specs::Lines::line_text))]
pub(crate) fn put_with_status(
    out: &mut Vec<u8>,
    word: &[u8],
    entry: &Entry,
    status: u16,
) -> Result<(), AllocError>
    ensures ok { OnOk result (out.new.items ≡ out.old.items
        ++ line_text word.now (call_field entry.now ∷ status_field status ∷ [])) }
    ensures err { OnErr result (BeginsWith out.old.items out.new.items) }
{
    put_call(out, word, entry)?;
    put_status(out, status)?;
    end_line(out)
}

/// A line with how long it took: the call was answered, or the caller gave it up.
#[tactic(auto, unfolding(crate::specs::Lines::line_text))]
pub(crate) fn put_with_delay(
    out: &mut Vec<u8>,
    word: &[u8],
    entry: &Entry,
    now: u64,
) -> Result<(), AllocError>
    ensures ok { OnOk result (out.new.items ≡ out.old.items
        ++ line_text word.now (call_field entry.now ∷ from_field entry.now ∷ to_field entry.now ∷ after_field entry.now now ∷ [])) }
    ensures err { OnErr result (BeginsWith out.old.items out.new.items) }
{
    put_parties(out, word, entry)?;
    put_after(out, entry, now)?;
    end_line(out)
}

/// The call was refused.
#[tactic(auto, unfolding(crate::specs::Lines::line_text))]
pub(crate) fn put_refused(out: &mut Vec<u8>, entry: &Entry, status: u16) -> Result<(), AllocError>
    ensures ok { OnOk result (out.new.items ≡ out.old.items
        ++ line_text (codes "call-refused") (call_field entry.now ∷ from_field entry.now ∷ to_field entry.now ∷ status_field status ∷ [])) }
    ensures err { OnErr result (BeginsWith out.old.items out.new.items) }
{
    put_parties(out, b"call-refused", entry)?;
    put_status(out, status)?;
    end_line(out)
}

fn method_name(method: OfferMethod) -> &'static [u8]
    ensures { result.now ≡ method_name method }
{
    match method {
        OfferMethod::Invite => b"INVITE",
        OfferMethod::Update => b"UPDATE",
    }
}

/// An end made an offer inside the call.
#[tactic(auto, unfolding(crate::specs::Lines::line_text))]
pub(crate) fn put_offered(
    out: &mut Vec<u8>,
    entry: &Entry,
    end: End,
    method: OfferMethod,
) -> Result<(), AllocError>
    ensures ok { OnOk result (out.new.items ≡ out.old.items
        ++ line_text (codes "call-offered") (call_field entry.now ∷ by_field entry.now end ∷ method_field method ∷ [])) }
    ensures err { OnErr result (BeginsWith out.old.items out.new.items) }
{
    put_call(out, b"call-offered", entry)?;
    put_by(out, entry, end)?;
    put_text(out, b"method", method_name(method))?;
    end_line(out)
}

/// An offer inside the call was given up.
#[tactic(auto, unfolding(crate::specs::Lines::line_text))]
pub(crate) fn put_offer_cancelled(out: &mut Vec<u8>, entry: &Entry) -> Result<(), AllocError>
    ensures ok { OnOk result (out.new.items ≡ out.old.items ++ line_text (codes "call-offer-cancelled") (call_field entry.now ∷ [])) }
    ensures err { OnErr result (BeginsWith out.old.items out.new.items) }
{
    put_call(out, b"call-offer-cancelled", entry)?;
    end_line(out)
}

/// Whether a call with this session is held.
pub(crate) fn holds(session: &Session) -> bool
    ensures { result ≡ is_held session.now.offer_taken session.now.answer_taken }
{
    is_held(session.offer_taken.get(), session.answer_taken.get())
}

/// The word for an answer inside a call, given whether the call is held from now on and whether it was before.
fn word_of_change(is_held: bool, was_held: bool) -> &'static [u8]
    ensures { result.now ≡ word_of_change is_held was_held }
{
    match (is_held, was_held) {
        (true, _) => b"call-held",
        (false, true) => b"call-resumed",
        (false, false) => b"call-changed",
    }
}

/// An offer inside the call was answered: who offered, and whether the call is held from now on.
#[tactic(auto, unfolding(crate::specs::Lines::line_text))]
pub(crate) fn put_change(
    out: &mut Vec<u8>,
    entry: &Entry,
    session: &Session,
) -> Result<(), AllocError>
    ensures ok { OnOk result (out.new.items ≡ out.old.items
        ++ line_text (change_line entry.now session.now).word (change_line entry.now session.now).fields) }
    ensures err { OnErr result (BeginsWith out.old.items out.new.items) }
{
    let word = word_of_change(holds(session), entry.is_held);
    put_call(out, word, entry)?;
    put_by(out, entry, session.offerer)?;
    end_line(out)
}

/// Begins the last line of a call that this end left.
fn put_ended_by(out: &mut Vec<u8>, entry: &Entry, end: End) -> Result<(), AllocError>
    ensures ok { OnOk result (out.new.items ≡ out.old.items ++ word_text (codes "call-ended")
        ++ flat_map field_text (call_field entry.now ∷ from_field entry.now ∷ to_field entry.now ∷ by_field entry.now end ∷ [])) }
    ensures err { OnErr result (BeginsWith out.old.items out.new.items) }
{
    put_parties(out, b"call-ended", entry)?;
    put_by(out, entry, end)
}

/// Begins the last line of a call that neither end left.
fn put_ended(out: &mut Vec<u8>, entry: &Entry, why: &[u8]) -> Result<(), AllocError>
    ensures ok { OnOk result (out.new.items ≡ out.old.items ++ word_text (codes "call-ended")
        ++ flat_map field_text (call_field entry.now ∷ from_field entry.now ∷ to_field entry.now ∷ why_field why.now ∷ [])) }
    ensures err { OnErr result (BeginsWith out.old.items out.new.items) }
{
    put_parties(out, b"call-ended", entry)?;
    put_why(out, why)
}

/// An end left.
#[tactic(auto, unfolding(crate::specs::Lines::line_text))]
pub(crate) fn put_left(
    out: &mut Vec<u8>,
    entry: &Entry,
    end: End,
    media: Option<MediaCounts>,
    now: u64,
) -> Result<(), AllocError>
    ensures ok { OnOk result (out.new.items ≡ out.old.items
        ++ line_text (codes "call-ended") (left_line entry.now end media now).fields) }
    ensures err { OnErr result (BeginsWith out.old.items out.new.items) }
{
    put_ended_by(out, entry, end)?;
    put_why(out, b"bye")?;
    put_stood(out, entry, media, now)
}

/// The call is over for this reason, with this status.
#[tactic(auto, unfolding(crate::specs::Lines::line_text))]
pub(crate) fn put_failed(
    out: &mut Vec<u8>,
    entry: &Entry,
    why: &[u8],
    status: u16,
    media: Option<MediaCounts>,
    now: u64,
) -> Result<(), AllocError>
    ensures ok { OnOk result (out.new.items ≡ out.old.items
        ++ line_text (codes "call-ended") (failed_line entry.now why.now status media now).fields) }
    ensures err { OnErr result (BeginsWith out.old.items out.new.items) }
{
    put_ended(out, entry, why)?;
    put_status(out, status)?;
    put_stood(out, entry, media, now)
}

/// The call is over for this reason.
#[tactic(auto, unfolding(crate::specs::Lines::line_text))]
pub(crate) fn put_over(
    out: &mut Vec<u8>,
    entry: &Entry,
    why: &[u8],
    media: Option<MediaCounts>,
    now: u64,
) -> Result<(), AllocError>
    ensures ok { OnOk result (out.new.items ≡ out.old.items
        ++ line_text (codes "call-ended") (over_line entry.now why.now media now).fields) }
    ensures err { OnErr result (BeginsWith out.old.items out.new.items) }
{
    put_ended(out, entry, why)?;
    put_stood(out, entry, media, now)
}
