//! What happened to a call, as a line and in the ledger.

ghost use Rattle.std.specs.Prelude.{◌≡◌, ◌⊎◌, ◌++◌, find, OnOk, OnErr};
ghost use Rattle.std.specs.Option.{option_copied};
ghost use Rattle.sip_uri.specs.Writing.{BeginsWith};
ghost use Rattle.note_lines.specs.CallLines.{begun_in, call_line, held_by, kept_by, known_line, ledger_of_call, line_of_call, reanswer_line, session_in};
ghost use Rattle.note_lines.specs.Lines.{said};

use crate::call_lines::{
    holds, put_begun, put_change, put_failed, put_left, put_offer_cancelled, put_offered, put_over,
    put_refused, put_with_delay, put_with_status,
};
use crate::ledger::{Entry, Ledger, call_of};
use crate::media_counts::MediaCounts;
use call_core::{CallNote, NoteOfCall};
use call_media::Session;
use calls::StandingCall;
use std::alloc::{AllocError, Global};

/// The session of the call of a number, if it has one.
fn session_in(calls: &[StandingCall], number: u64) -> Option<&Session>
    ensures { option_copied result ≡ session_in calls.now number }
{
    match call_of(calls, number) {
        Some(standing) => standing.call.session(),
        None => None,
    }
}

/// An offer inside the call was answered.
fn put_reanswer(
    out: &mut Vec<u8>,
    entry: &Entry,
    session: Option<&Session>,
) -> Result<(), AllocError>
    ensures ok { OnOk result (out.new.items ≡ out.old.items ++ said (reanswer_line entry.now (option_copied session.entry))) }
    ensures err { OnErr result (BeginsWith out.old.items out.new.items) }
{
    match session {
        Some(session) => put_change(out, entry, session),
        None => Ok(()),
    }
}

fn put_entry_note(
    out: &mut Vec<u8>,
    entry: &Entry,
    session: Option<&Session>,
    note: CallNote,
    media: Option<MediaCounts>,
    now: u64,
) -> Result<(), AllocError>
    ensures ok { OnOk result (out.new.items ≡ out.old.items ++ said (call_line entry.now (option_copied session.entry) note media now)) }
    ensures err { OnErr result (BeginsWith out.old.items out.new.items) }
{
    match note {
        CallNote::Begun => put_begun(out, entry),
        CallNote::Ringing(status) => put_with_status(out, b"call-ringing", entry, status),
        CallNote::Answered => put_with_delay(out, b"call-answered", entry, now),
        CallNote::Refused(status) => put_refused(out, entry, status),
        CallNote::GivenUp => put_with_delay(out, b"call-cancelled", entry, now),
        CallNote::Offered(end, method) => put_offered(out, entry, end, method),
        CallNote::Reanswered => put_reanswer(out, entry, session),
        CallNote::OfferRefused(status) => {
            put_with_status(out, b"call-offer-refused", entry, status)
        }
        CallNote::OfferGivenUp => put_offer_cancelled(out, entry),
        CallNote::Left(end) => put_left(out, entry, end, media, now),
        CallNote::Failed(status) => put_failed(out, entry, b"offer failed", status, media, now),
        CallNote::Unacknowledged => put_over(out, entry, b"no ack", media, now),
        CallNote::Expired => put_over(out, entry, b"expired", media, now),
    }
}

fn put_known(
    out: &mut Vec<u8>,
    entry: Option<&Entry>,
    session: Option<&Session>,
    note: CallNote,
    media: Option<MediaCounts>,
    now: u64,
) -> Result<(), AllocError>
    ensures ok { OnOk result (out.new.items ≡ out.old.items
        ++ said (known_line (option_copied entry.entry) (option_copied session.entry) note media now)) }
    ensures err { OnErr result (BeginsWith out.old.items out.new.items) }
{
    match entry {
        Some(entry) => put_entry_note(out, entry, session, note, media, now),
        None => Ok(()),
    }
}

/// Puts a call into the ledger from its beginning on.
fn begin(
    ledger: &mut Ledger,
    alloc: Global,
    calls: &[StandingCall],
    note: NoteOfCall,
    now: u64,
) -> Result<(), AllocError>
    ensures ok { OnOk result (ledger.new ≡ begun_in ledger.old calls.now note now) }
    ensures err { OnErr result (ledger.new ≡ ledger.old) }
{
    match note.note {
        CallNote::Begun => ledger.begin(alloc, calls, note.number, now),
        CallNote::Ringing(_)
        | CallNote::Answered
        | CallNote::Refused(_)
        | CallNote::GivenUp
        | CallNote::Offered(_, _)
        | CallNote::Reanswered
        | CallNote::OfferRefused(_)
        | CallNote::OfferGivenUp
        | CallNote::Left(_)
        | CallNote::Failed(_)
        | CallNote::Unacknowledged
        | CallNote::Expired => Ok(()),
    }
}

/// Updates whether a call is held, as its session says.
fn hold(ledger: &mut Ledger, session: Option<&Session>, number: u64)
    ensures { ledger.new ≡ held_by (option_copied session.entry) number ledger.old }
{
    if let Some(session) = session {
        ledger.hold(number, holds(session));
    }
}

/// Updates what the ledger knows of a call.
fn keep(ledger: &mut Ledger, session: Option<&Session>, note: NoteOfCall, now: u64)
    ensures { ledger.new ≡ kept_by ledger.old (option_copied session.entry) note.number note.note now }
{
    let NoteOfCall { number, note } = note;
    match note {
        CallNote::Answered => {
            ledger.answer(number, now);
            hold(ledger, session, number);
        }
        CallNote::Reanswered => hold(ledger, session, number),
        CallNote::Refused(_)
        | CallNote::GivenUp
        | CallNote::Left(_)
        | CallNote::Failed(_)
        | CallNote::Unacknowledged
        | CallNote::Expired => ledger.end(number),
        CallNote::Begun
        | CallNote::Ringing(_)
        | CallNote::Offered(_, _)
        | CallNote::OfferRefused(_)
        | CallNote::OfferGivenUp => {}
    }
}

/// Appends the line that says what happened to a call, and updates the ledger. If memory runs out, a part of the line
/// may be written, and the ledger has the call if it begins, or is as before.
pub(crate) fn put_call_note(
    out: &mut Vec<u8>,
    alloc: Global,
    ledger: &mut Ledger,
    calls: &[StandingCall],
    note: NoteOfCall,
    media: Option<MediaCounts>,
    now: u64,
) -> Result<(), AllocError>
    ensures ok { OnOk result (out.new.items ≡ out.old.items ++ said (line_of_call ledger.old calls.now note media now)) }
    ensures ledger { OnOk result (ledger.new ≡ ledger_of_call ledger.old calls.now note now) }
    ensures err { OnErr result (BeginsWith out.old.items out.new.items) }
    ensures lost { OnErr result ((ledger.new ≡ ledger.old) ⊎ (ledger.new ≡ begun_in ledger.old calls.now note now)) }
{
    begin(ledger, alloc, calls, note, now)?;
    let session = session_in(calls, note.number);
    put_known(out, ledger.get(note.number), session, note.note, media, now)?;
    keep(ledger, session, note, now);
    Ok(())
}
