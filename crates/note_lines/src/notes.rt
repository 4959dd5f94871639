//! What an event was about, as a line.

ghost use Rattle.std.specs.Prelude.{◌≡◌, ◌≤◌, ◌⊎◌, ◌++◌, ◌∷◌, [], codes, find, length, OnOk, OnErr, Some};
ghost use Rattle.std.specs.List.{flat_map};
ghost use Rattle.sip_uri.specs.Writing.{BeginsWith};
ghost use Rattle.note_lines.specs.CallLines.{call_field};
ghost use Rattle.note_lines.specs.Ledger.{is_entry};
ghost use Rattle.note_lines.specs.Limits.{max_calls};
ghost use Rattle.note_lines.specs.Lines.{field_text, line_end, line_text, said, Tells};
ghost use Rattle.note_lines.specs.NoteLines.{count_line, dropped_line, expected_field, ledger_after, note_line, noted, refused_line, shed_line, silent_field, silent_line, source_fields, with_begun};
ghost use Rattle.note_lines.specs.Notes.{IsWordOf, Says};

use crate::call_lines::put_call;
use crate::call_notes::put_call_note;
use crate::ledger::{Entry, Ledger};
use crate::lines::{end_line, put_number, put_place, put_text, put_word, put_words};
use crate::noted_event::NotedEvent;
use crate::reasons::{reason_words, why_word};
use crate::registrations::put_registration;
use call_core::End;
use plans::{Note, Reason, Why};
use sip_uri::Addr;
use std::alloc::{AllocError, Global};

/// Where an event came from, if it was a datagram: the end of a line.
fn put_source(out: &mut Vec<u8>, alloc: Global, source: Option<Addr>) -> Result<(), AllocError>
    ensures ok { OnOk result (out.new.items ≡ out.old.items ++ flat_map field_text (source_fields source) ++ line_end) }
    ensures err { OnErr result (BeginsWith out.old.items out.new.items) }
{
    if let Some(source) = source {
        put_place(out, alloc, b"source", source)?;
    }
    end_line(out)
}

#[tactic(auto, unfolding(crate::specs::Lines::line_text))]
fn put_refusal(
    out: &mut Vec<u8>,
    alloc: Global,
    reason: Reason,
    source: Option<Addr>,
) -> Result<(), AllocError>
    ensures ok { OnOk result (out.new.items ≡ out.old.items ++ said (Some (refused_line reason source))) }
    ensures err { OnErr result (BeginsWith out.old.items out.new.items) }
{
    let words = reason_words(alloc, reason)?;
    put_word(out, b"refused")?;
    put_number(out, b"status", u64::from(reason.status()))?;
    put_words(out, b"reason", words.as_bytes())?;
    put_source(out, alloc, source)
}

#[tactic(auto, unfolding(crate::specs::Lines::line_text))]
fn put_drop(
    out: &mut Vec<u8>,
    alloc: Global,
    why: Why,
    source: Option<Addr>,
) -> Result<(), AllocError>
    ensures ok { OnOk result (out.new.items ≡ out.old.items ++ said (Some (dropped_line why source))) }
    ensures err { OnErr result (BeginsWith out.old.items out.new.items) }
{
    put_word(out, b"dropped")?;
    put_words(out, b"why", why_word(why))?;
    put_source(out, alloc, source)
}

#[tactic(auto, unfolding(crate::specs::Lines::line_text))]
fn put_shed(out: &mut Vec<u8>, alloc: Global, source: Option<Addr>) -> Result<(), AllocError>
    ensures ok { OnOk result (out.new.items ≡ out.old.items ++ said (Some (shed_line source))) }
    ensures err { OnErr result (BeginsWith out.old.items out.new.items) }
{
    put_word(out, b"shed")?;
    put_source(out, alloc, source)
}

/// The line of an event, and the ledger after it.
fn put_event(
    out: &mut Vec<u8>,
    alloc: Global,
    ledger: &mut Ledger,
    event: NotedEvent<'_>,
) -> Result<(), AllocError>
    ensures ok { OnOk result (out.new.items ≡ out.old.items ++ said (note_line ledger.old (noted event.entry))) }
    ensures ledger { OnOk result (ledger.new ≡ ledger_after ledger.old (noted event.entry)) }
    ensures err { OnErr result (BeginsWith out.old.items out.new.items) }
    ensures lost { OnErr result ((ledger.new ≡ ledger.old) ⊎ (ledger.new ≡ with_begun ledger.old (noted event.entry))) }
{
    let NotedEvent {
        calls,
        registrar,
        user,
        moment,
        source,
        media,
        ..
    } = event;
    match event.note {
        Note::Quiet => Ok(()),
        Note::Call(note) => put_call_note(out, alloc, ledger, calls, note, media, moment),
        Note::Refused(reason) => put_refusal(out, alloc, reason, source),
        Note::Registered => put_registration(out, alloc, registrar, user, moment),
        Note::Dropped(why) => put_drop(out, alloc, why, source),
        Note::Shed => put_shed(out, alloc, source),
    }
}

/// Appends the line of an event, if it has one, and nothing else. The ledger, which has seen the events before, is as
/// after this one. If memory runs out, a part of the line may be written, and the ledger is as before, or has the call
/// that the event began.
#[tactic(auto, using(crate::proofs::NoteLaws::note_says, crate::proofs::LineLaws::says_tells))]
pub fn put_note(
    out: &mut Vec<u8>,
    alloc: Global,
    ledger: &mut Ledger,
    event: NotedEvent<'_>,
) -> Result<(), AllocError>
    ensures ok { OnOk result (out.new.items ≡ out.old.items ++ said (note_line ledger.old (noted event.entry))) }
    ensures ledger { OnOk result (ledger.new ≡ ledger_after ledger.old (noted event.entry)) }
    ensures err { OnErr result (BeginsWith out.old.items out.new.items) }
    ensures lost { OnErr result ((ledger.new ≡ ledger.old) ⊎ (ledger.new ≡ with_begun ledger.old (noted event.entry))) }
    ensures few { length ledger.new ≤ max_calls }
    // It is one line, of bytes that no terminal and no reader of lines takes for anything else, and not long.
    ensures tells { OnOk result (Tells out.old.items out.new.items) }
    ensures says { OnOk result (Says (IsWordOf event.entry.note) out.old.items out.new.items) }
{
    let put = put_event(out, alloc, ledger, event);
    ledger.few();
    put
}

/// The end that isn't heard.
fn put_silent_end(out: &mut Vec<u8>, entry: &Entry, end: End) -> Result<(), AllocError>
    ensures ok { OnOk result (out.new.items ≡ out.old.items ++ field_text (silent_field entry.now end)) }
    ensures err { OnErr result (BeginsWith out.old.items out.new.items) }
{
    put_text(out, b"from", entry.user(end))
}

/// The place that its description names: the end of the line.
fn put_expected(out: &mut Vec<u8>, alloc: Global, place: Addr) -> Result<(), AllocError>
    ensures ok { OnOk result (out.new.items ≡ out.old.items ++ field_text (expected_field place) ++ line_end) }
    ensures err { OnErr result (BeginsWith out.old.items out.new.items) }
{
    put_place(out, alloc, b"expected", place)?;
    end_line(out)
}

#[tactic(auto, unfolding(crate::specs::Lines::line_text))]
fn put_silence(
    out: &mut Vec<u8>,
    alloc: Global,
    word: &[u8],
    entry: &Entry,
    end: End,
    expected: Addr,
) -> Result<(), AllocError>
    ensures ok { OnOk result (out.new.items ≡ out.old.items
        ++ line_text word.now (call_field entry.now ∷ silent_field entry.now end ∷ expected_field expected ∷ [])) }
    ensures err { OnErr result (BeginsWith out.old.items out.new.items) }
{
    put_call(out, word, entry)?;
    put_silent_end(out, entry, end)?;
    put_expected(out, alloc, expected)
}

fn put_known_silence(
    out: &mut Vec<u8>,
    alloc: Global,
    ledger: &Ledger,
    number: u64,
    end: End,
    expected: Addr,
) -> Result<(), AllocError>
    ensures ok { OnOk result (out.new.items ≡ out.old.items ++ said (silent_line (find (is_entry number) ledger.now) end expected)) }
    ensures err { OnErr result (BeginsWith out.old.items out.new.items) }
{
    match ledger.get(number) {
        Some(entry) => put_silence(out, alloc, b"call-silent-way", entry, end, expected),
        None => Ok(()),
    }
}

/// Appends the line for a call in which no media come from this end, whose description names this place. Appends
/// nothing for a call that isn't known. If memory runs out, a part of the line may be written.
#[tactic(auto, using(crate::proofs::NoteLaws::silent_says, crate::proofs::LineLaws::says_tells))]
pub fn put_silent_way(
    out: &mut Vec<u8>,
    alloc: Global,
    ledger: &Ledger,
    number: u64,
    end: End,
    expected: Addr,
) -> Result<(), AllocError>
    ensures ok { OnOk result (out.new.items ≡ out.old.items ++ said (silent_line (find (is_entry number) ledger.now) end expected)) }
    ensures err { OnErr result (BeginsWith out.old.items out.new.items) }
    ensures tells { OnOk result (Tells out.old.items out.new.items) }
    ensures says { OnOk result (Says (λ w. w ≡ codes "call-silent-way") out.old.items out.new.items) }
{
    put_known_silence(out, alloc, ledger, number, end, expected)
}

#[tactic(auto, unfolding(crate::specs::Lines::line_text))]
fn put_count_line(out: &mut Vec<u8>, word: &[u8], count: u64) -> Result<(), AllocError>
    ensures ok { OnOk result (out.new.items ≡ out.old.items ++ said (Some (count_line word.now count))) }
    ensures err { OnErr result (BeginsWith out.old.items out.new.items) }
{
    put_word(out, word)?;
    put_number(out, b"count", count)?;
    end_line(out)
}

/// Appends a line with a count. If memory runs out, a part of it may be written.
#[tactic(auto, using(crate::proofs::NoteLaws::count_says, crate::proofs::LineLaws::says_tells))]
pub fn put_count(out: &mut Vec<u8>, word: &[u8], count: u64) -> Result<(), AllocError>
    ensures ok { OnOk result (out.new.items ≡ out.old.items ++ said (Some (count_line word.now count))) }
    ensures err { OnErr result (BeginsWith out.old.items out.new.items) }
    ensures tells { OnOk result (Tells out.old.items out.new.items) }
    ensures says { OnOk result (Says (λ w. w ≡ word.now) out.old.items out.new.items) }
{
    put_count_line(out, word, count)
}
