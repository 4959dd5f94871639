//! The transactions by their numbers, and by what they are looked up by.

ghost use Rattle.std.specs.Prelude.{◌≡◌, option_map, position};
ghost use Rattle.std.specs.List.{find, list_any};
ghost use Rattle.std.specs.Option.{option_copied};
ghost use Rattle.transactions.specs.Prints.{branch_print};
ghost use Rattle.transactions.specs.Slots.{at, is_asked, is_answered, is_named, is_named_invite, is_merged, is_waiting_invite, awaits_final, named, waiting_invite};

use crate::matches::{is_copy, is_merged_with, is_reply, same_top};
use crate::places::Places;
use crate::print::branch_print;
use crate::slot::Slot;
use crate::transaction::Transaction;
use index::Entry;
use sip_message::{Parts, is_method, tag_value};
use sip_uri::same_text;
use text::Text;
use transaction_machines::{InviteClient, State, is_server};

/// The transaction of a number.
pub(crate) fn transaction_at(slots: &[Slot], id: usize) -> Option<&Transaction>
    ensures { option_copied result ≡ at slots.now id }
{
    match slots.get(id) {
        Some(slot) => slot.transaction(),
        None => None,
    }
}

#[tactic(auto, unfolding(crate::specs::Slots::is_asked))]
fn is_asked(slots: &[Slot], number: usize, parts: &Parts) -> bool
    ensures { result ≡ is_asked parts.now (at slots.now number) }
{
    match transaction_at(slots, number) {
        None => false,
        Some(transaction) => is_server(transaction.state) && is_copy(parts, &transaction.parts),
    }
}

fn first_asked(entries: &[Entry], slots: &[Slot], parts: &Parts) -> Option<usize>
    ensures { result ≡ option_map (λ e. e.number) (find (λ e. is_asked parts.now (at slots.now e.number)) entries.now) }
{
    entries
        .iter()
        .find(|entry| is_asked(slots, entry.number, parts))
        .map(|entry| entry.number)
}

/// The server transaction that a request belongs to, by the print of its branch.
pub(crate) fn server_place(places: &Places, parts: &Parts, branch: u64) -> Option<usize>
    requires { branch ≡ branch_print places.now.key parts.now.vias }
    ensures { result ≡ position (is_asked parts.now) places.now.slots }
{
    let entries = places.of_branch(branch);
    first_asked(entries, places.slots(), parts)
}

#[tactic(auto, unfolding(crate::specs::Slots::is_answered))]
fn is_answered(slots: &[Slot], number: usize, parts: &Parts) -> bool
    ensures { result ≡ is_answered parts.now (at slots.now number) }
{
    match transaction_at(slots, number) {
        None => false,
        Some(transaction) => !is_server(transaction.state) && is_reply(parts, &transaction.parts),
    }
}

fn first_answered(entries: &[Entry], slots: &[Slot], parts: &Parts) -> Option<usize>
    ensures { result ≡ option_map (λ e. e.number) (find (λ e. is_answered parts.now (at slots.now e.number)) entries.now) }
{
    entries
        .iter()
        .find(|entry| is_answered(slots, entry.number, parts))
        .map(|entry| entry.number)
}

/// The client transaction whose request a response answers.
pub(crate) fn client_place(places: &Places, parts: &Parts) -> Option<usize>
    ensures { result ≡ position (is_answered parts.now) places.now.slots }
{
    let entries = places.of_branch(branch_print(places.key(), &parts.vias));
    first_answered(entries, places.slots(), parts)
}

#[tactic(auto, unfolding(crate::specs::Slots::is_named_invite))]
fn is_named_invite(slots: &[Slot], number: usize, parts: &Parts) -> bool
    ensures { result ≡ is_named_invite parts.now (at slots.now number) }
{
    match transaction_at(slots, number) {
        None => false,
        Some(transaction) => {
            matches!(transaction.state, State::InviteServer(_))
                && same_top(&transaction.parts, parts)
        }
    }
}

fn named_invite(entries: &[Entry], slots: &[Slot], parts: &Parts) -> Option<usize>
    ensures { result ≡ option_map (λ e. e.number) (find (λ e. is_named_invite parts.now (at slots.now e.number)) entries.now) }
{
    entries
        .iter()
        .find(|entry| is_named_invite(slots, entry.number, parts))
        .map(|entry| entry.number)
}

#[tactic(auto, unfolding(crate::specs::Slots::is_named))]
fn is_named(slots: &[Slot], number: usize, parts: &Parts) -> bool
    ensures { result ≡ is_named parts.now (at slots.now number) }
{
    match transaction_at(slots, number) {
        None => false,
        Some(transaction) => {
            is_server(transaction.state)
                && !is_method(&transaction.parts, b"CANCEL")
                && same_top(&transaction.parts, parts)
        }
    }
}

fn named_other(entries: &[Entry], slots: &[Slot], parts: &Parts) -> Option<usize>
    ensures { result ≡ option_map (λ e. e.number) (find (λ e. is_named parts.now (at slots.now e.number)) entries.now) }
{
    entries
        .iter()
        .find(|entry| is_named(slots, entry.number, parts))
        .map(|entry| entry.number)
}

/// The server transaction that a CANCEL names.
pub(crate) fn cancelled_place(places: &Places, parts: &Parts) -> Option<usize>
    ensures { result ≡ named places.now.slots parts.now }
{
    let (entries, slots) = (
        places.of_branch(branch_print(places.key(), &parts.vias)),
        places.slots(),
    );
    match named_invite(entries, slots, parts) {
        Some(id) => Some(id),
        None => named_other(entries, slots, parts),
    }
}

#[tactic(auto, unfolding(crate::specs::Slots::is_merged))]
fn is_merged(slots: &[Slot], number: usize, parts: &Parts) -> bool
    ensures { result ≡ is_merged parts.now (at slots.now number) }
{
    match transaction_at(slots, number) {
        None => false,
        Some(transaction) => {
            is_server(transaction.state) && is_merged_with(parts, &transaction.parts)
        }
    }
}

fn merges_any(entries: &[Entry], slots: &[Slot], parts: &Parts) -> bool
    ensures { result ≡ list_any (λ e. is_merged parts.now (at slots.now e.number)) entries.now }
{
    entries
        .iter()
        .any(|entry| is_merged(slots, entry.number, parts))
}

/// Whether a server transaction has the request from another path.
pub(crate) fn any_merged(places: &Places, parts: &Parts) -> bool
    ensures { result ≡ list_any (is_merged parts.now) places.now.slots }
{
    let entries = places.of_call(places.key().print_of(parts.call_id.as_bytes()));
    merges_any(entries, places.slots(), parts)
}

fn awaits_final(state: State) -> bool
    ensures { result ≡ awaits_final state }
{
    matches!(
        state,
        State::InviteClient(InviteClient::Calling(..) | InviteClient::Proceeding)
    )
}

#[tactic(auto, unfolding(crate::specs::Slots::is_waiting_invite))]
fn is_waiting_invite(slots: &[Slot], number: usize, tag: &Text<'_>) -> bool
    ensures { result ≡ is_waiting_invite tag.now (at slots.now number) }
{
    match transaction_at(slots, number) {
        None => false,
        Some(transaction) => {
            awaits_final(transaction.state)
                && same_text(
                    tag_value(transaction.parts.from.params.as_slice()),
                    Some(tag),
                )
        }
    }
}

fn first_waiting(entries: &[Entry], slots: &[Slot], tag: &Text<'_>) -> Option<usize>
    ensures { result ≡ option_map (λ e. e.number) (find (λ e. is_waiting_invite tag.now (at slots.now e.number)) entries.now) }
{
    entries
        .iter()
        .find(|entry| is_waiting_invite(slots, entry.number, tag))
        .map(|entry| entry.number)
}

/// The INVITE of the server's own with this tag in From that has no final response.
pub(crate) fn waiting_invite(places: &Places, tag: &Text<'_>) -> Option<usize>
    ensures { result ≡ waiting_invite places.now.slots tag.now }
{
    let entries = places.of_tag(places.key().print_of(tag.as_bytes()));
    first_waiting(entries, places.slots(), tag)
}
