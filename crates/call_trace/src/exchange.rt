//! Offers and their answers, and the last of a dialog.

ghost use Rattle.std.specs.Prelude.{◌≡◌, ◌↔◌, IsTrue};
ghost use Rattle.call_trace.specs.Exchanges.{IsExchange, IsLast};
ghost use Rattle.call_trace.specs.Computed.{sent_before, final_before, is_served, is_made, is_exchange, exchange_at, takes_final, sends_bytes};
ghost use Rattle.call_trace.specs.Places.{HoldsAt};

use crate::datagram::{Datagram, Dialog, Message};
use crate::dialogs::names;
use crate::kinds::{is_answer, is_final, is_offer, is_taken};
use crate::reply_words::is_reply;
use crate::search::is_last_at;
use text::{Text, Texts};

/// Where the request and the response of an exchange are in a trace.
#[derive(Clone, Copy)]
pub struct Places {
    pub asked: usize,
    pub answered: usize,
}

/// Whether a final response to the request was taken.
#[tactic(auto, unfolding(crate::specs::Computed::takes_final))]
pub(crate) fn takes_final(datagram: &Datagram, request: &Message) -> bool
    ensures { result ≡ takes_final datagram.now request.now }
{
    is_taken(datagram.direction)
        && is_final(datagram.message.kind)
        && is_reply(&datagram.message, request)
}

#[tactic(auto, unfolding(crate::specs::Computed::sends_bytes))]
pub(crate) fn sends_bytes(datagram: &Datagram, bytes: &Text<'_>) -> bool
    ensures { result ≡ sends_bytes datagram.now bytes.now }
{
    !is_taken(datagram.direction) && datagram.message.bytes == *bytes
}

/// Whether the bytes were sent before the place.
#[tactic(auto, unfolding(crate::specs::Computed::sent_before))]
fn sent_before(trace: &[Datagram], at: usize, bytes: &Text<'_>) -> bool
    ensures { result ≡ sent_before trace.now at bytes.now }
{
    trace
        .iter()
        .take(at)
        .any(|earlier| sends_bytes(earlier, bytes))
}

/// Whether a final response to the request was taken before the place.
#[tactic(auto, unfolding(crate::specs::Computed::final_before))]
fn final_before(trace: &[Datagram], at: usize, request: &Message) -> bool
    ensures { result ≡ final_before trace.now at request.now }
{
    trace
        .iter()
        .take(at)
        .any(|earlier| takes_final(earlier, request))
}

/// Whether the request was taken, and the response sent for the first time.
#[tactic(auto, unfolding(crate::specs::Computed::is_served))]
fn is_served(trace: &[Datagram], asked: &Datagram, at: usize, answered: &Datagram) -> bool
    ensures { result ≡ is_served trace.now asked.now at answered.now }
{
    is_taken(asked.direction)
        && !is_taken(answered.direction)
        && !sent_before(trace, at, &answered.message.bytes)
}

/// Whether the request was sent, and the response taken as the first final one.
#[tactic(auto, unfolding(crate::specs::Computed::is_made))]
fn is_made(trace: &[Datagram], asked: &Datagram, at: usize, answered: &Datagram) -> bool
    ensures { result ≡ is_made trace.now asked.now at answered.now }
{
    !is_taken(asked.direction)
        && is_taken(answered.direction)
        && !final_before(trace, at, &asked.message)
}

/// Whether the two datagrams at these places are an exchange of the dialog.
#[tactic(auto, unfolding(crate::specs::Computed::is_exchange))]
pub(crate) fn is_exchange_of(
    methods: &Texts<'_>,
    trace: &[Datagram],
    dialog: &Dialog,
    at: Places,
    asked: &Datagram,
    answered: &Datagram,
) -> bool
    ensures { result ≡ is_exchange methods.now trace.now dialog.now at asked.now answered.now }
{
    at.asked < at.answered
        && is_offer(methods, &asked.message)
        && is_answer(&answered.message)
        && is_reply(&answered.message, &asked.message)
        && (names(asked, dialog) || names(answered, dialog))
        && (is_served(trace, asked, at.answered, answered)
            || is_made(trace, asked, at.answered, answered))
}

#[tactic(auto, unfolding(crate::specs::Computed::exchange_at))]
pub(crate) fn is_exchange_at(
    methods: &Texts<'_>,
    trace: &[Datagram],
    dialog: &Dialog,
    at: Places,
) -> bool
    ensures { result ≡ exchange_at methods.now trace.now dialog.now at }
{
    let Some(asked) = trace.get(at.asked) else {
        return false;
    };
    let Some(answered) = trace.get(at.answered) else {
        return false;
    };
    is_exchange_of(methods, trace, dialog, at, asked, answered)
}

/// Whether an offer and its answer are at these places, in the dialog. The methods are those whose requests may carry
/// an offer (RFC 3261 sections 13 and 14, RFC 3264 section 4).
pub fn is_exchange(methods: &Texts<'_>, trace: &[Datagram], dialog: &Dialog, at: Places) -> bool
    ensures { IsTrue result
        ↔ HoldsAt trace.now at (λ e. IsExchange methods.now trace.now dialog.now e) }
{
    is_exchange_at(methods, trace, dialog, at)
}

/// Whether the exchange at these places is one of the last of the dialog: none was answered later.
pub fn is_last(methods: &Texts<'_>, trace: &[Datagram], dialog: &Dialog, at: Places) -> bool
    ensures { IsTrue result
        ↔ HoldsAt trace.now at (λ e. IsLast methods.now trace.now dialog.now e) }
{
    is_last_at(methods, trace, dialog, at)
}
