//! Which dialogs are live: begun and not ended (RFC 3261 sections 12.1 and 15).

ghost use Rattle.std.specs.Prelude.{◌≡◌, ◌↔◌, IsTrue};
ghost use Rattle.call_trace.specs.Calls.{Begun, Ended, Live};
ghost use Rattle.call_trace.specs.Computed.{is_sent_in, is_accepted, invites_with, is_invited_with, is_acknowledged, some_accepted, some_acknowledged, begun, is_bye_sent, is_bye_served, bye_before, serves_bye, serves_bye_at, some_bye_sent, some_bye_served, ended, live};

use crate::datagram::{Datagram, Dialog};
use crate::dialogs::names;
use crate::kinds::{ACK, BYE, INVITE, accepts, is_ok, is_request_of, is_taken};
use crate::reply_words::is_reply;
use text::Text;

/// Whether this was sent in the dialog.
#[tactic(auto, unfolding(crate::specs::Computed::is_sent_in))]
pub(crate) fn is_sent_in(datagram: &Datagram, dialog: &Dialog) -> bool
    ensures { result ≡ is_sent_in datagram.now dialog.now }
{
    !is_taken(datagram.direction) && names(datagram, dialog)
}

#[tactic(auto, unfolding(crate::specs::Computed::is_accepted))]
fn is_accepted(datagram: &Datagram, dialog: &Dialog) -> bool
    ensures { result ≡ is_accepted datagram.now dialog.now }
{
    is_sent_in(datagram, dialog) && accepts(&datagram.message)
}

/// Whether an INVITE with this branch was sent.
#[tactic(auto, unfolding(crate::specs::Computed::invites_with))]
fn invites_with(datagram: &Datagram, branch: &Text<'_>) -> bool
    ensures { result ≡ invites_with datagram.now branch.now }
{
    !is_taken(datagram.direction)
        && is_request_of(INVITE, &datagram.message)
        && datagram.message.branch == *branch
}

#[tactic(auto, unfolding(crate::specs::Computed::is_invited_with))]
fn is_invited_with(trace: &[Datagram], branch: &Text<'_>) -> bool
    ensures { result ≡ is_invited_with trace.now branch.now }
{
    trace.iter().any(|other| invites_with(other, branch))
}

/// Whether this is an ACK to a 2xx, sent in the dialog.
#[tactic(auto, unfolding(crate::specs::Computed::is_acknowledged))]
fn is_acknowledged(trace: &[Datagram], datagram: &Datagram, dialog: &Dialog) -> bool
    ensures { result ≡ is_acknowledged trace.now datagram.now dialog.now }
{
    is_sent_in(datagram, dialog)
        && is_request_of(ACK, &datagram.message)
        && !is_invited_with(trace, &datagram.message.branch)
}

#[tactic(auto, unfolding(crate::specs::Computed::some_accepted))]
fn some_accepted(trace: &[Datagram], dialog: &Dialog) -> bool
    ensures { result ≡ some_accepted trace.now dialog.now }
{
    trace.iter().any(|datagram| is_accepted(datagram, dialog))
}

#[tactic(auto, unfolding(crate::specs::Computed::some_acknowledged))]
fn some_acknowledged(trace: &[Datagram], dialog: &Dialog) -> bool
    ensures { result ≡ some_acknowledged trace.now dialog.now }
{
    trace
        .iter()
        .any(|datagram| is_acknowledged(trace, datagram, dialog))
}

#[tactic(auto, unfolding(crate::specs::Computed::begun))]
fn begun(trace: &[Datagram], dialog: &Dialog) -> bool
    ensures { result ≡ begun trace.now dialog.now }
{
    some_accepted(trace, dialog) || some_acknowledged(trace, dialog)
}

#[tactic(auto, unfolding(crate::specs::Computed::is_bye_sent))]
fn is_bye_sent(datagram: &Datagram, dialog: &Dialog) -> bool
    ensures { result ≡ is_bye_sent datagram.now dialog.now }
{
    is_sent_in(datagram, dialog) && is_request_of(BYE, &datagram.message)
}

/// Whether this BYE was taken in the dialog, and the response replies to it.
#[tactic(auto, unfolding(crate::specs::Computed::is_bye_served))]
fn is_bye_served(datagram: &Datagram, response: &Datagram, dialog: &Dialog) -> bool
    ensures { result ≡ is_bye_served datagram.now response.now dialog.now }
{
    is_taken(datagram.direction)
        && is_request_of(BYE, &datagram.message)
        && names(datagram, dialog)
        && is_reply(&response.message, &datagram.message)
}

/// Whether a BYE of the dialog, to which the response replies, was taken before the place.
#[tactic(auto, unfolding(crate::specs::Computed::bye_before))]
fn bye_before(trace: &[Datagram], dialog: &Dialog, at: usize, response: &Datagram) -> bool
    ensures { result ≡ bye_before trace.now dialog.now at response.now }
{
    trace
        .iter()
        .take(at)
        .any(|asked| is_bye_served(asked, response, dialog))
}

/// Whether this is a 200 that was sent to a BYE of the dialog.
#[tactic(auto, unfolding(crate::specs::Computed::serves_bye))]
fn serves_bye(trace: &[Datagram], dialog: &Dialog, at: usize, response: &Datagram) -> bool
    ensures { result ≡ serves_bye trace.now dialog.now at response.now }
{
    !is_taken(response.direction)
        && is_ok(response.message.kind)
        && bye_before(trace, dialog, at, response)
}

#[tactic(auto, unfolding(crate::specs::Computed::serves_bye_at))]
fn serves_bye_at(trace: &[Datagram], dialog: &Dialog, at: usize) -> bool
    ensures { result ≡ serves_bye_at trace.now dialog.now at }
{
    match trace.get(at) {
        Some(response) => serves_bye(trace, dialog, at, response),
        None => false,
    }
}

#[tactic(auto, unfolding(crate::specs::Computed::some_bye_sent))]
fn some_bye_sent(trace: &[Datagram], dialog: &Dialog) -> bool
    ensures { result ≡ some_bye_sent trace.now dialog.now }
{
    trace.iter().any(|datagram| is_bye_sent(datagram, dialog))
}

fn some_bye_served(trace: &[Datagram], dialog: &Dialog) -> bool
    ensures { result ≡ some_bye_served trace.now dialog.now }
{
    (0..trace.len()).any(|at| serves_bye_at(trace, dialog, at))
}

#[tactic(auto, unfolding(crate::specs::Computed::ended))]
fn ended(trace: &[Datagram], dialog: &Dialog) -> bool
    ensures { result ≡ ended trace.now dialog.now }
{
    some_bye_sent(trace, dialog) || some_bye_served(trace, dialog)
}

#[tactic(auto, unfolding(crate::specs::Computed::live))]
fn live(trace: &[Datagram], dialog: &Dialog) -> bool
    ensures { result ≡ live trace.now dialog.now }
{
    begun(trace, dialog) && !ended(trace, dialog)
}

/// Whether the dialog has begun: a 2xx to an INVITE was sent in it, or one was taken and acknowledged.
pub fn has_begun(trace: &[Datagram], dialog: &Dialog) -> bool
    ensures { IsTrue result ↔ Begun trace.now dialog.now }
{
    begun(trace, dialog)
}

/// Whether the dialog has ended: a BYE was sent in it, or one was taken and replied 200.
pub fn has_ended(trace: &[Datagram], dialog: &Dialog) -> bool
    ensures { IsTrue result ↔ Ended trace.now dialog.now }
{
    ended(trace, dialog)
}

/// Whether the dialog has begun and has not ended.
pub fn is_live(trace: &[Datagram], dialog: &Dialog) -> bool
    ensures { IsTrue result ↔ Live trace.now dialog.now }
{
    live(trace, dialog)
}
