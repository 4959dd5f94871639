//! In which dialogs an offer is open.

ghost use Rattle.std.specs.Prelude.{◌≡◌, ◌↔◌, IsTrue};
ghost use Rattle.call_trace.specs.Calls.{Open};
ghost use Rattle.call_trace.specs.Computed.{final_from, is_unanswered, unanswered_at, open_in};

use crate::datagram::{Datagram, Dialog, Message};
use crate::exchange::takes_final;
use crate::kinds::asks;
use crate::lives::is_sent_in;
use text::Texts;

/// Whether a final response to the request was taken from the place on.
#[tactic(auto, unfolding(crate::specs::Computed::final_from))]
fn final_from(trace: &[Datagram], at: usize, request: &Message) -> bool
    ensures { result ≡ final_from trace.now at request.now }
{
    trace
        .iter()
        .skip(at)
        .any(|later| takes_final(later, request))
}

/// Whether this was sent in the dialog, may carry an offer, and got no final response from its place on.
#[tactic(auto, unfolding(crate::specs::Computed::is_unanswered))]
fn is_unanswered(
    methods: &Texts<'_>,
    trace: &[Datagram],
    dialog: &Dialog,
    at: usize,
    datagram: &Datagram,
) -> bool
    ensures { result ≡ is_unanswered methods.now trace.now dialog.now at datagram.now }
{
    is_sent_in(datagram, dialog)
        && asks(methods, &datagram.message)
        && !final_from(trace, at, &datagram.message)
}

#[tactic(auto, unfolding(crate::specs::Computed::unanswered_at))]
fn is_unanswered_at(methods: &Texts<'_>, trace: &[Datagram], dialog: &Dialog, at: usize) -> bool
    ensures { result ≡ unanswered_at methods.now trace.now dialog.now at }
{
    match trace.get(at) {
        Some(datagram) => is_unanswered(methods, trace, dialog, at, datagram),
        None => false,
    }
}

#[tactic(auto, unfolding(crate::specs::Computed::open_in))]
fn open_in(methods: &Texts<'_>, trace: &[Datagram], dialog: &Dialog) -> bool
    ensures { result ≡ open_in methods.now trace.now dialog.now }
{
    (0..trace.len()).any(|at| is_unanswered_at(methods, trace, dialog, at))
}

/// Whether an offer is open in the dialog: a request that may carry one was sent in it, and no final response to it was
/// taken since (RFC 3261 section 14.1, RFC 3264 section 4).
pub fn is_open(methods: &Texts<'_>, trace: &[Datagram], dialog: &Dialog) -> bool
    ensures { IsTrue result ↔ Open methods.now trace.now dialog.now }
{
    open_in(methods, trace, dialog)
}
