//! Which two dialogs are a call.

ghost use Rattle.std.specs.Prelude.{◌≡◌, ◌↔◌, IsTrue};
ghost use Rattle.call_trace.specs.Calls.{CallOf};
ghost use Rattle.call_trace.specs.Computed.{is_first, first_at, partner_at, has_partner, begins_call, call_of, some_below, places};

use crate::datagram::{Datagram, Dialog};
use crate::dialogs::names;
use crate::exchange::{Places, is_exchange_of};
use crate::kinds::{INVITE, is_method};
use crate::pass_on::is_together_at;
use crate::reply_words::is_absent;
use text::Texts;

#[tactic(auto, unfolding(crate::specs::Computed::is_first))]
fn is_first(
    methods: &Texts<'_>,
    trace: &[Datagram],
    dialog: &Dialog,
    at: Places,
    asked: &Datagram,
    answered: &Datagram,
) -> bool
    ensures { result ≡ is_first methods.now trace.now dialog.now at asked.now answered.now }
{
    is_exchange_of(methods, trace, dialog, at, asked, answered)
        && is_method(INVITE, &asked.message.method)
        && is_absent(&asked.message.to_tag)
        && names(answered, dialog)
}

/// Whether the exchange at these places began the dialog.
#[tactic(auto, unfolding(crate::specs::Computed::first_at))]
fn is_first_at(methods: &Texts<'_>, trace: &[Datagram], dialog: &Dialog, at: Places) -> bool
    ensures { result ≡ first_at methods.now trace.now dialog.now at }
{
    let Some(asked) = trace.get(at.asked) else {
        return false;
    };
    let Some(answered) = trace.get(at.answered) else {
        return false;
    };
    is_first(methods, trace, dialog, at, asked, answered)
}

#[tactic(auto, unfolding(crate::specs::Computed::partner_at))]
fn is_partner_at(
    methods: &Texts<'_>,
    trace: &[Datagram],
    x: Places,
    dialog: &Dialog,
    y: Places,
) -> bool
    ensures { result ≡ partner_at methods.now trace.now x dialog.now y }
{
    is_first_at(methods, trace, dialog, y) && is_together_at(trace, x, y)
}

fn has_partner_answered_at(
    methods: &Texts<'_>,
    trace: &[Datagram],
    x: Places,
    dialog: &Dialog,
    answered: usize,
) -> bool
    ensures { result
        ≡ some_below (λ i. partner_at methods.now trace.now x dialog.now (places i answered)) answered }
{
    (0..answered).any(|asked| is_partner_at(methods, trace, x, dialog, Places { asked, answered }))
}

/// Whether an exchange that began this dialog was passed together with that at the places.
#[tactic(auto, unfolding(crate::specs::Computed::has_partner))]
fn has_partner(methods: &Texts<'_>, trace: &[Datagram], x: Places, dialog: &Dialog) -> bool
    ensures { result ≡ has_partner methods.now trace.now x dialog.now }
{
    (0..trace.len()).any(|answered| has_partner_answered_at(methods, trace, x, dialog, answered))
}

#[tactic(auto, unfolding(crate::specs::Computed::begins_call))]
fn begins_call(methods: &Texts<'_>, trace: &[Datagram], dx: &Dialog, dy: &Dialog, x: Places) -> bool
    ensures { result ≡ begins_call methods.now trace.now dx.now dy.now x }
{
    is_first_at(methods, trace, dx, x) && has_partner(methods, trace, x, dy)
}

fn begins_call_answered_at(
    methods: &Texts<'_>,
    trace: &[Datagram],
    dx: &Dialog,
    dy: &Dialog,
    answered: usize,
) -> bool
    ensures { result
        ≡ some_below (λ i. begins_call methods.now trace.now dx.now dy.now (places i answered)) answered }
{
    (0..answered).any(|asked| begins_call(methods, trace, dx, dy, Places { asked, answered }))
}

#[tactic(auto, unfolding(crate::specs::Computed::call_of))]
fn are_call(methods: &Texts<'_>, trace: &[Datagram], dx: &Dialog, dy: &Dialog) -> bool
    ensures { result ≡ call_of methods.now trace.now dx.now dy.now }
{
    (0..trace.len()).any(|answered| begins_call_answered_at(methods, trace, dx, dy, answered))
}

/// Whether the two dialogs are a call: exchanges that began them were passed together (RFC 3261 section 12.1).
pub fn is_call(methods: &Texts<'_>, trace: &[Datagram], dx: &Dialog, dy: &Dialog) -> bool
    ensures { IsTrue result ↔ CallOf methods.now trace.now dx.now dy.now }
{
    are_call(methods, trace, dx, dy)
}
