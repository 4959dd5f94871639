//! Search for exchanges in a trace.

ghost use Rattle.std.specs.Prelude.{◌≡◌};
ghost use Rattle.call_trace.specs.Computed.{answered_at, answered_behind, later_exchange, last_at};

use crate::datagram::{Datagram, Dialog};
use crate::exchange::{Places, is_exchange_at};
use text::Texts;

/// Whether the response at this place answers an offer of the dialog.
#[tactic(auto, unfolding(crate::specs::Computed::answered_at))]
fn is_answered_at(methods: &Texts<'_>, trace: &[Datagram], dialog: &Dialog, answered: usize) -> bool
    ensures { result ≡ answered_at methods.now trace.now dialog.now answered }
{
    (0..answered).any(|asked| is_exchange_at(methods, trace, dialog, Places { asked, answered }))
}

/// Whether an exchange of the dialog was answered at the place, which is after the other.
#[tactic(auto, unfolding(crate::specs::Computed::answered_behind))]
fn is_answered_behind(
    methods: &Texts<'_>,
    trace: &[Datagram],
    dialog: &Dialog,
    answered: usize,
    place: usize,
) -> bool
    ensures { result ≡ answered_behind methods.now trace.now dialog.now answered place }
{
    answered < place && is_answered_at(methods, trace, dialog, place)
}

/// Whether an exchange of the dialog was answered after this place.
#[tactic(auto, unfolding(crate::specs::Computed::later_exchange))]
fn has_later(methods: &Texts<'_>, trace: &[Datagram], dialog: &Dialog, answered: usize) -> bool
    ensures { result ≡ later_exchange methods.now trace.now dialog.now answered }
{
    (0..trace.len()).any(|place| is_answered_behind(methods, trace, dialog, answered, place))
}

#[tactic(auto, unfolding(crate::specs::Computed::last_at))]
pub(crate) fn is_last_at(
    methods: &Texts<'_>,
    trace: &[Datagram],
    dialog: &Dialog,
    at: Places,
) -> bool
    ensures { result ≡ last_at methods.now trace.now dialog.now at }
{
    is_exchange_at(methods, trace, dialog, at) && !has_later(methods, trace, dialog, at.answered)
}
