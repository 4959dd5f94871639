//! The last exchanges of two dialogs, passed on one to the other.

ghost use Rattle.std.specs.Prelude.{◌≡◌, ◌↔◌, IsTrue};
ghost use Rattle.call_trace.specs.Promise.{AreLast};
ghost use Rattle.call_trace.specs.Computed.{same_places, rival_at, has_rival_for, has_rival_at, has_rival, last_together, some_below, places};
ghost use Rattle.call_trace.specs.Places.{HoldTogether};

use crate::datagram::{Datagram, Dialog};
use crate::exchange::Places;
use crate::pass_on::{is_passed_on_at, is_together_at};
use crate::search::is_last_at;
use text::Texts;

/// The places of the two exchanges that are asked about.
#[derive(Clone, Copy)]
struct Chosen {
    x: Places,
    y: Places,
}

fn are_same(x: Places, y: Places) -> bool
    ensures { result ≡ same_places x y }
{
    x.asked == y.asked && x.answered == y.answered
}

/// Whether these are other places than the chosen ones, of last exchanges that were passed together.
#[tactic(auto, unfolding(crate::specs::Computed::rival_at))]
fn is_rival_at(
    methods: &Texts<'_>,
    trace: &[Datagram],
    chosen: Chosen,
    e: Places,
    dialog: &Dialog,
    f: Places,
) -> bool
    ensures { result ≡ rival_at methods.now trace.now chosen.x chosen.y e dialog.now f }
{
    is_last_at(methods, trace, dialog, f)
        && is_together_at(trace, e, f)
        && !(are_same(e, chosen.x) && are_same(f, chosen.y))
}

fn has_rival_answered_at(
    methods: &Texts<'_>,
    trace: &[Datagram],
    chosen: Chosen,
    e: Places,
    dialog: &Dialog,
    answered: usize,
) -> bool
    ensures { result ≡ some_below
        (λ i. rival_at methods.now trace.now chosen.x chosen.y e dialog.now (places i answered)) answered }
{
    (0..answered).any(|asked| is_rival_at(
        methods,
        trace,
        chosen,
        e,
        dialog,
        Places { asked, answered },
    ))
}

#[tactic(auto, unfolding(crate::specs::Computed::has_rival_for))]
fn has_rival_for(
    methods: &Texts<'_>,
    trace: &[Datagram],
    chosen: Chosen,
    e: Places,
    dialog: &Dialog,
) -> bool
    ensures { result ≡ has_rival_for methods.now trace.now chosen.x chosen.y e dialog.now }
{
    (0..trace.len()).any(|answered| has_rival_answered_at(
        methods, trace, chosen, e, dialog, answered,
    ))
}

#[tactic(auto, unfolding(crate::specs::Computed::has_rival_at))]
fn has_rival_at(
    methods: &Texts<'_>,
    trace: &[Datagram],
    dx: &Dialog,
    dy: &Dialog,
    chosen: Chosen,
    e: Places,
) -> bool
    ensures { result ≡ has_rival_at methods.now trace.now dx.now dy.now chosen.x chosen.y e }
{
    is_last_at(methods, trace, dx, e) && has_rival_for(methods, trace, chosen, e, dy)
}

fn has_rival_first_answered_at(
    methods: &Texts<'_>,
    trace: &[Datagram],
    dx: &Dialog,
    dy: &Dialog,
    chosen: Chosen,
    answered: usize,
) -> bool
    ensures { result ≡ some_below
        (λ i. has_rival_at methods.now trace.now dx.now dy.now chosen.x chosen.y (places i answered)) answered }
{
    (0..answered).any(|asked| has_rival_at(
        methods,
        trace,
        dx,
        dy,
        chosen,
        Places { asked, answered },
    ))
}

/// Whether two other last exchanges of the two dialogs were passed together.
#[tactic(auto, unfolding(crate::specs::Computed::has_rival))]
fn has_rival(
    methods: &Texts<'_>,
    trace: &[Datagram],
    dx: &Dialog,
    dy: &Dialog,
    chosen: Chosen,
) -> bool
    ensures { result ≡ has_rival methods.now trace.now dx.now dy.now chosen.x chosen.y }
{
    (0..trace.len()).any(|answered| has_rival_first_answered_at(
        methods, trace, dx, dy, chosen, answered,
    ))
}

#[tactic(auto, unfolding(crate::specs::Computed::last_together))]
fn last_together(
    methods: &Texts<'_>,
    trace: &[Datagram],
    dx: &Dialog,
    dy: &Dialog,
    chosen: Chosen,
) -> bool
    ensures { result ≡ last_together methods.now trace.now dx.now dy.now chosen.x chosen.y }
{
    is_last_at(methods, trace, dx, chosen.x)
        && is_last_at(methods, trace, dy, chosen.y)
        && is_passed_on_at(trace, chosen.x, chosen.y)
        && !has_rival(methods, trace, dx, dy, chosen)
}

/// Whether the exchange at `x`, one of the last of the dialog `dx`, was passed on as that at `y`, one of the last of
/// `dy`, and no other two of these were passed together.
pub fn are_last(
    methods: &Texts<'_>,
    trace: &[Datagram],
    dx: &Dialog,
    dy: &Dialog,
    x: Places,
    y: Places,
) -> bool
    ensures { IsTrue result
        ↔ HoldTogether trace.now x y (λ e f. AreLast methods.now trace.now dx.now dy.now e f) }
{
    last_together(methods, trace, dx, dy, Chosen { x, y })
}
