//! What one event takes from one end and sends to the other.

ghost use Rattle.std.specs.Prelude.{◌≡◌, ◌↔◌, IsTrue};
ghost use Rattle.call_trace.specs.Passing.{IsPassedOn, PassedTogether};
ghost use Rattle.call_trace.specs.Computed.{is_handed_on, passed_on_at, together_at};
ghost use Rattle.call_trace.specs.Places.{HoldTogether};

use crate::datagram::Datagram;
use crate::exchange::Places;
use crate::kinds::is_taken;

/// Whether one event took the first and sent the second, of one method.
#[tactic(auto, unfolding(crate::specs::Computed::is_handed_on))]
fn is_handed_on(came: &Datagram, went: &Datagram) -> bool
    ensures { result ≡ is_handed_on came.now went.now }
{
    is_taken(came.direction)
        && !is_taken(went.direction)
        && came.event == went.event
        && came.message.method == went.message.method
}

#[tactic(auto, unfolding(crate::specs::Computed::is_passed_on, crate::specs::Computed::passed_on_at))]
pub(crate) fn is_passed_on_at(trace: &[Datagram], x: Places, y: Places) -> bool
    ensures { result ≡ passed_on_at trace.now x y }
{
    let Some(came) = trace.get(x.asked) else {
        return false;
    };
    let Some(answered) = trace.get(x.answered) else {
        return false;
    };
    let Some(went) = trace.get(y.asked) else {
        return false;
    };
    let Some(answer) = trace.get(y.answered) else {
        return false;
    };
    is_handed_on(came, went) && is_handed_on(answer, answered)
}

#[tactic(auto, unfolding(crate::specs::Computed::together_at))]
pub(crate) fn is_together_at(trace: &[Datagram], x: Places, y: Places) -> bool
    ensures { result ≡ together_at trace.now x y }
{
    is_passed_on_at(trace, x, y) || is_passed_on_at(trace, y, x)
}

/// Whether the exchange at the first places was passed on as that at the second: one event took the offer of the first
/// and sent that of the second, and one event took the answer of the second and sent that of the first.
pub fn is_passed_on(trace: &[Datagram], x: Places, y: Places) -> bool
    ensures { IsTrue result ↔ HoldTogether trace.now x y IsPassedOn }
{
    is_passed_on_at(trace, x, y)
}

/// Whether one of the two exchanges was passed on as the other.
pub fn are_passed_together(trace: &[Datagram], x: Places, y: Places) -> bool
    ensures { IsTrue result ↔ HoldTogether trace.now x y PassedTogether }
{
    is_together_at(trace, x, y)
}
