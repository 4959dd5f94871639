//! What a step does for an offer that gets no final response in time.

ghost use Rattle.std.specs.Prelude.{◌≡◌, true, Bool, ℕ, List, [], ◌∷◌};
ghost use Rattle.call_core.specs.Calls.{awaits_answer, has_session};
ghost use Rattle.call_core.specs.declared.stage.Cancelled.{Cancelled};
ghost use Rattle.call_core.specs.declared.stage.Stage.TheVariants as stages;
ghost use Rattle.call_core.specs.declared.stage.Standing.{Standing};
ghost use Rattle.call_trace.specs.declared.datagram.Datagram.{Datagram};
ghost use Rattle.calls.specs.declared.standing_call.StandingCall.{StandingCall};
ghost use Rattle.event_rows.specs.Rows.{row};
ghost use Rattle.event_rows.specs.State.{Contents};
ghost use Rattle.events.specs.declared.event.Event.{Event};
ghost use Rattle.media_laws.specs.Standing.{AgentStands};
ghost use Rattle.transactions.specs.declared.transaction.Transaction.{Transaction};
ghost use Rattle.step_laws.specs.Expiring.{LeavesBoth, LimitIsReached, RequestTimesOut};
ghost use Rattle.step_laws.specs.Leaving.{IsGoingOn, StandsAt, WithOffer, to_offerer};
ghost use Rattle.step_laws.specs.Sending.{Sends, cancels};

use offer_answer::sent_is_read;
use sip_writing::written_is_read;
use trace_reading::{bodies_describe, bytes_say_all};

/// The callee of a first INVITE rings longer than it may: in that step the caller gets 480, and CANCEL goes where the
/// INVITE was passed on to (`ringing`). No response comes in time to the first INVITE: the caller gets 408
/// (`unanswered`). None comes in time to an INVITE or UPDATE inside a call (`inside`), or its INVITE rings too long
/// (`inside_ringing`): the offerer gets 408, and both ends a BYE. Nothing else is sent. This holds after any events.
pub fn unanswered_offers_end()
    ensures ringing { (s : Contents) (event : Event) (t : List Datagram) (k : ℕ) → AgentStands s t k → (place : ℕ) (c : StandingCall) (n : Standing) → StandsAt s place c n →
        LimitIsReached s event place → n.stage ≡ stages.Asked true → (went : Transaction) → IsGoingOn s c went →
        WithOffer s c (λ offered. Sends (to_offerer c offered 480 ∷ cancels went ∷ []) (row s event)) }
    ensures inside_ringing { (s : Contents) (event : Event) (t : List Datagram) (k : ℕ) → AgentStands s t k → (place : ℕ) (c : StandingCall) (n : Standing) → StandsAt s place c n →
        LimitIsReached s event place → (cancelled : Cancelled) → n.stage ≡ stages.Reasked true cancelled →
        WithOffer s c (λ offered. LeavesBoth (to_offerer c offered 408 ∷ []) c n.offerer (row s event)) }
    ensures unanswered { (s : Contents) (event : Event) (t : List Datagram) (k : ℕ) → AgentStands s t k → (place : ℕ) (c : StandingCall) (n : Standing) → StandsAt s place c n →
        RequestTimesOut s event place → (rung : Bool) → n.stage ≡ stages.Asked rung → WithOffer s c (λ offered. Sends (to_offerer c offered 408 ∷ []) (row s event)) }
    ensures inside { (s : Contents) (event : Event) (t : List Datagram) (k : ℕ) → AgentStands s t k → (place : ℕ) (c : StandingCall) (n : Standing) → StandsAt s place c n →
        RequestTimesOut s event place → has_session n.stage ≡ true → awaits_answer n.stage ≡ true →
        WithOffer s c (λ offered. LeavesBoth (to_offerer c offered 408 ∷ []) c n.offerer (row s event)) }
{
    bytes_say_all();
    written_is_read();
    bodies_describe();
    sent_is_read();
}
