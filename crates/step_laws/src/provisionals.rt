//! What a step does for a provisional response.

ghost use Rattle.std.specs.Prelude.{◌≡◌, true, false, Bool, ℕ, List, [], ◌∷◌, ◌++◌};
ghost use Rattle.sip_message.specs.declared.message.Response.{Response};
ghost use Rattle.sip_uri.specs.declared.uri.Addr.{Addr};
ghost use Rattle.call_core.specs.declared.stage.Cancelled.TheVariants.{Waits};
ghost use Rattle.call_core.specs.declared.stage.Stage.TheVariants as stages;
ghost use Rattle.call_core.specs.declared.stage.Standing.{Standing};
ghost use Rattle.call_rules.specs.Responses.{response_rule};
ghost use Rattle.call_rules.specs.declared.responses.ResponseRule.TheVariants as rule;
ghost use Rattle.call_trace.specs.declared.datagram.Datagram.{Datagram};
ghost use Rattle.calls.specs.Finding.{is_cancellable};
ghost use Rattle.calls.specs.declared.standing_call.StandingCall.{StandingCall};
ghost use Rattle.event_rows.specs.Rows.{row};
ghost use Rattle.event_rows.specs.State.{Contents};
ghost use Rattle.events.specs.declared.event.Event.{Event};
ghost use Rattle.media_laws.specs.Standing.{AgentStands};
ghost use Rattle.transactions.specs.declared.transaction.Transaction.{Transaction};
ghost use Rattle.step_laws.specs.Coming.{GoesUp};
ghost use Rattle.step_laws.specs.Leaving.{IsGoingOn, StandsAt, WithOffer};
ghost use Rattle.step_laws.specs.Ringing.{keeps_cancel, provisional_to};
ghost use Rattle.step_laws.specs.Sending.{Sends, cancels};

use offer_answer::sent_is_read;
use sip_writing::written_is_read;
use trace_reading::{bodies_describe, bytes_say_all};

/// A provisional response to an INVITE for whose final response a call waits: in that step the offerer gets it with its
/// number, but no 100 (`passed`). Where a CANCEL waited for it, that goes after it, to where the INVITE was passed on
/// (`kept`); and alone, where the offerer had its final response already (`given_up`). Nothing else is sent. This
/// holds after any events, where the transaction of the server's own INVITE hands the response up.
pub fn provisionals_are_passed_on()
    ensures passed { (s : Contents) (event : Event) (t : List Datagram) (k : ℕ) → AgentStands s t k → (source : Addr) (bytes : List ℕ) (r : Response) (id : ℕ) (asked : Transaction) →
        GoesUp s event source bytes r id asked → (place : ℕ) (c : StandingCall) (n : Standing) → StandsAt s place c n → response_rule s.calls.calls asked.parts r ≡ rule.Provisional place r.status →
        is_cancellable n.stage ≡ true → keeps_cancel n.stage ≡ false → WithOffer s c (λ offered. Sends (provisional_to c offered r.status) (row s event)) }
    ensures kept { (s : Contents) (event : Event) (t : List Datagram) (k : ℕ) → AgentStands s t k → (source : Addr) (bytes : List ℕ) (r : Response) (id : ℕ) (asked : Transaction) →
        GoesUp s event source bytes r id asked → (place : ℕ) (c : StandingCall) (n : Standing) → StandsAt s place c n → response_rule s.calls.calls asked.parts r ≡ rule.Provisional place r.status →
        (rung : Bool) → n.stage ≡ stages.Reasked rung Waits → (went : Transaction) → IsGoingOn s c went → WithOffer s c (λ offered. Sends (provisional_to c offered r.status ++ cancels went ∷ []) (row s event)) }
    ensures given_up { (s : Contents) (event : Event) (t : List Datagram) (k : ℕ) → AgentStands s t k → (source : Addr) (bytes : List ℕ) (r : Response) (id : ℕ) (asked : Transaction) →
        GoesUp s event source bytes r id asked → (place : ℕ) (c : StandingCall) (n : Standing) → StandsAt s place c n → response_rule s.calls.calls asked.parts r ≡ rule.Provisional place r.status →
        n.stage ≡ stages.Cancelling false → (went : Transaction) → IsGoingOn s c went → Sends (cancels went ∷ []) (row s event) }
{
    bytes_say_all();
    written_is_read();
    bodies_describe();
    sent_is_read();
}
