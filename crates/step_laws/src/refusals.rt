//! To whom a refusal goes, and what is sent for a response that no call takes.

ghost use Rattle.std.specs.Prelude.{◌≡◌, true, false, Bool, ℕ, List, [], ◌∷◌, ◌++◌};
ghost use Rattle.sip_message.specs.Words.{class_of};
ghost use Rattle.sip_message.specs.declared.message.Response.{Response};
ghost use Rattle.sip_message.specs.declared.words.Class.TheVariants.{Failure, Provisional, Success};
ghost use Rattle.sip_uri.specs.declared.uri.Addr.{Addr};
ghost use Rattle.call_core.specs.Calls.{awaits_answer, has_session};
ghost use Rattle.call_core.specs.Passing.{status_passed_on};
ghost use Rattle.call_core.specs.Reasked.{has_lost_the_call};
ghost use Rattle.call_core.specs.declared.stage.Stage.TheVariants as stages;
ghost use Rattle.call_core.specs.declared.stage.Standing.{Standing};
ghost use Rattle.call_rules.specs.Responses.{response_rule};
ghost use Rattle.call_rules.specs.declared.responses.ResponseRule.TheVariants as rule;
ghost use Rattle.call_trace.specs.declared.datagram.Datagram.{Datagram};
ghost use Rattle.calls.specs.declared.standing_call.StandingCall.{StandingCall};
ghost use Rattle.event_rows.specs.Rows.{row};
ghost use Rattle.event_rows.specs.State.{Contents};
ghost use Rattle.events.specs.declared.event.Event.{Event};
ghost use Rattle.media_laws.specs.Standing.{AgentStands};
ghost use Rattle.transactions.specs.declared.transaction.Transaction.{Transaction};
ghost use Rattle.step_laws.specs.Coming.{GoesUp};
ghost use Rattle.step_laws.specs.Expiring.{LeavesBoth};
ghost use Rattle.step_laws.specs.Leaving.{StandsAt, WithOffer, to_offerer};
ghost use Rattle.step_laws.specs.Refusals.{IsRefusal, own_acks};
ghost use Rattle.step_laws.specs.Repeats.{SendsJust};
ghost use Rattle.step_laws.specs.Sending.{Sends};

use dialogs::{contacts_are_read, dialogs_are_sound};
use offer_answer::sent_is_read;
use sip_writing::written_is_read;
use trace_reading::{bodies_describe, bytes_say_all};

/// To whom a refusal goes: the response of `refusals_are_passed_on` goes back to where the offer came from, after the
/// ACK of an INVITE's refusal, which goes where that INVITE went (`first`, `inside`). After 408 or 481 to a request
/// inside a call both ends get a BYE after it (`lost`). The refusal of an INVITE that was given up gets only its ACK
/// (`given_up`). Nothing else is sent.
pub fn refusals_go_back()
    ensures first { (s : Contents) (event : Event) (t : List Datagram) (k : ℕ) → AgentStands s t k → (source : Addr) (bytes : List ℕ) (r : Response) (id : ℕ) (asked : Transaction) →
        GoesUp s event source bytes r id asked → (place : ℕ) (c : StandingCall) (n : Standing) → StandsAt s place c n → IsRefusal s asked r place →
        (rung : Bool) → n.stage ≡ stages.Asked rung → WithOffer s c (λ offered. Sends (own_acks asked r ++ to_offerer c offered (status_passed_on r.status) ∷ []) (row s event)) }
    ensures inside { (s : Contents) (event : Event) (t : List Datagram) (k : ℕ) → AgentStands s t k → (source : Addr) (bytes : List ℕ) (r : Response) (id : ℕ) (asked : Transaction) →
        GoesUp s event source bytes r id asked → (place : ℕ) (c : StandingCall) (n : Standing) → StandsAt s place c n → IsRefusal s asked r place →
        has_session n.stage ≡ true → awaits_answer n.stage ≡ true → has_lost_the_call r.status ≡ false →
        WithOffer s c (λ offered. Sends (own_acks asked r ++ to_offerer c offered (status_passed_on r.status) ∷ []) (row s event)) }
    ensures lost { (s : Contents) (event : Event) (t : List Datagram) (k : ℕ) → AgentStands s t k → (source : Addr) (bytes : List ℕ) (r : Response) (id : ℕ) (asked : Transaction) →
        GoesUp s event source bytes r id asked → (place : ℕ) (c : StandingCall) (n : Standing) → StandsAt s place c n → IsRefusal s asked r place →
        has_session n.stage ≡ true → awaits_answer n.stage ≡ true → has_lost_the_call r.status ≡ true →
        WithOffer s c (λ offered. LeavesBoth (own_acks asked r ++ to_offerer c offered r.status ∷ []) c n.offerer (row s event)) }
    ensures given_up { (s : Contents) (event : Event) (t : List Datagram) (k : ℕ) → AgentStands s t k → (source : Addr) (bytes : List ℕ) (r : Response) (id : ℕ) (asked : Transaction) →
        GoesUp s event source bytes r id asked → (place : ℕ) (c : StandingCall) (n : Standing) → StandsAt s place c n → IsRefusal s asked r place →
        (waits : Bool) → n.stage ≡ stages.Cancelling waits → Sends (own_acks asked r) (row s event) }
{
    contacts_are_read();
    dialogs_are_sound();
    bytes_say_all();
    written_is_read();
    bodies_describe();
    sent_is_read();
}

/// A response that goes up and that no call takes. A refusal gets the ACK of its INVITE, at the address where that
/// went (`refusal`). A 2xx or a provisional response gets nothing (`success`, `provisional`). Nothing else is sent.
/// This holds after any events.
pub fn unclaimed_responses_get_an_ack_at_most()
    ensures refusal { (s : Contents) (event : Event) (t : List Datagram) (k : ℕ) → AgentStands s t k → (source : Addr) (bytes : List ℕ) (r : Response) (id : ℕ) (asked : Transaction) →
        GoesUp s event source bytes r id asked → response_rule s.calls.calls asked.parts r ≡ rule.Silent → class_of r.status ≡ Failure → Sends (own_acks asked r) (row s event) }
    ensures success { (s : Contents) (event : Event) (t : List Datagram) (k : ℕ) → AgentStands s t k → (source : Addr) (bytes : List ℕ) (r : Response) (id : ℕ) (asked : Transaction) →
        GoesUp s event source bytes r id asked → response_rule s.calls.calls asked.parts r ≡ rule.Silent → class_of r.status ≡ Success → SendsJust [] (row s event) }
    ensures provisional { (s : Contents) (event : Event) (t : List Datagram) (k : ℕ) → AgentStands s t k → (source : Addr) (bytes : List ℕ) (r : Response) (id : ℕ) (asked : Transaction) →
        GoesUp s event source bytes r id asked → response_rule s.calls.calls asked.parts r ≡ rule.Silent → class_of r.status ≡ Provisional → SendsJust [] (row s event) }
{
    contacts_are_read();
    dialogs_are_sound();
    bytes_say_all();
    written_is_read();
    bodies_describe();
    sent_is_read();
}
