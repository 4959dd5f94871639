//! What a step does for the final response to an open offer.

ghost use Rattle.std.specs.Prelude.{◌≡◌, Bool, ℕ, List, [], ◌∷◌, Some};
ghost use Rattle.sip_message.specs.declared.message.Response.{Response};
ghost use Rattle.sip_uri.specs.declared.uri.Addr.{Addr};
ghost use Rattle.sdp.specs.declared.description.Description.{Description};
ghost use Rattle.call_rules.specs.declared.responses.ResponseRule.TheVariants as rule;
ghost use Rattle.call_trace.specs.declared.datagram.Datagram.{Datagram};
ghost use Rattle.calls.specs.declared.standing_call.StandingCall.{StandingCall};
ghost use Rattle.event_rows.specs.Rows.{row};
ghost use Rattle.event_rows.specs.State.{Contents};
ghost use Rattle.events.specs.declared.event.Event.{Event};
ghost use Rattle.media_laws.specs.Standing.{AgentStands};
ghost use Rattle.transactions.specs.declared.transaction.Transaction.{Transaction};
ghost use Rattle.call_core.specs.declared.stage.Cancelled.{Cancelled};
ghost use Rattle.call_core.specs.declared.stage.Stage.TheVariants as stages;
ghost use Rattle.call_core.specs.declared.stage.Standing.{Standing};
ghost use Rattle.call_rules.specs.Responses.{response_rule};
ghost use Rattle.dialogs.specs.Making.{callers_dialog, reached_at};
ghost use Rattle.sip_message.specs.Contact.{contacts_of};
ghost use Rattle.sip_uri.specs.declared.uri.Uri.{Uri};
ghost use Rattle.step_laws.specs.Leaving.{StandsAt, WithOffer, bye, to_offerer};
ghost use Rattle.step_laws.specs.Sending.{Sends};
ghost use Rattle.step_laws.specs.Answers.{IsUnfit, SendsInside, acknowledges, IsAnsweredTo, IsAwaited, IsFitAnswer, IsRefusedTo};
ghost use Rattle.step_laws.specs.Coming.{GoesUp};

use dialogs::{contacts_are_read, dialogs_are_sound, invites_name_a_contact};
use message_laws::calls_are_served;
use offer_answer::sent_is_read;
use sip_writing::written_is_read;
use trace_reading::{bodies_describe, bytes_say_all};
use transactions::replies;

/// A 2xx for which a call waits, with an answer that its open offer lets the end give: in that step the offerer gets a
/// 200 to its request, with a matching answer. The ACK goes before it where the 2xx answers an INVITE; none goes
/// where it answers an UPDATE. This holds after any events, where the transaction of the server's own request hands
/// the 2xx up.
pub fn fit_answers_are_passed_on()
    ensures { (s : Contents) (event : Event) (t : List Datagram) (k : ℕ) → AgentStands s t k → (source : Addr) (bytes : List ℕ) (r : Response) (id : ℕ) (asked : Transaction) →
        GoesUp s event source bytes r id asked → (place : ℕ) (c : StandingCall) (offered : Transaction) →
        IsAwaited s asked r (rule.Answer place) place c offered → (answer : Description) → IsFitAnswer c r answer →
        IsAnsweredTo asked offered answer (row s event) }
{
    contacts_are_read();
    dialogs_are_sound();
    invites_name_a_contact();
    bytes_say_all();
    written_is_read();
    bodies_describe();
    sent_is_read();
    replies();
    calls_are_served();
}

/// A refusal for which a call waits: in that step the offerer gets it as the final response to its request, with the
/// same number, except that a redirection becomes 480, and a demand for credentials 500. This holds after any events,
/// where the transaction of the server's own request hands the refusal up.
pub fn refusals_are_passed_on()
    ensures { (s : Contents) (event : Event) (t : List Datagram) (k : ℕ) → AgentStands s t k → (source : Addr) (bytes : List ℕ) (r : Response) (id : ℕ) (asked : Transaction) →
        GoesUp s event source bytes r id asked → (place status : ℕ) (c : StandingCall) (offered : Transaction) →
        IsAwaited s asked r (rule.Refusal place status) place c offered → IsRefusedTo r.status offered (row s event) }
{
    bytes_say_all();
    written_is_read();
    bodies_describe();
    sent_is_read();
}

/// To whom a fit answer goes: the 200 of `fit_answers_are_passed_on` goes back to where the offer came from; and the
/// ACK, before it, in the dialog that a first 2xx makes (`first`), or in the one with its sender (`inside`), to the
/// address of the 2xx's Contact. For an UPDATE there is none (`update`). Nothing else is sent.
pub fn fit_answers_go_back()
    ensures first { (s : Contents) (event : Event) (t : List Datagram) (k : ℕ) → AgentStands s t k → (source : Addr) (bytes : List ℕ) (r : Response) (id : ℕ) (asked : Transaction) →
        GoesUp s event source bytes r id asked → (place : ℕ) (c : StandingCall) (n : Standing) → StandsAt s place c n → response_rule s.calls.calls asked.parts r ≡ rule.Answer place →
        (rung : Bool) → n.stage ≡ stages.Asked rung → (target : Uri) → reached_at (contacts_of r.headers) ≡ Some target → (answer : Description) → IsFitAnswer c r answer →
        WithOffer s c (λ offered. Sends (acknowledges (callers_dialog asked.parts r target) ∷ to_offerer c offered 200 ∷ []) (row s event)) }
    ensures inside { (s : Contents) (event : Event) (t : List Datagram) (k : ℕ) → AgentStands s t k → (source : Addr) (bytes : List ℕ) (r : Response) (id : ℕ) (asked : Transaction) →
        GoesUp s event source bytes r id asked → (place : ℕ) (c : StandingCall) (n : Standing) → StandsAt s place c n → response_rule s.calls.calls asked.parts r ≡ rule.Answer place →
        (rung : Bool) (cancelled : Cancelled) → n.stage ≡ stages.Reasked rung cancelled → (answer : Description) → IsFitAnswer c r answer →
        WithOffer s c (λ offered. SendsInside (λ d own. acknowledges d ∷ to_offerer c offered 200 ∷ []) c r n.offerer (row s event)) }
    ensures update { (s : Contents) (event : Event) (t : List Datagram) (k : ℕ) → AgentStands s t k → (source : Addr) (bytes : List ℕ) (r : Response) (id : ℕ) (asked : Transaction) →
        GoesUp s event source bytes r id asked → (place : ℕ) (c : StandingCall) (n : Standing) → StandsAt s place c n → response_rule s.calls.calls asked.parts r ≡ rule.Answer place →
        n.stage ≡ stages.Updating → (answer : Description) → IsFitAnswer c r answer → WithOffer s c (λ offered. Sends (to_offerer c offered 200 ∷ []) (row s event)) }
{
    contacts_are_read();
    dialogs_are_sound();
    invites_name_a_contact();
    bytes_say_all();
    written_is_read();
    bodies_describe();
    sent_is_read();
    replies();
}

/// A 2xx for which a call waits, without an answer that its open offer lets the end give. Of a first INVITE: in that
/// step ACK and BYE go in the dialog that it makes, to the address of its Contact, and the caller gets 500 (`first`).
/// Of an INVITE inside a call: ACK and BYE to its sender, 500 to the offerer's request, and a BYE to the offerer
/// (`inside`). Of an UPDATE: 500, and a BYE to each end (`update`). Nothing else is sent. This holds after any
/// events, where the transaction of the server's own request hands the 2xx up.
pub fn unfit_answers_end_calls()
    ensures first { (s : Contents) (event : Event) (t : List Datagram) (k : ℕ) → AgentStands s t k → (source : Addr) (bytes : List ℕ) (r : Response) (id : ℕ) (asked : Transaction) →
        GoesUp s event source bytes r id asked → (place : ℕ) (c : StandingCall) (n : Standing) → StandsAt s place c n → response_rule s.calls.calls asked.parts r ≡ rule.Answer place →
        (rung : Bool) → n.stage ≡ stages.Asked rung → (target : Uri) → reached_at (contacts_of r.headers) ≡ Some target → IsUnfit c r →
        WithOffer s c (λ offered. Sends (acknowledges (callers_dialog asked.parts r target) ∷ bye (callers_dialog asked.parts r target) ∷ to_offerer c offered 500 ∷ []) (row s event)) }
    ensures inside { (s : Contents) (event : Event) (t : List Datagram) (k : ℕ) → AgentStands s t k → (source : Addr) (bytes : List ℕ) (r : Response) (id : ℕ) (asked : Transaction) →
        GoesUp s event source bytes r id asked → (place : ℕ) (c : StandingCall) (n : Standing) → StandsAt s place c n → response_rule s.calls.calls asked.parts r ≡ rule.Answer place →
        (rung : Bool) (cancelled : Cancelled) → n.stage ≡ stages.Reasked rung cancelled → IsUnfit c r →
        WithOffer s c (λ offered. SendsInside (λ d own. acknowledges d ∷ bye d ∷ to_offerer c offered 500 ∷ bye own ∷ []) c r n.offerer (row s event)) }
    ensures update { (s : Contents) (event : Event) (t : List Datagram) (k : ℕ) → AgentStands s t k → (source : Addr) (bytes : List ℕ) (r : Response) (id : ℕ) (asked : Transaction) →
        GoesUp s event source bytes r id asked → (place : ℕ) (c : StandingCall) (n : Standing) → StandsAt s place c n → response_rule s.calls.calls asked.parts r ≡ rule.Answer place →
        n.stage ≡ stages.Updating → IsUnfit c r → WithOffer s c (λ offered. SendsInside (λ d own. to_offerer c offered 500 ∷ bye d ∷ bye own ∷ []) c r n.offerer (row s event)) }
{
    contacts_are_read();
    dialogs_are_sound();
    invites_name_a_contact();
    bytes_say_all();
    written_is_read();
    bodies_describe();
    sent_is_read();
    replies();
}
