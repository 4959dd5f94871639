//! To whom a call speaks.

ghost use Rattle.std.specs.Prelude.{◌≡◌, ℕ, List, Some, None};
ghost use Rattle.sip_message.specs.declared.message.Request.{Request};
ghost use Rattle.sip_message.specs.declared.message.Response.{Response};
ghost use Rattle.sip_uri.specs.declared.uri.Addr.{Addr};
ghost use Rattle.call_core.specs.declared.action.CallTimer.{CallTimer};
ghost use Rattle.call_core.specs.declared.stage.Standing.{Standing};
ghost use Rattle.call_media.specs.declared.end.End.{End};
ghost use Rattle.call_rules.specs.Responses.{response_rule};
ghost use Rattle.call_rules.specs.declared.responses.ResponseRule.TheVariants as rule;
ghost use Rattle.call_steps.specs.Rows.{answers_leg, counts};
ghost use Rattle.call_trace.specs.declared.datagram.Datagram.{Datagram};
ghost use Rattle.calls.specs.declared.standing_call.StandingCall.{StandingCall};
ghost use Rattle.event_rows.specs.Rows.{no_source, row};
ghost use Rattle.event_rows.specs.State.{Contents};
ghost use Rattle.events.specs.declared.event.Event.{Event};
ghost use Rattle.media_laws.specs.Standing.{AgentStands};
ghost use Rattle.message_laws.specs.Addresses.{IsSource};
ghost use Rattle.transactions.specs.declared.transaction.Transaction.{Transaction};
ghost use Rattle.step_laws.specs.Coming.{BeginsTransaction, GoesUp};
ghost use Rattle.step_laws.specs.Acks.{IsAwaitedAck};
ghost use Rattle.step_laws.specs.Ends.{SpeaksOrAcks, SpeaksToEnds};
ghost use Rattle.step_laws.specs.Refusals.{IsRefusal};
ghost use Rattle.step_laws.specs.Expiring.{CallTimerIsDue, RequestTimesOut};
ghost use Rattle.step_laws.specs.Leaving.{IsBye, IsCancel, StandsAt};

use dialogs::{contacts_are_read, dialogs_are_sound, invites_name_a_contact};
use offer_answer::sent_is_read;
use sip_writing::written_is_read;
use trace_reading::{bodies_describe, bytes_say_all};
use transactions::replies;

/// Whatever a call does for a BYE, a CANCEL, an ACK, a response, a timer of its own, or the end of timer B or F, each
/// message of that step goes to one of its ends. It is a response to the request in which its offer came; the 200 to
/// the request that comes; a request in its dialog with an end, at the address of its target; the CANCEL of the
/// INVITE that it passed on; its 200 again; or, for a refusal, the ACK of the INVITE that is refused. All that is
/// sent for an offer, and to whom, is said by `first_invites_are_passed_on`, `first_invites_go_where_bound` and
/// `later_requests_go_across`.
pub fn calls_speak_to_their_ends()
    ensures bye { (s : Contents) (event : Event) (t : List Datagram) (k : ℕ) → AgentStands s t k → (source : Addr) (bytes : List ℕ) (r : Request) (id : ℕ) →
        IsSource source → BeginsTransaction s event source bytes r id → (place : ℕ) (c : StandingCall) (n : Standing) → StandsAt s place c n → (end : End) → IsBye s event r place end →
        SpeaksToEnds s c (counts s.calls.calls place end r.parts.cseq.number) (Some r) source (row s event) }
    ensures cancel { (s : Contents) (event : Event) (t : List Datagram) (k : ℕ) → AgentStands s t k → (source : Addr) (bytes : List ℕ) (r : Request) (id : ℕ) →
        IsSource source → BeginsTransaction s event source bytes r id → (place : ℕ) (c : StandingCall) (n : Standing) → StandsAt s place c n → IsCancel s event r place → SpeaksToEnds s c None (Some r) source (row s event) }
    ensures provisional { (s : Contents) (event : Event) (t : List Datagram) (k : ℕ) → AgentStands s t k → (source : Addr) (bytes : List ℕ) (r : Response) (id : ℕ) (asked : Transaction) →
        GoesUp s event source bytes r id asked → (place : ℕ) (c : StandingCall) (n : Standing) → StandsAt s place c n → response_rule s.calls.calls asked.parts r ≡ rule.Provisional place r.status →
        SpeaksToEnds s c None None source (row s event) }
    ensures answer { (s : Contents) (event : Event) (t : List Datagram) (k : ℕ) → AgentStands s t k → (source : Addr) (bytes : List ℕ) (r : Response) (id : ℕ) (asked : Transaction) →
        GoesUp s event source bytes r id asked → (place : ℕ) (c : StandingCall) (n : Standing) → StandsAt s place c n → response_rule s.calls.calls asked.parts r ≡ rule.Answer place →
        SpeaksToEnds s c (answers_leg s.calls.calls place asked.parts r) None source (row s event) }
    ensures refusal { (s : Contents) (event : Event) (t : List Datagram) (k : ℕ) → AgentStands s t k → (source : Addr) (bytes : List ℕ) (r : Response) (id : ℕ) (asked : Transaction) →
        GoesUp s event source bytes r id asked → (place : ℕ) (c : StandingCall) (n : Standing) → StandsAt s place c n → IsRefusal s asked r place → SpeaksOrAcks s c asked r source (row s event) }
    ensures ack { (s : Contents) (event : Event) (t : List Datagram) (k : ℕ) → AgentStands s t k → (source : Addr) (bytes : List ℕ) (r : Request) (place : ℕ) →
        IsAwaitedAck s event source bytes r place → (c : StandingCall) (n : Standing) → StandsAt s place c n → SpeaksToEnds s c None None source (row s event) }
    ensures timer { (s : Contents) (event : Event) (t : List Datagram) (k : ℕ) → AgentStands s t k → (place : ℕ) (c : StandingCall) (n : Standing) → StandsAt s place c n → (kind : CallTimer) → CallTimerIsDue s event place kind → SpeaksToEnds s c None None no_source (row s event) }
    ensures timeout { (s : Contents) (event : Event) (t : List Datagram) (k : ℕ) → AgentStands s t k → (place : ℕ) (c : StandingCall) (n : Standing) → StandsAt s place c n → RequestTimesOut s event place → SpeaksToEnds s c None None no_source (row s event) }
{
    contacts_are_read();
    dialogs_are_sound();
    invites_name_a_contact();
    bytes_say_all();
    written_is_read();
    bodies_describe();
    sent_is_read();
    replies();
}
