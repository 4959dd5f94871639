//! Responses that a call takes.

ghost use Rattle.std.specs.Prelude.{◌++◌, ◌≡◌, false, ℕ, List, None, Ok, Option, slice_get, Some, true};
ghost use Rattle.event_rows.specs.Rows.{is_unreachable_message};
ghost use Rattle.call_core.specs.CallRows.{is_fit};
ghost use Rattle.call_core.specs.declared.input.Input.TheVariants as inputs;
ghost use Rattle.call_rules.specs.Content.{described};
ghost use Rattle.call_steps.specs.Rows.{answers_leg};
ghost use Rattle.call_core.specs.declared.stage.Standing.{Standing};
ghost use Rattle.call_trace.specs.declared.call.Call.{Call};
ghost use Rattle.call_trace.specs.declared.datagram.Datagram.{Datagram};
ghost use Rattle.call_trace.specs.declared.datagram.Message.{Message};
ghost use Rattle.call_trace.specs.Events.{passed};
ghost use Rattle.calls.specs.declared.standing_call.StandingCall.{StandingCall};
ghost use Rattle.events.specs.declared.sent.Sent.{Sent};
ghost use Rattle.plans.specs.CallRows.{takes};
ghost use Rattle.plans.specs.Effect.{Effect};
ghost use Rattle.plans.specs.Office.{Office};
ghost use Rattle.plans.specs.declared.setting.Setting.{Setting};
ghost use Rattle.media_laws.specs.Ties.{AreTied};
ghost use Rattle.media_laws.specs.Steps.{GoOn, IsAfter, StandsShown};
ghost use Rattle.media_laws.specs.Responding.{RespondsToOffer};
ghost use Rattle.media_laws.specs.Taking.{KnowsLegs};
ghost use Rattle.sip_message.specs.Read.{message_of};
ghost use Rattle.sip_message.specs.Words.{class_of};
ghost use Rattle.sip_message.specs.declared.message.Message.TheVariants as Kinds;
ghost use Rattle.sip_message.specs.declared.message.Response.{Response};
ghost use Rattle.sip_message.specs.declared.words.Class.TheVariants.{Failure, Provisional, Success};
ghost use Rattle.media_laws.specs.Listing.{is_listed};
ghost use Rattle.media_laws.specs.Shows.{ShowsCall};
ghost use Rattle.message_laws.specs.Messages.{AreMessages, IsTakenOf};
ghost use Rattle.transactions.specs.Contents.{reception_of};
ghost use Rattle.transactions.specs.declared.change.Entry.{Entry};
ghost use Rattle.transactions.specs.declared.transaction.Transaction.{Transaction};

use call_trace::moves_keep;
use dialogs::{contacts_are_read, dialogs_are_sound, invites_name_a_contact};
use offer_answer::sent_is_read;
use sip_writing::written_is_read;
use trace_reading::{bodies_describe, bytes_say_all};
use transactions::replies;

/// Where a call that the trace lists takes an early response, a refusal of its open offer, or a 2xx to it that is not
/// fit, the event is a move of the trace's calls, with what the transaction sends in it, the ACK of a refusal too.
/// After it the trace's calls show the server's.
pub fn responses_go_on()
    ensures ringing { (s after : Office) (begun more : List Transaction) (sent : List Sent) (t : List Datagram) (old : List Call) (k : ℕ) → StandsShown s begun t old k →
        IsAfter s after (begun ++ more) → AreTied s begun sent t old → KnowsLegs s → (e : Setting) (place : ℕ) (c : StandingCall) (n : Standing)
        (entries : List Entry) → slice_get s.calls.calls place ≡ Some c → c.call.standing ≡ Some n → is_listed c ≡ true → (bytes : List ℕ) (r : Response)
        (taken : Option Message) → message_of bytes ≡ Ok (Kinds.Response r) → IsTakenOf bytes taken → class_of r.status ≡ Provisional → (x : Effect) →
        x ≡ takes s e entries (reception_of s.table (Kinds.Response r)).send None place (inputs.Provisional r.status) None → (ms : List Message) →
        AreMessages x.plan.sends ms → after.calls.calls ≡ x.calls.standing.calls →
        GoOn (ShowsCall after.table.slots (begun ++ more) (t ++ passed k taken ms)) after.calls.calls t old taken ms }
    ensures refusal { (s after : Office) (begun more : List Transaction) (sent : List Sent) (t : List Datagram) (old : List Call) (k : ℕ) → StandsShown s begun t old k →
        IsAfter s after (begun ++ more) → AreTied s begun sent t old → KnowsLegs s → (e : Setting) (place : ℕ) (c : StandingCall) (n : Standing)
        (entries : List Entry) → slice_get s.calls.calls place ≡ Some c → c.call.standing ≡ Some n → is_listed c ≡ true → (bytes : List ℕ) (r : Response)
        (taken : Option Message) → message_of bytes ≡ Ok (Kinds.Response r) → IsTakenOf bytes taken → (id : ℕ) (y : Transaction) → RespondsToOffer s r id y c → class_of r.status ≡ Failure → (x : Effect) →
        x ≡ takes s e entries (reception_of s.table (Kinds.Response r)).send None place (inputs.Refusal r.status) None → (ms : List Message) →
        AreMessages x.plan.sends ms → after.calls.calls ≡ x.calls.standing.calls →
        GoOn (ShowsCall after.table.slots (begun ++ more) (t ++ passed k taken ms)) after.calls.calls t old taken ms }
    ensures unfit { (s after : Office) (begun more : List Transaction) (sent : List Sent) (t : List Datagram) (old : List Call) (k : ℕ) → StandsShown s begun t old k →
        IsAfter s after (begun ++ more) → AreTied s begun sent t old → KnowsLegs s → (e : Setting) (place : ℕ) (c : StandingCall) (n : Standing)
        (entries : List Entry) → slice_get s.calls.calls place ≡ Some c → c.call.standing ≡ Some n → is_listed c ≡ true → (bytes : List ℕ) (r : Response)
        (taken : Option Message) → message_of bytes ≡ Ok (Kinds.Response r) → IsTakenOf bytes taken → (id : ℕ) (y : Transaction) → RespondsToOffer s r id y c →
        is_unreachable_message (Kinds.Response r) ≡ false → class_of r.status ≡ Success → is_fit c.call c.call.media.offer (described r.headers r.body) ≡ false → (x : Effect) →
        x ≡ takes s e entries (reception_of s.table (Kinds.Response r)).send (Some id) place (inputs.Answer (described r.headers r.body)) (answers_leg s.calls.calls place y.parts r) →
        (ms : List Message) → AreMessages x.plan.sends ms → after.calls.calls ≡ x.calls.standing.calls →
        GoOn (ShowsCall after.table.slots (begun ++ more) (t ++ passed k taken ms)) after.calls.calls t old taken ms }
{
    moves_keep();
    contacts_are_read();
    invites_name_a_contact();
    dialogs_are_sound();
    bytes_say_all();
    written_is_read();
    bodies_describe();
    sent_is_read();
    replies();
}
