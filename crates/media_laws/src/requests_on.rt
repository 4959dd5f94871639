//! Requests of the ends that end a call, or give up its first offer.

ghost use Rattle.std.specs.Prelude.{◌++◌, ◌≡◌, ℕ, codes, List, None, Ok, Option, slice_get, Some, true};
ghost use Rattle.call_core.specs.declared.input.Input.TheVariants as inputs;
ghost use Rattle.call_core.specs.declared.stage.Standing.{Standing};
ghost use Rattle.call_trace.specs.declared.call.Call.{Call};
ghost use Rattle.call_trace.specs.declared.datagram.Datagram.{Datagram};
ghost use Rattle.call_trace.specs.declared.datagram.Message.{Message};
ghost use Rattle.call_trace.specs.Events.{passed};
ghost use Rattle.calls.specs.declared.standing_call.StandingCall.{StandingCall};
ghost use Rattle.events.specs.declared.sent.Sent.{Sent};
ghost use Rattle.plans.specs.CallRows.{tag_at, takes, takes_request};
ghost use Rattle.plans.specs.Effect.{Effect};
ghost use Rattle.plans.specs.Office.{Office};
ghost use Rattle.plans.specs.declared.setting.Setting.{Setting};
ghost use Rattle.media_laws.specs.Steps.{GoOn, IsAfter, StandsShown};
ghost use Rattle.media_laws.specs.Taking.{KnowsLegs};
ghost use Rattle.sip_message.specs.Read.{message_of};
ghost use Rattle.sip_message.specs.declared.message.Message.TheVariants as Kinds;
ghost use Rattle.media_laws.specs.Listing.{is_listed};
ghost use Rattle.media_laws.specs.Shows.{ShowsCall};
ghost use Rattle.message_laws.specs.Messages.{AreMessages, IsTakenOf};
ghost use Rattle.transactions.specs.declared.change.Entry.{Entry};
ghost use Rattle.transactions.specs.declared.transaction.Transaction.{Transaction};
ghost use Rattle.call_media.specs.declared.end.End.{End};
ghost use Rattle.call_rules.specs.Requests.{dialog_rule};
ghost use Rattle.call_rules.specs.Speaking.{is_bye};
ghost use Rattle.call_rules.specs.DialogRule.{Leaves};
ghost use Rattle.call_steps.specs.Rows.{counts};
ghost use Rattle.message_laws.specs.Addresses.{IsSource};
ghost use Rattle.message_laws.specs.Sending.{KnowsSent};
ghost use Rattle.responses.specs.Responding.{stateless};
ghost use Rattle.responses.specs.Words.{is_method};
ghost use Rattle.sip_message.specs.declared.message.Request.{Request};
ghost use Rattle.sip_message.specs.Words.{is_method as is_sent_method};
ghost use Rattle.message_laws.specs.KnownTrace.{KnowsTrace};

use call_trace::moves_keep;
use offer_answer::sent_is_read;
use sip_writing::written_is_read;
use trace_reading::{bodies_describe, bytes_say_all};

/// Where a call that the trace lists takes a BYE of one of its ends, the CANCEL of its offer, or the ACK of its 200,
/// the event is a move of the trace's calls. After it the trace's calls show the server's: the call is gone, was left
/// by that end, is no longer listed, or goes on waiting.
pub fn requests_go_on()
    ensures bye { (s after : Office) (begun more : List Transaction) (sent : List Sent) (t : List Datagram) (old : List Call) (k : ℕ) → StandsShown s begun t old k →
        IsAfter s after (begun ++ more) → KnowsTrace s begun sent t → KnowsSent s sent → KnowsLegs s → (e : Setting) → IsSource e.source → (place : ℕ)
        (c : StandingCall) (n : Standing) (entries : List Entry) → slice_get s.calls.calls place ≡ Some c → c.call.standing ≡ Some n → is_listed c ≡ true →
        (bytes : List ℕ) (r : Request) (id : ℕ) (taken : Option Message) → message_of bytes ≡ Ok (Kinds.Request r) → IsTakenOf bytes taken →
        (end : End) → is_bye r.parts ≡ true → dialog_rule s.calls.calls r ≡ Leaves place end →
        (x : Effect) → x ≡ takes_request s e r entries id place (inputs.Bye end) (counts s.calls.calls place end r.parts.cseq.number) stateless → (ms : List Message) →
        AreMessages x.plan.sends ms → after.calls.calls ≡ x.calls.standing.calls →
        GoOn (ShowsCall after.table.slots (begun ++ more) (t ++ passed k taken ms)) after.calls.calls t old taken ms }
    ensures cancel { (s after : Office) (begun more : List Transaction) (sent : List Sent) (t : List Datagram) (old : List Call) (k : ℕ) → StandsShown s begun t old k →
        IsAfter s after (begun ++ more) → KnowsTrace s begun sent t → KnowsSent s sent → KnowsLegs s → (e : Setting) → IsSource e.source → (place : ℕ)
        (c : StandingCall) (n : Standing) (entries : List Entry) → slice_get s.calls.calls place ≡ Some c → c.call.standing ≡ Some n → is_listed c ≡ true →
        (bytes : List ℕ) (r : Request) (id : ℕ) (taken : Option Message) → message_of bytes ≡ Ok (Kinds.Request r) → IsTakenOf bytes taken →
        is_method (codes "CANCEL") r ≡ true →
        (x : Effect) → x ≡ takes_request s e r entries id place inputs.Cancel None (tag_at (slice_get s.calls.calls place)) → (ms : List Message) →
        AreMessages x.plan.sends ms → after.calls.calls ≡ x.calls.standing.calls →
        GoOn (ShowsCall after.table.slots (begun ++ more) (t ++ passed k taken ms)) after.calls.calls t old taken ms }
    ensures ack { (s after : Office) (begun more : List Transaction) (sent : List Sent) (t : List Datagram) (old : List Call) (k : ℕ) → StandsShown s begun t old k →
        IsAfter s after (begun ++ more) → KnowsTrace s begun sent t → KnowsSent s sent → KnowsLegs s → (e : Setting) → IsSource e.source → (place : ℕ)
        (c : StandingCall) (n : Standing) (entries : List Entry) → slice_get s.calls.calls place ≡ Some c → c.call.standing ≡ Some n → is_listed c ≡ true →
        (bytes : List ℕ) (r : Request) (taken : Option Message) → message_of bytes ≡ Ok (Kinds.Request r) → IsTakenOf bytes taken →
        is_sent_method (codes "ACK") r.parts ≡ true →
        (x : Effect) → x ≡ takes s e entries None None place inputs.Ack None → (ms : List Message) →
        AreMessages x.plan.sends ms → after.calls.calls ≡ x.calls.standing.calls →
        GoOn (ShowsCall after.table.slots (begun ++ more) (t ++ passed k taken ms)) after.calls.calls t old taken ms }
{
    moves_keep();
    bytes_say_all();
    written_is_read();
    bodies_describe();
    sent_is_read();
}
