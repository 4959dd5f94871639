//! Responses that no call takes.

ghost use Rattle.std.specs.Prelude.{◌≡◌, ◌++◌, ℕ, false, true, List, None, Ok, Option, Some};
ghost use Rattle.call_rules.specs.Responses.{response_rule};
ghost use Rattle.call_rules.specs.Speaking.{may_offer};
ghost use Rattle.call_trace.specs.declared.call.Call.{Call};
ghost use Rattle.call_trace.specs.declared.datagram.Datagram.{Datagram};
ghost use Rattle.call_trace.specs.Events.{IsPartingTaken, passed};
ghost use Rattle.call_trace.specs.Messages.{offering};
ghost use Rattle.calls.specs.declared.standing_call.StandingCall.{StandingCall};
ghost use Rattle.events.specs.declared.sent.Sent.{Sent};
ghost use Rattle.plans.specs.Office.{Office};
ghost use Rattle.message_laws.specs.Knowing.{KnowsTokens};
ghost use Rattle.message_laws.specs.OpenRequests.{IsAmong};
ghost use Rattle.message_laws.specs.Waiting.{KnowsWaiting};
ghost use Rattle.media_laws.specs.Lateness.{IsLate, IsPassedOver};
ghost use Rattle.sip_message.specs.declared.message.Message.TheVariants as Kinds;
ghost use Rattle.sip_message.specs.declared.message.Parts.{Parts};
ghost use Rattle.sip_message.specs.declared.message.Response.{Response};
ghost use Rattle.media_laws.specs.Listing.{Listed};
ghost use Rattle.media_laws.specs.Shows.{ShowsCall};
ghost use Rattle.trace_reading.specs.Message.{trace_message};
ghost use Rattle.message_laws.specs.KnownTrace.{KnowsTrace};
ghost use Rattle.transactions.specs.declared.transaction.Transaction.{Transaction};
ghost use Rattle.transactions.specs.Slots.{at, is_answered};
ghost use Rattle.call_trace.specs.declared.datagram.Message.{Message};
ghost use Rattle.call_trace.specs.Moves.{Move};
ghost use Rattle.event_rows.specs.Rows.{is_unreachable_message};
ghost use Rattle.call_rules.specs.declared.responses.ResponseRule.TheVariants.{AckAlone, Fork};
ghost use Rattle.call_steps.specs.Rows.{fork_row, late_row};
ghost use Rattle.call_trace.specs.Lives.{Stands};
ghost use Rattle.call_trace.specs.declared.datagram.Dialog.{Dialog};
ghost use Rattle.plans.specs.CallRows.{acks_again, occasion, with_step};
ghost use Rattle.plans.specs.declared.setting.Setting.{Setting};
ghost use Rattle.message_laws.specs.CalleeDialogs.{KnowsCallees};
ghost use Rattle.media_laws.specs.Late.{IsAnsweredOrEnded, IsLater, KnowsLate, dialog_asked};
ghost use Rattle.plans.specs.Plan.{moves};
ghost use Rattle.media_laws.specs.Ties.{AreTied};
ghost use Rattle.sip_message.specs.Read.{message_of};
ghost use Rattle.message_laws.specs.Messages.{AreMessages, IsTakenOf};
ghost use Rattle.transactions.specs.Contents.{reception_of};
ghost use Rattle.transactions.specs.declared.change.Entry.{Entry};

use dialogs::{contacts_are_read, dialogs_are_sound};
use sip_writing::written_is_read;
use trace_reading::{bodies_describe, bytes_say_all};

/// Where the rule has no call take a response, no current call waits for the final response to its request. So the
/// response moves no call of the trace: it is calm, or its request was finally answered before, or its tag is of no
/// call.
pub fn late_responses_move_none()
    ensures late { (calls : List StandingCall) (asked : Parts) (r : Response) → may_offer asked ≡ true → IsPassedOver (response_rule calls asked r) →
        IsLate calls asked }
    ensures taken { (s : Office) (begun : List Transaction) (sent : List Sent) (t : List Datagram) (ds : List Call) → KnowsTrace s begun sent t →
        Listed (ShowsCall s.table.slots begun t) s.calls.calls ds → KnowsTokens s → KnowsWaiting s →
        (bytes : List ℕ) (r : Response) (id : ℕ) (x : Transaction) → at s.table.slots id ≡ Some x → is_answered r.parts (Some x) ≡ true →
        IsPassedOver (response_rule s.calls.calls x.parts r) → IsPartingTaken offering t (Some (trace_message bytes (Kinds.Response r))) ds }
{}

/// Such a response moves no call by what is sent of it either: what its transaction sends, or the ACK of a 2xx that
/// is sent again. In the dialog of a 2xx to a first INVITE, which no call has, ACK and BYE go, so that it ends at
/// once; in that of a later INVITE, whose call is gone, only an ACK: it has ended.
pub fn passed_responses_move_none()
    ensures silent { (s : Office) (begun : List Transaction) (sent : List Sent) (t : List Datagram) (ds : List Call) → AreTied s begun sent t ds →
        (bytes : List ℕ) (r : Response) (taken : Option Message) (id : ℕ) (x : Transaction) (changes : List Entry) (ms : List Message) →
        message_of bytes ≡ Ok (Kinds.Response r) → IsTakenOf bytes taken → at s.table.slots id ≡ Some x → is_answered r.parts (Some x) ≡ true →
        IsPassedOver (response_rule s.calls.calls x.parts r) →
        AreMessages (moves changes (reception_of s.table (Kinds.Response r)).send).sends ms → Move offering t ds taken ms ds }
    ensures again { (s : Office) (begun : List Transaction) (sent : List Sent) (t : List Datagram) (ds : List Call) → AreTied s begun sent t ds →
        (bytes : List ℕ) (r : Response) (taken : Option Message) (id : ℕ) (x : Transaction) (changes : List Entry) (ms : List Message) →
        message_of bytes ≡ Ok (Kinds.Response r) → IsTakenOf bytes taken → at s.table.slots id ≡ Some x → is_answered r.parts (Some x) ≡ true →
        IsPassedOver (response_rule s.calls.calls x.parts r) →
        AreMessages (acks_again s changes id).sends ms → Move offering t ds taken ms ds }
    ensures fork { (s : Office) (e : Setting) (begun : List Transaction) (sent : List Sent) (t : List Datagram) (ds : List Call) →
        AreTied s begun sent t ds → KnowsCallees s →
        (bytes : List ℕ) (r : Response) → message_of bytes ≡ Ok (Kinds.Response r) → (id : ℕ) (x : Transaction) → at s.table.slots id ≡ Some x →
        is_answered r.parts (Some x) ≡ true → response_rule s.calls.calls x.parts r ≡ Fork → is_unreachable_message (Kinds.Response r) ≡ false →
        (taken : Option Message) (changes : List Entry) (ms : List Message) → IsTakenOf bytes taken →
        AreMessages (with_step s.acks changes (reception_of s.table (Kinds.Response r)).send None (fork_row s.calls (occasion s e) x.parts r)).plan.sends ms →
        Move offering t ds taken ms ds }
    ensures ack_alone { (s : Office) (e : Setting) (begun : List Transaction) (sent : List Sent) (t : List Datagram) (ds : List Call) →
        AreTied s begun sent t ds → KnowsLate s begun t ds →
        (bytes : List ℕ) (r : Response) → message_of bytes ≡ Ok (Kinds.Response r) → (id : ℕ) (x : Transaction) → at s.table.slots id ≡ Some x →
        is_answered r.parts (Some x) ≡ true → response_rule s.calls.calls x.parts r ≡ AckAlone → is_unreachable_message (Kinds.Response r) ≡ false →
        (taken : Option Message) (changes : List Entry) (ms : List Message) → IsTakenOf bytes taken →
        AreMessages (with_step s.acks changes (reception_of s.table (Kinds.Response r)).send None (late_row s.calls (occasion s e) x.parts r)).plan.sends ms →
        Move offering t ds taken ms ds }
{
    contacts_are_read();
    dialogs_are_sound();
    written_is_read();
    bytes_say_all();
    bodies_describe();
}

/// A dialog that is a leg of an answered call of the trace, or has ended, stays so at each move. What is known of the
/// later INVITEs that were begun is known of those whose transactions are live.
pub fn later_dialogs_stay()
    ensures kept { (n : ℕ) (t : List Datagram) (old : List Call) → Stands offering old n t → (taken : Option Message) (sent : List Message) (d : Dialog)
        (new : List Call) → Move offering t old taken sent new → IsAnsweredOrEnded t old d → IsAnsweredOrEnded (t ++ passed n taken sent) new d }
    ensures known { (s : Office) (begun : List Transaction) (sent : List Sent) (t : List Datagram) (ds : List Call) → KnowsTrace s begun sent t →
        ((u : Transaction) → IsAmong begun u → IsLater u → IsAnsweredOrEnded t ds (dialog_asked u.parts)) → KnowsLate s begun t ds }
{}
