//! Requests that no call takes.

ghost use Rattle.std.specs.Prelude.{◌≡◌, ℕ, List, Ok, Option, Some};
ghost use Rattle.event_rows.specs.Rows.{refuses_alone};
ghost use Rattle.event_rows.specs.Rules.{request_rule};
ghost use Rattle.event_rows.specs.Rule as rules;
ghost use Rattle.call_media.specs.declared.end.End.{End};
ghost use Rattle.call_rules.specs.Requests.{dialog_rule};
ghost use Rattle.call_rules.specs.DialogRule as dialog_rules;
ghost use Rattle.call_trace.specs.declared.call.Call.{Call};
ghost use Rattle.call_trace.specs.declared.datagram.Datagram.{Datagram};
ghost use Rattle.call_trace.specs.declared.datagram.Message.{Message};
ghost use Rattle.call_trace.specs.Messages.{offering};
ghost use Rattle.call_trace.specs.Moves.{Move};
ghost use Rattle.plans.specs.CallRows.{okay_plan, refuses, refuses_first};
ghost use Rattle.plans.specs.Office.{Office};
ghost use Rattle.plans.specs.Replies.{reply_row};
ghost use Rattle.plans.specs.declared.reason.Reason.{Reason};
ghost use Rattle.plans.specs.declared.reason.Reason.TheVariants as reasons;
ghost use Rattle.plans.specs.declared.rule.Reply.{Reply};
ghost use Rattle.plans.specs.declared.setting.Setting.{Setting};
ghost use Rattle.message_laws.specs.Addresses.{IsSource};
ghost use Rattle.message_laws.specs.Comings.{KnowsScenes};
ghost use Rattle.sip_message.specs.AnswerableParts.{answerable_of};
ghost use Rattle.sip_message.specs.Read.{message_of};
ghost use Rattle.sip_message.specs.declared.message.Message.TheVariants as Kinds;
ghost use Rattle.sip_message.specs.declared.message.Parts.{Parts};
ghost use Rattle.sip_message.specs.declared.message.Request.{Request};
ghost use Rattle.message_laws.specs.Messages.{AreMessages, IsTakenOf};
ghost use Rattle.transactions.specs.declared.change.Entry.{Entry};

use dialogs::{contacts_are_read, dialogs_are_sound};
use sip_writing::written_is_read;
use trace_reading::bytes_say_all;

/// A request that the server answers by itself moves no call of the trace, whatever trace and calls there were. Such
/// a request is one that can't be read, or has another branch; one that a rule replies to; one in a dialog that is
/// refused; a first INVITE that is refused; or an UPDATE without an offer.
pub fn requests_move_none()
    ensures unreadable { (t : List Datagram) (ds : List Call) (taken : Option Message) (bytes : List ℕ) (ms : List Message) → IsTakenOf bytes taken →
        (s : Office) (e : Setting) → IsSource e.source → (parts : Parts) (reason : Reason) → answerable_of bytes ≡ Some parts →
        AreMessages (refuses_alone e parts reason).sends ms → Move offering t ds taken ms ds }
    ensures unfit_branched { (t : List Datagram) (ds : List Call) (taken : Option Message) (bytes : List ℕ) (ms : List Message) → IsTakenOf bytes taken →
        (s : Office) (e : Setting) → IsSource e.source → (q : Request) → message_of bytes ≡ Ok (Kinds.Request q) →
        AreMessages (refuses_alone e q.parts reasons.NoBranch).sends ms → Move offering t ds taken ms ds }
    ensures replied { (t : List Datagram) (ds : List Call) (taken : Option Message) (bytes : List ℕ) (ms : List Message) → IsTakenOf bytes taken →
        (s : Office) (e : Setting) → IsSource e.source → (q : Request) → message_of bytes ≡ Ok (Kinds.Request q) → KnowsScenes s →
        (begun : List Entry) (id : ℕ) (reply : Reply) → request_rule s q e.now ≡ rules.Alone reply →
        AreMessages (reply_row s e q begun id reply).sends ms → Move offering t ds taken ms ds }
    ensures counted { (t : List Datagram) (ds : List Call) (taken : Option Message) (bytes : List ℕ) (ms : List Message) → IsTakenOf bytes taken →
        (s : Office) (e : Setting) → IsSource e.source → (q : Request) → message_of bytes ≡ Ok (Kinds.Request q) → KnowsScenes s →
        (begun : List Entry) (id place : ℕ) (end : End) (reason : Reason) →
        AreMessages (refuses s e q begun id place end reason).plan.sends ms → Move offering t ds taken ms ds }
    ensures unfit { (t : List Datagram) (ds : List Call) (taken : Option Message) (bytes : List ℕ) (ms : List Message) → IsTakenOf bytes taken →
        (s : Office) (e : Setting) → IsSource e.source → (q : Request) → message_of bytes ≡ Ok (Kinds.Request q) → KnowsScenes s →
        (begun : List Entry) (id : ℕ) (reason : Reason) →
        AreMessages (refuses_first s e q begun id reason).plan.sends ms → Move offering t ds taken ms ds }
    ensures refreshed { (t : List Datagram) (ds : List Call) (taken : Option Message) (bytes : List ℕ) (ms : List Message) → IsTakenOf bytes taken →
        (s : Office) (e : Setting) → IsSource e.source → (q : Request) → message_of bytes ≡ Ok (Kinds.Request q) → KnowsScenes s →
        (begun : List Entry) (id place : ℕ) (end : End) → dialog_rule s.calls.calls q ≡ dialog_rules.Plain place end →
        AreMessages (okay_plan s e q begun id).sends ms → Move offering t ds taken ms ds }
{
    contacts_are_read();
    dialogs_are_sound();
    written_is_read();
    bytes_say_all();
}
