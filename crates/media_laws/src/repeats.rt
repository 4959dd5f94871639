//! What the transactions do by themselves.

ghost use Rattle.std.specs.Prelude.{◌≡◌, [], ◌∷◌, ℕ, List, None, Ok, Option, Some};
ghost use Rattle.call_trace.specs.declared.call.Call.{Call};
ghost use Rattle.call_trace.specs.declared.datagram.Datagram.{Datagram};
ghost use Rattle.call_trace.specs.declared.datagram.Message.{Message};
ghost use Rattle.call_trace.specs.Events.{IsIdle};
ghost use Rattle.call_trace.specs.Listed.{AllOf};
ghost use Rattle.call_trace.specs.Messages.{offering};
ghost use Rattle.call_trace.specs.Moves.{Move};
ghost use Rattle.events.specs.declared.sent.Sent.{Sent};
ghost use Rattle.plans.specs.Office.{Office};
ghost use Rattle.plans.specs.Plan.{goes, moves};
ghost use Rattle.media_laws.specs.Ties.{AreTied};
ghost use Rattle.media_laws.specs.Verdicts.{IsTransactions};
ghost use Rattle.sip_message.specs.Read.{message_of};
ghost use Rattle.sip_message.specs.declared.message.Message.TheVariants as Kinds;
ghost use Rattle.sip_message.specs.declared.message.Request.{Request};
ghost use Rattle.sip_message.specs.declared.message.Response.{Response};
ghost use Rattle.message_laws.specs.Messages.{AreMessages, IsTakenOf};
ghost use Rattle.transactions.specs.Changes.{fire_of};
ghost use Rattle.transactions.specs.Contents.{fired_of, reception_of};
ghost use Rattle.transactions.specs.Slots.{at};
ghost use Rattle.transactions.specs.declared.change.Entry.{Entry};
ghost use Rattle.transactions.specs.declared.outcome.Fired.TheVariants as fires;
ghost use Rattle.transactions.specs.declared.outcome.Outgoing.{Outgoing};
ghost use Rattle.transactions.specs.declared.transaction.TimerId.{TimerId};
ghost use Rattle.transactions.specs.declared.transaction.Transaction.{Transaction};

use dialogs::{contacts_are_read, dialogs_are_sound};
use sip_writing::written_is_read;
use trace_reading::bytes_say_all;

/// What the transactions do by themselves moves no call of the trace: where nothing was taken and nothing goes, where a
/// timer has something sent again, where a request is repeated, and where a response is swallowed. What is sent again
/// was sent before; so was the ACK to a refusal. So what the transactions send at a response moves none, whoever
/// takes it.
pub fn repeats_move_none()
    ensures nothing { (t : List Datagram) (ds : List Call) (ms : List Message) → AreMessages [] ms → Move offering t ds None ms ds }
    ensures timer { (s : Office) (begun : List Transaction) (sent : List Sent) (t : List Datagram) (ds : List Call) → AreTied s begun sent t ds →
        (timer : TimerId) (out : Outgoing) (ms : List Message) → fired_of (at s.table.slots timer.id) timer.kind ≡ Some (fires.Send out) →
        AreMessages (moves (fire_of timer ∷ []) (Some out)).sends ms → Move offering t ds None ms ds }
    ensures request { (s : Office) (begun : List Transaction) (sent : List Sent) (t : List Datagram) (ds : List Call) → AreTied s begun sent t ds →
        (bytes : List ℕ) (q : Request) (taken : Option Message) (changes : List Entry) (ms : List Message) → message_of bytes ≡ Ok (Kinds.Request q) →
        IsTakenOf bytes taken → AreMessages (moves changes (reception_of s.table (Kinds.Request q)).send).sends ms → Move offering t ds taken ms ds }
    ensures response { (s : Office) (begun : List Transaction) (sent : List Sent) (t : List Datagram) (ds : List Call) → AreTied s begun sent t ds →
        (bytes : List ℕ) (r : Response) (taken : Option Message) (changes : List Entry) (ms : List Message) → message_of bytes ≡ Ok (Kinds.Response r) →
        IsTakenOf bytes taken → IsTransactions (reception_of s.table (Kinds.Response r)).verdict →
        AreMessages (moves changes (reception_of s.table (Kinds.Response r)).send).sends ms → Move offering t ds taken ms ds }
    ensures sends { (s : Office) (begun : List Transaction) (sent : List Sent) (t : List Datagram) (ds : List Call) → AreTied s begun sent t ds →
        (bytes : List ℕ) (r : Response) (taken : Option Message) (ms : List Message) → message_of bytes ≡ Ok (Kinds.Response r) → IsTakenOf bytes taken →
        AreMessages (goes (reception_of s.table (Kinds.Response r)).send) ms → AllOf (IsIdle offering t taken) ms }
{
    contacts_are_read();
    dialogs_are_sound();
    written_is_read();
    bytes_say_all();
}
