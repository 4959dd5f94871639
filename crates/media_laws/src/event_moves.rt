//! Events of the agent.

ghost use Rattle.std.specs.Prelude.{◌++◌, ℕ, List, Option};
ghost use Rattle.event_rows.specs.Rows.{after, row};
ghost use Rattle.event_rows.specs.State.{Contents, office};
ghost use Rattle.call_trace.specs.declared.call.Call.{Call};
ghost use Rattle.call_trace.specs.declared.datagram.Datagram.{Datagram};
ghost use Rattle.call_trace.specs.declared.datagram.Message.{Message};
ghost use Rattle.events.specs.declared.event.Event.{Event};
ghost use Rattle.events.specs.declared.sent.Sent.{Sent};
ghost use Rattle.media_laws.specs.Known.{IsMoved, IsTied};
ghost use Rattle.message_laws.specs.Askers.{KnowsAskers};
ghost use Rattle.message_laws.specs.Datagrams.{ComesFromSource};
ghost use Rattle.message_laws.specs.Numbers.{begun_of};
ghost use Rattle.media_laws.specs.Steps.{IsAfter};
ghost use Rattle.message_laws.specs.Traces.{IsPassed};
ghost use Rattle.transactions.specs.declared.transaction.Transaction.{Transaction};

use call_trace::moves_keep;
use dialogs::{contacts_are_read, dialogs_are_sound, invites_name_a_contact};
use offer_answer::sent_is_read;
use sip_writing::written_is_read;
use trace_reading::{bodies_describe, bytes_say_all};
use transactions::replies;

/// Where the calls of a trace show the current ones, each event of the agent, whatever it is, is a move of the
/// trace's calls, by what it took and what it sent. After it the trace's calls show the calls current then. A
/// datagram comes from an address, and what is known of the agent is known of it after the event too.
pub fn events_are_moves()
    ensures { (s : Contents) (event : Event) (begun : List Transaction) (sent : List Sent) (t : List Datagram) (old : List Call) (k : ℕ) →
        IsTied (office s) begun sent t old k → IsAfter (office s) (office (after s event)) (begun ++ begun_of (row s event).plan.changes) →
        KnowsAskers (office (after s event)) → ComesFromSource event.what → (taken : Option Message) (ms : List Message) →
        IsPassed event.what (row s event).plan.taken (row s event).plan.sends taken ms → IsMoved s event begun t old k taken ms }
{
    moves_keep();
    contacts_are_read();
    dialogs_are_sound();
    invites_name_a_contact();
    bytes_say_all();
    written_is_read();
    bodies_describe();
    sent_is_read();
    replies();
}
