//! What is known of the trace of an agent's events.

ghost use Rattle.std.specs.Prelude.{◌++◌, ℕ, List, [], Option};
ghost use Rattle.std.specs.List.{All};
ghost use Rattle.event_rows.specs.Rows.{after, row};
ghost use Rattle.event_rows.specs.State.{Contents, IsNew, office};
ghost use Rattle.event_rows.specs.Trace.{AreEntries, Entry, IsEntry, after_entries, after_entry};
ghost use Rattle.call_trace.specs.declared.datagram.Datagram.{Datagram};
ghost use Rattle.call_trace.specs.declared.datagram.Message.{Message};
ghost use Rattle.call_trace.specs.Events.{passed};
ghost use Rattle.configuration.specs.declared.config.Config.{Config};
ghost use Rattle.events.specs.declared.event.Event.{Event};
ghost use Rattle.events.specs.declared.sent.Sent.{Sent};
ghost use Rattle.message_laws.specs.Addresses.{IsConfigured};
ghost use Rattle.message_laws.specs.Askers.{KnowsAskers};
ghost use Rattle.message_laws.specs.Bodies.{KnowsDescriptions};
ghost use Rattle.message_laws.specs.Datagrams.{EntersFromSource};
ghost use Rattle.message_laws.specs.Knowing.{KnowsTokens};
ghost use Rattle.message_laws.specs.Knowledge.{sends_of};
ghost use Rattle.message_laws.specs.Numbers.{begun_at, begun_in, begun_of};
ghost use Rattle.message_laws.specs.Sending.{KnowsSent};
ghost use Rattle.message_laws.specs.Sound.{KnowsDialogs};
ghost use Rattle.message_laws.specs.SoundClients.{KnowsClients};
ghost use Rattle.message_laws.specs.KnownTrace.{KnowsTrace};
ghost use Rattle.message_laws.specs.Traces.{AreTrace, IsPassed, IsShown};
ghost use Rattle.transactions.specs.declared.transaction.Transaction.{Transaction};

use dialogs::{contacts_are_read, dialogs_are_sound};
use sip_writing::written_is_read;
use trace_reading::bodies_describe;
use transactions::replies;

/// For a new agent, of whose events there is no trace, and after any event, whatever its number, the following holds.
/// Each message of the trace is that of its bytes. What was sent is in it. The texts of the server's own in it were
/// made. The INVITEs and UPDATEs that the server began are in it, and those whose transactions are live are among
/// them, each with a final response that was taken where it waits for none. A transaction keeps a message of its own
/// side. The same holds after an entry, which shows nothing where its event was lost, and after any entries of a new
/// agent.
pub fn traces_are_known()
    ensures begins { (config : Config) (s : Contents) → IsNew config s → KnowsTrace (office s) [] [] [] }
    ensures step { (s : Contents) (event : Event) (n : ℕ) (begun : List Transaction) (sent : List Sent) (t : List Datagram) (taken : Option Message)
        (messages : List Message) → KnowsTokens (office s) → KnowsSent (office s) sent → KnowsAskers (office s) → KnowsDialogs (office s) →
        KnowsDescriptions (office s) → KnowsClients (office s) →
        IsPassed event.what (row s event).plan.taken (row s event).plan.sends taken messages → KnowsTrace (office s) begun sent t →
        KnowsTrace (office (after s event)) (begun ++ begun_of (row s event).plan.changes) (sent ++ (row s event).plan.sends)
        (t ++ passed n taken messages) }
    ensures entry { (s : Contents) (x : Entry) (n : ℕ) (begun : List Transaction) (sent : List Sent) (t : List Datagram) (taken : Option Message)
        (messages : List Message) → KnowsTokens (office s) → KnowsSent (office s) sent → KnowsAskers (office s) → KnowsDialogs (office s) →
        KnowsDescriptions (office s) → KnowsClients (office s) → IsEntry s x → IsShown x taken messages → KnowsTrace (office s) begun sent t →
        KnowsTrace (office (after_entry s x)) (begun ++ begun_at s x.event x.answer) (sent ++ x.sends) (t ++ passed n taken messages) }
    ensures known { (config : Config) (s : Contents) (entries : List Entry) (t : List Datagram) → IsConfigured config → IsNew config s →
        AreEntries s entries → All EntersFromSource entries → AreTrace 0 entries t →
        KnowsTrace (office (after_entries s entries)) (begun_in s entries) (sends_of entries) t }
{
    contacts_are_read();
    dialogs_are_sound();
    bodies_describe();
    written_is_read();
    replies();
}
