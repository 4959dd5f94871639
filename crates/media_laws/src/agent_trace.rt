//! How an agent stands after the trace of its events.

ghost use Rattle.std.specs.Prelude.{◌≡◌, ◌++◌, ◌+◌, [], suc, ℕ, length, List, Option};
ghost use Rattle.std.specs.List.{All};
ghost use Rattle.call_trace.specs.Events.{passed};
ghost use Rattle.call_trace.specs.declared.datagram.Datagram.{Datagram};
ghost use Rattle.call_trace.specs.declared.datagram.Message.{Message};
ghost use Rattle.event_rows.specs.Rows.{after, row};
ghost use Rattle.event_rows.specs.State.{Contents, IsNew, office};
ghost use Rattle.event_rows.specs.Trace.{AreEntries, Entry, Ran, after_entries};
ghost use Rattle.configuration.specs.declared.config.Config.{Config};
ghost use Rattle.events.specs.declared.event.Event.{Event};
ghost use Rattle.events.specs.declared.sent.Sent.{Sent};
ghost use Rattle.plans.specs.declared.taken.Taken.{Taken};
ghost use Rattle.message_laws.specs.Addresses.{IsConfigured};
ghost use Rattle.message_laws.specs.Datagrams.{ComesFromSource, EntersFromSource};
ghost use Rattle.media_laws.specs.Keeping.{HasPromisedCalls, HoldsFor, RelaysLive};
ghost use Rattle.media_laws.specs.Living.{ListsLive};
ghost use Rattle.media_laws.specs.Standing.{AgentStands, PutsFromSource, SaysMessages, StandsOn, StandsThrough};
ghost use Rattle.message_laws.specs.Serving.{HoldNoOthers, holder_in};
ghost use Rattle.message_laws.specs.Traces.{AreTrace, IsPassed};

use crate::{byes_are_known, events_are_moves};
use call_trace::{moves_keep, standing_is_promised};
use dialogs::{contacts_are_read, dialogs_are_sound, invites_name_a_contact};
use message_laws::{calls_are_served, sends_are_read, served_as_told, traced_calls_are_served};
use sip_writing::written_is_read;
use trace_reading::bodies_describe;
use transactions::replies;

/// A new agent, whose configuration keeps the rules, stands after the empty trace. An agent that stands after a trace
/// stands after it with what an event took and sent, where its datagram came from an address. The same holds for what
/// it answers and puts after what was sent, each of which is a message by the grammar, and of entries one after
/// another, which have a trace. The whole media promise holds for an agent that stands after a trace, with its
/// address, its relay table and the holders of its ports. A held pair is held by a current call, by the live one
/// where one names it. While no offer is open in a call, it holds only the pairs of its session. Its calls that were
/// answered, and that no end has left, are exactly the live ones of the trace, each once.
pub fn agents_stand()
    ensures begins { (config : Config) (s : Contents) → IsConfigured config → IsNew config s → AgentStands s [] 0 }
    ensures event { (s : Contents) (event : Event) (t : List Datagram) (k : ℕ) → AgentStands s t k → ComesFromSource event.what →
        (taken : Option Message) (ms : List Message) → IsPassed event.what (row s event).plan.taken (row s event).plan.sends taken ms →
        AgentStands (after s event) (t ++ passed k taken ms) (suc k) }
    ensures answers { (s : Contents) (event : Event) (answer : Taken) (before now : List Sent) (later : Contents) → ComesFromSource event.what →
        answer ≡ (row s event).plan.taken → now ≡ before ++ (row s event).plan.sends → later ≡ after s event →
        StandsOn s event.what answer before now later }
    ensures said { (s : Contents) (event : Event) (before now : List Sent) → ComesFromSource event.what → now ≡ before ++ (row s event).plan.sends →
        SaysMessages s before now }
    ensures entries { (s : Contents) (entries : List Entry) (t rest : List Datagram) (k : ℕ) → AgentStands s t k → AreEntries s entries →
        All EntersFromSource entries → AreTrace k entries rest → AgentStands (after_entries s entries) (t ++ rest) (k + length entries) }
    ensures traced { (s : Contents) (entries : List Entry) (t : List Datagram) (k : ℕ) → AgentStands s t k → AreEntries s entries →
        All EntersFromSource entries → (rest : List Datagram) × AreTrace k entries rest }
    ensures runs { (s : Contents) (before now : List Entry) (events : List Event) (later : Contents) → Ran s before events later now →
        PutsFromSource before now → StandsThrough s before now later }
    ensures promised { (s : Contents) (t : List Datagram) (k : ℕ) → AgentStands s t k → HasPromisedCalls (office s) t k }
    ensures relays { (s : Contents) (t : List Datagram) (k : ℕ) → AgentStands s t k → RelaysLive s.range.ip s.calls.pool.rows t }
    ensures holds { (s : Contents) (t : List Datagram) (k port : ℕ) → AgentStands s t k → HoldsFor s.calls.calls t port (holder_in s.calls.pool port) }
    ensures exact { (s : Contents) (t : List Datagram) (k : ℕ) → AgentStands s t k → HoldNoOthers (office s) }
    ensures lives { (s : Contents) (t : List Datagram) (k : ℕ) → AgentStands s t k → ListsLive s.calls.calls t }
{
    contacts_are_read();
    dialogs_are_sound();
    invites_name_a_contact();
    bodies_describe();
    written_is_read();
    replies();
    calls_are_served();
    served_as_told();
    byes_are_known();
    moves_keep();
    traced_calls_are_served();
    standing_is_promised();
    sends_are_read();
    events_are_moves();
}
