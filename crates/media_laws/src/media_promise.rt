//! The whole media promise, of the trace of any events of a new agent.

ghost use Rattle.std.specs.Prelude.{ℕ, length, List};
ghost use Rattle.std.specs.List.{All};
ghost use Rattle.event_rows.specs.State.{Contents, IsNew, office};
ghost use Rattle.event_rows.specs.Trace.{AreEntries, Entry, after_entries};
ghost use Rattle.call_trace.specs.declared.datagram.Datagram.{Datagram};
ghost use Rattle.configuration.specs.declared.config.Config.{Config};
ghost use Rattle.message_laws.specs.Addresses.{IsConfigured};
ghost use Rattle.message_laws.specs.Datagrams.{EntersFromSource};
ghost use Rattle.media_laws.specs.Keeping.{HasPromisedCalls};
ghost use Rattle.media_laws.specs.Living.{ListsLive};
ghost use Rattle.message_laws.specs.Traces.{AreTrace};

use crate::agents_stand;

/// After any entries of a new agent, whose configuration keeps the rules and whose datagrams came from addresses, some
/// of which may have been lost, calls stand after the trace of them and show those of the agent. The whole media
/// promise holds of the trace, with the agent's address, its relay table, the holders of its ports, and these calls.
/// And the agent's own calls that were answered, and that no end has left, are exactly the live ones of the trace.
pub fn agents_keep_the_promise()
    ensures promised { (config : Config) (s : Contents) (entries : List Entry) (t : List Datagram) → IsConfigured config → IsNew config s →
        AreEntries s entries → All EntersFromSource entries → AreTrace 0 entries t →
        HasPromisedCalls (office (after_entries s entries)) t (length entries) }
    ensures lives { (config : Config) (s : Contents) (entries : List Entry) (t : List Datagram) → IsConfigured config → IsNew config s →
        AreEntries s entries → All EntersFromSource entries → AreTrace 0 entries t → ListsLive (after_entries s entries).calls.calls t }
{
    agents_stand();
}
