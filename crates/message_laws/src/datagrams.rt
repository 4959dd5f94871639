//! What the server sends, and the responses among it.

ghost use Rattle.std.specs.Prelude.{◌++◌, ℕ, List};
ghost use Rattle.std.specs.List.{All};
ghost use Rattle.event_rows.specs.Rows.{after, row};
ghost use Rattle.event_rows.specs.State.{Contents, IsNew, office};
ghost use Rattle.event_rows.specs.Trace.{AreEntries, Entry, after_entries};
ghost use Rattle.configuration.specs.declared.config.Config.{Config};
ghost use Rattle.events.specs.declared.event.Event.{Event};
ghost use Rattle.events.specs.declared.sent.Sent.{Sent};
ghost use Rattle.sip_message.specs.declared.message.Message.TheVariants as Kinds;
ghost use Rattle.sip_message.specs.Grammar.{ReadsMessage};
ghost use Rattle.message_laws.specs.Addresses.{IsConfigured};
ghost use Rattle.message_laws.specs.Bodies.{KnowsDescriptions};
ghost use Rattle.message_laws.specs.Askers.{KeepsAsked, KnowsAskers};
ghost use Rattle.message_laws.specs.Knowing.{KnowsTokens};
ghost use Rattle.message_laws.specs.Knowledge.{sends_of};
ghost use Rattle.message_laws.specs.Datagrams.{ComesFromSource, EntersFromSource, IsOwnDatagram, IsReadResponse};
ghost use Rattle.message_laws.specs.Sending.{KnowsSent};

use sip_writing::written_is_read;
use trace_reading::bodies_describe;

/// For a new agent, and after any event of a datagram that came from an address, the following holds. What the
/// responses to each request repeat was read. The transaction of a call's open offer is live, without a final
/// response, and no other call answers it. Each datagram that is sent is a request of the server's own, or a response
/// that reads back as the one that it was dressed as. About the 200 to a REGISTER, this says only how it was made.
pub fn responses_are_read()
    ensures begins { (config : Config) (s : Contents) → IsConfigured config → IsNew config s → KnowsAskers (office s) }
    ensures step { (s : Contents) (event : Event) (sent : List Sent) → ComesFromSource event.what → KnowsTokens (office s) → KnowsSent (office s) sent →
        KnowsDescriptions (office s) → KnowsAskers (office s) → All IsOwnDatagram sent → KnowsAskers (office (after s event)) }
    ensures sends { (s : Contents) (event : Event) (sent : List Sent) → ComesFromSource event.what → KnowsTokens (office s) → KnowsSent (office s) sent →
        KnowsDescriptions (office s) → KnowsAskers (office s) → All IsOwnDatagram sent → All IsOwnDatagram (sent ++ (row s event).plan.sends) }
    ensures known { (config : Config) (s : Contents) (entries : List Entry) → IsConfigured config → IsNew config s → AreEntries s entries →
        All EntersFromSource entries → KnowsAskers (office (after_entries s entries)) }
    ensures sent { (config : Config) (s : Contents) (entries : List Entry) → IsConfigured config → IsNew config s → AreEntries s entries →
        All EntersFromSource entries → All IsOwnDatagram (sends_of entries) }
    ensures back { (bytes : List ℕ) (h : IsReadResponse bytes) →
        ReadsMessage bytes (Kinds.Response h.response) }
{
    written_is_read();
    bodies_describe();
}

/// At any event of a datagram that came from an address, the following holds. Where a call waits for an answer
/// afterwards, and its offer's transaction was live before, that transaction keeps the same request, so that the
/// answer goes to the request that offered (RFC 3261 section 17.2).
pub fn open_offers_keep_their_requests()
    ensures { (s : Contents) (event : Event) (sent : List Sent) → ComesFromSource event.what → KnowsTokens (office s) → KnowsSent (office s) sent →
        KnowsDescriptions (office s) → KnowsAskers (office s) → All IsOwnDatagram sent →
        All (KeepsAsked (office s).table.slots (office (after s event)).table.slots) (office (after s event)).calls.calls }
{
    bodies_describe();
}
