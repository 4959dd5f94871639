//! All that is known of the agent's own messages, after any events.

ghost use Rattle.std.specs.Prelude.{List};
ghost use Rattle.event_rows.specs.State.{Contents, IsNew, office};
ghost use Rattle.event_rows.specs.Trace.{AreEntries, Entry, after_entries};
ghost use Rattle.configuration.specs.declared.config.Config.{Config};
ghost use Rattle.message_laws.specs.Knowledge.{KnowsMessages, sends_of};

/// After any events of a new agent, of which some may be lost because memory ran out, the following holds. The
/// server's own tags and branches were made, each tag once. Each offer of its own that waits is the open offer of its
/// call. What is sent again was sent at these events.
pub fn messages_are_known()
    ensures known { (config : Config) (s : Contents) (entries : List Entry) → IsNew config s → AreEntries s entries →
        KnowsMessages (office (after_entries s entries)) (sends_of entries) }
{}
