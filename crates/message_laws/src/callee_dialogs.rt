//! The dialogs with the callees.

ghost use Rattle.std.specs.Prelude.{List};
ghost use Rattle.event_rows.specs.Rows.{after};
ghost use Rattle.event_rows.specs.State.{Contents, IsNew, office};
ghost use Rattle.event_rows.specs.Trace.{Entry, after_entries};
ghost use Rattle.configuration.specs.declared.config.Config.{Config};
ghost use Rattle.events.specs.declared.event.Event.{Event};
ghost use Rattle.message_laws.specs.CalleeDialogs.{KnowsCallees};
ghost use Rattle.message_laws.specs.Knowing.{KnowsTokens};
ghost use Rattle.message_laws.specs.Waiting.{KnowsWaiting};

use dialogs::invites_name_a_contact;

/// For a new agent, and after any event, the following holds. A call has a dialog with its callee, unless its first
/// INVITE has no answer. Until then each request of the server's own to the callee is an INVITE. The same holds after
/// any events of a new agent.
pub fn answered_calls_have_callees()
    ensures begins { (config : Config) (s : Contents) → IsNew config s → KnowsCallees (office s) }
    ensures step { (s : Contents) (event : Event) → KnowsTokens (office s) → KnowsWaiting (office s) → KnowsCallees (office s) →
        KnowsCallees (office (after s event)) }
    ensures known { (config : Config) (s : Contents) (entries : List Entry) → IsNew config s → KnowsCallees (office (after_entries s entries)) }
{
    invites_name_a_contact();
}
