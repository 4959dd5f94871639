//! The server's own offers that wait for a final response.

ghost use Rattle.event_rows.specs.Rows.{after};
ghost use Rattle.event_rows.specs.State.{Contents, IsNew, office};
ghost use Rattle.configuration.specs.declared.config.Config.{Config};
ghost use Rattle.events.specs.declared.event.Event.{Event};
ghost use Rattle.message_laws.specs.Knowing.{KnowsTokens};
ghost use Rattle.message_laws.specs.Waiting.{KnowsWaiting};

/// For a new agent, and after any event, the following holds. Each INVITE and UPDATE of the server's own that has no
/// final response is the open offer of the call that its tag names, or of no live call. The call counted its number,
/// and in no leg a number was given twice.
pub fn offers_are_awaited()
    ensures begins { (config : Config) (s : Contents) → IsNew config s → KnowsWaiting (office s) }
    ensures step { (s : Contents) (event : Event) → KnowsTokens (office s) → KnowsWaiting (office s) → KnowsWaiting (office (after s event)) }
{}
