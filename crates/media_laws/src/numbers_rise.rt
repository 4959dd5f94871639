//! The numbers that the dialogs of the calls have taken.

ghost use Rattle.std.specs.Prelude.{◌≡◌, List};
ghost use Rattle.std.specs.List.{All};
ghost use Rattle.event_rows.specs.Rows.{after};
ghost use Rattle.event_rows.specs.State.{Contents, IsNew, office};
ghost use Rattle.event_rows.specs.Trace.{Entry, after_entries};
ghost use Rattle.configuration.specs.declared.config.Config.{Config};
ghost use Rattle.events.specs.declared.event.Event.{Event};
ghost use Rattle.media_laws.specs.Rising.{RisesFrom};
ghost use Rattle.media_laws.specs.Taken.{KnowsTaken};
ghost use Rattle.message_laws.specs.Knowing.{KnowsTokens};

/// For a new agent, and after any event: the number of the offer that a call took last, while that has no final
/// response, counts in the dialog with its offerer. And each call after an event is an earlier one, whose dialogs
/// have taken what they had, with the same tags of the server's; or it begins at this event, and its tags are made
/// then. The same holds after any events of a new agent.
pub fn taken_numbers_rise()
    ensures begins { (config : Config) (s : Contents) → IsNew config s → KnowsTaken (office s) }
    ensures step { (s : Contents) (event : Event) → KnowsTokens (office s) → KnowsTaken (office s) → KnowsTaken (office (after s event)) }
    ensures rise { (s : Contents) (event : Event) → KnowsTokens (office s) → KnowsTaken (office s) →
        All (RisesFrom s.tokens s.calls.calls) (office (after s event)).calls.calls }
    ensures known { (config : Config) (s : Contents) (entries : List Entry) → IsNew config s → KnowsTaken (office (after_entries s entries)) }
{}
