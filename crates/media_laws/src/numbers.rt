//! The numbers that are left in the dialogs of the calls.

ghost use Rattle.std.specs.Prelude.{List};
ghost use Rattle.event_rows.specs.Rows.{after};
ghost use Rattle.event_rows.specs.State.{Contents, IsNew, office};
ghost use Rattle.event_rows.specs.Trace.{Entry, after_entries};
ghost use Rattle.configuration.specs.declared.config.Config.{Config};
ghost use Rattle.events.specs.declared.event.Event.{Event};
ghost use Rattle.message_laws.specs.Waiting.{KnowsWaiting};
ghost use Rattle.media_laws.specs.Coming.{KnowsNumbersLeft};

/// For a new agent, and after any event: in each dialog of a current call a number is left for a BYE, so that the
/// dialog can always be ended (RFC 3261 section 8.1.1.5). The same holds after any events of a new agent.
pub fn numbers_are_left()
    ensures begins { (config : Config) (s : Contents) → IsNew config s → KnowsNumbersLeft (office s) }
    ensures step { (s : Contents) (event : Event) → KnowsWaiting (office s) → KnowsNumbersLeft (office s) → KnowsNumbersLeft (office (after s event)) }
    ensures known { (config : Config) (s : Contents) (entries : List Entry) → IsNew config s → KnowsNumbersLeft (office (after_entries s entries)) }
{}
