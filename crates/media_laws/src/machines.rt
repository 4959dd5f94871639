//! The machines of transactions.

ghost use Rattle.event_rows.specs.Rows.{after};
ghost use Rattle.event_rows.specs.State.{Contents, IsNew, office};
ghost use Rattle.event_rows.specs.Trace.{Entry, after_entries};
ghost use Rattle.configuration.specs.declared.config.Config.{Config};
ghost use Rattle.events.specs.declared.event.Event.{Event};
ghost use Rattle.media_laws.specs.Machines.{KnowsMachines};
ghost use Rattle.std.specs.Prelude.{List};

/// For a new agent, and after any event: each client transaction of an INVITE's machine is of an INVITE. The same
/// holds after any events of a new agent.
pub fn machines_are_known()
    ensures begins { (config : Config) (s : Contents) → IsNew config s → KnowsMachines (office s) }
    ensures step { (s : Contents) (event : Event) → KnowsMachines (office s) → KnowsMachines (office (after s event)) }
    ensures known { (config : Config) (s : Contents) (entries : List Entry) → IsNew config s → KnowsMachines (office (after_entries s entries)) }
{}
