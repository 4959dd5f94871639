//! What the server's own offers carry.

ghost use Rattle.std.specs.Prelude.{◌++◌, [], List};
ghost use Rattle.event_rows.specs.Rows.{after, row};
ghost use Rattle.event_rows.specs.State.{Contents, IsNew, office};
ghost use Rattle.event_rows.specs.Trace.{AreEntries, Entry, after_entries};
ghost use Rattle.configuration.specs.declared.config.Config.{Config};
ghost use Rattle.events.specs.declared.event.Event.{Event};
ghost use Rattle.message_laws.specs.Carried.{KnowsCarried};
ghost use Rattle.message_laws.specs.Knowing.{KnowsTokens};
ghost use Rattle.message_laws.specs.Numbers.{KnowsNumbers, begun_in, begun_of};
ghost use Rattle.message_laws.specs.Waiting.{KnowsWaiting};
ghost use Rattle.transactions.specs.declared.transaction.Transaction.{Transaction};

/// For a new agent, and after any event, for all requests that the server began, the following holds. Where an INVITE
/// or UPDATE is the open offer of the call that its tag names, and the call has a dialog with the end that was asked
/// or waits for the answer to its first INVITE, the request's bytes carry the description of the offer that the call
/// keeps as open. The same holds after any events of a new agent.
pub fn open_offers_are_carried()
    ensures begins { (config : Config) (s : Contents) → IsNew config s → KnowsCarried (office s) [] }
    ensures step { (s : Contents) (event : Event) (begun : List Transaction) → KnowsTokens (office s) → KnowsWaiting (office s) →
        KnowsNumbers (office s) begun → KnowsCarried (office s) begun →
        KnowsCarried (office (after s event)) (begun ++ begun_of (row s event).plan.changes) }
    ensures known { (config : Config) (s : Contents) (entries : List Entry) → IsNew config s → AreEntries s entries →
        KnowsCarried (office (after_entries s entries)) (begun_in s entries) }
{}
