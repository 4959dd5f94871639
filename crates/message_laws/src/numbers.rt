//! The numbers of the server's own requests.

ghost use Rattle.std.specs.Prelude.{◌++◌, [], List};
ghost use Rattle.std.specs.List.{All, AllPairs};
ghost use Rattle.event_rows.specs.Rows.{after, row};
ghost use Rattle.event_rows.specs.State.{Contents, IsNew, office};
ghost use Rattle.event_rows.specs.Trace.{AreEntries, Entry};
ghost use Rattle.configuration.specs.declared.config.Config.{Config};
ghost use Rattle.events.specs.declared.event.Event.{Event};
ghost use Rattle.message_laws.specs.Knowing.{KnowsTokens};
ghost use Rattle.message_laws.specs.Numbers.{EndLegsIn, EndsLegs, GoInOrder, IsBelow, KnowsNumbers, begun_in, begun_of, own_of};
ghost use Rattle.message_laws.specs.Waiting.{KnowsWaiting};
ghost use Rattle.transactions.specs.declared.transaction.Transaction.{Transaction};

/// For a new agent, and after any event, for all requests that the server began, also those whose transactions have
/// ended, the following holds. The call that the tag of an INVITE or UPDATE names counted its number. So these
/// numbers rise in each leg, over any events, in the order in which the requests begin, and the requests that begin
/// at an event are sent in it, in that order. A BYE in a leg of a live call has a greater number.
pub fn numbers_rise()
    ensures begins { (config : Config) (s : Contents) → IsNew config s → KnowsNumbers (office s) [] }
    ensures step { (s : Contents) (event : Event) (begun : List Transaction) → KnowsTokens (office s) → KnowsWaiting (office s) →
        KnowsNumbers (office s) begun → KnowsNumbers (office (after s event)) (begun ++ begun_of (row s event).plan.changes) }
    ensures byes { (s : Contents) (event : Event) (begun : List Transaction) → KnowsTokens (office s) → KnowsWaiting (office s) →
        KnowsNumbers (office s) begun → All (EndsLegs s.calls.calls begun) (begun_of (row s event).plan.changes) }
    ensures sent { (s : Contents) (event : Event) → KnowsTokens (office s) → KnowsWaiting (office s) →
        GoInOrder (own_of (row s event).plan.changes) (row s event).plan.sends }
    ensures rise { (config : Config) (s : Contents) (entries : List Entry) → IsNew config s → AreEntries s entries →
        AllPairs IsBelow (begun_in s entries) }
    ensures ends { (config : Config) (s : Contents) (entries : List Entry) → IsNew config s → AreEntries s entries → EndLegsIn s [] entries }
{}
