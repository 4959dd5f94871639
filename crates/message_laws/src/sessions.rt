//! The sessions of the live calls, with the pool and the relay table.

ghost use Rattle.std.specs.Prelude.{List};
ghost use Rattle.event_rows.specs.Rows.{after};
ghost use Rattle.event_rows.specs.State.{Contents, IsNew, office};
ghost use Rattle.event_rows.specs.Trace.{AreEntries, Entry, after_entries};
ghost use Rattle.configuration.specs.declared.config.Config.{Config};
ghost use Rattle.configuration.specs.Rules.{KeepsRules};
ghost use Rattle.events.specs.declared.event.Event.{Event};
ghost use Rattle.plans.specs.Office.{Office};
ghost use Rattle.message_laws.specs.Serving.{AreHeldByCalls, AreLed, AreStaged, AreTold, HasNoOtherRow, HeldByTheirCalls, HoldNoOthers, HoldTheirPairs, HoldersStand, KnowsServing};

/// For a new agent, whose configuration keeps the rules, and after any event, the following holds. The pool serves
/// each live call, in the server's range. The relay table leads each port that its session names as the session asks.
/// Only a live call holds a port, and it holds no pair but those of its session while no offer is open in it. The
/// same holds after any events of a new agent.
pub fn calls_are_served()
    ensures begins { (config : Config) (s : Contents) → KeepsRules config → IsNew config s → KnowsServing (office s) }
    ensures step { (s : Contents) (event : Event) → KnowsServing (office s) → KnowsServing (office (after s event)) }
    ensures known { (config : Config) (s : Contents) (entries : List Entry) → KeepsRules config → IsNew config s → AreEntries s entries →
        KnowsServing (office (after_entries s entries)) }
{
    offer_answer::rows_of_session_stand();
    call_core::spared_call_is_served();
}

/// Where the calls are served so, each call whose stage has a session has one, and no other call does. What each end
/// was sent matches what the other said, with places at the server. The table leads the ports that it names as it
/// asks, and has no other row, so none outlives its call. Its call holds the pairs that it names, and no other one
/// while no offer is open. Only a live call holds a pair.
pub fn served_as_told()
    ensures staged { (s : Office) → KnowsServing s → AreStaged s }
    ensures told { (s : Office) → KnowsServing s → AreTold s }
    ensures leads { (s : Office) → KnowsServing s → AreLed s }
    ensures had { (s : Office) → KnowsServing s → HasNoOtherRow s }
    ensures pairs { (s : Office) → KnowsServing s → HoldTheirPairs s }
    ensures holders { (s : Office) → KnowsServing s → AreHeldByCalls s }
    ensures call { (s : Office) → KnowsServing s → HeldByTheirCalls s }
    ensures stand { (s : Office) → KnowsServing s → HoldersStand s }
    ensures exact { (s : Office) → KnowsServing s → HoldNoOthers s }
{}
