//! Events that count as if they had not come.

ghost use Rattle.std.specs.Prelude.{◌≡◌, [], List};
ghost use Rattle.event_rows.specs.Rows.{row};
ghost use Rattle.event_rows.specs.State.{Contents, IsNew};
ghost use Rattle.event_rows.specs.Trace.{AreEntries, Entry, after_entries};
ghost use Rattle.configuration.specs.declared.config.Config.{Config};
ghost use Rattle.events.specs.declared.event.Event.{Event};
ghost use Rattle.plans.specs.declared.taken.Taken.TheVariants.{Done};
ghost use Rattle.transactions.specs.Fireable.{IsFireable};
ghost use Rattle.step_laws.specs.Dropping.{IsAnsweredFor};

/// Whatever is not done is not done for a reason. A datagram is dropped only if it has more bytes than are read; if it
/// can't be read, and no response can be made for it; if it is an ACK or a response whose branch does not begin as it
/// has to; if it is a response to no request that waits for one, or a 2xx that says no address to go on with; or if it
/// is an ACK that no call waits for. An event is also dropped where its moment can't be counted, or no token is left.
/// A request is shed only if it would begin a transaction where the limit of live transactions is reached. `Idle` is
/// returned only if no timer is due, no call of a number is settled, or a configuration may not list such users. Every
/// other event is done.
///
/// This holds for each agent whose set timers do something when they fire (`reasons`). Those of a new agent do, also
/// after any events (`fireable`), so this holds for every agent (`agents`).
pub fn nothing_is_dropped_unasked()
    ensures reasons { (s : Contents) → IsFireable s.table.slots s.table.timers → (event : Event) → IsAnsweredFor s event (row s event).plan.taken }
    ensures fireable { (config : Config) (s : Contents) (entries : List Entry) → IsNew config s → AreEntries s entries →
        IsFireable (after_entries s entries).table.slots (after_entries s entries).table.timers }
    ensures agents { (config : Config) (s : Contents) (entries : List Entry) → IsNew config s → AreEntries s entries → (event : Event) →
        IsAnsweredFor (after_entries s entries) event (row (after_entries s entries) event).plan.taken }
{}

/// An event that is not done sends nothing.
pub fn what_is_not_done_sends_nothing()
    ensures { (s : Contents) (event : Event) → ((row s event).plan.taken ≡ Done → ⊥) → (row s event).plan.sends ≡ [] }
{}
