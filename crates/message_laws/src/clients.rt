//! The requests of the server's own whose transactions are live, and the numbers of the dialogs.

ghost use Rattle.std.specs.Prelude.{◌≡◌, ℕ, false, List, Some};
ghost use Rattle.event_rows.specs.Rows.{after};
ghost use Rattle.event_rows.specs.State.{Contents, IsNew, office};
ghost use Rattle.event_rows.specs.Trace.{Entry, after_entries};
ghost use Rattle.configuration.specs.declared.config.Config.{Config};
ghost use Rattle.events.specs.declared.event.Event.{Event};
ghost use Rattle.plans.specs.Office.{Office};
ghost use Rattle.message_laws.specs.Addresses.{IsConfigured};
ghost use Rattle.message_laws.specs.Sound.{KnowsDialogs};
ghost use Rattle.message_laws.specs.SoundClients.{KnowsClients};
ghost use Rattle.message_laws.specs.SoundScenes.{IsSoundRequest};
ghost use Rattle.transaction_machines.specs.Machines.{is_server};
ghost use Rattle.transactions.specs.Slots.{at};
ghost use Rattle.transactions.specs.declared.transaction.Transaction.{Transaction};

use dialogs::{contacts_are_read, dialogs_are_sound};

/// For a new agent, and after any event, the following holds. Each request of the server's own whose transaction is
/// live is of values that came out of messages, or are of their form. No dialog of a call counts past the numbers
/// that CSeq can say. The same holds after any events of a new agent.
pub fn clients_are_sound()
    ensures begins { (config : Config) (s : Contents) → IsConfigured config → IsNew config s → KnowsClients (office s) }
    ensures step { (s : Contents) (event : Event) → KnowsDialogs (office s) → KnowsClients (office s) → KnowsClients (office (after s event)) }
    ensures known { (config : Config) (s : Contents) (entries : List Entry) → IsConfigured config → IsNew config s →
        KnowsClients (office (after_entries s entries)) }
    ensures request { (s : Office) (id : ℕ) (t : Transaction) → KnowsClients s → at s.table.slots id ≡ Some t → is_server t.state ≡ false →
        IsSoundRequest t.uri t.parts }
{
    contacts_are_read();
    dialogs_are_sound();
}
