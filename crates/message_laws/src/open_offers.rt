//! The requests in which the offers came for whose answers the calls wait.

ghost use Rattle.std.specs.Prelude.{List};
ghost use Rattle.std.specs.List.{All};
ghost use Rattle.event_rows.specs.Rows.{after};
ghost use Rattle.event_rows.specs.State.{Contents, IsNew, office};
ghost use Rattle.event_rows.specs.Trace.{AreEntries, Entry, after_entries};
ghost use Rattle.configuration.specs.declared.config.Config.{Config};
ghost use Rattle.events.specs.declared.event.Event.{Event};
ghost use Rattle.message_laws.specs.Addresses.{IsConfigured};
ghost use Rattle.message_laws.specs.Askers.{KnowsAskers};
ghost use Rattle.message_laws.specs.Datagrams.{EntersFromSource};
ghost use Rattle.message_laws.specs.Asked.{KnowsAsked};

use dialogs::{contacts_are_read, dialogs_are_sound};
use sip_writing::written_is_read;
use trace_reading::bodies_describe;
use transactions::replies;

/// For a new agent, and after any event that keeps the transaction of each open offer live, as each event does, the
/// following holds. Where a call waits for an answer, that transaction is of an INVITE or UPDATE, with the number
/// that the call keeps. The same holds after any entries of a new agent whose datagrams came from addresses.
pub fn open_offers_were_asked()
    ensures begins { (config : Config) (s : Contents) → IsNew config s → KnowsAsked (office s) }
    ensures step { (s : Contents) (event : Event) → KnowsAskers (office (after s event)) → KnowsAsked (office s) → KnowsAsked (office (after s event)) }
    ensures known { (config : Config) (s : Contents) (entries : List Entry) → IsConfigured config → IsNew config s → AreEntries s entries →
        All EntersFromSource entries → KnowsAsked (office (after_entries s entries)) }
{
    contacts_are_read();
    dialogs_are_sound();
    bodies_describe();
    written_is_read();
    replies();
}
