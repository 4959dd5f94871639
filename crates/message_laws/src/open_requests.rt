//! The requests of the server's own for whose final response its calls wait.

ghost use Rattle.std.specs.Prelude.{◌++◌, [], List};
ghost use Rattle.std.specs.List.{All};
ghost use Rattle.event_rows.specs.Rows.{after, row};
ghost use Rattle.event_rows.specs.State.{Contents, IsNew, office};
ghost use Rattle.event_rows.specs.Trace.{AreEntries, Entry, after_entries};
ghost use Rattle.calls.specs.State.{AreServed};
ghost use Rattle.configuration.specs.declared.config.Config.{Config};
ghost use Rattle.events.specs.declared.event.Event.{Event};
ghost use Rattle.message_laws.specs.Addresses.{HasOctets};
ghost use Rattle.message_laws.specs.CalleeDialogs.{KnowsCallees};
ghost use Rattle.message_laws.specs.Knowing.{KnowsTokens};
ghost use Rattle.message_laws.specs.Numbers.{begun_in, begun_of};
ghost use Rattle.message_laws.specs.OpenRequests.{HasAsked, HasOffered, KnowsRequests};
ghost use Rattle.message_laws.specs.Sound.{KnowsDialogs};
ghost use Rattle.message_laws.specs.Waiting.{KnowsWaiting};
ghost use Rattle.transactions.specs.declared.transaction.Transaction.{Transaction};

use dialogs::{contacts_are_read, dialogs_are_sound, invites_name_a_contact};

/// For a new agent, and after any event, for all requests that the server began, the following holds. Where a call
/// waits for a final response of an end with which it has a dialog, or of the callee to its first INVITE, one of them
/// is its open offer, and its bytes carry the description of the offer that the call keeps as open. The same holds
/// after any events of a new agent, for each call that waits for an answer. Where the pool serves the calls, each of
/// these keeps an offer, which its request carries.
pub fn open_offers_have_requests()
    ensures begins { (config : Config) (s : Contents) → IsNew config s → KnowsRequests (office s) [] }
    ensures step { (s : Contents) (event : Event) (begun : List Transaction) → KnowsTokens (office s) → KnowsWaiting (office s) →
        KnowsDialogs (office s) → KnowsRequests (office s) begun →
        KnowsRequests (office (after s event)) (begun ++ begun_of (row s event).plan.changes) }
    ensures waits { (s : Contents) (begun : List Transaction) → KnowsCallees (office s) → KnowsRequests (office s) begun →
        All (HasAsked begun) s.calls.calls }
    ensures carries { (s : Contents) (begun : List Transaction) → AreServed s.calls.pool s.calls.calls → KnowsCallees (office s) →
        KnowsRequests (office s) begun → All (HasOffered begun) s.calls.calls }
    ensures known { (config : Config) (s : Contents) (entries : List Entry) → IsNew config s → HasOctets config.ip → AreEntries s entries →
        KnowsRequests (office (after_entries s entries)) (begun_in s entries) }
    ensures asked { (config : Config) (s : Contents) (entries : List Entry) → IsNew config s → HasOctets config.ip → AreEntries s entries →
        All (HasAsked (begun_in s entries)) (after_entries s entries).calls.calls }
{
    contacts_are_read();
    dialogs_are_sound();
    invites_name_a_contact();
}
