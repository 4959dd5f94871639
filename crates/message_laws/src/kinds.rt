//! What the server sends at an event.

ghost use Rattle.std.specs.Prelude.{◌+◌, List};
ghost use Rattle.event_rows.specs.Rows.{row};
ghost use Rattle.event_rows.specs.State.{Contents, office};
ghost use Rattle.call_trace.specs.Listed.{AllOf};
ghost use Rattle.events.specs.declared.event.Event.{Event};
ghost use Rattle.events.specs.declared.sent.Sent.{Sent};
ghost use Rattle.message_laws.specs.Askers.{KnowsAskers};
ghost use Rattle.message_laws.specs.Bodies.{KnowsDescriptions};
ghost use Rattle.message_laws.specs.Knowing.{KnowsTokens};
ghost use Rattle.message_laws.specs.Sending.{KnowsSent};
ghost use Rattle.message_laws.specs.Sound.{KnowsDialogs};
ghost use Rattle.message_laws.specs.SoundClients.{KnowsClients};
ghost use Rattle.message_laws.specs.Kinds.{AreBegun, IsOfKind};

use dialogs::{contacts_are_read, dialogs_are_sound};
use trace_reading::bodies_describe;

/// Each datagram of an event went before; or it is the request of a client transaction that begins in this event, or an
/// ACK with a branch that was made, both of the form that is written and read again; or it is a response. And the
/// request of each client transaction that begins is among them.
pub fn sends_are_of_kinds()
    ensures kinds { (s : Contents) (event : Event) (sent : List Sent) → KnowsTokens (office s) → KnowsSent (office s) sent → KnowsAskers (office s) →
        KnowsDialogs (office s) → KnowsDescriptions (office s) → KnowsClients (office s) →
        AllOf (IsOfKind sent (s.tokens + (row s event).plan.made) (row s event).plan.changes) (row s event).plan.sends }
    ensures begun { (s : Contents) (event : Event) (sent : List Sent) → KnowsTokens (office s) → KnowsSent (office s) sent → KnowsAskers (office s) →
        KnowsDialogs (office s) → KnowsDescriptions (office s) → KnowsClients (office s) → AreBegun (row s event).plan.changes (row s event).plan.sends }
{
    contacts_are_read();
    dialogs_are_sound();
    bodies_describe();
}
