//! What the server sends.

ghost use Rattle.std.specs.Prelude.{◌++◌, [], ℕ, List};
ghost use Rattle.std.specs.List.{All};
ghost use Rattle.event_rows.specs.Rows.{row};
ghost use Rattle.event_rows.specs.State.{Contents, IsNew, office};
ghost use Rattle.event_rows.specs.Trace.{AreEntries, Entry};
ghost use Rattle.configuration.specs.declared.config.Config.{Config};
ghost use Rattle.events.specs.declared.event.Event.{Event};
ghost use Rattle.events.specs.declared.sent.Sent.{Sent};
ghost use Rattle.message_laws.specs.Addresses.{IsConfigured};
ghost use Rattle.message_laws.specs.Askers.{KnowsAskers};
ghost use Rattle.message_laws.specs.Bodies.{KnowsDescriptions};
ghost use Rattle.message_laws.specs.Datagrams.{ComesFromSource, EntersFromSource};
ghost use Rattle.message_laws.specs.Knowing.{KnowsTokens};
ghost use Rattle.message_laws.specs.Knowledge.{sends_of};
ghost use Rattle.message_laws.specs.Sending.{KnowsSent};
ghost use Rattle.message_laws.specs.Sound.{KnowsDialogs};
ghost use Rattle.message_laws.specs.ReadDatagrams.{IsReadDatagram, IsReadText};
ghost use Rattle.message_laws.specs.SoundClients.{KnowsClients};
ghost use Rattle.sip_message.specs.Grammar.{ReadsMessage};

use dialogs::{contacts_are_read, dialogs_are_sound};
use offer_answer::sent_is_read;
use sip_writing::written_is_read;
use trace_reading::bodies_describe;

/// For a new agent, which sent nothing, and at any event, where datagrams come from addresses, the following holds.
/// Each datagram that is sent is the bytes of a message of the written form: a request, or a response, the 200 to a
/// REGISTER among them. So it reads back as the message that it was dressed as.
pub fn sends_are_read()
    ensures begins { All IsReadDatagram [] }
    ensures step { (s : Contents) (event : Event) (sent : List Sent) → ComesFromSource event.what → KnowsDialogs (office s) → KnowsClients (office s) →
        KnowsDescriptions (office s) → KnowsAskers (office s) → KnowsTokens (office s) → KnowsSent (office s) sent → All IsReadDatagram sent →
        All IsReadDatagram (sent ++ (row s event).plan.sends) }
    ensures known { (config : Config) (s : Contents) (entries : List Entry) → IsConfigured config → IsNew config s → AreEntries s entries →
        All EntersFromSource entries → All IsReadDatagram (sends_of entries) }
    ensures back { (bytes : List ℕ) (h : IsReadText bytes) → ReadsMessage bytes h.0 }
{
    contacts_are_read();
    dialogs_are_sound();
    sent_is_read();
    written_is_read();
    bodies_describe();
}
