//! The 200s to BYEs that the server sent.

ghost use Rattle.std.specs.Prelude.{◌<◌, ◌^◌, ◌++◌, [], ℕ, List, Option};
ghost use Rattle.event_rows.specs.Rows.{after, row};
ghost use Rattle.event_rows.specs.State.{Contents, IsNew, office};
ghost use Rattle.call_trace.specs.declared.call.Call.{Call};
ghost use Rattle.call_trace.specs.declared.datagram.Datagram.{Datagram};
ghost use Rattle.call_trace.specs.declared.datagram.Message.{Message};
ghost use Rattle.call_trace.specs.Events.{IsNewTag, passed};
ghost use Rattle.configuration.specs.declared.config.Config.{Config};
ghost use Rattle.events.specs.declared.event.Event.{Event};
ghost use Rattle.events.specs.declared.sent.Sent.{Sent};
ghost use Rattle.media_laws.specs.Byes.{KnowsByes};
ghost use Rattle.plans.specs.Office.{Office};
ghost use Rattle.message_laws.specs.Datagrams.{ComesFromSource};
ghost use Rattle.media_laws.specs.Ties.{AreTied};
ghost use Rattle.responses.specs.Tokens.{token};
ghost use Rattle.message_laws.specs.Asked.{KnowsAsked};
ghost use Rattle.message_laws.specs.KnownTrace.{KnowsTrace};
ghost use Rattle.message_laws.specs.Messages.{AreMessages};
ghost use Rattle.transactions.specs.declared.transaction.Transaction.{Transaction};

use dialogs::{contacts_are_read, dialogs_are_sound};
use offer_answer::sent_is_read;
use sip_writing::written_is_read;
use trace_reading::{bodies_describe, bytes_say_all};

/// For the trace of a new agent, and after any event whose datagram, if one came, came from an address, the following
/// holds. Each 200 to a BYE that was sent has in To a tag that was made. So a token that is made next is a new tag in
/// the trace: no BYE was sent with it in From, and no 200 to one with it in To.
pub fn byes_are_known()
    ensures begins { (config : Config) (s : Contents) → IsNew config s → KnowsByes (office s) [] }
    ensures step { (s : Contents) (event : Event) (begun : List Transaction) (sent : List Sent) (t : List Datagram) (ds : List Call) (k : ℕ)
        (taken : Option Message) (ms : List Message) → AreTied (office s) begun sent t ds → KnowsAsked (office s) → ComesFromSource event.what →
        AreMessages (row s event).plan.sends ms → KnowsByes (office s) t → KnowsByes (office (after s event)) (t ++ passed k taken ms) }
    ensures next { (s : Office) (begun : List Transaction) (sent : List Sent) (t : List Datagram) (salt count : ℕ) → KnowsTrace s begun sent t →
        KnowsByes s t → s.tokens < count → count < 2 ^ 64 → IsNewTag t (token salt count) }
{
    contacts_are_read();
    dialogs_are_sound();
    sent_is_read();
    written_is_read();
    bodies_describe();
    bytes_say_all();
}
