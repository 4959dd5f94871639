//! What a step does for an offer.

ghost use Rattle.std.specs.Prelude.{◌⊎◌, ℕ, List};
ghost use Rattle.sip_message.specs.declared.message.Request.{Request};
ghost use Rattle.sip_uri.specs.declared.uri.Addr.{Addr};
ghost use Rattle.sip_uri.specs.declared.uri.Uri.{Uri};
ghost use Rattle.sdp.specs.declared.description.Description.{Description};
ghost use Rattle.call_trace.specs.declared.datagram.Datagram.{Datagram};
ghost use Rattle.event_rows.specs.Rows.{row};
ghost use Rattle.configuration.specs.declared.config.Config.{Config};
ghost use Rattle.event_rows.specs.State.{Contents, IsNew, moment_at, rules_by};
ghost use Rattle.event_rows.specs.Trace.{AreEntries, Entry, after_entries};
ghost use Rattle.registrar.specs.Bound.{Event as RegistrarEvent};
ghost use Rattle.registrar.specs.Registering.{Rules};
ghost use Rattle.registrar.specs.Registrar.{StandsAfter};
ghost use Rattle.step_laws.specs.Registering.{AreRegistrations};
ghost use Rattle.events.specs.declared.event.Event.{Event};
ghost use Rattle.message_laws.specs.Addresses.{IsSource};
ghost use Rattle.media_laws.specs.Standing.{AgentStands};
ghost use Rattle.step_laws.specs.Coming.{BeginsTransaction};
ghost use Rattle.step_laws.specs.Offers.{BeginsCall, GoesAcross, GoesBack, IsBoundTo, IsFirstCall, IsLaterRequest, IsServed};

use dialogs::{contacts_are_read, dialogs_are_sound, invites_name_a_contact};
use message_laws::calls_are_served;
use offer_answer::sent_is_read;
use sip_writing::written_is_read;
use trace_reading::{bodies_describe, bytes_say_all};

/// A first INVITE that no rule refuses, to a user who is bound, with an offer that the relay carries, and for which
/// there is room: in that step the caller gets 100. The callee, at the address where it is bound, gets an INVITE
/// without a To tag, with a matching offer. This holds after any events, where the INVITE came from an address and is
/// not a repeat.
pub fn first_invites_are_passed_on()
    ensures { (s : Contents) (event : Event) (t : List Datagram) (k : ℕ) → AgentStands s t k → (source : Addr) (bytes : List ℕ) (r : Request) (id : ℕ) →
        IsSource source → BeginsTransaction s event source bytes r id → (to : Uri) (offer : Description) →
        IsFirstCall s (moment_at s event.now) r to offer → BeginsCall source bytes r to offer (row s event) }
{
    contacts_are_read();
    dialogs_are_sound();
    invites_name_a_contact();
    bytes_say_all();
    written_is_read();
    bodies_describe();
    sent_is_read();
    calls_are_served();
}

/// An INVITE or UPDATE inside a dialog that is not a repeat: in that step the other end gets a matching offer, in a
/// request of the same method; or the request gets its final response from the server. One without an offer that can
/// be read gets its final response. This holds after any events, where the request came from an address.
pub fn later_requests_are_served()
    ensures { (s : Contents) (event : Event) (t : List Datagram) (k : ℕ) → AgentStands s t k → (source : Addr) (bytes : List ℕ) (r : Request) (id : ℕ) →
        IsSource source → BeginsTransaction s event source bytes r id → IsLaterRequest r → IsServed bytes r (row s event) }
{
    contacts_are_read();
    dialogs_are_sound();
    bytes_say_all();
    written_is_read();
    bodies_describe();
    sent_is_read();
    calls_are_served();
}

/// An INVITE or UPDATE inside a dialog that is not a repeat, and to whom it goes. It came in the dialog with an end
/// of a call. In that step it goes, by the same method, in the dialog with the other end of that call, to the address
/// of its target. An INVITE gets 100 before that. Or its final response goes back to where it came from. Nothing else
/// is sent. This holds after any events, where the request came from an address.
pub fn later_requests_go_across()
    ensures { (s : Contents) (event : Event) (t : List Datagram) (k : ℕ) → AgentStands s t k → (source : Addr) (bytes : List ℕ) (r : Request) (id : ℕ) →
        IsSource source → BeginsTransaction s event source bytes r id → IsLaterRequest r → GoesAcross s.calls.calls r source (row s event) ⊎ GoesBack r source (row s event) }
{
    contacts_are_read();
    dialogs_are_sound();
    bytes_say_all();
    written_is_read();
    bodies_describe();
    sent_is_read();
    calls_are_served();
}

/// A first INVITE that is passed on goes to the contact that its callee bound last, by the REGISTERs of all events,
/// each with the rest of its life. That target is the one of `first_invites_are_passed_on`. This holds after any
/// events of a new agent (`agents`), and for each agent whose registrar is as its REGISTERs leave it (`bound`).
pub fn first_invites_go_where_bound()
    ensures bound { (s : Contents) (rules : Rules) (history : List RegistrarEvent) → StandsAfter s.registrar rules history → (event : Event) (r : Request) (to : Uri) (offer : Description) →
        IsFirstCall s (moment_at s event.now) r to offer → IsBoundTo rules history r (moment_at s event.now) to }
    ensures agents { (config : Config) (s : Contents) (entries : List Entry) (history : List RegistrarEvent) → IsNew config s → AreEntries s entries →
        AreRegistrations (rules_by config) s entries history → (event : Event) (r : Request) (to : Uri) (offer : Description) →
        IsFirstCall (after_entries s entries) (moment_at (after_entries s entries) event.now) r to offer → IsBoundTo (rules_by config) history r (moment_at (after_entries s entries) event.now) to }
{}
