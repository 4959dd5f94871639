//! What a step does for a 2xx that no call takes.

ghost use Rattle.std.specs.Prelude.{◌≡◌, Bool, ℕ, List, [], ◌∷◌, Some};
ghost use Rattle.sip_message.specs.declared.message.Response.{Response};
ghost use Rattle.sip_uri.specs.declared.uri.Addr.{Addr};
ghost use Rattle.sip_uri.specs.declared.uri.Uri.{Uri};
ghost use Rattle.call_rules.specs.declared.responses.ResponseRule.TheVariants as rule;
ghost use Rattle.call_core.specs.Calls.{dialog_of};
ghost use Rattle.call_core.specs.declared.stage.Stage.TheVariants as stages;
ghost use Rattle.call_core.specs.declared.stage.Standing.{Standing};
ghost use Rattle.call_media.specs.Ends.{other};
ghost use Rattle.call_rules.specs.Responses.{response_rule};
ghost use Rattle.call_steps.specs.Rows.{dialog_after, later_dialog};
ghost use Rattle.calls.specs.declared.standing_call.StandingCall.{StandingCall};
ghost use Rattle.sip_message.specs.Contact.{contacts_of};
ghost use Rattle.call_trace.specs.declared.datagram.Datagram.{Datagram};
ghost use Rattle.dialogs.specs.Making.{callers_dialog, reached_at};
ghost use Rattle.event_rows.specs.Rows.{row};
ghost use Rattle.event_rows.specs.State.{Contents};
ghost use Rattle.events.specs.declared.event.Event.{Event};
ghost use Rattle.media_laws.specs.Standing.{AgentStands};
ghost use Rattle.transactions.specs.declared.transaction.Transaction.{Transaction};
ghost use Rattle.step_laws.specs.Answers.{acknowledges};
ghost use Rattle.step_laws.specs.Coming.{GoesUp};
ghost use Rattle.step_laws.specs.Forks.{IsLeftOver};
ghost use Rattle.step_laws.specs.Leaving.{StandsAt, bye};
ghost use Rattle.step_laws.specs.Sending.{Sends};

use dialogs::{contacts_are_read, dialogs_are_sound, invites_name_a_contact};
use offer_answer::sent_is_read;
use sip_writing::written_is_read;
use trace_reading::{bodies_describe, bytes_say_all};
use transactions::replies;

/// A 2xx to a first INVITE, of another end than the call's or of a call that is gone: in that step ACK and BYE go in
/// the dialog that it makes, to the address of its Contact (`fork`). They also go where the first INVITE was given up
/// and its call waits for its final response (`given_up`). One to a later INVITE, whose call is gone and whose dialog
/// has ended, gets only an ACK there (`late`). Nothing else is sent. This holds after any events, where the
/// transaction of the server's own INVITE hands the 2xx up.
pub fn forks_are_ended()
    ensures fork { (s : Contents) (event : Event) (t : List Datagram) (k : ℕ) → AgentStands s t k → (source : Addr) (bytes : List ℕ) (r : Response) (id : ℕ) (asked : Transaction) →
        GoesUp s event source bytes r id asked → (target : Uri) → IsLeftOver s asked r rule.Fork target →
        Sends (acknowledges (callers_dialog asked.parts r target) ∷ bye (callers_dialog asked.parts r target) ∷ []) (row s event) }
    ensures given_up { (s : Contents) (event : Event) (t : List Datagram) (k : ℕ) → AgentStands s t k → (source : Addr) (bytes : List ℕ) (r : Response) (id : ℕ) (asked : Transaction) →
        GoesUp s event source bytes r id asked → (place : ℕ) (c : StandingCall) (n : Standing) → StandsAt s place c n → response_rule s.calls.calls asked.parts r ≡ rule.Answer place →
        (waits : Bool) → n.stage ≡ stages.Cancelling waits → (target : Uri) → reached_at (contacts_of r.headers) ≡ Some target →
        Sends (acknowledges (dialog_after asked.parts r target (dialog_of (other n.offerer) c.call)) ∷ bye (dialog_after asked.parts r target (dialog_of (other n.offerer) c.call)) ∷ []) (row s event) }
    ensures late { (s : Contents) (event : Event) (t : List Datagram) (k : ℕ) → AgentStands s t k → (source : Addr) (bytes : List ℕ) (r : Response) (id : ℕ) (asked : Transaction) →
        GoesUp s event source bytes r id asked → (target : Uri) → IsLeftOver s asked r rule.AckAlone target → Sends (acknowledges (later_dialog asked.parts r target) ∷ []) (row s event) }
{
    contacts_are_read();
    dialogs_are_sound();
    invites_name_a_contact();
    bytes_say_all();
    written_is_read();
    bodies_describe();
    sent_is_read();
    replies();
}
