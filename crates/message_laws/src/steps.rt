//! What the calls say, step by step.

ghost use Rattle.std.specs.Prelude.{◌≡◌, ◌+◌, ℕ, codes, false, true, List, None, Ok, Some, slice_get};
ghost use Rattle.call_core.specs.CallRows.{call_row, first_call_row};
ghost use Rattle.call_core.specs.declared.action.Action.{Action};
ghost use Rattle.call_core.specs.declared.input.Input.{Input};
ghost use Rattle.call_core.specs.declared.input.Input.TheVariants as inputs;
ghost use Rattle.call_core.specs.declared.signal.OfferMethod.{OfferMethod};
ghost use Rattle.call_media.specs.declared.end.End.{End};
ghost use Rattle.call_rules.specs.Content.{described};
ghost use Rattle.call_rules.specs.Speaking.{is_bye};
ghost use Rattle.call_steps.specs.Messages.{messages};
ghost use Rattle.call_steps.specs.Rows.{answers_leg, counts, first_asker, first_leg, first_messages, first_standing, later_dialog, messages_of, offer_coming};
ghost use Rattle.call_steps.specs.Scenes.{first_scene, fork_scene, scene};
ghost use Rattle.call_steps.specs.Values.{ComingValue, lent_scene, without_offer};
ghost use Rattle.calls.specs.declared.standing_call.StandingCall.{StandingCall};
ghost use Rattle.calls.specs.declared.timer_id.CallTimerId.{CallTimerId};
ghost use Rattle.dialogs.specs.Making.{callers_dialog, reached_at};
ghost use Rattle.dialogs.specs.declared.state.Dialog.{Dialog};
ghost use Rattle.plans.specs.CallRows.{asker, occasion, tag_at, without_call_timer};
ghost use Rattle.event_rows.specs.Rules.{target};
ghost use Rattle.plans.specs.Office.{Office};
ghost use Rattle.plans.specs.declared.setting.Setting.{Setting};
ghost use Rattle.message_laws.specs.Addresses.{IsSource};
ghost use Rattle.message_laws.specs.Bodies.{WasReadIn};
ghost use Rattle.message_laws.specs.Comings.{CanCome, ComesWithFitStatus, KnowsScenes, is_offer_input};
ghost use Rattle.message_laws.specs.Said.{SaysActions};
ghost use Rattle.message_laws.specs.SoundScenes.{CanAskIn, HaveFitStatuses};
ghost use Rattle.responses.specs.Responding.{stateless};
ghost use Rattle.sdp.specs.declared.description.Description.{Description};
ghost use Rattle.sip_message.specs.Contact.{contacts_of};
ghost use Rattle.sip_message.specs.Read.{message_of};
ghost use Rattle.sip_message.specs.declared.message.Message.TheVariants as Kinds;
ghost use Rattle.sip_message.specs.declared.message.Request.{Request};
ghost use Rattle.sip_message.specs.declared.message.Response.{Response};
ghost use Rattle.sip_uri.specs.declared.uri.Uri.{Uri};
ghost use Rattle.transaction_machines.specs.Machines.{is_server};
ghost use Rattle.transactions.specs.Slots.{at};
ghost use Rattle.transactions.specs.declared.transaction.Transaction.{Transaction};

use dialogs::{contacts_are_read, dialogs_are_sound};
use offer_answer::sent_is_read;
use trace_reading::bodies_describe;

/// Each datagram that a call says in a step, as it begins, or that is said in a dialog of no call, is the bytes of a
/// message of the written form, of which a trace sees what its action says; or the 200 that is sent again. The same
/// holds where a timer of a call is due.
pub fn steps_are_said()
    ensures step { (s : Office) (e : Setting) (place : ℕ) (c : StandingCall) (input : Input) (w : ComingValue) → KnowsScenes s →
        slice_get s.calls.calls place ≡ Some c → CanCome input w →
        SaysActions (lent_scene (scene s.table (occasion s e) w c (call_row c.call input s.calls.pool e.now).description)) s.tokens
        (call_row c.call input s.calls.pool e.now).actions
        (messages_of s.table (occasion s e) w c (call_row c.call input s.calls.pool e.now)).dressed.sends }
    ensures first { (s : Office) (e : Setting) (text : List ℕ) (r : Request) (id : ℕ) (contact to : Uri) (offer : Description) → KnowsScenes s →
        IsSource e.source → message_of text ≡ Ok (Kinds.Request r) → reached_at (contacts_of r.headers) ≡ Some contact →
        target s r e.now ≡ Some to → described r.headers r.body ≡ Some offer →
        SaysActions (lent_scene (first_scene (occasion s e) (first_asker (occasion s e) r id e.source) r.max_forwards (first_leg (occasion s e) r to)
        (first_call_row (first_standing (s.calls.begun + 1) (occasion s e) r id e.source contact).call offer s.calls.pool e.now).description)) (s.tokens + 3)
        (first_call_row (first_standing (s.calls.begun + 1) (occasion s e) r id e.source contact).call offer s.calls.pool e.now).actions
        (first_messages (occasion s e) r id e.source to
        (first_call_row (first_standing (s.calls.begun + 1) (occasion s e) r id e.source contact).call offer s.calls.pool e.now)).dressed.sends }
    ensures alone { (s : Office) (e : Setting) (leg : Dialog) (actions : List Action) → KnowsScenes s → CanAskIn leg → HaveFitStatuses actions →
        SaysActions (lent_scene (fork_scene (occasion s e) leg)) s.tokens actions (messages (fork_scene (occasion s e) leg) None actions).dressed.sends }
    ensures timer { (s : Office) (timer : CallTimerId) → KnowsScenes s → KnowsScenes (without_call_timer timer s) }
{
    contacts_are_read();
    dialogs_are_sound();
    bodies_describe();
    sent_is_read();
}

/// A message that was read can reach a call: with a CANCEL, a BYE, an offer and a 2xx that a call takes; and alone,
/// with an ACK, a response of another class, or a timer. In the dialog of a 2xx that no call takes a request can be
/// said.
pub fn comings_are_sound()
    ensures alone { (input : Input) → ComesWithFitStatus input → is_offer_input input ≡ false → WasReadIn input → CanCome input (without_offer None None) }
    ensures cancel { (s : Office) (e : Setting) (text : List ℕ) (r : Request) (id place : ℕ) → KnowsScenes s → IsSource e.source →
        message_of text ≡ Ok (Kinds.Request r) → r.method ≡ codes "CANCEL" →
        CanCome inputs.Cancel (without_offer None (Some (asker r e id (tag_at (slice_get s.calls.calls place))))) }
    ensures bye { (s : Office) (e : Setting) (text : List ℕ) (r : Request) (id place : ℕ) (end : End) → KnowsScenes s → IsSource e.source →
        message_of text ≡ Ok (Kinds.Request r) → is_bye r.parts ≡ true →
        CanCome (inputs.Bye end) (without_offer (counts s.calls.calls place end r.parts.cseq.number) (Some (asker r e id stateless))) }
    ensures offer { (s : Office) (e : Setting) (text : List ℕ) (r : Request) (id place : ℕ) (end : End) (c : StandingCall) (method : OfferMethod)
        (offer : Description) → KnowsScenes s → IsSource e.source → message_of text ≡ Ok (Kinds.Request r) → slice_get s.calls.calls place ≡ Some c →
        described r.headers r.body ≡ Some offer →
        CanCome (inputs.Offer end method (Some offer)) (offer_coming (counts s.calls.calls place end r.parts.cseq.number) end r id e.source c) }
    ensures answer { (s : Office) (text : List ℕ) (r : Response) (id place : ℕ) (t : Transaction) → KnowsScenes s →
        message_of text ≡ Ok (Kinds.Response r) → at s.table.slots id ≡ Some t → is_server t.state ≡ false →
        CanCome (inputs.Answer (described r.headers r.body)) (without_offer (answers_leg s.calls.calls place t.parts r) None) }
    ensures fork { (s : Office) (text : List ℕ) (r : Response) (id : ℕ) (t : Transaction) (to : Uri) → KnowsScenes s →
        message_of text ≡ Ok (Kinds.Response r) → at s.table.slots id ≡ Some t → is_server t.state ≡ false →
        reached_at (contacts_of r.headers) ≡ Some to → CanAskIn (callers_dialog t.parts r to) }
    ensures late { (s : Office) (text : List ℕ) (r : Response) (id : ℕ) (t : Transaction) (to : Uri) → KnowsScenes s →
        message_of text ≡ Ok (Kinds.Response r) → at s.table.slots id ≡ Some t → is_server t.state ≡ false →
        reached_at (contacts_of r.headers) ≡ Some to → CanAskIn (later_dialog t.parts r to) }
{
    contacts_are_read();
    dialogs_are_sound();
    bodies_describe();
}
