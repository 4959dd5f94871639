//! The signals of responses.

ghost use Rattle.std.specs.Prelude.{◌≡◌, ℕ, List, None, Ok, Option, Some, false};
ghost use Rattle.event_rows.specs.Rows.{is_unreachable_message};
ghost use Rattle.call_core.specs.declared.signal.Signal.TheVariants as signals;
ghost use Rattle.call_core.specs.declared.stage.Standing.{Standing};
ghost use Rattle.call_steps.specs.Rows.{answers_leg};
ghost use Rattle.call_steps.specs.Values.{without_offer};
ghost use Rattle.call_trace.specs.declared.call.Call.{Call};
ghost use Rattle.call_trace.specs.declared.datagram.Datagram.{Datagram};
ghost use Rattle.call_trace.specs.declared.datagram.Message.{Message};
ghost use Rattle.call_trace.specs.Messages.{offering};
ghost use Rattle.call_trace.specs.Stands.{CallStands};
ghost use Rattle.calls.specs.declared.standing_call.StandingCall.{StandingCall};
ghost use Rattle.events.specs.declared.sent.Sent.{Sent};
ghost use Rattle.plans.specs.Office.{Office};
ghost use Rattle.plans.specs.declared.setting.Setting.{Setting};
ghost use Rattle.message_laws.specs.Knowing.{KnowsTokens};
ghost use Rattle.message_laws.specs.Waiting.{KnowsWaiting};
ghost use Rattle.media_laws.specs.Coming.{scene_at};
ghost use Rattle.sdp.specs.declared.description.Description.{Description};
ghost use Rattle.media_laws.specs.Responding.{RespondsToOffer};
ghost use Rattle.media_laws.specs.Taking.{IsShownAt, KnowsLegs, TakesSignal};
ghost use Rattle.sip_message.specs.Read.{message_of};
ghost use Rattle.sip_message.specs.Words.{class_of};
ghost use Rattle.sip_message.specs.declared.message.Message.TheVariants as Kinds;
ghost use Rattle.sip_message.specs.declared.message.Response.{Response};
ghost use Rattle.sip_message.specs.declared.words.Class.TheVariants.{Failure, Provisional, Success};
ghost use Rattle.message_laws.specs.KnownTrace.{KnowsTrace};
ghost use Rattle.message_laws.specs.Messages.{IsTakenOf};
ghost use Rattle.transactions.specs.declared.transaction.Transaction.{Transaction};

use dialogs::{contacts_are_read, dialogs_are_sound, invites_name_a_contact};
use transactions::replies;

/// A call that the trace lists takes the signal of a response to the request that carried its open offer: of a
/// provisional one, with which the trace takes it; of a refusal, which replies in the trace to the request of the offer
/// that is open there; and of a 2xx, fit or not, which does so too, and whose scene has each leg, the one that a
/// first 2xx makes among them, where the trace lists the call.
pub fn signals_come_of_responses()
    ensures ringing { (s : Office) (e : Setting) (place : ℕ) (c : StandingCall) (description : Option Description) (begun : List Transaction) (t : List Datagram)
        (n : Standing) (d : Call) (r : Response) (bytes : List ℕ) (taken : Option Message) → KnowsLegs s → IsShownAt s begun t place c n d →
        message_of bytes ≡ Ok (Kinds.Response r) → IsTakenOf bytes taken → class_of r.status ≡ Provisional →
        TakesSignal n (scene_at s e (without_offer None None) c description) d taken (signals.Provisional r.status) }
    ensures refusal { (s : Office) (e : Setting) (place : ℕ) (c : StandingCall) (description : Option Description) (begun : List Transaction) (sent : List Sent)
        (t : List Datagram) (n : Standing) (d : Call) (r : Response) (id : ℕ) (x : Transaction) (bytes : List ℕ) (taken : Option Message) → KnowsLegs s →
        KnowsTokens s → KnowsTrace s begun sent t → IsShownAt s begun t place c n d → RespondsToOffer s r id x c →
        message_of bytes ≡ Ok (Kinds.Response r) → IsTakenOf bytes taken → class_of r.status ≡ Failure →
        TakesSignal n (scene_at s e (without_offer None None) c description) d taken (signals.Refusal r.status) }
    ensures success { (s : Office) (e : Setting) (place : ℕ) (c : StandingCall) (description : Option Description) (begun : List Transaction) (sent : List Sent)
        (t : List Datagram) (n : Standing) (d : Call) (r : Response) (id : ℕ) (x : Transaction) (bytes : List ℕ) (taken : Option Message) → KnowsLegs s →
        KnowsTokens s → KnowsWaiting s → KnowsTrace s begun sent t → IsShownAt s begun t place c n d → CallStands offering t d →
        RespondsToOffer s r id x c → message_of bytes ≡ Ok (Kinds.Response r) → is_unreachable_message (Kinds.Response r) ≡ false →
        IsTakenOf bytes taken → class_of r.status ≡ Success →
        TakesSignal n (scene_at s e (without_offer (answers_leg s.calls.calls place x.parts r) None) c description) d taken signals.UnfitAnswer }
{
    contacts_are_read();
    dialogs_are_sound();
    invites_name_a_contact();
    replies();
}
