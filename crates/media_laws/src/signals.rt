//! The signals of timers and of requests.

ghost use Rattle.std.specs.Prelude.{◌≡◌, ℕ, List, None, Ok, Option, Some, codes, true};
ghost use Rattle.call_core.specs.declared.signal.Signal.{Signal};
ghost use Rattle.call_core.specs.declared.signal.Signal.TheVariants as signals;
ghost use Rattle.call_core.specs.declared.stage.Standing.{Standing};
ghost use Rattle.call_media.specs.declared.end.End.{End};
ghost use Rattle.call_rules.specs.Requests.{dialog_rule};
ghost use Rattle.call_rules.specs.DialogRule.{Leaves};
ghost use Rattle.call_steps.specs.Rows.{counts};
ghost use Rattle.call_steps.specs.Values.{without_offer};
ghost use Rattle.call_trace.specs.declared.call.Call.{Call};
ghost use Rattle.call_trace.specs.declared.datagram.Datagram.{Datagram};
ghost use Rattle.call_trace.specs.declared.datagram.Message.{Message};
ghost use Rattle.calls.specs.declared.standing_call.StandingCall.{StandingCall};
ghost use Rattle.plans.specs.CallRows.{asker};
ghost use Rattle.plans.specs.Office.{Office};
ghost use Rattle.plans.specs.declared.setting.Setting.{Setting};
ghost use Rattle.responses.specs.Words.{is_method};
ghost use Rattle.media_laws.specs.Coming.{scene_at};
ghost use Rattle.sdp.specs.declared.description.Description.{Description};
ghost use Rattle.media_laws.specs.Taking.{IsShownAt, KnowsLegs, TakesSignal, is_due_signal};
ghost use Rattle.sip_message.specs.Read.{message_of};
ghost use Rattle.sip_message.specs.declared.message.Message.TheVariants as Kinds;
ghost use Rattle.sip_message.specs.declared.message.Request.{Request};
ghost use Rattle.message_laws.specs.Messages.{IsTakenOf};
ghost use Rattle.transactions.specs.declared.transaction.Transaction.{Transaction};

/// A call that the trace lists takes the signal of a timer, with which nothing is taken; and that of an ACK, of a
/// CANCEL, or of a BYE in one of its dialogs, with which the trace takes the request.
pub fn signals_come()
    ensures due { (s : Office) (e : Setting) (place : ℕ) (c : StandingCall) (description : Option Description) (begun : List Transaction) (t : List Datagram)
        (n : Standing) (d : Call) (signal : Signal) → KnowsLegs s → IsShownAt s begun t place c n d → is_due_signal signal ≡ true →
        TakesSignal n (scene_at s e (without_offer None None) c description) d None signal }
    ensures ack { (s : Office) (e : Setting) (place : ℕ) (c : StandingCall) (description : Option Description) (begun : List Transaction) (t : List Datagram)
        (n : Standing) (d : Call) (r : Request) (bytes : List ℕ) (taken : Option Message) → KnowsLegs s → IsShownAt s begun t place c n d →
        message_of bytes ≡ Ok (Kinds.Request r) → IsTakenOf bytes taken →
        TakesSignal n (scene_at s e (without_offer None None) c description) d taken signals.Ack }
    ensures cancel { (s : Office) (e : Setting) (place : ℕ) (c : StandingCall) (description : Option Description) (begun : List Transaction) (t : List Datagram)
        (n : Standing) (d : Call) (r : Request) (id : ℕ) (tag bytes : List ℕ) (taken : Option Message) → KnowsLegs s → IsShownAt s begun t place c n d →
        message_of bytes ≡ Ok (Kinds.Request r) → IsTakenOf bytes taken → is_method (codes "CANCEL") r ≡ true →
        TakesSignal n (scene_at s e (without_offer None (Some (asker r e id tag))) c description) d taken signals.Cancel }
    ensures bye { (s : Office) (e : Setting) (place : ℕ) (c : StandingCall) (description : Option Description) (begun : List Transaction) (t : List Datagram)
        (n : Standing) (d : Call) (r : Request) (id : ℕ) (end : End) (tag bytes : List ℕ) (taken : Option Message) → KnowsLegs s →
        IsShownAt s begun t place c n d → message_of bytes ≡ Ok (Kinds.Request r) → IsTakenOf bytes taken →
        dialog_rule s.calls.calls r ≡ Leaves place end →
        TakesSignal n (scene_at s e (without_offer (counts s.calls.calls place end r.parts.cseq.number) (Some (asker r e id tag))) c description) d taken
        (signals.Bye end) }
{}
