//! Inputs that a call takes.

ghost use Rattle.std.specs.Prelude.{◌++◌, ◌≡◌, ℕ, List, [], None, Option, slice_get, Some, true};
ghost use Rattle.call_core.specs.CallRows.{call_row};
ghost use Rattle.call_core.specs.declared.action.Action.TheVariants.{AnswerAgain};
ghost use Rattle.call_core.specs.declared.input.Input.{Input};
ghost use Rattle.call_core.specs.declared.signal.Signal.{Signal};
ghost use Rattle.call_core.specs.declared.stage.Standing.{Standing};
ghost use Rattle.call_steps.specs.Rows.{messages_of, takes_row};
ghost use Rattle.call_steps.specs.Values.{AskerValue, ComingValue, without_offer};
ghost use Rattle.call_trace.specs.declared.call.Call.{Call};
ghost use Rattle.call_trace.specs.declared.datagram.Datagram.{Datagram};
ghost use Rattle.call_trace.specs.declared.datagram.Message.{Message};
ghost use Rattle.call_trace.specs.Events.{IsIdle, passed};
ghost use Rattle.call_trace.specs.Listed.{AllOf};
ghost use Rattle.call_trace.specs.Messages.{offering};
ghost use Rattle.calls.specs.declared.change.LegDialog.{LegDialog};
ghost use Rattle.calls.specs.declared.standing_call.StandingCall.{StandingCall};
ghost use Rattle.plans.specs.CallRows.{occasion, takes};
ghost use Rattle.plans.specs.Effect.{Effect};
ghost use Rattle.events.specs.declared.sent.Sent.{Sent};
ghost use Rattle.message_laws.specs.Sending.{KnowsSent};
ghost use Rattle.plans.specs.Office.{Office};
ghost use Rattle.plans.specs.declared.setting.Setting.{Setting};
ghost use Rattle.message_laws.specs.Comings.{CanCome, KnowsScenes};
ghost use Rattle.media_laws.specs.Coming.{FitsComing, scene_at};
ghost use Rattle.media_laws.specs.Steps.{GoOn, IsAfter, IsSignalOf, StandsShown, due_signal};
ghost use Rattle.media_laws.specs.Taking.{KnowsLegs, TakesSignal};
ghost use Rattle.media_laws.specs.Heard.{HearsActions};
ghost use Rattle.media_laws.specs.Inputs.{is_bye_signal};
ghost use Rattle.media_laws.specs.Lines.{SaysNone};
ghost use Rattle.media_laws.specs.Listing.{is_listed};
ghost use Rattle.media_laws.specs.Shows.{ShowsCall};
ghost use Rattle.message_laws.specs.KnownTrace.{KnowsTrace};
ghost use Rattle.message_laws.specs.Messages.{AreMessages};
ghost use Rattle.transactions.specs.declared.change.Entry.{Entry};
ghost use Rattle.transactions.specs.declared.transaction.Transaction.{Transaction};

use call_trace::moves_keep;
use offer_answer::sent_is_read;
use sip_writing::written_is_read;
use trace_reading::{bodies_describe, bytes_say_all};

/// A trace that reads what a call sends in a step hears what its actions say, one after another.
pub fn steps_are_heard()
    ensures { (s : Office) (e : Setting) (place : ℕ) (c : StandingCall) (input : Input) (w : ComingValue) → KnowsScenes s →
        slice_get s.calls.calls place ≡ Some c → CanCome input w → (ms : List Message) →
        AreMessages (messages_of s.table (occasion s e) w c (call_row c.call input s.calls.pool e.now)).dressed.sends ms →
        HearsActions (scene_at s e w c (call_row c.call input s.calls.pool e.now).description) s.tokens (call_row c.call input s.calls.pool e.now).actions ms }
{
    bytes_say_all();
    written_is_read();
    bodies_describe();
    sent_is_read();
}

/// Where a call that the trace lists takes an input that is neither an offer nor a fit answer, as the agent's row
/// says it, that is a move of the trace's calls, with what the transactions send before it. After it the trace's
/// calls show the server's. What comes is what the trace took, and the calls afterwards are those of the row.
pub fn takes_go_on()
    ensures { (s after : Office) (begun more : List Transaction) (t : List Datagram) (old : List Call) (k : ℕ) → StandsShown s begun t old k →
        IsAfter s after (begun ++ more) → (e : Setting) (place : ℕ) (c : StandingCall) (n : Standing) (input : Input) (signal : Signal)
        (leg : Option LegDialog) (request : Option AskerValue) → slice_get s.calls.calls place ≡ Some c → c.call.standing ≡ Some n → is_listed c ≡ true →
        IsSignalOf c.call input signal → CanCome input (without_offer leg request) → FitsComing c leg → (taken : Option Message) (before ms : List Message) →
        AllOf (IsIdle offering t taken) before → (is_bye_signal signal ≡ true → before ≡ []) →
        SaysNone t taken (scene_at s e (without_offer leg request) c (call_row c.call input s.calls.pool e.now).description) (AnswerAgain n.offerer) →
        ((d : Call) (j : ℕ) → slice_get old j ≡ Some d → ShowsCall s.table.slots begun t c d →
        TakesSignal n (scene_at s e (without_offer leg request) c (call_row c.call input s.calls.pool e.now).description) d taken signal) →
        AreMessages (takes_row s.calls s.table (occasion s e) place input leg request).dressed.sends ms →
        after.calls.calls ≡ (takes_row s.calls s.table (occasion s e) place input leg request).outcome.standing.calls →
        GoOn (ShowsCall after.table.slots (begun ++ more) (t ++ passed k taken (before ++ ms))) after.calls.calls t old taken (before ++ ms) }
{
    moves_keep();
    bytes_say_all();
    written_is_read();
    bodies_describe();
    sent_is_read();
}

/// Where a timer is due that a call which the trace lists takes, of its own or of its request, the event is a move of
/// the trace's calls. After it the trace's calls show the server's, whatever is known after it as in each other
/// event.
pub fn timers_go_on()
    ensures { (s after : Office) (begun more : List Transaction) (sent : List Sent) (t : List Datagram) (old : List Call) (k : ℕ) → StandsShown s begun t old k →
        IsAfter s after (begun ++ more) → KnowsTrace s begun sent t → KnowsSent s sent → KnowsLegs s → (e : Setting) (place : ℕ) (c : StandingCall) (n : Standing)
        (entries : List Entry) → slice_get s.calls.calls place ≡ Some c → c.call.standing ≡ Some n → is_listed c ≡ true → (input : Input) (signal : Signal) →
        due_signal input ≡ Some signal → (x : Effect) → x ≡ takes s e entries None None place input None → (ms : List Message) → AreMessages x.plan.sends ms →
        after.calls.calls ≡ x.calls.standing.calls →
        GoOn (ShowsCall after.table.slots (begun ++ more) (t ++ passed k None ms)) after.calls.calls t old None ms }
{
    moves_keep();
    bytes_say_all();
    written_is_read();
    bodies_describe();
    sent_is_read();
}
