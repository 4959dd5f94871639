//! Steps of a call.

ghost use Rattle.std.specs.Prelude.{◌++◌, ◌≡◌, ℕ, List, [], None, Option, slice_get, Some, true};
ghost use Rattle.std.specs.List.{All};
ghost use Rattle.call_core.specs.CallRows.{call_row};
ghost use Rattle.call_core.specs.Table.{row_of};
ghost use Rattle.call_core.specs.declared.action.Action.TheVariants.{AnswerAgain};
ghost use Rattle.call_core.specs.declared.call.Call.{Call as ServerCall};
ghost use Rattle.call_core.specs.declared.input.Input.{Input};
ghost use Rattle.call_core.specs.declared.signal.Signal.{Signal};
ghost use Rattle.call_core.specs.declared.stage.Standing.{Standing};
ghost use Rattle.call_steps.specs.Values.{ComingValue};
ghost use Rattle.call_steps.specs.declared.messages.StepMessages.{StepMessages};
ghost use Rattle.call_trace.specs.declared.call.Call.{Call};
ghost use Rattle.call_trace.specs.declared.datagram.Datagram.{Datagram};
ghost use Rattle.call_trace.specs.declared.datagram.Message.{Message};
ghost use Rattle.call_trace.specs.Events.{IsIdle, NoneAsked, passed};
ghost use Rattle.call_trace.specs.Listed.{AllOf};
ghost use Rattle.call_trace.specs.Messages.{offering};
ghost use Rattle.call_trace.specs.Lives.{Stands};
ghost use Rattle.calls.specs.declared.standing_call.StandingCall.{StandingCall};
ghost use Rattle.call_media.specs.declared.end.End.{End};
ghost use Rattle.events.specs.declared.sent.Sent.{Sent};
ghost use Rattle.call_messages.specs.declared.scene.Scene.{Scene};
ghost use Rattle.plans.specs.Office.{Office};
ghost use Rattle.plans.specs.declared.setting.Setting.{Setting};
ghost use Rattle.port_pool.specs.Pool.{Contents};
ghost use Rattle.message_laws.specs.Askers.{KeepsAsked};
ghost use Rattle.message_laws.specs.Numbers.{KnowsNumbers};
ghost use Rattle.message_laws.specs.OpenRequests.{HasAsked};
ghost use Rattle.message_laws.specs.Sending.{KnowsSent};
ghost use Rattle.media_laws.specs.Coming.{FitsComing, scene_at};
ghost use Rattle.media_laws.specs.Going.{put_as};
ghost use Rattle.sdp.specs.declared.description.Description.{Description};
ghost use Rattle.message_laws.specs.Serving.{IsStaged};
ghost use Rattle.media_laws.specs.Taking.{TakesSignal};
ghost use Rattle.media_laws.specs.Steps.{GoOn, GoesOnAt, IsSignalOf, IsSignalStep, calls_after};
ghost use Rattle.media_laws.specs.Afterwards.{HasSpot};
ghost use Rattle.media_laws.specs.Heard.{HearsActions};
ghost use Rattle.media_laws.specs.Lines.{LineMove, SaysNone, actions_in, next_in};
ghost use Rattle.media_laws.specs.Inputs.{is_bye_signal};
ghost use Rattle.media_laws.specs.Shows.{ShowsCall};
ghost use Rattle.message_laws.specs.KnownTrace.{KnowsTrace};
ghost use Rattle.transactions.specs.declared.transaction.Transaction.{Transaction};

use crate::lines_are_moves;
use call_trace::moves_keep;
use sip_writing::written_is_read;
use trace_reading::bytes_say_all;

/// A step of a call that takes no offer and no fit answer does what the line of its signal says, and leads where that
/// leads. Its dialogs are the earlier ones, and its session and its open offer are kept or given up. The same holds
/// for the call that is put in its place.
pub fn signal_steps_are_lines()
    ensures step { (c : ServerCall) (n : Standing) (input : Input) (signal : Signal) (pool : Contents) (now : ℕ) → c.standing ≡ Some n →
        IsSignalOf c input signal → IsSignalStep c n signal (call_row c input pool now) }
    ensures put { (w : ComingValue) (said : StepMessages) (c : StandingCall) (n : Standing) (input : Input) (signal : Signal) (pool : Contents) (now : ℕ) →
        c.call.standing ≡ Some n → IsSignalOf c.call input signal → FitsComing c w.leg → w.taken ≡ None →
        GoesOnAt c (put_as w said (call_row c.call input pool now).call c) (next_in n (row_of n signal)) }
{}

/// Where what a call's line says moves the calls of the trace as that line does, the trace's calls after the move show
/// the server's calls after the step: the call goes on, is hidden, has no offer any more, was left by one end, or is
/// gone, in both; and the others are as they were.
pub fn lines_go_on()
    ensures { (slots : List (Option Transaction)) (begun more : List Transaction) (t : List Datagram) (cs : List StandingCall) (old : List Call) (place : ℕ)
        (c : StandingCall) (n : Standing) → c.call.standing ≡ Some n → slice_get cs place ≡ Some c → (spot : HasSpot slots begun t cs old place c) →
        HasAsked begun c → IsStaged c.call → (new : StandingCall) (next : Option Standing) → GoesOnAt c new next →
        ((m : Standing) → next ≡ Some m → IsStaged new.call) → (s : Office) (k : ℕ)
        (taken : Option Message) (sent : List Message) → Stands offering old k t → KnowsNumbers s (begun ++ more) →
        All (KeepsAsked slots s.table.slots) s.calls.calls → s.calls.calls ≡ calls_after cs place new next →
        LineMove t old spot.place_there spot.call taken sent n next →
        GoOn (ShowsCall s.table.slots (begun ++ more) (t ++ passed k taken sent)) s.calls.calls t old taken sent }
{
    moves_keep();
}

/// Resending a call's own 200 moves no call, where no INVITE or UPDATE was taken: it was sent before.
pub fn answers_go_again()
    ensures { (s : Office) (begun : List Transaction) (sent : List Sent) (t : List Datagram) (taken : Option Message) → KnowsTrace s begun sent t →
        KnowsSent s sent → NoneAsked offering taken → (e : Setting) (w : ComingValue) (place : ℕ) (c : StandingCall) (description : Option Description) (x : End) →
        slice_get s.calls.calls place ≡ Some c → SaysNone t taken (scene_at s e w c description) (AnswerAgain x) }
{
    bytes_say_all();
    written_is_read();
}

/// Where a call that the trace lists takes a signal that is neither an offer nor a fit answer, with what comes with
/// it in the scene of its step, and the trace hears what the line of the signal says, after what moves no call: that
/// is a move, and the trace's calls after it show the server's.
pub fn signals_go_on()
    ensures { (slots : List (Option Transaction)) (begun more : List Transaction) (t : List Datagram) (cs : List StandingCall) (old : List Call) (place : ℕ)
        (c : StandingCall) (n : Standing) → c.call.standing ≡ Some n → slice_get cs place ≡ Some c → (spot : HasSpot slots begun t cs old place c) →
        HasAsked begun c → IsStaged c.call → (new : StandingCall) (signal : Signal) → GoesOnAt c new (next_in n (row_of n signal)) →
        ((m : Standing) → next_in n (row_of n signal) ≡ Some m → IsStaged new.call) →
        (s : Office) (k : ℕ) (taken : Option Message) (before ms : List Message) (scene : Scene) (tokens : ℕ) → Stands offering old k t →
        KnowsNumbers s (begun ++ more) → All (KeepsAsked slots s.table.slots) s.calls.calls →
        s.calls.calls ≡ calls_after cs place new (next_in n (row_of n signal)) → AllOf (IsIdle offering t taken) before →
        (is_bye_signal signal ≡ true → before ≡ []) → SaysNone t taken scene (AnswerAgain n.offerer) → TakesSignal n scene spot.call taken signal →
        HearsActions scene tokens (actions_in (row_of n signal)) ms →
        GoOn (ShowsCall s.table.slots (begun ++ more) (t ++ passed k taken (before ++ ms))) s.calls.calls t old taken (before ++ ms) }
{
    moves_keep();
    lines_are_moves();
}
