//! The lines of a call's table, but those of an offer and of a fit answer.

ghost use Rattle.std.specs.Prelude.{◌≡◌, ◌++◌, ◌∷◌, [], ℕ, Bool, true, List, None, Option, Some, slice_get};
ghost use Rattle.call_core.specs.Cancelling.{cancelling_row};
ghost use Rattle.call_core.specs.Table.{row_of};
ghost use Rattle.call_core.specs.declared.action.Action.{Action};
ghost use Rattle.call_core.specs.declared.action.Action.TheVariants.{Ack, AnswerAgain, Bye};
ghost use Rattle.call_core.specs.declared.signal.Signal.{Signal};
ghost use Rattle.call_core.specs.declared.signal.Signal.TheVariants as signals;
ghost use Rattle.call_core.specs.declared.stage.Stage.{Stage};
ghost use Rattle.call_core.specs.declared.stage.Stage.TheVariants as stages;
ghost use Rattle.call_core.specs.declared.stage.Standing.{Standing};
ghost use Rattle.call_media.specs.declared.end.End.{End};
ghost use Rattle.call_trace.specs.Events.{IsIdle, IsIdleTaken, IsPartingTaken};
ghost use Rattle.call_trace.specs.Listed.{AllOf};
ghost use Rattle.call_trace.specs.Messages.{offering};
ghost use Rattle.call_trace.specs.Stands.{AllApart, HasTags};
ghost use Rattle.call_trace.specs.declared.call.Call.{Call};
ghost use Rattle.call_trace.specs.declared.datagram.Datagram.{Datagram};
ghost use Rattle.call_trace.specs.declared.datagram.Dialog.{Dialog};
ghost use Rattle.call_trace.specs.declared.datagram.Message.{Message};
ghost use Rattle.call_messages.specs.declared.scene.Scene.{Scene};
ghost use Rattle.media_laws.specs.Heard.{HearsActions};
ghost use Rattle.media_laws.specs.Inputs.{IsAwaitedBy, Took, is_bye_signal};
ghost use Rattle.media_laws.specs.Lines.{HasLegs, HiddenMove, IsAt, IsTagOfNone, LineMove, SaysNone, actions_in, next_in, standing};
ghost use Rattle.media_laws.specs.Scenes.{LegIn};

/// What a call does for a signal that is neither an offer nor a fit answer is a move of the trace's calls, where the
/// trace lists the call as its stage asks, its legs are there, and what was taken is what the signal means. No call
/// moves; or the call goes, or is no longer listed; or its open offer is gone; or one end has left it. After the
/// messages that move none, a trace hears just the actions of the line.
pub fn lines_are_moves()
    ensures line { (t : List Datagram) (ds : List Call) (k : ℕ) (d : Call) → AllApart ds → slice_get ds k ≡ Some d → HasTags d →
        (taken : Option Message) (before : List Message) → AllOf (IsIdle offering t taken) before → (s : Scene) (tokens : ℕ) (x : End) (stage : Stage) (signal : Signal) →
        (is_bye_signal signal ≡ true → before ≡ []) → SaysNone t taken s (AnswerAgain x) → HasLegs stage s d signal → IsAt x stage d → IsAwaitedBy stage signal →
        Took taken s d signal → (ms : List Message) → HearsActions s tokens (actions_in (row_of (standing x stage) signal)) ms →
        LineMove t ds k d taken (before ++ ms) (standing x stage) (next_in (standing x stage) (row_of (standing x stage) signal)) }
{}

/// A call whose first INVITE was given up moves none of the trace's calls: while it rings, once its final response has
/// come or time has run out, and where a 2xx comes after all, whose dialog is of none of them.
pub fn hidden_lines_move_none()
    ensures rings { (t : List Datagram) (ds : List Call) (taken : Option Message) (before : List Message) → AllOf (IsIdle offering t taken) before →
        (s : Scene) (tokens : ℕ) (sent : Bool) (x : End) (status : ℕ) → IsIdleTaken offering t taken →
        (ms : List Message) → HearsActions s tokens (actions_in (cancelling_row sent x (signals.Provisional status))) ms →
        HiddenMove t ds taken (before ++ ms) (next_in (standing x (stages.Cancelling sent)) (cancelling_row sent x (signals.Provisional status))) }
    ensures ends { (t : List Datagram) (ds : List Call) (taken : Option Message) (before : List Message) → AllOf (IsIdle offering t taken) before →
        (s : Scene) (tokens : ℕ) (n : Standing) (actions : List Action) → IsPartingTaken offering t taken ds → AllOf (SaysNone t taken s) actions →
        (ms : List Message) → HearsActions s tokens actions ms → HiddenMove t ds taken (before ++ ms) None }
    ensures accepted { (t : List Datagram) (ds : List Call) (taken : Option Message) (before : List Message) → AllOf (IsIdle offering t taken) before →
        (s : Scene) (tokens : ℕ) (n : Standing) (y : End) (callee : Dialog) → IsPartingTaken offering t taken ds → LegIn s y callee → IsTagOfNone ds callee.ours →
        (ms : List Message) → HearsActions s tokens (Ack y ∷ Bye y ∷ []) ms → HiddenMove t ds taken (before ++ ms) None }
{}
