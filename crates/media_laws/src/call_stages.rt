//! The stages and the legs of a call that a trace lists.

ghost use Rattle.std.specs.Prelude.{◌≡◌, ◌≢◌, ℕ, List, Option, Some};
ghost use Rattle.call_core.specs.declared.signal.Signal.{Signal};
ghost use Rattle.call_core.specs.declared.signal.Signal.TheVariants.{UnfitAnswer};
ghost use Rattle.call_core.specs.declared.stage.Standing.{Standing};
ghost use Rattle.call_steps.specs.Values.{ComingValue};
ghost use Rattle.call_trace.specs.declared.call.Call.{Call};
ghost use Rattle.call_trace.specs.declared.datagram.Datagram.{Datagram};
ghost use Rattle.calls.specs.declared.standing_call.StandingCall.{StandingCall};
ghost use Rattle.plans.specs.Office.{Office};
ghost use Rattle.plans.specs.declared.setting.Setting.{Setting};
ghost use Rattle.media_laws.specs.Coming.{FitsComing, scene_at};
ghost use Rattle.sdp.specs.declared.description.Description.{Description};
ghost use Rattle.media_laws.specs.Taking.{IsShownAt, KnowsLegs};
ghost use Rattle.media_laws.specs.Lines.{HasLegs, IsAt};
ghost use Rattle.media_laws.specs.Shows.{ShowsCall};
ghost use Rattle.transactions.specs.declared.transaction.Transaction.{Transaction};

/// Where a current call is listed by the trace, the trace's call is as a line of that stage asks. Where the dialog
/// that comes with an event, if one comes, is one of the call's, its scene has the legs that the line asks for.
pub fn listed_calls_stand()
    ensures at { (slots : List (Option Transaction)) (begun : List Transaction) (t : List Datagram) (c : StandingCall) (n : Standing) (d : Call) →
        c.call.standing ≡ Some n → ShowsCall slots begun t c d → IsAt n.offerer n.stage d }
    ensures legs { (s : Office) (e : Setting) (w : ComingValue) (place : ℕ) (c : StandingCall) (description : Option Description) (begun : List Transaction)
        (t : List Datagram) (n : Standing) (d : Call) (signal : Signal) → KnowsLegs s → IsShownAt s begun t place c n d → FitsComing c w.leg →
        signal ≢ UnfitAnswer → HasLegs n.stage (scene_at s e w c description) d signal }
{}
