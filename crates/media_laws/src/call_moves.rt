//! How a call goes on.

ghost use Rattle.std.specs.Prelude.{◌≡◌, ℕ, List, None, Some};
ghost use Rattle.call_core.specs.CallRows.{call_row};
ghost use Rattle.call_core.specs.declared.call.Call.{Call};
ghost use Rattle.call_core.specs.declared.input.Input.{Input};
ghost use Rattle.call_steps.specs.Values.{ComingValue};
ghost use Rattle.call_steps.specs.declared.messages.StepMessages.{StepMessages};
ghost use Rattle.call_trace.specs.Moves.{tagged};
ghost use Rattle.call_trace.specs.declared.call.Call.{Call as TraceCall};
ghost use Rattle.call_trace.specs.declared.call.Offer.{Offer};
ghost use Rattle.calls.specs.declared.standing_call.StandingCall.{StandingCall};
ghost use Rattle.calls.specs.declared.standing_call.TakenOffer.{TakenOffer};
ghost use Rattle.port_pool.specs.Pool as pools;
ghost use Rattle.media_laws.specs.Coming.{FitsComing, first_dialog};
ghost use Rattle.media_laws.specs.Going.{KeepsDialogs, StandsBy, put_as};
ghost use Rattle.sip_message.specs.declared.message.Message.TheVariants as Kinds;
ghost use Rattle.sip_message.specs.declared.message.Parts.{Parts};
ghost use Rattle.sip_message.specs.declared.message.Response.{Response};
ghost use Rattle.sip_uri.specs.declared.uri.Uri.{Uri};
ghost use Rattle.media_laws.specs.Shows.{ShowsLegs};
ghost use Rattle.trace_reading.specs.Message.{trace_message};
ghost use Rattle.message_laws.specs.Messages.{IsRequestOf};

/// The call that is put in place of one that did a step has its dialogs, where what comes with the event is one of
/// them, so that the trace goes on to show its legs. Where that is the dialog that the first 2xx makes, the callee's
/// leg gets the response's tag. Where it still has a stage, its session and its open offer are those of the step, and
/// its last offer is the one that was taken last.
pub fn calls_go_on()
    ensures dialogs { (w : ComingValue) (said : StepMessages) (c : StandingCall) (input : Input) (pool : pools.Contents) (now : ℕ) → FitsComing c w.leg →
        KeepsDialogs c (put_as w said (call_row c.call input pool now).call c) }
    ensures legs { (w : ComingValue) (said : StepMessages) (c : StandingCall) (input : Input) (pool : pools.Contents) (now : ℕ) (d : TraceCall) →
        FitsComing c w.leg → ShowsLegs c d → ShowsLegs (put_as w said (call_row c.call input pool now).call c) d }
    ensures first { (w : ComingValue) (said : StepMessages) (c : StandingCall) (input : Input) (pool : pools.Contents) (now : ℕ) (d new : TraceCall) (p : Offer)
        (asked : Parts) (bytes : List ℕ) (r : Response) (target : Uri) → ShowsLegs c d → w.leg ≡ Some (first_dialog asked r target) → IsRequestOf asked p.went →
        p.went.call_id ≡ d.callee.call_id → p.went.from_tag ≡ d.callee.ours → new.caller ≡ d.caller →
        new.callee ≡ tagged d.callee (trace_message bytes (Kinds.Response r)).to_tag → ShowsLegs (put_as w said (call_row c.call input pool now).call c) new }
    ensures stands { (w : ComingValue) (said : StepMessages) (call : Call) (c : StandingCall) → StandsBy call (put_as w said call c) }
    ensures asked { (w : ComingValue) (said : StepMessages) (call : Call) (c : StandingCall) → w.taken ≡ None → (put_as w said call c).asked ≡ c.asked }
    ensures taken { (w : ComingValue) (said : StepMessages) (call : Call) (c : StandingCall) (o : TakenOffer) → w.taken ≡ Some o →
        (put_as w said call c).asked ≡ o.asked }
{}
