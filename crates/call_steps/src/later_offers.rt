//! An offer inside a call.

ghost use Rattle.std.specs.Prelude.{◌≡◌, ◌<◌, ◌≤◌, ◌^◌, ℕ, IfErr, IfOk, OnOk, List, Some, slice_get};
ghost use Rattle.timers.specs.declared.timers.Timer.{Timer};
ghost use Rattle.calls.specs.declared.timer_id.CallTimerId.{CallTimerId};
ghost use Rattle.calls.specs.Changes.{FitsChange, entered};
ghost use Rattle.calls.specs.State.{standing};
ghost use Rattle.calls.specs.declared.standing_call.StandingCall.{StandingCall};
ghost use Rattle.call_steps.specs.Effects.{effect, with_timers};
ghost use Rattle.call_core.specs.Calls.{IsServed};
ghost use Rattle.call_core.specs.Refusals.{MayTakeIn, RefusesInput};
ghost use Rattle.call_steps.specs.Rows.{counts, offer_coming, offers_row, taken_offer};
ghost use Rattle.call_steps.specs.Values.{coming_value};

use crate::arrival::{Coming, ReceivedRequest};
use crate::call_step::CallStep;
use crate::inputs::takes_at;
use crate::numbers::counts_in_call;
use crate::occasion::Occasion;
use crate::scene::tag_with;
use call_core::{CallRefusal, End, Input};
use call_messages::Asker;
use calls::{Calls, OfferRequest, StandingCall, TakenOffer};
use dialogs::contact_uri;
use std::alloc::{AllocError, Global};
use transactions::Table;

/// The offer of this request, with the place where its sender says that it is reached.
fn taken_offer(alloc: Global, received: ReceivedRequest<'_, '_>) -> Result<TakenOffer, AllocError>
    ensures { IfOk result (λ offer. offer ≡ taken_offer received.entry.request.now received.entry.id received.entry.source) }
{
    let ReceivedRequest {
        request,
        id,
        source,
    } = received;
    let target = contact_uri(alloc, request.headers.as_slice())?;
    let asked = OfferRequest {
        id,
        source,
        number: request.parts.cseq.number,
    };
    Ok(TakenOffer { asked, target })
}

/// What reaches this call with an offer of this end: its dialog counts the number of the request.
fn offer_coming<'m, 'a>(
    alloc: Global,
    end: End,
    received: ReceivedRequest<'m, 'a>,
    call: &'m StandingCall,
) -> Result<Coming<'m, 'a>, AllocError>
    ensures { (calls : List StandingCall) (place : ℕ) → slice_get calls place ≡ Some call.now →
        IfOk result (λ w. coming_value w ≡ offer_coming (counts calls place end received.entry.request.now.parts.cseq.number) end received.entry.request.now received.entry.id received.entry.source call.now) }
{
    let taken = taken_offer(alloc, received)?;
    let ReceivedRequest {
        request,
        id,
        source,
    } = received;
    let leg = counts_in_call(alloc, call, end, request.parts.cseq.number)?;
    let asker = Asker {
        id,
        parts: &request.parts,
        source,
        tag: tag_with(&call.call, end).as_bytes(),
    };
    Ok(Coming {
        leg,
        offer: Some(asker),
        request: None,
        hops: request.max_forwards,
        taken: Some(taken),
    })
}

/// The pool serves a live call: what `Calls` says about the call at a place. Nothing runs.
fn is_served(calls: &Calls, place: usize, call: &StandingCall)
    requires { slice_get calls.now.calls place ≡ Some call.now }
    ensures { IsServed call.now.call calls.now.pool }
{
    prove!(calls.get(place).is_some());
}

/// What this call, which is at this place, does for an offer of this end, which came in this request: it is passed on
/// with one hop less, and the dialog with its sender counts its number (RFC 3261 section 14.2, RFC 3311 section 5.2).
/// K2 and K1 are the first refusals, then K3, K4 and K5. Nothing changes.
#[tactic(auto, using(crate::proofs::StepLaws::offers_there))]
pub fn offers(
    alloc: Global,
    calls: &Calls,
    table: &Table,
    occasion: Occasion,
    place: usize,
    input: &Input<'_>,
    end: End,
    received: ReceivedRequest<'_, '_>,
    call: &StandingCall,
) -> Result<CallStep, CallRefusal>
    requires few { occasion.tokens ≤ 2 ^ 63 }
    requires there { slice_get calls.now.calls place ≡ Some call.now }
    // Whatever timers the calls have.
    ensures row { (timers : List (Timer CallTimerId)) → IfOk result (λ step. effect (with_timers timers (standing calls.now)) occasion.now step
        ≡ offers_row (with_timers timers (standing calls.now)) table.now occasion place input.now end received.entry.request.now received.entry.id received.entry.source) }
    ensures fits { (timers : List (Timer CallTimerId)) → IfOk result (λ step. FitsChange (with_timers timers (standing calls.now)) occasion.now step.change) }
    ensures few { IfOk result (λ step. step.dressed.made < 2 ^ 63) }
    // No call begins.
    ensures begun { (timers : List (Timer CallTimerId)) → IfOk result (λ step. (entered (with_timers timers (standing calls.now)) occasion.now step.change).standing.begun ≡ calls.now.begun) }
    // What is passed on meets no refusal.
    ensures may { OnOk result (MayTakeIn call.now.call call.now.call.standing calls.now.pool input.now occasion.now) }
    ensures refused { IfErr result (RefusesInput call.now.call calls.now.pool input.now occasion.now) }
{
    is_served(calls, place, call);
    match offer_coming(alloc, end, received, call) {
        Ok(coming) => takes_at(alloc, calls, table, occasion, place, input, coming, call),
        Err(_) => Err(CallRefusal::OutOfMemory),
    }
}
