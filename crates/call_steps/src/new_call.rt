//! A call begins.

ghost use Rattle.std.specs.Prelude.{◌≡◌, ◌≢◌, ◌<◌, ◌≤◌, ◌+◌, ◌^◌, ℕ, false, IfErr, IfOk, OnOk, None, Some, length};
ghost use Rattle.std.specs.Option.{option_copied};
ghost use Rattle.sip_message.specs.Contact.{contacts_of};
ghost use Rattle.port_pool.specs.Pool.{Contents, is_port_of};
ghost use Rattle.offer_answer.specs.Direct.{hold_address};
ghost use Rattle.dialogs.specs.Making.{callees_dialog, reached_at};
ghost use Rattle.call_media.specs.declared.end.End.TheVariants.{Caller};
ghost use Rattle.call_core.specs.Calls.{IsServed, new_call, new_media};
ghost use Rattle.call_core.specs.Plans.{carried, description_sent};
ghost use Rattle.call_core.specs.Refusals.{MayPass, RefusesFirst};
ghost use Rattle.calls.specs.Changes.{FitsChange, entered};
ghost use Rattle.calls.specs.declared.change.CallChange.TheVariants.{Begins};
ghost use Rattle.calls.specs.State.{Standing, standing};
ghost use Rattle.call_messages.specs.Messages.{new_leg};
ghost use Rattle.call_steps.specs.Effects.{effect, no_effect};
ghost use Rattle.call_steps.specs.Messages.{messages, with_made};
ghost use Rattle.call_steps.specs.declared.occasion.Occasion.{Occasion};
ghost use Rattle.call_steps.specs.Rows.{begun, first_row};
ghost use Rattle.call_steps.specs.Scenes.{first_scene, fresh};
ghost use Rattle.call_steps.specs.Values.{asker_value, scene_value};

use crate::call_step::CallStep;
use crate::messages::{StepMessages, messages};
use crate::occasion::Occasion;
use boxed::Boxed;
use call_core::{Call, CallRefusal, End, Plan};
use call_media::CallMedia;
use call_messages::{Asker, Dressed, Scene, new_leg};
use calls::{CallChange, Calls, OfferRequest, StandingCall};
use dialogs::{Dialog, contact_uri};
use sdp::Description;
use sip_message::Request;
use sip_uri::{Addr, Uri};
use std::alloc::{AllocError, Global};

/// The request that offers, which is answered with this tag.
fn first_asker<'m, 'a>(
    request: &'m Request<'a>,
    id: usize,
    source: Addr,
    tag: &'m [u8],
) -> Asker<'m, 'a>
    ensures { asker_value result ≡ record { id = id; parts = request.now.parts; source = source; tag = tag.now } }
{
    Asker {
        id,
        parts: &request.parts,
        source,
        tag,
    }
}

/// The new leg to the callee, with this From tag.
fn first_leg(
    alloc: Global,
    occasion: Occasion,
    request: &Request<'_>,
    target: &Uri<'_>,
    callee_tag: &[u8],
) -> Result<Dialog, AllocError>
    requires few { occasion.tokens ≤ 2 ^ 63 }
    ensures { IfOk result (λ leg. leg ≡ new_leg occasion.server request.now.parts target.now (fresh occasion 2) callee_tag.now) }
{
    let token = occasion.fresh(alloc, 2)?;
    new_leg(
        alloc,
        occasion.server,
        &request.parts,
        target,
        token.as_bytes(),
        callee_tag,
    )
}

/// What the messages of a first offer are dressed with, whose callee has this leg.
fn first_scene<'m, 'a>(
    occasion: Occasion,
    asker: Asker<'m, 'a>,
    leg: &'m Dialog,
    hops: u8,
    description: Option<&'m Description<'a>>,
) -> Scene<'m, 'a>
    requires few { occasion.tokens ≤ 2 ^ 63 }
    ensures scene { scene_value result ≡ first_scene occasion (asker_value asker.entry) hops leg.now (option_copied description.entry) }
    ensures tokens { result.tokens ≡ occasion.tokens + 3 }
{
    Scene {
        server: occasion.server,
        salt: occasion.salt,
        tokens: occasion.tokens + 3,
        offer: Some(asker),
        request: None,
        caller: None,
        callee: Some(leg),
        passed: None,
        description,
        again: None,
        hops,
    }
}

/// The messages of what was planned for a first offer.
fn first_messages<'m, 'a>(
    alloc: Global,
    occasion: Occasion,
    asker: Asker<'m, 'a>,
    leg: &'m Dialog,
    hops: u8,
    plan: &'m Plan,
) -> Result<StepMessages, AllocError>
    requires few { occasion.tokens ≤ 2 ^ 63 }
    ensures messages { IfOk result (λ m. m ≡ messages (first_scene occasion (asker_value asker.entry) hops leg.now (description_sent plan.now.media)) None plan.now.actions) }
    ensures few { IfOk result (λ m. m.dressed.made ≤ length plan.now.actions) }
{
    let scene = first_scene(occasion, asker, leg, hops, plan.media.description());
    messages(alloc, &scene, None, plan.actions.as_slice())
}

/// This many tokens were made before these messages.
fn with_made(before: u64, dressed: Dressed) -> Dressed
    requires { before + dressed.made < 2 ^ 64 }
    ensures { result ≡ with_made before dressed }
{
    let Dressed {
        changes,
        sends,
        made,
    } = dressed;
    Dressed {
        changes,
        sends,
        made: before + made,
    }
}

/// This call begins, with these messages after three tokens.
fn step_of(call: Boxed<StandingCall>, plan: Boxed<Plan>, said: StepMessages) -> CallStep
    requires few { 3 + said.dressed.made < 2 ^ 63 }
    ensures row { (calls : Standing) (occasion : Occasion) → effect calls occasion.now result ≡ begun calls occasion call (carried call.call calls.pool occasion.now plan) said }
    ensures change { result.change ≡ Begins call plan }
    ensures made { result.dressed.made ≡ 3 + said.dressed.made }
{
    let StepMessages {
        dressed,
        answer,
        ack,
    } = said;
    drop(answer);
    let note = call.get().call.note(plan.get());
    CallStep {
        change: CallChange::Begins(call, plan),
        dressed: with_made(3, dressed),
        ack,
        note,
    }
}

/// The call of a request, whose Contact is this, before its first offer; the server answers it with this tag.
fn call_of(
    alloc: Global,
    number: u64,
    occasion: Occasion,
    request: &Request<'_>,
    tag: &[u8],
    contact: Uri<'static>,
) -> Result<Call, AllocError>
    requires somewhere { occasion.range.ip ≢ hold_address }
    requires contact { reached_at (contacts_of request.now.headers) ≡ Some contact }
    ensures contact { IfOk result (λ call. reached_at (contacts_of request.now.headers) ≡ Some call.caller.target) }
    ensures call { IfOk result (λ call. call ≡ new_call number occasion.range (callees_dialog request.now tag.now call.caller.target)) }
    ensures serves { (pool : Contents) → ((port : ℕ) → is_port_of pool number port ≡ false) → IfOk result (λ call. IsServed call pool) }
    ensures nowhere { IfOk result (λ call. call.standing ≡ None) }
    ensures media { IfOk result (λ call. call.media ≡ new_media number occasion.range) }
{
    let caller = Dialog::as_callee(alloc, request, tag, contact)?;
    Ok(Call::new(number, occasion.range, caller))
}

/// A call begins, whose caller names this Contact.
#[tactic(auto, using(crate::proofs::StepLaws::begins_as_planned))]
fn begins(
    alloc: Global,
    calls: &Calls,
    occasion: Occasion,
    request: &Request<'_>,
    id: usize,
    source: Addr,
    target: &Uri<'_>,
    offer: &Description<'_>,
    contact: Uri<'static>,
) -> Result<CallStep, CallRefusal>
    requires few { occasion.tokens ≤ 2 ^ 63 }
    requires begun { calls.now.begun + 1 < 2 ^ 64 }
    requires somewhere { occasion.range.ip ≢ hold_address }
    requires contact { reached_at (contacts_of request.now.headers) ≡ Some contact }
    ensures row { IfOk result (λ step. effect (standing calls.now) occasion.now step
        ≡ first_row (standing calls.now) occasion request.now id source target.now offer.now) }
    ensures fits { IfOk result (λ step. FitsChange (standing calls.now) occasion.now step.change) }
    ensures few { IfOk result (λ step. step.dressed.made < 2 ^ 63) }
    ensures begun { IfOk result (λ step. (entered (standing calls.now) occasion.now step.change).standing.begun ≤ calls.now.begun + step.dressed.made) }
    ensures may { OnOk result (MayPass (new_media (calls.now.begun + 1) occasion.range) calls.now.pool Caller offer.now occasion.now) }
    ensures refused { IfErr result (RefusesFirst (new_media (calls.now.begun + 1) occasion.range) calls.now.pool Caller (Some offer.now) occasion.now) }
{
    let tag = occasion.fresh(alloc, 1)?;
    let callee_tag = occasion.fresh(alloc, 3)?;
    let call = call_of(
        alloc,
        calls.begun() + 1,
        occasion,
        request,
        tag.as_bytes(),
        contact,
    )?;
    let plan = call.plan_ask(alloc, offer, calls.pool(), occasion.now)?;
    let leg = first_leg(alloc, occasion, request, target, callee_tag.as_bytes())?;
    let asker = first_asker(&*request, id, source, tag.as_bytes());
    let said = first_messages(alloc, occasion, asker, &leg, request.max_forwards, &plan)?;
    let asked = OfferRequest {
        id,
        source,
        number: request.parts.cseq.number,
    };
    let call = StandingCall {
        call,
        callee_tag,
        asked,
        target: None,
        answer: None,
    };
    let boxed = Boxed::new(alloc, call)?;
    let kept = Boxed::new(alloc, plan)?;
    Ok(step_of(boxed, kept, said))
}

/// No call begins; an offer that would be refused is refused here too.
fn begins_none(
    alloc: Global,
    calls: &Calls,
    occasion: Occasion,
    offer: &Description<'_>,
) -> Result<CallStep, CallRefusal>
    requires begun { calls.now.begun + 1 < 2 ^ 64 }
    requires somewhere { occasion.range.ip ≢ hold_address }
    ensures row { IfOk result (λ step. effect (standing calls.now) occasion.now step ≡ no_effect (standing calls.now)) }
    ensures fits { IfOk result (λ step. FitsChange (standing calls.now) occasion.now step.change) }
    ensures made { IfOk result (λ step. step.dressed.made ≡ 0) }
    ensures begun { IfOk result (λ step. (entered (standing calls.now) occasion.now step.change).standing.begun ≡ calls.now.begun) }
    ensures may { OnOk result (MayPass (new_media (calls.now.begun + 1) occasion.range) calls.now.pool Caller offer.now occasion.now) }
    ensures refused { IfErr result (RefusesFirst (new_media (calls.now.begun + 1) occasion.range) calls.now.pool Caller (Some offer.now) occasion.now) }
{
    let media = CallMedia::new(calls.begun() + 1, occasion.range);
    let planned = media.plan_offer(alloc, calls.pool(), End::Caller, offer, occasion.now);
    drop(media);
    drop(planned?);
    Ok(CallStep::nothing(alloc))
}

/// What a first INVITE results in, whose transaction has this number, which came from this source, and whose callee
/// is bound at this target: a call with the next number begins. It has two new legs; the offer is passed on to the
/// callee, and 100 goes to the caller (RFC 3261 section 16). The tags of the two legs, the Call-ID and the branch are
/// tokens. K3 is the first refusal, K4 comes after it, and otherwise memory is missing. Nothing changes.
#[tactic(auto, using(crate::proofs::StepLaws::begins_nothing))]
pub fn first_call(
    alloc: Global,
    calls: &Calls,
    occasion: Occasion,
    request: &Request<'_>,
    id: usize,
    source: Addr,
    target: &Uri<'_>,
    offer: &Description<'_>,
) -> Result<CallStep, CallRefusal>
    requires few { occasion.tokens ≤ 2 ^ 63 }
    requires begun { calls.now.begun + 1 < 2 ^ 64 }
    requires somewhere { occasion.range.ip ≢ hold_address }
    ensures row { IfOk result (λ step. effect (standing calls.now) occasion.now step
        ≡ first_row (standing calls.now) occasion request.now id source target.now offer.now) }
    ensures fits { IfOk result (λ step. FitsChange (standing calls.now) occasion.now step.change) }
    ensures few { IfOk result (λ step. step.dressed.made < 2 ^ 63) }
    // A call that begins makes tokens.
    ensures begun { IfOk result (λ step. (entered (standing calls.now) occasion.now step.change).standing.begun ≤ calls.now.begun + step.dressed.made) }
    ensures may { OnOk result (MayPass (new_media (calls.now.begun + 1) occasion.range) calls.now.pool Caller offer.now occasion.now) }
    ensures refused { IfErr result (RefusesFirst (new_media (calls.now.begun + 1) occasion.range) calls.now.pool Caller (Some offer.now) occasion.now) }
{
    match contact_uri(alloc, request.headers.as_slice())? {
        None => begins_none(alloc, calls, occasion, offer),
        Some(contact) => begins(
            alloc, calls, occasion, request, id, source, target, offer, contact,
        ),
    }
}
