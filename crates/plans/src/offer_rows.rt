//! What an offer inside a call, and an UPDATE without one, result in. Each makes values and changes nothing.

ghost use Rattle.std.specs.Prelude.{◌≡◌, ◌<◌, ◌^◌, ◌∷◌, [], IfErr, IfOk, List, None, OnOk, Some, slice_get};
ghost use Rattle.timers.specs.declared.timers.Timer.{Timer};
ghost use Rattle.calls.specs.declared.timer_id.CallTimerId.{CallTimerId};
ghost use Rattle.call_rules.specs.Content.{described};
ghost use Rattle.call_rules.specs.Offers.{offer_rule};
ghost use Rattle.call_rules.specs.declared.offers.OfferRule.TheVariants.{Passes};
ghost use Rattle.call_steps.specs.Effects as steps;
ghost use Rattle.call_steps.specs.Effects.{with_timers};
ghost use Rattle.call_core.specs.Refusals.{MayTakeIn, RefusesInput};
ghost use Rattle.call_steps.specs.Rows.{offers_row};
ghost use Rattle.plans.specs.CallRows.{occasion, offer_method, offers, okay_plan, passes_if, passes_in, reason_of_clash, reason_of_content, reason_of_refusal, reason_of_rule, refreshes_at, refreshes_by, refuses};
ghost use Rattle.plans.specs.Effect.{CanEnter, Fits, effect};

use crate::effects_of_events::{Before, Doing};
use crate::office::Office;
use crate::plan::Plan;
use crate::reason::Reason;
use crate::setting::Setting;
use call_core::{CallRefusal, Clash, End, Input, OfferMethod};
use call_messages::contact_header;
use call_rules::{ContentRule, OfferRule, offer_rule, plain_rule, taken_description};
use call_steps::{CallStep, ReceivedRequest, refreshes};
use calls::StandingCall;
use responses::is_method;
use sdp::Description;
use sip_message::Request;
use std::alloc::AllocError;
use transactions::Change;

fn reason_of_clash(clash: Clash) -> Reason
    ensures { result ≡ reason_of_clash clash }
{
    match clash {
        Clash::SecondOffer => Reason::SecondOffer,
        Clash::Glare => Reason::Glare,
    }
}

/// Why a body is not taken.
pub fn reason_of_content(rule: ContentRule) -> Reason
    ensures { result ≡ reason_of_content rule }
{
    match rule {
        ContentRule::Type => Reason::BodyType,
        ContentRule::Encoding => Reason::BodyEncoding,
    }
}

/// None where the call takes it.
fn reason_of_rule(rule: OfferRule) -> Option<Reason>
    ensures { result ≡ reason_of_rule rule }
{
    match rule {
        OfferRule::NoDialog => Some(Reason::NoDialog),
        OfferRule::Crosses(clash) => Some(reason_of_clash(clash)),
        OfferRule::NoHops => Some(Reason::NoHops),
        OfferRule::Unreached => Some(Reason::Unreached),
        OfferRule::Content(rule) => Some(reason_of_content(rule)),
        OfferRule::Passes => None,
    }
}

fn offer_method(request: &Request<'_>) -> OfferMethod
    ensures { result ≡ offer_method request.now }
{
    if is_method(b"INVITE", request) {
        OfferMethod::Invite
    } else {
        OfferMethod::Update
    }
}

/// None where memory ran out.
fn reason_of_refusal(refusal: CallRefusal) -> Option<Reason>
    ensures { result ≡ reason_of_refusal refusal }
{
    match refusal {
        CallRefusal::OutOfMemory => None,
        CallRefusal::Crosses(clash) => Some(reason_of_clash(clash)),
        CallRefusal::Undescribed => Some(Reason::Undescribed),
        CallRefusal::Unfit(_) => Some(Reason::UnfitOffer),
        CallRefusal::NoPorts => Some(Reason::NoPorts),
        CallRefusal::NumberAtItsEnd => Some(Reason::NumberAtItsEnd),
    }
}

impl<'o> Office<'o> {
    /// The server itself refuses it, and the dialog counts the number of the request.
    fn refuses_in(
        &self,
        setting: Setting,
        request: &Request<'_>,
        begun: Vec<Change>,
        id: usize,
        place: usize,
        end: End,
        call: &StandingCall,
        reason: Reason,
    ) -> Result<Doing, AllocError>
        requires moment { setting.now < 2 ^ 60 }
        requires there { slice_get self.now.calls.calls place ≡ Some call.now }
        ensures row { IfOk result (λ d. effect self.now.calls self.now.acks setting.now d ≡ refuses self.now setting request.now begun.items id place end reason) }
        ensures fits { IfOk result (Fits self.now.calls setting.now) }
    {
        let plan = self.refuses_for(setting, request, begun, id, reason)?;
        self.counts_its_number(request, place, end, call, plan)
    }

    // ---- an offer

    /// What this call, which is at this place, does for an offer, whatever timers the calls have.
    #[tactic(auto, using(crate::proofs::CallLaws::can_enter_offer))]
    fn offer_step(
        &self,
        setting: Setting,
        request: &Request<'_>,
        id: usize,
        place: usize,
        end: End,
        call: &StandingCall,
        input: &Input<'_>,
    ) -> Result<CallStep, CallRefusal>
        requires few { self.now.tokens < 2 ^ 63 }
        requires there { slice_get self.now.calls.calls place ≡ Some call.now }
        ensures row { (timers : List (Timer CallTimerId)) → IfOk result (λ step. steps.effect (with_timers timers self.now.calls) setting.now step
            ≡ offers_row (with_timers timers self.now.calls) self.now.table (occasion self.now setting) place input.now end request.now id setting.source) }
        ensures can { (timers : List (Timer CallTimerId)) → IfOk result (CanEnter (with_timers timers self.now.calls) setting.now) }
        ensures may { OnOk result (MayTakeIn call.now.call call.now.call.standing self.now.calls.pool input.now setting.now) }
        ensures refused { IfErr result (RefusesInput call.now.call self.now.calls.pool input.now setting.now) }
    {
        let o = self.occasion(setting);
        let source = setting.source;
        let received = ReceivedRequest {
            request,
            id,
            source,
        };
        match call_steps::offers(
            self.alloc, self.calls, self.table, o, place, input, end, received, call,
        ) {
            Ok(step) => Ok(step),
            Err(refusal) => Err(refusal),
        }
    }

    /// The call at this place passes the offer on, or it is refused.
    fn passes_if(
        &self,
        setting: Setting,
        request: &Request<'_>,
        begun: Vec<Change>,
        id: usize,
        place: usize,
        end: End,
        call: &StandingCall,
        offer: Description<'_>,
    ) -> Result<Doing, AllocError>
        requires few { self.now.tokens < 2 ^ 63 }
        requires moment { setting.now < 2 ^ 60 }
        requires there { slice_get self.now.calls.calls place ≡ Some call.now }
        requires free { offer_rule request.now end call.now.call ≡ Passes }
        ensures row { IfOk result (λ d. effect self.now.calls self.now.acks setting.now d ≡ passes_if self.now setting request.now begun.items id place end call.now.call offer.entry) }
        ensures fits { IfOk result (Fits self.now.calls setting.now) }
    {
        let input = Input::Offer(end, offer_method(request), Some(offer));
        let step = self.offer_step(setting, request, id, place, end, call, &input);
        drop(input);
        match step {
            Ok(step) => Doing::of_step(Before::alone(begun), step),
            Err(refusal) => match reason_of_refusal(refusal) {
                None => Err(AllocError),
                Some(reason) => self.refuses_in(
                    setting, request, begun, id, place, end, call, reason,
                ),
            },
        }
    }

    #[tactic(auto, using(crate::proofs::OfferLaws::taken))]
    fn passes_in(
        &self,
        setting: Setting,
        request: &Request<'_>,
        begun: Vec<Change>,
        id: usize,
        place: usize,
        end: End,
        call: &StandingCall,
    ) -> Result<Doing, AllocError>
        requires few { self.now.tokens < 2 ^ 63 }
        requires moment { setting.now < 2 ^ 60 }
        requires there { slice_get self.now.calls.calls place ≡ Some call.now }
        requires free { offer_rule request.now end call.now.call ≡ Passes }
        ensures row { IfOk result (λ d. effect self.now.calls self.now.acks setting.now d
            ≡ passes_in self.now setting request.now begun.items id place end call.now.call (described request.now.headers request.now.body)) }
        ensures fits { IfOk result (Fits self.now.calls setting.now) }
    {
        match taken_description(self.alloc, request.body.as_bytes())? {
            None => {
                let reason = Reason::Undescribed;
                self.refuses_in(setting, request, begun, id, place, end, call, reason)
            }
            Some(offer) => self.passes_if(setting, request, begun, id, place, end, call, offer),
        }
    }

    /// What an offer of this end inside this call, which is at this place, results in.
    #[tactic(auto, unfolding(crate::specs::CallRows::offers), using(crate::proofs::OfferLaws::only_passes))]
    pub(crate) fn offers(
        &self,
        setting: Setting,
        request: &Request<'_>,
        begun: Vec<Change>,
        id: usize,
        place: usize,
        end: End,
        call: &StandingCall,
    ) -> Result<Doing, AllocError>
        requires few { self.now.tokens < 2 ^ 63 }
        requires moment { setting.now < 2 ^ 60 }
        requires there { slice_get self.now.calls.calls place ≡ Some call.now }
        ensures row { IfOk result (λ d. effect self.now.calls self.now.acks setting.now d ≡ offers self.now setting request.now begun.items id place end call.now.call) }
        ensures fits { IfOk result (Fits self.now.calls setting.now) }
    {
        let rule = offer_rule(self.alloc, request, end, &call.call)?;
        match reason_of_rule(rule) {
            Some(reason) => self.refuses_in(setting, request, begun, id, place, end, call, reason),
            None => self.passes_in(setting, request, begun, id, place, end, call),
        }
    }

    // ---- an UPDATE without an offer

    fn okay_plan(
        &self,
        setting: Setting,
        request: &Request<'_>,
        begun: Vec<Change>,
        id: usize,
    ) -> Result<Plan, AllocError>
        ensures { IfOk result (λ p. p ≡ okay_plan self.now setting request.now begun.items id) }
    {
        let further = [contact_header(self.alloc, self.server)?];
        self.responds_in(setting, request, begun, id, 200, &further)
    }

    fn okays(
        &self,
        setting: Setting,
        request: &Request<'_>,
        begun: Vec<Change>,
        id: usize,
        place: usize,
        end: End,
        call: &StandingCall,
    ) -> Result<Doing, AllocError>
        requires there { slice_get self.now.calls.calls place ≡ Some call.now }
        ensures row { IfOk result (λ d. effect self.now.calls self.now.acks setting.now d ≡ refreshes_by self.now setting request.now begun.items id place end None) }
        ensures fits { IfOk result (Fits self.now.calls setting.now) }
    {
        let plan = self.okay_plan(setting, request, begun, id)?;
        let leg = refreshes(self.alloc, call, end, request)?;
        Ok(Doing::puts(plan, place, leg))
    }

    /// What an UPDATE without an offer, of this end of this call, which is at this place, results in.
    #[tactic(auto, unfolding(crate::specs::CallRows::refreshes_at))]
    pub(crate) fn refreshes_at(
        &self,
        setting: Setting,
        request: &Request<'_>,
        begun: Vec<Change>,
        id: usize,
        place: usize,
        end: End,
        call: &StandingCall,
    ) -> Result<Doing, AllocError>
        requires moment { setting.now < 2 ^ 60 }
        requires there { slice_get self.now.calls.calls place ≡ Some call.now }
        ensures row { IfOk result (λ d. effect self.now.calls self.now.acks setting.now d ≡ refreshes_at self.now setting request.now begun.items id place end call.now.call) }
        ensures fits { IfOk result (Fits self.now.calls setting.now) }
    {
        let rule = plain_rule(self.alloc, request, end, &call.call)?;
        match reason_of_rule(rule) {
            Some(reason) => self.refuses_in(setting, request, begun, id, place, end, call, reason),
            None => self.okays(setting, request, begun, id, place, end, call),
        }
    }
}
