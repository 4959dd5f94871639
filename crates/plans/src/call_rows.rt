//! What an event that concerns calls results in. Each makes values and changes nothing.

ghost use Rattle.std.specs.Prelude.{◌≡◌, ◌<◌, ◌^◌, ◌∷◌, [], ℕ, IfOk, List, None, Some, Option, option_map, slice_get};
ghost use Rattle.std.specs.Option.{option_copied};
ghost use Rattle.timers.specs.declared.timers.Timer.{Timer};
ghost use Rattle.calls.specs.declared.timer_id.CallTimerId.{CallTimerId};
ghost use Rattle.call_rules.specs.Content.{content_rule, described};
ghost use Rattle.call_steps.specs.Effects as steps;
ghost use Rattle.call_steps.specs.Effects.{with_timers};
ghost use Rattle.call_steps.specs.Rows.{takes_row};
ghost use Rattle.call_steps.specs.Values.{asker_value};
ghost use Rattle.plans.specs.CallRows.{are_full, asker, begins, call_row, counted, first_by, occasion, refuses_first, tag_at, takes, takes_request, unless_full};
ghost use Rattle.plans.specs.Effect.{CanEnter, Fits, effect};
ghost use Rattle.plans.specs.CallRule as rules;
ghost use Rattle.plans.specs.CallRule.{IsFor, call_rule};

use crate::effects_of_events::{Before, Doing};
use crate::office::Office;
use crate::plan::Plan;
use crate::reason::Reason;
use crate::rule::CallRule;
use crate::setting::Setting;
use call_core::{CallRefusal, End, Input};
use call_messages::Asker;
use call_rules::taken_description;
use call_steps::{CallStep, counts, counts_in_call, first_call, offerer_tag};
use calls::{LegDialog, StandingCall};
use responses::STATELESS;
use sdp::Description;
use sip_message::Request;
use sip_uri::Uri;
use std::alloc::AllocError;
use transactions::Change;

/// The most live calls.
const MAX_CALLS: usize = 256;

/// The server's tag in the responses to the call's offer.
fn tag_at(call: Option<&StandingCall>) -> &[u8]
    ensures { result.now ≡ tag_at (option_copied call.entry) }
{
    match call {
        None => STATELESS,
        Some(call) => offerer_tag(&call.call),
    }
}

fn asker<'m, 'a>(
    request: &'m Request<'a>,
    setting: Setting,
    id: usize,
    tag: &'m [u8],
) -> Asker<'m, 'a>
    ensures { asker_value result ≡ asker request.now setting id tag.now }
{
    Asker {
        id,
        parts: &request.parts,
        source: setting.source,
        tag,
    }
}

impl<'o> Office<'o> {
    /// What the call at this place does for an input that is no offer, whatever timers the calls have.
    #[tactic(auto, using(crate::proofs::CallLaws::can_enter))]
    pub(crate) fn step_at(
        &self,
        setting: Setting,
        place: usize,
        input: &Input<'_>,
        leg: Option<LegDialog>,
        request: Option<Asker<'_, '_>>,
    ) -> Result<CallStep, AllocError>
        requires few { self.now.tokens < 2 ^ 63 }
        ensures row { (timers : List (Timer CallTimerId)) → IfOk result (λ step. steps.effect (with_timers timers self.now.calls) setting.now step
            ≡ takes_row (with_timers timers self.now.calls) self.now.table (occasion self.now setting) place input.now leg (option_map asker_value request.entry)) }
        ensures can { (timers : List (Timer CallTimerId)) → IfOk result (CanEnter (with_timers timers self.now.calls) setting.now) }
    {
        let o = self.occasion(setting);
        match call_steps::takes(
            self.alloc, self.calls, self.table, o, place, input, leg, request,
        ) {
            Ok(step) => Ok(step),
            Err(_) => Err(AllocError),
        }
    }

    /// The call at this place takes an input that no request waits for.
    pub(crate) fn takes(
        &self,
        setting: Setting,
        before: Before,
        place: usize,
        input: &Input<'_>,
        leg: Option<LegDialog>,
    ) -> Result<Doing, AllocError>
        requires few { self.now.tokens < 2 ^ 63 }
        ensures row { IfOk result (λ d. effect self.now.calls self.now.acks setting.now d ≡ takes self.now setting before.begun.items before.send before.id place input.now leg) }
        ensures fits { IfOk result (Fits self.now.calls setting.now) }
    {
        let step = self.step_at(setting, place, input, leg, None)?;
        Doing::of_step(before, step)
    }

    /// The same, of an input that comes with no dialog.
    pub(crate) fn takes_alone(
        &self,
        setting: Setting,
        before: Before,
        place: usize,
        input: Input<'_>,
    ) -> Result<Doing, AllocError>
        requires few { self.now.tokens < 2 ^ 63 }
        ensures row { IfOk result (λ d. effect self.now.calls self.now.acks setting.now d ≡ takes self.now setting before.begun.items before.send before.id place input.entry None) }
        ensures fits { IfOk result (Fits self.now.calls setting.now) }
    {
        let doing = self.takes(setting, before, place, &input, None);
        drop(input);
        doing
    }

    /// The call at this place takes an input, whose request began transaction `id` and is answered with this tag.
    fn takes_request(
        &self,
        setting: Setting,
        request: &Request<'_>,
        begun: Vec<Change>,
        id: usize,
        place: usize,
        input: &Input<'_>,
        leg: Option<LegDialog>,
        tag: &[u8],
    ) -> Result<Doing, AllocError>
        requires few { self.now.tokens < 2 ^ 63 }
        ensures row { IfOk result (λ d. effect self.now.calls self.now.acks setting.now d ≡ takes_request self.now setting request.now begun.items id place input.now leg tag.now) }
        ensures fits { IfOk result (Fits self.now.calls setting.now) }
    {
        let asker = asker(request, setting, id, tag);
        let step = self.step_at(setting, place, input, leg, Some(asker))?;
        Doing::of_step(Before::alone(begun), step)
    }

    // ---- a first INVITE

    fn refuses_first(
        &self,
        setting: Setting,
        request: &Request<'_>,
        begun: Vec<Change>,
        id: usize,
        reason: Reason,
    ) -> Result<Doing, AllocError>
        ensures row { IfOk result (λ d. effect self.now.calls self.now.acks setting.now d ≡ refuses_first self.now setting request.now begun.items id reason) }
        ensures fits { IfOk result (Fits self.now.calls setting.now) }
    {
        let plan = self.refuses_for(setting, request, begun, id, reason)?;
        Ok(Doing::alone(plan))
    }

    fn are_full(&self) -> bool
        ensures { result ≡ are_full self.now }
    {
        self.calls.as_slice().len() >= MAX_CALLS
    }

    /// The call that was planned begins, unless the limit of live calls is reached.
    fn begins_unless_full(
        &self,
        setting: Setting,
        request: &Request<'_>,
        begun: Vec<Change>,
        id: usize,
        step: CallStep,
    ) -> Result<Doing, AllocError>
        requires { CanEnter self.now.calls setting.now step }
        ensures row { IfOk result (λ d. effect self.now.calls self.now.acks setting.now d ≡ unless_full self.now setting request.now begun.items id (steps.effect self.now.calls setting.now step)) }
        ensures fits { IfOk result (Fits self.now.calls setting.now) }
    {
        if self.are_full() {
            drop(step);
            return self.refuses_first(setting, request, begun, id, Reason::TooManyCalls);
        }
        Doing::of_step(Before::alone(begun), step)
    }

    #[tactic(auto, using(crate::proofs::FirstLaws::unfit, crate::proofs::FirstLaws::lacking, crate::proofs::FirstLaws::may_pass))]
    fn first_by(
        &self,
        setting: Setting,
        request: &Request<'_>,
        begun: Vec<Change>,
        id: usize,
        target: &Uri<'_>,
        offer: &Description<'_>,
    ) -> Result<Doing, AllocError>
        requires few { self.now.tokens < 2 ^ 63 }
        ensures row { IfOk result (λ d. effect self.now.calls self.now.acks setting.now d ≡ first_by self.now setting request.now begun.items id target.now offer.now) }
        ensures fits { IfOk result (Fits self.now.calls setting.now) }
    {
        let o = self.occasion(setting);
        match first_call(
            self.alloc,
            self.calls,
            o,
            request,
            id,
            setting.source,
            target,
            offer,
        ) {
            Ok(step) => self.begins_unless_full(setting, request, begun, id, step),
            Err(CallRefusal::Unfit(_)) => {
                self.refuses_first(setting, request, begun, id, Reason::UnfitOffer)
            }
            Err(CallRefusal::NoPorts) => {
                self.refuses_first(setting, request, begun, id, Reason::NoPorts)
            }
            Err(CallRefusal::OutOfMemory) => Err(AllocError),
            Err(CallRefusal::Crosses(_)) => unreachable!(),
            Err(CallRefusal::Undescribed) => unreachable!(),
            Err(CallRefusal::NumberAtItsEnd) => unreachable!(),
        }
    }

    fn begins(
        &self,
        setting: Setting,
        request: &Request<'_>,
        begun: Vec<Change>,
        id: usize,
        target: &Uri<'_>,
    ) -> Result<Doing, AllocError>
        requires few { self.now.tokens < 2 ^ 63 }
        requires taken { content_rule request.now.headers ≡ None }
        ensures row { IfOk result (λ d. effect self.now.calls self.now.acks setting.now d ≡ begins self.now setting request.now begun.items id target.now (described request.now.headers request.now.body)) }
        ensures fits { IfOk result (Fits self.now.calls setting.now) }
    {
        let Some(offer) = taken_description(self.alloc, request.body.as_bytes())? else {
            return self.refuses_first(setting, request, begun, id, Reason::Undescribed);
        };
        let doing = self.first_by(setting, request, begun, id, target, &offer);
        drop(offer);
        doing
    }

    // ---- a request in a dialog

    /// The dialog of this request of this call, which is at this place, counts its number, whatever the answer to it.
    pub(crate) fn counts_its_number(
        &self,
        request: &Request<'_>,
        place: usize,
        end: End,
        call: &StandingCall,
        plan: Plan,
    ) -> Result<Doing, AllocError>
        requires there { slice_get self.now.calls.calls place ≡ Some call.now }
        ensures row { (now : ℕ) → IfOk result (λ d. effect self.now.calls self.now.acks now d ≡ counted self.now request.now place end plan) }
        ensures fits { (now : ℕ) → IfOk result (Fits self.now.calls now) }
    {
        let leg = counts_in_call(self.alloc, call, end, request.parts.cseq.number)?;
        Ok(Doing::puts(plan, place, leg))
    }

    #[tactic(auto, unfolding(crate::specs::CallRows::call_row))]
    fn cancels_offer(
        &self,
        setting: Setting,
        request: &Request<'_>,
        begun: Vec<Change>,
        id: usize,
        place: usize,
    ) -> Result<Doing, AllocError>
        requires few { self.now.tokens < 2 ^ 63 }
        ensures row { IfOk result (λ d. effect self.now.calls self.now.acks setting.now d ≡ call_row self.now setting request.now begun.items id (rules.Cancels place)) }
        ensures fits { IfOk result (Fits self.now.calls setting.now) }
    {
        let tag = tag_at(self.calls.get(place));
        self.takes_request(
            setting,
            request,
            begun,
            id,
            place,
            &Input::Cancel,
            None,
            tag,
        )
    }

    #[tactic(auto, unfolding(crate::specs::CallRows::call_row))]
    fn leaves(
        &self,
        setting: Setting,
        request: &Request<'_>,
        begun: Vec<Change>,
        id: usize,
        place: usize,
        end: End,
    ) -> Result<Doing, AllocError>
        requires few { self.now.tokens < 2 ^ 63 }
        ensures row { IfOk result (λ d. effect self.now.calls self.now.acks setting.now d ≡ call_row self.now setting request.now begun.items id (rules.Leaves place end)) }
        ensures fits { IfOk result (Fits self.now.calls setting.now) }
    {
        let leg = counts(
            self.alloc,
            self.calls,
            place,
            end,
            request.parts.cseq.number,
        )?;
        let bye = Input::Bye(end);
        let doing = self.takes_request(setting, request, begun, id, place, &bye, leg, STATELESS);
        drop(bye);
        doing
    }

    /// What a call does for a request that began transaction `id`.
    #[tactic(auto, unfolding(crate::specs::CallRows::call_row))]
    pub fn call_row(
        &self,
        setting: Setting,
        request: &Request<'_>,
        begun: Vec<Change>,
        id: usize,
        rule: CallRule<'_>,
    ) -> Result<Doing, AllocError>
        requires few { self.now.tokens < 2 ^ 63 }
        requires moment { setting.now < 2 ^ 60 }
        // The call that the rule hands on is the one at its place, and the body that a call begins with is taken.
        requires found { IsFor self.now.calls.calls request.now (call_rule rule) }
        ensures row { IfOk result (λ d. effect self.now.calls self.now.acks setting.now d ≡ call_row self.now setting request.now begun.items id (call_rule rule.entry)) }
        ensures fits { IfOk result (Fits self.now.calls setting.now) }
    {
        match rule {
            CallRule::Begins(target) => self.begins(setting, request, begun, id, target),
            CallRule::Cancels(place) => self.cancels_offer(setting, request, begun, id, place),
            CallRule::Leaves(place, end) => self.leaves(setting, request, begun, id, place, end),
            CallRule::Offers(place, end, call) => {
                self.offers(setting, request, begun, id, place, end, call)
            }
            CallRule::Refreshes(place, end, call) => {
                self.refreshes_at(setting, request, begun, id, place, end, call)
            }
        }
    }
}
