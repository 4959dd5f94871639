//! What a call would do for an input.

ghost use Rattle.std.specs.Prelude.{◌≡◌, ◌≢◌, ℕ, IfErr, IfOk, IsTrue, OnOk, None, Some, false, is_some, true};
ghost use Rattle.std.specs.List.{list_any};
ghost use Rattle.port_pool.specs.Pool.{Contents, is_port_of};
ghost use Rattle.offer_answer.specs.Direct.{hold_address};
ghost use Rattle.call_media.specs.declared.end.End.TheVariants.{Caller};
ghost use Rattle.dialogs.specs.declared.state.Dialog.{Dialog};
ghost use Rattle.call_core.specs.declared.signal.Signal.TheVariants as signals;
ghost use Rattle.call_core.specs.declared.plan.MediaPlan.TheVariants.{Holds};
ghost use Rattle.call_core.specs.CallRows.{answer_at, call_row, first_call_row, offer_at, offer_step, signal_at, signal_step, step_at, unchanged};
ghost use Rattle.call_core.specs.Calls.{IsServed, awaits_answer, clash_in, dialog_of, has_number_left, new_call, new_media, number_to, none_counted};
ghost use Rattle.call_core.specs.Plans.{AnswersOn, IsPlanned, LeadsOn, OffersOn, carried, ends_media, is_plain, is_release, is_removal, releases};
ghost use Rattle.call_core.specs.Refusals.{IsPassable, MayOffer, MayPass, MayTake, MayTakeIn, RefusesFirst, RefusesInput, RefusesLater};
ghost use Rattle.call_core.specs.Table.{first_row, row_of};

use crate::action::{Action, Actions};
use crate::call::Call;
use crate::clash::clash_at;
use crate::input::Input;
use crate::plan::{MediaPlan, Numbers, Plan};
use crate::refusal::CallRefusal;
use crate::row::Row;
use crate::signal::{OfferMethod, Signal};
use crate::stage::Standing;
use crate::table::{first_row, row_at};
use call_media::{AnswerRefusal, CallMedia, End, PlannedOffer};
use dialogs::{DialogError, Method};
use offer_answer::OwnRange;
use port_pool::Pool;
use sdp::Description;
use std::alloc::{AllocError, Global};

impl Call {
    /// What a call without a standing yet does for its first offer, which the caller makes, at the moment `now` in
    /// milliseconds. K3 and K4 are the refusals. Nothing changes.
    pub fn plan_ask(
        &self,
        alloc: Global,
        offer: &Description<'_>,
        pool: &Pool,
        now: u64,
    ) -> Result<Plan, CallRefusal>
        requires serves { IsServed self.now pool.now }
        requires nowhere { self.now.standing ≡ None }
        ensures row { IfOk result (λ p. carried self.now pool.now now p ≡ first_call_row self.now offer.now pool.now now) }
        ensures planned { IfOk result (IsPlanned self.now pool.now now) }
        ensures may { OnOk result (MayPass self.now.media pool.now Caller offer.now now) }
        ensures refused { IfErr result (RefusesFirst self.now.media pool.now Caller (Some offer.now) now) }
    {
        let row = opening_row(alloc)?;
        let planned = self.media.plan_offer(alloc, pool, End::Caller, offer, now)?;
        Ok(plan_of(row, Numbers::none(), MediaPlan::Holds(planned)))
    }

    /// What the call does for an input at the moment `now` in milliseconds. An offer is refused by K1 or K2, which come
    /// first, then K3, K4 and K5 (RFC 3261 section 14.2, RFC 3264); any other input is refused only when memory ran
    /// out. Nothing changes.
    pub fn plan_take(
        &self,
        alloc: Global,
        input: &Input<'_>,
        pool: &Pool,
        now: u64,
    ) -> Result<Plan, CallRefusal>
        requires { IsServed self.now pool.now }
        ensures row { IfOk result (λ p. carried self.now pool.now now p ≡ call_row self.now input.now pool.now now) }
        ensures planned { IfOk result (IsPlanned self.now pool.now now) }
        ensures may { OnOk result (MayTakeIn self.now self.now.standing pool.now input.now now) }
        ensures refused { IfErr result (RefusesInput self.now pool.now input.now now) }
    {
        match self.standing {
            None => Ok(self.plan_nothing(alloc)),
            Some(standing) => self.plan_at(alloc, standing, input, pool, now),
        }
    }

    fn plan_at(
        &self,
        alloc: Global,
        standing: Standing,
        input: &Input<'_>,
        pool: &Pool,
        now: u64,
    ) -> Result<Plan, CallRefusal>
        requires serves { IsServed self.now pool.now }
        requires stands { self.now.standing ≡ Some standing }
        ensures row { IfOk result (λ p. carried self.now pool.now now p ≡ step_at self.now standing input.now pool.now now) }
        ensures planned { IfOk result (IsPlanned self.now pool.now now) }
        ensures may { OnOk result (MayTake self.now standing pool.now input.now now) }
        ensures refused { IfErr result (RefusesInput self.now pool.now input.now now) }
    {
        match input {
            Input::Offer(end, method, offer) => self.plan_offer(
                alloc, standing, *end, *method, offer, pool, now,
            ),
            Input::Answer(answer) => Ok(self.plan_answer(alloc, standing, answer, pool, now)?),
            _ => Ok(self.plan_signal(alloc, standing, input.signal(), pool, now)?),
        }
    }

    /// Nothing is done, and nothing changes.
    fn plan_nothing(&self, alloc: Global) -> Plan
        ensures row { (pool : Contents) (now : ℕ) → carried self.now pool now result ≡ unchanged self.now pool }
        ensures planned { (pool : Contents) (now : ℕ) → IsPlanned self.now pool now result }
    {
        Plan {
            actions: Actions::none(alloc),
            next: self.standing,
            numbers: Numbers::none(),
            media: MediaPlan::Keeps,
        }
    }

    // ---- signals

    fn plan_signal(
        &self,
        alloc: Global,
        standing: Standing,
        signal: Signal,
        pool: &Pool,
        now: u64,
    ) -> Result<Plan, AllocError>
        requires stands { self.now.standing ≡ Some standing }
        requires plain { is_plain signal ≡ true }
        ensures row { IfOk result (λ p. carried self.now pool.now now p ≡ signal_at self.now standing signal pool.now now) }
        ensures planned { IfOk result (IsPlanned self.now pool.now now) }
    {
        match row_at(alloc, standing, signal)? {
            None => Ok(self.plan_nothing(alloc)),
            Some(row) => self.plan_line(standing, row, pool, now),
        }
    }

    fn plan_line(
        &self,
        standing: Standing,
        row: Row,
        pool: &Pool,
        now: u64,
    ) -> Result<Plan, AllocError>
        requires stands { self.now.standing ≡ Some standing }
        requires leads { LeadsOn standing.stage row }
        ensures row { IfOk result (λ p. carried self.now pool.now now p ≡ signal_step self.now pool.now now row) }
        ensures planned { IfOk result (IsPlanned self.now pool.now now) }
    {
        if ends_media(&row) {
            let removals = self.media.plan_end(pool)?;
            return Ok(plan_of(row, Numbers::none(), MediaPlan::Ends(removals)));
        }
        if releases(&row) {
            return Ok(plan_of(row, Numbers::none(), MediaPlan::Withdraws));
        }
        Ok(plan_of(row, Numbers::none(), MediaPlan::Keeps))
    }

    // ---- answers

    /// A 2xx is fit where the open offer lets the answerer give its answer.
    fn plan_answer(
        &self,
        alloc: Global,
        standing: Standing,
        answer: &Option<Description<'_>>,
        pool: &Pool,
        now: u64,
    ) -> Result<Plan, AllocError>
        requires serves { IsServed self.now pool.now }
        requires stands { self.now.standing ≡ Some standing }
        ensures row { IfOk result (λ p. carried self.now pool.now now p ≡ answer_at self.now standing answer.now pool.now now) }
        ensures planned { IfOk result (IsPlanned self.now pool.now now) }
    {
        match (self.media.open_offer(), answer) {
            (Some(_), Some(answer)) => self.plan_described(alloc, standing, answer, pool, now),
            _ => self.plan_signal(alloc, standing, Signal::UnfitAnswer, pool, now),
        }
    }

    fn plan_described(
        &self,
        alloc: Global,
        standing: Standing,
        answer: &Description<'_>,
        pool: &Pool,
        now: u64,
    ) -> Result<Plan, AllocError>
        requires serves { IsServed self.now pool.now }
        requires stands { self.now.standing ≡ Some standing }
        requires asked { IsTrue (is_some self.now.media.offer) }
        ensures row { IfOk result (λ p. carried self.now pool.now now p ≡ answer_at self.now standing (Some answer.now) pool.now now) }
        ensures planned { IfOk result (IsPlanned self.now pool.now now) }
    {
        let row = session_row(alloc, standing)?;
        match self.media.plan_answer(alloc, pool, answer) {
            Ok(planned) => Ok(plan_of(row, Numbers::none(), MediaPlan::Puts(planned))),
            Err(AnswerRefusal::Unfit(_)) => {
                self.plan_signal(alloc, standing, Signal::UnfitAnswer, pool, now)
            }
            Err(AnswerRefusal::OutOfMemory) => Err(AllocError),
        }
    }

    // ---- offers

    fn plan_offer(
        &self,
        alloc: Global,
        standing: Standing,
        end: End,
        method: OfferMethod,
        offer: &Option<Description<'_>>,
        pool: &Pool,
        now: u64,
    ) -> Result<Plan, CallRefusal>
        requires serves { IsServed self.now pool.now }
        requires stands { self.now.standing ≡ Some standing }
        ensures row { IfOk result (λ p. carried self.now pool.now now p
            ≡ offer_at self.now standing (signals.Offer end method) end offer.now pool.now now) }
        ensures planned { IfOk result (IsPlanned self.now pool.now now) }
        ensures may { OnOk result (MayOffer self.now standing pool.now end method offer.now now) }
        ensures refused { IfErr result (RefusesLater self.now pool.now end offer.now now) }
    {
        if let Some(clash) = clash_at(standing, end) {
            return Err(CallRefusal::Crosses(clash));
        }
        match (row_at(alloc, standing, Signal::Offer(end, method))?, offer) {
            (None, _) => Ok(self.plan_nothing(alloc)),
            (Some(_), None) => Err(CallRefusal::Undescribed),
            (Some(row), Some(offer)) => self.plan_passing(
                alloc, standing, row, end, offer, pool, now,
            ),
        }
    }

    /// The offer is passed on.
    fn plan_passing(
        &self,
        alloc: Global,
        standing: Standing,
        row: Row,
        end: End,
        offer: &Description<'_>,
        pool: &Pool,
        now: u64,
    ) -> Result<Plan, CallRefusal>
        requires serves { IsServed self.now pool.now }
        requires stands { self.now.standing ≡ Some standing }
        requires free { clash_in self.now.standing end ≡ None }
        requires leads { OffersOn standing.stage row }
        ensures row { IfOk result (λ p. carried self.now pool.now now p ≡ offer_step self.now pool.now now end offer.now row) }
        ensures planned { IfOk result (IsPlanned self.now pool.now now) }
        ensures may { OnOk result (IsPassable self.now pool.now end (Some offer.now) now) }
        ensures refused { IfErr result (RefusesLater self.now pool.now end (Some offer.now) now) }
    {
        let across = end.other();
        let number = self.number_to(across);
        let planned = self.media.plan_offer(alloc, pool, end, offer, now)?;
        match number {
            Ok(number) => Ok(plan_of(row, Numbers::to(across, number), MediaPlan::Holds(planned))),
            Err(_) => Err(CallRefusal::NumberAtItsEnd),
        }
    }

    /// The number of an INVITE or UPDATE to this end, if it has a dialog.
    fn number_to(&self, end: End) -> Result<Option<u32>, DialogError>
        ensures number { IfOk result (λ n. n ≡ number_to end self.now) }
        ensures left { OnOk result (has_number_left (dialog_of end self.now) ≡ true) }
        ensures refused { IfErr result (λ _. has_number_left (dialog_of end self.now) ≡ false) }
    {
        match self.dialog(end) {
            None => Ok(None),
            Some(dialog) => Ok(Some(dialog.next_number(Method::Invite)?)),
        }
    }
}

/// The line, with what happens to the media.
fn plan_of(row: Row, numbers: Numbers, media: MediaPlan) -> Plan
    ensures { result ≡ record { actions = row.actions; next = row.next; numbers = numbers; media = media } }
{
    let Row { actions, next } = row;
    Plan {
        actions,
        next,
        numbers,
        media,
    }
}

/// The line of the first offer.
fn opening_row(alloc: Global) -> Result<Row, AllocError>
    ensures { IfOk result (λ row. row ≡ first_row) }
{
    match first_row(alloc)? {
        Some(row) => Ok(row),
        None => unreachable!(),
    }
}

/// The line of an answer that fits the open offer.
fn session_row(alloc: Global, standing: Standing) -> Result<Row, AllocError>
    requires { awaits_answer standing.stage ≡ true }
    ensures row { IfOk result (λ row. row_of standing signals.FitAnswer ≡ Some row) }
    ensures leads { IfOk result AnswersOn }
{
    match row_at(alloc, standing, Signal::FitAnswer)? {
        Some(row) => Ok(row),
        None => unreachable!(),
    }
}

/// Whether the call is gone, or its rows go.
fn ends_media(row: &Row) -> bool
    ensures { result ≡ ends_media row.now }
{
    row.next.is_none() || has_removal(row.actions.as_slice())
}

fn has_removal(actions: &[Action]) -> bool
    ensures { result ≡ list_any is_removal actions.now }
{
    let [action, actions @ ..] = actions else {
        return false;
    };
    is_removal(*action) || has_removal(actions)
}

fn is_removal(action: Action) -> bool
    ensures { result ≡ is_removal action }
{
    match action {
        Action::RemoveRows => true,
        _ => false,
    }
}

/// Whether the pairs of the open offer rest.
fn releases(row: &Row) -> bool
    ensures { result ≡ releases row.now }
{
    has_release(row.actions.as_slice())
}

fn has_release(actions: &[Action]) -> bool
    ensures { result ≡ list_any is_release actions.now }
{
    let [action, actions @ ..] = actions else {
        return false;
    };
    is_release(*action) || has_release(actions)
}

fn is_release(action: Action) -> bool
    ensures { result ≡ is_release action }
{
    match action {
        Action::Release => true,
        _ => false,
    }
}
