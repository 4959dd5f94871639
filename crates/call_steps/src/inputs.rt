//! A live call takes an input.

ghost use Rattle.std.specs.Prelude.{◌≡◌, ◌<◌, ◌≤◌, ◌^◌, ℕ, IfErr, IfOk, OnOk, List, Some, length, option_map, slice_get};
ghost use Rattle.port_pool.specs.Pool.{Contents};
ghost use Rattle.call_core.specs.declared.call.Call.{Call};
ghost use Rattle.call_core.specs.declared.input.Input.{Input};
ghost use Rattle.call_core.specs.CallRows.{call_row};
ghost use Rattle.call_core.specs.Calls.{IsServed};
ghost use Rattle.call_core.specs.Plans.{IsPlanned, carried};
ghost use Rattle.call_core.specs.Refusals.{MayTakeIn, RefusesInput};
ghost use Rattle.timers.specs.declared.timers.Timer.{Timer};
ghost use Rattle.calls.specs.declared.timer_id.CallTimerId.{CallTimerId};
ghost use Rattle.calls.specs.Changes.{FitsChange, carries, entered};
ghost use Rattle.calls.specs.declared.change.CallChange.TheVariants.{Carries};
ghost use Rattle.calls.specs.State.{Standing, standing};
ghost use Rattle.call_steps.specs.Effects.{effect, with_messages, with_timers};
ghost use Rattle.call_steps.specs.Refusals.{RefusesTaken};
ghost use Rattle.call_steps.specs.Rows.{does, messages_of, put_with, step_note, takes_row};
ghost use Rattle.call_steps.specs.Values.{asker_value, coming_value};

use crate::arrival::Coming;
use crate::call_step::CallStep;
use crate::messages::StepMessages;
use crate::occasion::Occasion;
use crate::scene::messages_of;
use boxed::Boxed;
use call_core::{CallRefusal, Input, NoteOfCall, Plan};
use call_messages::Asker;
use calls::{Beside, CallChange, Calls, LegDialog, StandingCall};
use port_pool::Pool;
use std::alloc::{AllocError, Global};
use transactions::Table;

/// What was planned for a call, and its messages.
#[derive(Drop)]
struct PlannedStep {
    plan: Plan,
    said: StepMessages,
    note: Option<NoteOfCall>,
}

/// The call at this place does this, with the resulting messages, and with what else comes with the event.
fn step_of(
    alloc: Global,
    place: usize,
    coming: Coming<'_, '_>,
    planned: PlannedStep,
) -> Result<CallStep, AllocError>
    ensures row { (calls : Standing) (now : ℕ) → IfOk result (λ step. effect calls now step
        ≡ with_messages (carries calls now place (put_with (coming_value coming.entry) planned.said) planned.plan (slice_get calls.calls place)) planned.said planned.note) }
    ensures change { IfOk result (λ step. step.change ≡ Carries place (put_with (coming_value coming.entry) planned.said) planned.plan) }
    ensures dressed { IfOk result (λ step. step.dressed ≡ planned.said.dressed) }
{
    let Coming { leg, taken, .. } = coming;
    let PlannedStep { plan, said, note } = planned;
    let StepMessages {
        dressed,
        answer,
        ack,
    } = said;
    let beside = Boxed::new(alloc, Beside { leg, taken, answer })?;
    let plan = Boxed::new(alloc, plan)?;
    Ok(CallStep {
        change: CallChange::Carries {
            place,
            beside,
            plan,
        },
        dressed,
        ack,
        note,
    })
}

/// What a call does for an input.
fn plan_for(
    alloc: Global,
    pool: &Pool,
    now: u64,
    input: &Input<'_>,
    call: &StandingCall,
) -> Result<Plan, CallRefusal>
    requires served { IsServed call.now.call pool.now }
    ensures row { IfOk result (λ p. carried call.now.call pool.now now p ≡ call_row call.now.call input.now pool.now now) }
    ensures planned { IfOk result (λ p. IsPlanned call.now.call pool.now now p) }
    ensures may { OnOk result (MayTakeIn call.now.call call.now.call.standing pool.now input.now now) }
    ensures refused { IfErr result (RefusesInput call.now.call pool.now input.now now) }
{
    call.call.plan_take(alloc, input, pool, now)
}

/// What was planned, with its messages.
fn with_messages(
    alloc: Global,
    table: &Table,
    occasion: Occasion,
    coming: &Coming<'_, '_>,
    call: &StandingCall,
    plan: Plan,
) -> Result<PlannedStep, CallRefusal>
    requires few { occasion.tokens ≤ 2 ^ 63 }
    ensures plan { IfOk result (λ p. p.plan ≡ plan) }
    ensures said { (pool : Contents) (now : ℕ) → IfOk result (λ p. p.said ≡ messages_of table.now occasion (coming_value coming.now) call.now
        (carried call.now.call pool now p.plan)) }
    ensures note { (pool : Contents) (now : ℕ) → IfOk result (λ p. p.note ≡ step_note call.now (carried call.now.call pool now p.plan)) }
    ensures few { IfOk result (λ p. p.said.dressed.made < 2 ^ 63) }
    // For want of memory, for which any input may be refused.
    ensures refused { (c : Call) (pool : Contents) (input : Input) (now : ℕ) → IfErr result (RefusesInput c pool input now) }
{
    match messages_of(alloc, table, occasion, coming, call, &plan) {
        Ok(said) => {
            let note = call.call.note(&plan);
            Ok(PlannedStep { plan, said, note })
        }
        Err(_) => {
            drop(plan);
            Err(CallRefusal::OutOfMemory)
        }
    }
}

/// What a call does for an input, with its messages.
fn plan_step(
    alloc: Global,
    pool: &Pool,
    table: &Table,
    occasion: Occasion,
    input: &Input<'_>,
    coming: &Coming<'_, '_>,
    call: &StandingCall,
) -> Result<PlannedStep, CallRefusal>
    requires few { occasion.tokens ≤ 2 ^ 63 }
    requires served { IsServed call.now.call pool.now }
    ensures row { IfOk result (λ p. carried call.now.call pool.now occasion.now p.plan ≡ call_row call.now.call input.now pool.now occasion.now) }
    ensures planned { IfOk result (λ p. IsPlanned call.now.call pool.now occasion.now p.plan) }
    ensures said { IfOk result (λ p. p.said ≡ messages_of table.now occasion (coming_value coming.now) call.now (carried call.now.call pool.now occasion.now p.plan)) }
    ensures note { IfOk result (λ p. p.note ≡ step_note call.now (carried call.now.call pool.now occasion.now p.plan)) }
    ensures few { IfOk result (λ p. p.said.dressed.made < 2 ^ 63) }
    ensures may { OnOk result (MayTakeIn call.now.call call.now.call.standing pool.now input.now occasion.now) }
    ensures refused { IfErr result (RefusesInput call.now.call pool.now input.now occasion.now) }
{
    match plan_for(alloc, pool, occasion.now, input, call) {
        Ok(plan) => with_messages(alloc, table, occasion, coming, call, plan),
        Err(refusal) => Err(refusal),
    }
}

/// The call at this place takes an input.
#[tactic(auto, using(crate::proofs::StepLaws::does_as_planned, crate::proofs::StepLaws::planned_there))]
pub(crate) fn takes_at(
    alloc: Global,
    calls: &Calls,
    table: &Table,
    occasion: Occasion,
    place: usize,
    input: &Input<'_>,
    coming: Coming<'_, '_>,
    call: &StandingCall,
) -> Result<CallStep, CallRefusal>
    requires few { occasion.tokens ≤ 2 ^ 63 }
    requires there { slice_get calls.now.calls place ≡ Some call.now }
    requires served { IsServed call.now.call calls.now.pool }
    ensures row { (timers : List (Timer CallTimerId)) → IfOk result (λ step. effect (with_timers timers (standing calls.now)) occasion.now step
        ≡ does (with_timers timers (standing calls.now)) table.now occasion place (coming_value coming.entry) call.now (call_row call.now.call input.now calls.now.pool occasion.now)) }
    ensures fits { (timers : List (Timer CallTimerId)) → IfOk result (λ step. FitsChange (with_timers timers (standing calls.now)) occasion.now step.change) }
    ensures few { IfOk result (λ step. step.dressed.made < 2 ^ 63) }
    ensures begun { (timers : List (Timer CallTimerId)) → IfOk result (λ step. (entered (with_timers timers (standing calls.now)) occasion.now step.change).standing.begun ≡ calls.now.begun) }
    ensures may { OnOk result (MayTakeIn call.now.call call.now.call.standing calls.now.pool input.now occasion.now) }
    ensures refused { IfErr result (RefusesInput call.now.call calls.now.pool input.now occasion.now) }
{
    match plan_step(alloc, calls.pool(), table, occasion, input, &coming, call) {
        Ok(planned) => match step_of(alloc, place, coming, planned) {
            Ok(step) => Ok(step),
            Err(_) => Err(CallRefusal::OutOfMemory),
        },
        Err(refusal) => {
            drop(coming);
            Err(refusal)
        }
    }
}

/// What the call at this place does for an input that is no offer, with the dialog that comes with it (that of a 2xx,
/// or the one that counted a request) and the request that waits for a response. It is refused only when memory ran
/// out. Where there is no call, nothing is done. Nothing changes.
#[tactic(auto, using(crate::proofs::StepLaws::takes_there, crate::proofs::StepLaws::takes_nothing))]
pub fn takes(
    alloc: Global,
    calls: &Calls,
    table: &Table,
    occasion: Occasion,
    place: usize,
    input: &Input<'_>,
    leg: Option<LegDialog>,
    request: Option<Asker<'_, '_>>,
) -> Result<CallStep, CallRefusal>
    requires few { occasion.tokens ≤ 2 ^ 63 }
    // Whatever timers the calls have.
    ensures row { (timers : List (Timer CallTimerId)) → IfOk result (λ step. effect (with_timers timers (standing calls.now)) occasion.now step
        ≡ takes_row (with_timers timers (standing calls.now)) table.now occasion place input.now leg (option_map asker_value request.entry)) }
    ensures fits { (timers : List (Timer CallTimerId)) → IfOk result (λ step. FitsChange (with_timers timers (standing calls.now)) occasion.now step.change) }
    ensures few { IfOk result (λ step. step.dressed.made < 2 ^ 63) }
    // No call begins.
    ensures begun { (timers : List (Timer CallTimerId)) → IfOk result (λ step. (entered (with_timers timers (standing calls.now)) occasion.now step.change).standing.begun ≡ calls.now.begun) }
    ensures refused { IfErr result (RefusesTaken (slice_get calls.now.calls place) calls.now.pool input.now occasion.now) }
{
    let coming = Coming::without_offer(leg, request);
    match calls.get(place) {
        Some(call) => takes_at(alloc, calls, table, occasion, place, input, coming, call),
        None => {
            drop(coming);
            Ok(CallStep::nothing(alloc))
        }
    }
}
