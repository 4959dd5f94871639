//! The first INVITE was passed on, and has no final response.

ghost use Rattle.std.specs.Prelude.{◌≡◌, IfOk, Some};
ghost use Rattle.call_core.specs.Asked.{asked_row, given_up, rings};
ghost use Rattle.call_core.specs.Rows.{row};

use crate::action::{Action, CallTimer};
use crate::refusal_status::status_passed_on;
use crate::row::{RINGING, Row, SHORT, WAIT, ends, leads};
use crate::signal::Signal;
use crate::stage::Stage;
use call_media::End;
use std::alloc::{AllocError, Global};
use transaction_machines::T1;

/// A provisional response: 100 is not passed on, and the first one sets the limit.
pub(crate) fn rings(
    alloc: Global,
    rung: bool,
    limit: u64,
    offerer: End,
    status: u16,
    stage: Stage,
) -> Result<Option<Row>, AllocError>
    ensures { IfOk result (λ r. r ≡ Some (row (rings rung limit offerer status) offerer stage)) }
{
    let passed_on = Action::Provisional(offerer, status);
    let set = Action::Set(CallTimer::Limit, limit);
    match (rung, status == 100) {
        (true, true) => leads(alloc, &[], offerer, stage),
        (true, false) => leads(alloc, &[passed_on], offerer, stage),
        (false, true) => leads(alloc, &[set], offerer, stage),
        (false, false) => leads(alloc, &[passed_on, set], offerer, stage),
    }
}

/// The caller leaves.
fn given_up(alloc: Global, rung: bool, offerer: End) -> Result<Option<Row>, AllocError>
    ensures { IfOk result (λ r. r ≡ Some (given_up rung offerer)) }
{
    let okay = Action::Okay(offerer);
    let refusal = Action::Refusal(offerer, 487);
    if !rung {
        let actions = [okay, refusal, Action::Release];
        return leads(alloc, &actions, offerer, Stage::Cancelling(false));
    }
    let cancel = Action::Cancel(offerer.other());
    let set = Action::Set(CallTimer::Limit, SHORT);
    let actions = [okay, refusal, cancel, set, Action::Release];
    leads(alloc, &actions, offerer, Stage::Cancelling(true))
}

/// The caller gets the answer.
#[tactic(auto, unfolding(crate::specs::Asked::asked_row))]
fn fits(alloc: Global, rung: bool, offerer: End) -> Result<Option<Row>, AllocError>
    ensures { IfOk result (λ r. r ≡ asked_row rung offerer Signal.FitAnswer) }
{
    let actions = [
        Action::Ack(offerer.other()),
        Action::PutRows,
        Action::Answer(offerer),
        Action::Stop(CallTimer::Limit),
        Action::Set(CallTimer::Repeat, T1),
        Action::Set(CallTimer::Wait, WAIT),
    ];
    leads(alloc, &actions, offerer, Stage::Answered(T1))
}

#[tactic(auto, unfolding(crate::specs::Asked::asked_row))]
fn is_unfit(alloc: Global, rung: bool, offerer: End) -> Result<Option<Row>, AllocError>
    ensures { IfOk result (λ r. r ≡ asked_row rung offerer Signal.UnfitAnswer) }
{
    let callee = offerer.other();
    let refusal = Action::Refusal(offerer, 500);
    ends(alloc, &[Action::Ack(callee), Action::Bye(callee), refusal])
}

/// The callee rang long enough.
#[tactic(auto, unfolding(crate::specs::Asked::asked_row))]
fn limits(alloc: Global, rung: bool, offerer: End) -> Result<Option<Row>, AllocError>
    ensures { IfOk result (λ r. r ≡ asked_row rung offerer Signal.Limit) }
{
    if !rung {
        return Ok(None);
    }
    let refusal = Action::Refusal(offerer, 480);
    let cancel = Action::Cancel(offerer.other());
    let set = Action::Set(CallTimer::Limit, SHORT);
    let actions = [refusal, cancel, set, Action::Release];
    leads(alloc, &actions, offerer, Stage::Cancelling(true))
}

#[tactic(auto, unfolding(crate::specs::Asked::asked_row))]
fn leaves(alloc: Global, rung: bool, offerer: End, end: End) -> Result<Option<Row>, AllocError>
    ensures { IfOk result (λ r. r ≡ asked_row rung offerer (Signal.Bye end)) }
{
    if end != offerer {
        return Ok(None);
    }
    given_up(alloc, rung, offerer)
}

/// What a signal does.
#[tactic(auto, unfolding(crate::specs::Asked::asked_row))]
pub(crate) fn asked_row(
    alloc: Global,
    rung: bool,
    offerer: End,
    signal: Signal,
) -> Result<Option<Row>, AllocError>
    ensures { IfOk result (λ r. r ≡ asked_row rung offerer signal) }
{
    match signal {
        Signal::Provisional(status) => {
            rings(alloc, rung, RINGING, offerer, status, Stage::Asked(true))
        }
        Signal::FitAnswer => fits(alloc, rung, offerer),
        Signal::UnfitAnswer => is_unfit(alloc, rung, offerer),
        Signal::Refusal(status) => {
            let refusal = Action::Refusal(offerer, status_passed_on(status));
            ends(alloc, &[refusal])
        }
        Signal::TimedOut => ends(alloc, &[Action::Refusal(offerer, 408)]),
        Signal::Limit => limits(alloc, rung, offerer),
        Signal::Cancel => given_up(alloc, rung, offerer),
        Signal::Bye(end) => leaves(alloc, rung, offerer, end),
        _ => Ok(None),
    }
}
