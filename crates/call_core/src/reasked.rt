//! An INVITE inside the call was passed on, and has no final response.

ghost use Rattle.std.specs.Prelude.{◌≡◌, IfOk, Some, false};
ghost use Rattle.call_core.specs.Reasked.{cancelled_inside, has_lost_the_call, left_inside, reasked_row, refused_inside, rings_inside};

use crate::action::{Action, CallTimer};
use crate::asked::rings;
use crate::refusal_status::status_passed_on;
use crate::row::{Row, SHORT, WAIT, ends, leads, outlasts};
use crate::signal::Signal;
use crate::stage::{Cancelled, Stage};
use call_media::End;
use std::alloc::{AllocError, Global};
use transaction_machines::T1;

/// Whether the other end no longer knows such a call, or doesn't answer (RFC 3261 section 12.2.1.2).
pub(crate) fn has_lost_the_call(status: u16) -> bool
    ensures { result ≡ has_lost_the_call status }
{
    status == 408 || status == 481
}

/// The CANCEL that waits is sent after the first provisional response, which goes to the offerer first.
fn cancels_behind(alloc: Global, offerer: End, status: u16) -> Result<Option<Row>, AllocError>
    ensures { IfOk result (λ r. r ≡ Some (rings_inside false Cancelled.Waits offerer status)) }
{
    let cancel = Action::Cancel(offerer.other());
    let set = Action::Set(CallTimer::Limit, SHORT);
    let stage = Stage::Reasked(true, Cancelled::PassedOn);
    if status == 100 {
        return leads(alloc, &[cancel, set], offerer, stage);
    }
    let passed_on = Action::Provisional(offerer, status);
    leads(alloc, &[passed_on, cancel, set], offerer, stage)
}

fn rings_inside(
    alloc: Global,
    rung: bool,
    cancelled: Cancelled,
    offerer: End,
    status: u16,
) -> Result<Option<Row>, AllocError>
    ensures { IfOk result (λ r. r ≡ Some (rings_inside rung cancelled offerer status)) }
{
    match cancelled {
        Cancelled::Waits => cancels_behind(alloc, offerer, status),
        Cancelled::Never | Cancelled::PassedOn => {
            let stage = Stage::Reasked(true, cancelled);
            rings(alloc, rung, SHORT, offerer, status, stage)
        }
    }
}

/// The offerer's CANCEL goes across once, and not before a provisional response came.
fn cancelled_inside(
    alloc: Global,
    rung: bool,
    cancelled: Cancelled,
    offerer: End,
) -> Result<Option<Row>, AllocError>
    ensures { IfOk result (λ r. r ≡ Some (cancelled_inside rung cancelled offerer)) }
{
    let okay = Action::Okay(offerer);
    match (cancelled, rung) {
        (Cancelled::Never, true) => {
            let cancel = Action::Cancel(offerer.other());
            let set = Action::Set(CallTimer::Limit, SHORT);
            let stage = Stage::Reasked(true, Cancelled::PassedOn);
            leads(alloc, &[okay, cancel, set], offerer, stage)
        }
        (Cancelled::Never, false) => {
            let stage = Stage::Reasked(false, Cancelled::Waits);
            leads(alloc, &[okay], offerer, stage)
        }
        _ => leads(alloc, &[okay], offerer, Stage::Reasked(rung, cancelled)),
    }
}

fn refused_inside(alloc: Global, offerer: End, status: u16) -> Result<Option<Row>, AllocError>
    ensures { IfOk result (λ r. r ≡ Some (refused_inside offerer status)) }
{
    if has_lost_the_call(status) {
        let refusal = Action::Refusal(offerer, status);
        let actions = [refusal, Action::Bye(offerer.other()), Action::Bye(offerer)];
        return ends(alloc, &actions);
    }
    let refusal = Action::Refusal(offerer, status_passed_on(status));
    let actions = [refusal, Action::Release, Action::Stop(CallTimer::Limit)];
    leads(alloc, &actions, offerer, Stage::Settled)
}

fn left_inside(alloc: Global, end: End, offerer: End) -> Result<Option<Row>, AllocError>
    ensures { IfOk result (λ r. r ≡ Some (left_inside end offerer)) }
{
    let actions = [
        Action::Okay(end),
        Action::Refusal(offerer, 487),
        Action::Bye(end.other()),
        Action::Abandon(offerer.other()),
    ];
    ends(alloc, &actions)
}

/// The offerer gets the answer.
#[tactic(auto, unfolding(crate::specs::Reasked::reasked_row))]
fn fits(
    alloc: Global,
    rung: bool,
    cancelled: Cancelled,
    offerer: End,
) -> Result<Option<Row>, AllocError>
    ensures { IfOk result (λ r. r ≡ reasked_row rung cancelled offerer Signal.FitAnswer) }
{
    // However the INVITE came to be answered.
    let _ = (rung, cancelled);
    let actions = [
        Action::Ack(offerer.other()),
        Action::PutRows,
        Action::Answer(offerer),
        Action::Stop(CallTimer::Limit),
        Action::Set(CallTimer::Repeat, T1),
        Action::Set(CallTimer::Wait, WAIT),
    ];
    leads(alloc, &actions, offerer, Stage::Reanswered(T1))
}

#[tactic(auto, unfolding(crate::specs::Reasked::reasked_row))]
fn is_unfit(
    alloc: Global,
    rung: bool,
    cancelled: Cancelled,
    offerer: End,
) -> Result<Option<Row>, AllocError>
    ensures { IfOk result (λ r. r ≡ reasked_row rung cancelled offerer Signal.UnfitAnswer) }
{
    // However the INVITE came to be answered.
    let _ = (rung, cancelled);
    let across = offerer.other();
    let actions = [
        Action::Ack(across),
        Action::Bye(across),
        Action::Refusal(offerer, 500),
        Action::Bye(offerer),
    ];
    ends(alloc, &actions)
}

#[tactic(auto, unfolding(crate::specs::Reasked::reasked_row))]
fn limits(
    alloc: Global,
    rung: bool,
    cancelled: Cancelled,
    offerer: End,
) -> Result<Option<Row>, AllocError>
    ensures { IfOk result (λ r. r ≡ reasked_row rung cancelled offerer Signal.Limit) }
{
    // A CANCEL that was sent changes nothing here.
    let _ = cancelled;
    if !rung {
        return Ok(None);
    }
    let across = offerer.other();
    let actions = [
        Action::Refusal(offerer, 408),
        Action::Bye(across),
        Action::Bye(offerer),
        Action::Abandon(across),
    ];
    ends(alloc, &actions)
}

#[tactic(auto, unfolding(crate::specs::Reasked::reasked_row))]
fn times_out(
    alloc: Global,
    rung: bool,
    cancelled: Cancelled,
    offerer: End,
) -> Result<Option<Row>, AllocError>
    ensures { IfOk result (λ r. r ≡ reasked_row rung cancelled offerer Signal.TimedOut) }
{
    // Whatever came before.
    let _ = (rung, cancelled);
    let refusal = Action::Refusal(offerer, 408);
    let actions = [refusal, Action::Bye(offerer.other()), Action::Bye(offerer)];
    ends(alloc, &actions)
}

/// What a signal does.
#[tactic(auto, unfolding(crate::specs::Reasked::reasked_row))]
pub(crate) fn reasked_row(
    alloc: Global,
    rung: bool,
    cancelled: Cancelled,
    offerer: End,
    signal: Signal,
) -> Result<Option<Row>, AllocError>
    ensures { IfOk result (λ r. r ≡ reasked_row rung cancelled offerer signal) }
{
    match signal {
        Signal::Provisional(status) => rings_inside(alloc, rung, cancelled, offerer, status),
        Signal::FitAnswer => fits(alloc, rung, cancelled, offerer),
        Signal::UnfitAnswer => is_unfit(alloc, rung, cancelled, offerer),
        Signal::Refusal(status) => refused_inside(alloc, offerer, status),
        Signal::TimedOut => times_out(alloc, rung, cancelled, offerer),
        Signal::Limit => limits(alloc, rung, cancelled, offerer),
        Signal::Lifetime => outlasts(alloc, offerer, Stage::Reasked(rung, cancelled)),
        Signal::Cancel => cancelled_inside(alloc, rung, cancelled, offerer),
        Signal::Bye(end) => left_inside(alloc, end, offerer),
        _ => Ok(None),
    }
}
