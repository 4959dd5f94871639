//! A row of the table of calls.

ghost use Rattle.std.specs.Prelude.{◌≡◌, ◌∷◌, [], IfOk, Some};
ghost use Rattle.call_core.specs.Rows.{row, gone, first_interval, outlasts, twice_to_t2};

use crate::action::{Action, Actions, CallTimer};
use crate::stage::{Stage, Standing};
use call_media::End;
use std::alloc::{AllocError, Global};
use transaction_machines::{LIMIT, T2};

/// How long the ACK of a 2xx may take, in milliseconds: 64 times T1.
pub(crate) const WAIT: u64 = LIMIT;

/// How long a callee may ring after its first provisional response, in milliseconds.
pub(crate) const RINGING: u64 = 180_000;

/// How long the other end may take after its first provisional response to an offer inside a call, or after a CANCEL,
/// and when a call that has lasted long enough is checked again, in milliseconds.
pub(crate) const SHORT: u64 = LIMIT;

/// What is done for a signal, in order, and the call's standing then: none where it is gone. A call that is gone
/// frees its pairs, which rest, has no row, and its timers stop.
#[derive(Drop)]
pub struct Row {
    pub actions: Actions,
    pub next: Option<Standing>,
}

/// These actions, and the stage that comes next.
pub(crate) fn leads(
    alloc: Global,
    actions: &[Action],
    offerer: End,
    stage: Stage,
) -> Result<Option<Row>, AllocError>
    ensures { IfOk result (λ r. r ≡ Some (row actions.now offerer stage)) }
{
    let actions = Actions::of(alloc, actions)?;
    let next = Some(Standing { offerer, stage });
    Ok(Some(Row { actions, next }))
}

/// These actions, and the call is gone.
pub(crate) fn ends(alloc: Global, actions: &[Action]) -> Result<Option<Row>, AllocError>
    ensures { IfOk result (λ r. r ≡ Some (gone actions.now)) }
{
    let actions = Actions::of(alloc, actions)?;
    Ok(Some(Row {
        actions,
        next: None,
    }))
}

/// The call has lasted long enough, while an offer or its ACK is open: it is checked again later.
pub(crate) fn outlasts(alloc: Global, offerer: End, stage: Stage) -> Result<Option<Row>, AllocError>
    ensures { IfOk result (λ r. r ≡ Some (outlasts offerer stage)) }
{
    let set = Action::Set(CallTimer::Lifetime, SHORT);
    leads(alloc, &[set], offerer, stage)
}

/// Twice the interval, at most T2.
pub(crate) fn twice_to_t2(interval: u64) -> u64
    ensures { result ≡ twice_to_t2 interval }
{
    if interval > T2 / 2 { T2 } else { 2 * interval }
}
