//! The first INVITE was given up, and has no final response.

ghost use Rattle.std.specs.Prelude.{◌≡◌, IfOk};
ghost use Rattle.call_core.specs.Cancelling.{cancelling_row};

use crate::action::{Action, CallTimer};
use crate::row::{Row, SHORT, ends, leads};
use crate::signal::Signal;
use crate::stage::Stage;
use call_media::End;
use std::alloc::{AllocError, Global};

/// The CANCEL that waits for a provisional response is sent after the first one.
#[tactic(auto, unfolding(crate::specs::Cancelling::cancelling_row))]
fn rings(alloc: Global, sent: bool, offerer: End, status: u16) -> Result<Option<Row>, AllocError>
    ensures { IfOk result (λ r. r ≡ cancelling_row sent offerer (Signal.Provisional status)) }
{
    // The status changes nothing.
    let _ = status;
    if sent {
        return leads(alloc, &[], offerer, Stage::Cancelling(true));
    }
    let cancel = Action::Cancel(offerer.other());
    let set = Action::Set(CallTimer::Limit, SHORT);
    leads(alloc, &[cancel, set], offerer, Stage::Cancelling(true))
}

#[tactic(auto, unfolding(crate::specs::Cancelling::cancelling_row))]
fn limits(alloc: Global, sent: bool, offerer: End) -> Result<Option<Row>, AllocError>
    ensures { IfOk result (λ r. r ≡ cancelling_row sent offerer Signal.Limit) }
{
    if !sent {
        return Ok(None);
    }
    ends(alloc, &[Action::Abandon(offerer.other())])
}

/// What a signal does.
#[tactic(auto, unfolding(crate::specs::Cancelling::cancelling_row))]
pub(crate) fn cancelling_row(
    alloc: Global,
    sent: bool,
    offerer: End,
    signal: Signal,
) -> Result<Option<Row>, AllocError>
    ensures { IfOk result (λ r. r ≡ cancelling_row sent offerer signal) }
{
    let callee = offerer.other();
    match signal {
        Signal::Provisional(status) => rings(alloc, sent, offerer, status),
        Signal::FitAnswer | Signal::UnfitAnswer => {
            ends(alloc, &[Action::Ack(callee), Action::Bye(callee)])
        }
        Signal::Refusal(_) | Signal::TimedOut => ends(alloc, &[]),
        Signal::Limit => limits(alloc, sent, offerer),
        _ => Ok(None),
    }
}
