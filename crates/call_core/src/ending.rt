//! The end that answered left before the ACK of the 200 to the offerer came.

ghost use Rattle.std.specs.Prelude.{◌≡◌, IfOk};
ghost use Rattle.call_core.specs.Ending.{ending_row};

use crate::action::{Action, CallTimer};
use crate::row::{Row, ends, leads, twice_to_t2};
use crate::signal::Signal;
use crate::stage::Stage;
use call_media::End;
use std::alloc::{AllocError, Global};

#[tactic(auto, unfolding(crate::specs::Ending::ending_row))]
fn repeats(alloc: Global, interval: u64, offerer: End) -> Result<Option<Row>, AllocError>
    ensures { IfOk result (λ r. r ≡ ending_row interval offerer Signal.Repeat) }
{
    let interval = twice_to_t2(interval);
    let again = Action::AnswerAgain(offerer);
    let set = Action::Set(CallTimer::Repeat, interval);
    leads(alloc, &[again, set], offerer, Stage::Ending(interval))
}

#[tactic(auto, unfolding(crate::specs::Ending::ending_row))]
fn leaves(alloc: Global, interval: u64, offerer: End, end: End) -> Result<Option<Row>, AllocError>
    ensures { IfOk result (λ r. r ≡ ending_row interval offerer (Signal.Bye end)) }
{
    // Whenever the 200 went last.
    let _ = interval;
    if end != offerer {
        return Ok(None);
    }
    ends(alloc, &[Action::Okay(offerer)])
}

/// What a signal does.
#[tactic(auto, unfolding(crate::specs::Ending::ending_row))]
pub(crate) fn ending_row(
    alloc: Global,
    interval: u64,
    offerer: End,
    signal: Signal,
) -> Result<Option<Row>, AllocError>
    ensures { IfOk result (λ r. r ≡ ending_row interval offerer signal) }
{
    match signal {
        Signal::Ack | Signal::Wait => ends(alloc, &[Action::Bye(offerer)]),
        Signal::Repeat => repeats(alloc, interval, offerer),
        Signal::Bye(end) => leaves(alloc, interval, offerer, end),
        _ => Ok(None),
    }
}
