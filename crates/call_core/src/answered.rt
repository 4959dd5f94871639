//! The offerer was sent a 200 with the answer, whose ACK has not come.

ghost use Rattle.std.specs.Prelude.{◌≡◌, IfOk};
ghost use Rattle.call_core.specs.Answered.{answered_row, waiting};

use crate::action::{Action, CallTimer};
use crate::row::{Row, ends, leads, outlasts, twice_to_t2};
use crate::signal::Signal;
use crate::stage::Stage;
use call_media::End;
use std::alloc::{AllocError, Global};

/// The stage of the first INVITE, or of one inside the call.
fn waiting_stage(inside: bool, interval: u64) -> Stage
    ensures { result ≡ waiting inside interval }
{
    if inside {
        Stage::Reanswered(interval)
    } else {
        Stage::Answered(interval)
    }
}

#[tactic(auto, unfolding(crate::specs::Answered::answered_row))]
fn repeats(
    alloc: Global,
    inside: bool,
    interval: u64,
    offerer: End,
) -> Result<Option<Row>, AllocError>
    ensures { IfOk result (λ r. r ≡ answered_row inside interval offerer Signal.Repeat) }
{
    let interval = twice_to_t2(interval);
    let again = Action::AnswerAgain(offerer);
    let set = Action::Set(CallTimer::Repeat, interval);
    leads(
        alloc,
        &[again, set],
        offerer,
        waiting_stage(inside, interval),
    )
}

#[tactic(auto, unfolding(crate::specs::Answered::answered_row))]
fn leaves(
    alloc: Global,
    inside: bool,
    interval: u64,
    offerer: End,
    end: End,
) -> Result<Option<Row>, AllocError>
    ensures { IfOk result (λ r. r ≡ answered_row inside interval offerer (Signal.Bye end)) }
{
    // Both stages are left the same way.
    let _ = inside;
    let across = offerer.other();
    if end == offerer {
        return ends(alloc, &[Action::Okay(offerer), Action::Bye(across)]);
    }
    let actions = [Action::Okay(across), Action::RemoveRows];
    leads(alloc, &actions, offerer, Stage::Ending(interval))
}

/// What a signal does.
#[tactic(auto, unfolding(crate::specs::Answered::answered_row))]
pub(crate) fn answered_row(
    alloc: Global,
    inside: bool,
    interval: u64,
    offerer: End,
    signal: Signal,
) -> Result<Option<Row>, AllocError>
    ensures { IfOk result (λ r. r ≡ answered_row inside interval offerer signal) }
{
    match signal {
        Signal::Ack => {
            let stops = [
                Action::Stop(CallTimer::Repeat),
                Action::Stop(CallTimer::Wait),
            ];
            leads(alloc, &stops, offerer, Stage::Settled)
        }
        Signal::Repeat => repeats(alloc, inside, interval, offerer),
        Signal::Wait => ends(alloc, &[Action::Bye(offerer), Action::Bye(offerer.other())]),
        Signal::Lifetime => outlasts(alloc, offerer, waiting_stage(inside, interval)),
        Signal::Bye(end) => leaves(alloc, inside, interval, offerer, end),
        _ => Ok(None),
    }
}
