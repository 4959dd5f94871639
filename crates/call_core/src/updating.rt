//! An UPDATE was passed on, and has no final response (RFC 3311).

ghost use Rattle.std.specs.Prelude.{◌≡◌, IfOk, Some};
ghost use Rattle.call_core.specs.Updating.{fails, update_refused, updating_row};

use crate::action::Action;
use crate::reasked::has_lost_the_call;
use crate::refusal_status::status_passed_on;
use crate::row::{Row, ends, leads, outlasts};
use crate::signal::Signal;
use crate::stage::Stage;
use call_media::End;
use std::alloc::{AllocError, Global};

/// Both ends are left, and the offerer's UPDATE is refused.
fn fails(alloc: Global, offerer: End, status: u16) -> Result<Option<Row>, AllocError>
    ensures { IfOk result (λ r. r ≡ Some (fails offerer status)) }
{
    let refusal = Action::Refusal(offerer, status);
    let actions = [refusal, Action::Bye(offerer.other()), Action::Bye(offerer)];
    ends(alloc, &actions)
}

fn update_refused(alloc: Global, offerer: End, status: u16) -> Result<Option<Row>, AllocError>
    ensures { IfOk result (λ r. r ≡ Some (update_refused offerer status)) }
{
    if has_lost_the_call(status) {
        return fails(alloc, offerer, status);
    }
    let refusal = Action::Refusal(offerer, status_passed_on(status));
    leads(alloc, &[refusal, Action::Release], offerer, Stage::Settled)
}

/// What a signal does.
#[tactic(auto, unfolding(crate::specs::Updating::updating_row))]
pub(crate) fn updating_row(
    alloc: Global,
    offerer: End,
    signal: Signal,
) -> Result<Option<Row>, AllocError>
    ensures { IfOk result (λ r. r ≡ updating_row offerer signal) }
{
    match signal {
        Signal::FitAnswer => {
            let actions = [Action::PutRows, Action::Answer(offerer)];
            leads(alloc, &actions, offerer, Stage::Settled)
        }
        Signal::UnfitAnswer => fails(alloc, offerer, 500),
        Signal::Refusal(status) => update_refused(alloc, offerer, status),
        Signal::TimedOut => fails(alloc, offerer, 408),
        Signal::Bye(end) => {
            let refusal = Action::Refusal(offerer, 487);
            ends(
                alloc,
                &[Action::Okay(end), refusal, Action::Bye(end.other())],
            )
        }
        Signal::Lifetime => outlasts(alloc, offerer, Stage::Updating),
        _ => Ok(None),
    }
}
