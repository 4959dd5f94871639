//! The table of calls.

ghost use Rattle.std.specs.Prelude.{◌≡◌, IfOk, Some};
ghost use Rattle.call_core.specs.Table as table;

use crate::action::Action;
use crate::answered::answered_row;
use crate::asked::asked_row;
use crate::cancelling::cancelling_row;
use crate::ending::ending_row;
use crate::reasked::reasked_row;
use crate::row::{Row, leads};
use crate::settled::settled_row;
use crate::signal::{OfferMethod, Signal};
use crate::stage::{Stage, Standing};
use crate::updating::updating_row;
use call_media::End;
use std::alloc::{AllocError, Global};

/// The row of the first offer, which the caller makes.
pub fn first_row(alloc: Global) -> Result<Option<Row>, AllocError>
    ensures { IfOk result (λ r. r ≡ Some table.first_row) }
{
    let offer = Action::Offer(End::Callee, OfferMethod::Invite);
    let actions = [Action::Trying(End::Caller), offer];
    leads(alloc, &actions, End::Caller, Stage::Asked(false))
}

/// What a signal does where the call has this standing; none where it has no line there, and then it changes nothing.
#[tactic(auto, unfolding(crate::specs::Table::row_of))]
pub fn row_at(alloc: Global, standing: Standing, signal: Signal) -> Result<Option<Row>, AllocError>
    ensures { IfOk result (λ r. r ≡ table.row_of standing signal) }
{
    let offerer = standing.offerer;
    match standing.stage {
        Stage::Asked(rung) => asked_row(alloc, rung, offerer, signal),
        Stage::Cancelling(sent) => cancelling_row(alloc, sent, offerer, signal),
        Stage::Answered(interval) => answered_row(alloc, false, interval, offerer, signal),
        Stage::Settled => settled_row(alloc, signal),
        Stage::Reasked(rung, cancelled) => { reasked_row(alloc, rung, cancelled, offerer, signal) }
        Stage::Reanswered(interval) => answered_row(alloc, true, interval, offerer, signal),
        Stage::Updating => updating_row(alloc, offerer, signal),
        Stage::Ending(interval) => ending_row(alloc, interval, offerer, signal),
    }
}
