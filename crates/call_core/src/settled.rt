//! No offer is open, and each was answered.

ghost use Rattle.std.specs.Prelude.{◌≡◌, IfOk};
ghost use Rattle.call_core.specs.Settled.{settled_row};

use crate::action::Action;
use crate::row::{Row, ends, leads};
use crate::signal::{OfferMethod, Signal};
use crate::stage::{Cancelled, Stage};
use call_media::End;
use std::alloc::{AllocError, Global};

#[tactic(auto, unfolding(crate::specs::Settled::settled_row))]
fn offers(alloc: Global, offerer: End, method: OfferMethod) -> Result<Option<Row>, AllocError>
    ensures { IfOk result (λ r. r ≡ settled_row (Signal.Offer offerer method)) }
{
    let offer = Action::Offer(offerer.other(), method);
    match method {
        OfferMethod::Invite => {
            let stage = Stage::Reasked(false, Cancelled::Never);
            leads(alloc, &[Action::Trying(offerer), offer], offerer, stage)
        }
        OfferMethod::Update => leads(alloc, &[offer], offerer, Stage::Updating),
    }
}

/// What a signal does.
#[tactic(auto, unfolding(crate::specs::Settled::settled_row))]
pub(crate) fn settled_row(alloc: Global, signal: Signal) -> Result<Option<Row>, AllocError>
    ensures { IfOk result (λ r. r ≡ settled_row signal) }
{
    match signal {
        Signal::Offer(offerer, method) => offers(alloc, offerer, method),
        Signal::Bye(end) => ends(alloc, &[Action::Okay(end), Action::Bye(end.other())]),
        Signal::Lifetime => ends(alloc, &[Action::Bye(End::Caller), Action::Bye(End::Callee)]),
        _ => Ok(None),
    }
}
