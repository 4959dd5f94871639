//! Why an offer is not passed on.

use crate::clash::Clash;
use call_media::OfferRefusal;
use offer_answer::OfferFault;
use std::alloc::AllocError;
use thiserror::Error;

/// Why what reached a call is refused. Nothing changes then, neither the call nor the pool.
#[derive(Clone, Copy, Debug, Error)]
pub enum CallRefusal {
    #[error("out of memory")]
    OutOfMemory,
    /// Another offer is open: K1 is answered 491, K2 500 with Retry-After.
    #[error("{0}")]
    Crosses(Clash),
    /// The offer has no description that can be read: 488.
    #[error("K3: no description")]
    Undescribed,
    /// The end may not make the offer, or the relay doesn't carry it: 488.
    #[error("K3: {0}")]
    Unfit(OfferFault),
    /// Too few pairs are free: 503.
    #[error("K4: no ports")]
    NoPorts,
    /// No number is left for a request to the other end: 500.
    #[error("K5: number at its end")]
    NumberAtItsEnd,
}

impl From<AllocError> for CallRefusal {
    ghost use Rattle.std.specs.Prelude.{◌≡◌};
    ghost use Rattle.call_core.specs.declared.refusal.CallRefusal.TheVariants.{OutOfMemory};

    ghost from_gives = { λ _ e. e ≡ OutOfMemory };

    fn from(_error: AllocError) -> Self {
        CallRefusal::OutOfMemory
    }
}

impl From<OfferRefusal> for CallRefusal {
    ghost use Rattle.std.specs.Prelude.{◌≡◌};
    ghost use Rattle.call_core.specs.Refusals.{refusal_of};

    ghost from_gives = { λ refusal e. e ≡ refusal_of refusal };

    fn from(refusal: OfferRefusal) -> Self {
        match refusal {
            OfferRefusal::OutOfMemory => CallRefusal::OutOfMemory,
            OfferRefusal::Unfit(fault) => CallRefusal::Unfit(fault),
            OfferRefusal::NoPorts => CallRefusal::NoPorts,
        }
    }
}
