//! Why an offer or an answer is not passed on.

use offer_answer::{AnswerFault, OfferFault};
use std::alloc::AllocError;
use thiserror::Error;

/// Why an offer is not passed on. Nothing changes then.
#[derive(Clone, Copy, Debug, Error)]
pub enum OfferRefusal {
    #[error("out of memory")]
    OutOfMemory,
    /// The relay doesn't carry the offer: 488.
    #[error("K3: {0}")]
    Unfit(OfferFault),
    /// Too few pairs are free: 503.
    #[error("K4: no ports")]
    NoPorts,
}

impl From<AllocError> for OfferRefusal {
    ghost use Rattle.std.specs.Prelude.{◌≡◌};
    ghost use Rattle.call_media.specs.declared.refusal.OfferRefusal.TheVariants.{OutOfMemory};

    ghost from_gives = { λ _ e. e ≡ OutOfMemory };

    fn from(_error: AllocError) -> Self {
        OfferRefusal::OutOfMemory
    }
}

/// Why an answer is not passed on. Nothing changes then.
#[derive(Clone, Copy, Debug, Error)]
pub enum AnswerRefusal {
    #[error("out of memory")]
    OutOfMemory,
    /// The answer doesn't fit the offer, or the relay doesn't carry it.
    #[error("{0}")]
    Unfit(AnswerFault),
}

impl From<AllocError> for AnswerRefusal {
    ghost use Rattle.std.specs.Prelude.{◌≡◌};
    ghost use Rattle.call_media.specs.declared.refusal.AnswerRefusal.TheVariants.{OutOfMemory};

    ghost from_gives = { λ _ e. e ≡ OutOfMemory };

    fn from(_error: AllocError) -> Self {
        AnswerRefusal::OutOfMemory
    }
}

impl From<AnswerFault> for AnswerRefusal {
    ghost use Rattle.std.specs.Prelude.{◌≡◌};
    ghost use Rattle.call_media.specs.declared.refusal.AnswerRefusal.TheVariants.{Unfit};

    ghost from_gives = { λ fault e. e ≡ Unfit fault };

    fn from(fault: AnswerFault) -> Self {
        AnswerRefusal::Unfit(fault)
    }
}
