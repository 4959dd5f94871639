//! Why a REGISTER is refused.

use std::alloc::{AllocError, AllocFailed};
use thiserror::Error;

/// Why a REGISTER is refused (RFC 3261 section 10.3). No binding has changed then.
#[derive(Clone, Copy, Debug, Error)]
pub enum Refusal {
    #[error("out of memory")]
    OutOfMemory,
    /// Answered by 404.
    #[error("B1: unknown user")]
    UnknownUser,
    /// Answered by 400.
    #[error("B2: star misused")]
    StarMisused,
    /// Answered by 423 with Min-Expires.
    #[error("B3: too brief")]
    TooBrief,
    /// Answered by 500.
    #[error("B4: out of order")]
    OutOfOrder,
    /// Answered by 500.
    #[error("B5: too many bindings")]
    TooManyBindings,
    /// Answered by 400.
    #[error("B6: bad contact")]
    BadContact,
}

impl From<AllocError> for Refusal {
    ghost use Rattle.std.specs.Prelude.{◌≡◌};
    ghost use Rattle.registrar.specs.declared.refusal.Refusal.TheVariants.{OutOfMemory};

    ghost from_gives = { λ _ e. e ≡ OutOfMemory };

    fn from(_error: AllocError) -> Self {
        Refusal::OutOfMemory
    }
}

impl<T: Drop> From<AllocFailed<T>> for Refusal {
    ghost use Rattle.std.specs.Prelude.{◌≡◌};
    ghost use Rattle.registrar.specs.declared.refusal.Refusal.TheVariants.{OutOfMemory};

    ghost from_gives = { λ _ e. e ≡ OutOfMemory };

    fn from(_error: AllocFailed<T>) -> Self {
        Refusal::OutOfMemory
    }
}
