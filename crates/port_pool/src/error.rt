//! Why the pool refuses what a call asks for.

use std::alloc::AllocError;
use thiserror::Error;

/// Why a call gets no pairs, or frees none. The pool is then as it was.
#[derive(Clone, Copy, Debug, Error)]
pub enum PoolError {
    #[error("out of memory")]
    OutOfMemory,
    /// Fewer pairs are free than the call asked for.
    #[error("P1: too few pairs")]
    TooFew,
    /// The call does not hold the pair.
    #[error("P2: not the call's pair")]
    NotHeld,
}

impl From<AllocError> for PoolError {
    ghost use Rattle.std.specs.Prelude.{◌≡◌};
    ghost use Rattle.port_pool.specs.declared.error.PoolError.TheVariants.{OutOfMemory};

    ghost from_gives = { λ _ e. e ≡ OutOfMemory };

    fn from(_error: AllocError) -> Self {
        PoolError::OutOfMemory
    }
}
