//! Why a call is refused.

use std::alloc::{AllocError, AllocFailed};
use thiserror::Error;

/// Why a call is refused. The table is then as it was.
#[derive(Clone, Copy, Debug, Error)]
pub enum TableError {
    #[error("out of memory")]
    OutOfMemory,
    /// No transaction has the number, or it is not one that takes the call, or the timer is not set or not due.
    #[error("X1: no such transaction")]
    Unknown,
    /// The core has given a final response before, and this is not a further 2xx in Accepted.
    #[error("X2: answer after a final one")]
    AfterFinal,
    /// There are as many server transactions as there may be.
    #[error("X3: too many transactions")]
    Full,
}

impl From<AllocError> for TableError {
    ghost use Rattle.std.specs.Prelude.{◌≡◌};
    ghost use Rattle.transactions.specs.declared.error.TableError.TheVariants.{OutOfMemory};

    ghost from_gives = { λ _ e. e ≡ OutOfMemory };

    fn from(_error: AllocError) -> Self {
        TableError::OutOfMemory
    }
}

impl<T: Drop> From<AllocFailed<T>> for TableError {
    ghost use Rattle.std.specs.Prelude.{◌≡◌};
    ghost use Rattle.transactions.specs.declared.error.TableError.TheVariants.{OutOfMemory};

    ghost from_gives = { λ _ e. e ≡ OutOfMemory };

    fn from(_error: AllocFailed<T>) -> Self {
        TableError::OutOfMemory
    }
}
