//! Why bytes are no script.

use std::alloc::{AllocError, AllocFailed};
use thiserror::Error;

/// Why bytes are no script, or a lack of memory.
#[derive(Clone, Copy, Debug, Error)]
pub enum ScriptError {
    #[error("out of memory")]
    OutOfMemory,
    /// A line is none of the four, a number of it is out of range, its datagram ends too early, or a line feed is
    /// missing.
    #[error("script")]
    Malformed,
}

impl From<AllocError> for ScriptError {
    ghost use Rattle.std.specs.Prelude.{◌≡◌};
    ghost use Rattle.scripts.specs.declared.error.ScriptError.TheVariants.{OutOfMemory};

    ghost from_gives = { λ _ e. e ≡ OutOfMemory };

    fn from(_error: AllocError) -> ScriptError {
        ScriptError::OutOfMemory
    }
}

impl<T: Drop> From<AllocFailed<T>> for ScriptError {
    ghost use Rattle.std.specs.Prelude.{◌≡◌};
    ghost use Rattle.scripts.specs.declared.error.ScriptError.TheVariants.{OutOfMemory};

    ghost from_gives = { λ _ e. e ≡ OutOfMemory };

    fn from(_error: AllocFailed<T>) -> ScriptError {
        ScriptError::OutOfMemory
    }
}
