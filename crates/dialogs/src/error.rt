//! Why a dialog refuses a request, or has none to send.

ghost use Rattle.std.specs.Prelude.{◌≡◌};
ghost use Rattle.dialogs.specs.declared.error.DialogError.TheVariants.{OutOfMemory};

use std::alloc::AllocError;
use thiserror::Error;

/// Why a dialog refuses a request, or has none to send. The dialog is then as it was.
#[derive(Clone, Copy, Debug, Error)]
pub enum DialogError {
    #[error("out of memory")]
    OutOfMemory,
    /// The number of a request is not above the last one of its sender (RFC 3261 section 12.2.2).
    #[error("G1: number not above the last one")]
    OldNumber,
    /// Sequence numbers are below 2^31 (RFC 3261 section 8.1.1.5), and the last one is kept for a BYE.
    #[error("G2: no number left")]
    NoNumberLeft,
}

impl From<AllocError> for DialogError {
    ghost from_gives = { λ _ e. e ≡ OutOfMemory };

    fn from(_error: AllocError) -> DialogError {
        DialogError::OutOfMemory
    }
}
