//! Why bytes are not a message.

ghost use Rattle.std.specs.Prelude.{◌≡◌};
ghost use Rattle.sip_message.specs.declared.error.MessageError.TheVariants.{OutOfMemory};

use crate::header_names::HeaderName;
use std::alloc::{AllocError, AllocFailed};
use thiserror::Error;

/// The first fault of a datagram, or a lack of memory. The faults are checked in this order: `TooLong`, `StartLine`,
/// `Version`, `HeaderLine`. Then comes each header in the order of `HeaderName`, first `Missing` and then
/// `Unreadable`, and then `Short`.
#[derive(Clone, Copy, Debug, Error)]
pub enum MessageError {
    #[error("out of memory")]
    OutOfMemory,
    #[error("M1: bad start line")]
    StartLine,
    #[error("M2: bad version")]
    Version,
    #[error("M3: bad header line")]
    HeaderLine,
    #[error("M4: no {0}")]
    Missing(HeaderName),
    #[error("M5: bad {0}")]
    Unreadable(HeaderName),
    #[error("M6: body shorter than Content-Length")]
    Short,
    #[error("M7: too long")]
    TooLong,
}

impl From<AllocError> for MessageError {
    ghost from_gives = { λ _ e. e ≡ OutOfMemory };

    fn from(_e: AllocError) -> MessageError {
        MessageError::OutOfMemory
    }
}

impl<T: Drop> From<AllocFailed<T>> for MessageError {
    ghost from_gives = { λ _ e. e ≡ OutOfMemory };

    fn from(_e: AllocFailed<T>) -> MessageError {
        MessageError::OutOfMemory
    }
}
