//! Why a text is not a URI.

ghost use Rattle.std.specs.Prelude.{◌≡◌};
ghost use Rattle.sip_uri.specs.declared.error.UriError.TheVariants.{OutOfMemory};

use std::alloc::{AllocError, AllocFailed};
use thiserror::Error;

/// Why a text is not a URI (RFC 3261 section 25.1): the first fault in the order of the variants, or a lack of
/// memory.
#[derive(Clone, Copy, Debug, Error)]
pub enum UriError {
    #[error("out of memory")]
    OutOfMemory,
    /// The text does not begin with `sip:`, ignoring case.
    #[error("U1: other scheme")]
    Scheme,
    /// The text does not have the form of a URI, even if every `%` is allowed.
    #[error("U2: malformed")]
    Malformed,
    /// A `%` is not followed by two hexadecimal digits.
    #[error("U3: bad escape")]
    BadEscape,
    /// The port is 0 or above 65535.
    #[error("U4: port not in 1 to 65535")]
    Port,
}

impl From<AllocError> for UriError {
    ghost from_gives = { λ _ e. e ≡ OutOfMemory };

    fn from(_e: AllocError) -> UriError {
        UriError::OutOfMemory
    }
}

impl<T: Drop> From<AllocFailed<T>> for UriError {
    ghost from_gives = { λ _ e. e ≡ OutOfMemory };

    fn from(_e: AllocFailed<T>) -> UriError {
        UriError::OutOfMemory
    }
}
