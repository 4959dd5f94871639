//! Why a text is not a description.

ghost use Rattle.std.specs.Prelude.{◌≡◌};
ghost use Rattle.sdp.specs.declared.error.DescriptionError.TheVariants.{OutOfMemory};

use std::alloc::{AllocError, AllocFailed};
use thiserror::Error;

/// Why a text is not a description (RFC 4566): the first fault in the order of the variants, or a lack of memory.
#[derive(Clone, Copy, Debug, Error)]
pub enum DescriptionError {
    #[error("out of memory")]
    OutOfMemory,
    /// The lines are not in order, by their first bytes.
    #[error("S1: lines out of order")]
    Order,
    /// A line is not `type=value`, or its value has a NUL or CR.
    #[error("S2: bad line")]
    LineForm,
    /// The version is not 0.
    #[error("S3: bad version")]
    Version,
    /// The `o=` line does not have six well-formed fields.
    #[error("S4: bad origin")]
    Origin,
    /// A `c=` line does not have an address.
    #[error("S5: bad connection")]
    Connection,
    /// An `m=` line does not have the parts of a medium.
    #[error("S6: bad medium")]
    Medium,
    /// A medium with a port that is not 0 has no address, and neither does the session.
    #[error("S7: no connection for a medium")]
    NoConnection,
    /// There are more than 8 media.
    #[error("S8: too many media")]
    TooManyMedia,
    /// A medium has more than 32 formats.
    #[error("S9: too many formats")]
    TooManyFormats,
}

impl From<AllocError> for DescriptionError {
    ghost from_gives = { λ _ e. e ≡ OutOfMemory };

    fn from(_e: AllocError) -> DescriptionError {
        DescriptionError::OutOfMemory
    }
}

impl<T: Drop> From<AllocFailed<T>> for DescriptionError {
    ghost from_gives = { λ _ e. e ≡ OutOfMemory };

    fn from(_e: AllocFailed<T>) -> DescriptionError {
        DescriptionError::OutOfMemory
    }
}
