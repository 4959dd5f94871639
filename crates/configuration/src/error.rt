//! Why a configuration is refused.

use std::alloc::{AllocError, AllocFailed};
use thiserror::Error;

/// Why a configuration is refused: the first rule, in the order of the variants, that it breaks, or a lack of memory.
/// For a file, `File` comes before them.
#[derive(Clone, Copy, Debug, Error)]
pub enum ConfigError {
    #[error("out of memory")]
    OutOfMemory,
    /// The first relay port is odd or below 1024; the pairs are none or more than 2,048; the last port is above
    /// 65535; or the port for SIP is one of them.
    #[error("C1: relay ports")]
    RelayPorts,
    /// The address is no IPv4 address in dotted form, or 0.0.0.0, or 224.0.0.0 or above, or the port for SIP is not in
    /// 1 to 65535.
    #[error("C2: address or port")]
    Address,
    /// There is no user, or more than 1,000; one is not 1 to 64 letters, digits, `-`, `_` or `.`; one occurs twice; a
    /// range has other than 1 to 9 digits at both ends, or a first number above its last.
    #[error("C3: users")]
    Users,
    /// The minimum lifetime of a binding is not in 1 to 3600 seconds.
    #[error("C4: least lifetime")]
    MinExpires,
    /// The domain is no host name.
    #[error("C5: domain")]
    Domain,
    /// The text is not TOML, has another key, lacks one, or has a value of another type; the workers are not 1 to 8;
    /// the seconds for a first response are not 1 to 32; the key of the random numbers is not 64 hexadecimal digits;
    /// the word of the log is unknown; the page's address is not one, or not of loopback although the page is not
    /// open.
    #[error("C6: file")]
    File,
    /// The minutes without media are not 1 to 1440, or the hours of the longest call not 1 to 168.
    #[error("C7: call duration limit")]
    CallDuration,
    /// The maximum number of live transactions for one source address is not 1 to 4096.
    #[error("C8: share of one source address")]
    SourceShare,
}

impl From<AllocError> for ConfigError {
    ghost use Rattle.std.specs.Prelude.{◌≡◌};
    ghost use Rattle.configuration.specs.declared.error.ConfigError.TheVariants.{OutOfMemory};

    ghost from_gives = { λ _ e. e ≡ OutOfMemory };

    fn from(_error: AllocError) -> ConfigError {
        ConfigError::OutOfMemory
    }
}

impl<T: Drop> From<AllocFailed<T>> for ConfigError {
    ghost use Rattle.std.specs.Prelude.{◌≡◌};
    ghost use Rattle.configuration.specs.declared.error.ConfigError.TheVariants.{OutOfMemory};

    ghost from_gives = { λ _ e. e ≡ OutOfMemory };

    fn from(_error: AllocFailed<T>) -> ConfigError {
        ConfigError::OutOfMemory
    }
}
