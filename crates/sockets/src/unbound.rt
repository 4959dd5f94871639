//! Why sockets could not be opened.

use sip_uri::Addr;
use std::alloc::{AllocError, AllocFailed};
use std::io::ErrorKind;
use std::{fmt, io};

/// Why the sockets of a configuration could not be opened.
#[derive(Clone, Copy)]
pub struct Unbound {
    /// Where, if it was at a port.
    pub place: Option<Addr>,
    /// The system's kind of error.
    pub kind: ErrorKind,
    /// The system's error number, for errors without a kind.
    pub code: Option<i32>,
}

impl Unbound {
    /// At a port.
    pub(crate) fn at(place: Addr, error: &io::Error) -> Unbound {
        Unbound {
            place: Some(place),
            kind: error.kind(),
            code: error.raw_os_error(),
        }
    }

    fn of_memory() -> Unbound {
        Unbound {
            place: None,
            kind: ErrorKind::OutOfMemory,
            code: None,
        }
    }
}

impl From<io::Error> for Unbound {
    fn from(error: io::Error) -> Unbound {
        Unbound {
            place: None,
            kind: error.kind(),
            code: error.raw_os_error(),
        }
    }
}

impl From<AllocError> for Unbound {
    fn from(_error: AllocError) -> Unbound {
        Unbound::of_memory()
    }
}

impl<T: Drop> From<AllocFailed<T>> for Unbound {
    fn from(_error: AllocFailed<T>) -> Unbound {
        Unbound::of_memory()
    }
}

impl fmt::Display for Unbound {
    fn fmt<W: fmt::Write>(&self, f: &mut fmt::Formatter<W>) -> fmt::Result {
        if let Some(place) = self.place {
            let [a, b, c, d] = place.ip;
            write!(f, "{a}.{b}.{c}.{d}:{}: ", place.port)?;
        }
        match (self.kind, self.code) {
            (ErrorKind::Uncategorized, Some(code)) => write!(f, "error {code} of the system"),
            (kind, _) => write!(f, "{kind}"),
        }
    }
}
