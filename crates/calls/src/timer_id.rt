//! Timers of calls.

use call_core::CallTimer;

/// A timer of a call, by the number of the call.
#[derive(Clone, Copy, PartialEq, Eq, PartialOrd, Ord)]
pub struct CallTimerId {
    pub number: u64,
    pub timer: CallTimer,
}
