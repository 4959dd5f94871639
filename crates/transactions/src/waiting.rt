//! How long an INVITE of the server's own that begins a dialog waits for its first response.

ghost use Rattle.std.specs.Prelude.{◌≡◌};
ghost use Rattle.transaction_machines.specs.Steps.{IsShort};
ghost use Rattle.transactions.specs.Changes.{starts_count};
ghost use Rattle.transactions.specs.Waiting.{begins_dialog, limited, sooner, starts_within};

use crate::matches::has_to_tag;
use sip_message::{Parts, is_method};
use transaction_machines::{Start, Starts};

// Whether it is the INVITE that begins a dialog, by To and by its number (RFC 3261 section 8.1.1.2).
fn begins_dialog(parts: &Parts) -> bool
    ensures { result ≡ begins_dialog parts.now }
{
    is_method(parts, b"INVITE") && !has_to_tag(parts) && parts.cseq.number == 1
}

// The same timer, after at most this many milliseconds.
fn sooner(wait: u64, start: Start) -> Start
    ensures { result ≡ sooner wait start }
{
    Start {
        kind: start.kind,
        after: wait.min(start.after),
    }
}

// The second of two timers is the one that gives up.
fn limited(wait: u64, starts: Starts) -> Starts
    ensures { result ≡ limited wait starts }
{
    match starts {
        Starts::NoTimer => Starts::NoTimer,
        Starts::One(start) => Starts::One(start),
        Starts::Two(start, last) => Starts::Two(start, sooner(wait, last)),
    }
}

/// The timers of a new transaction whose request has these parts: an INVITE that begins a dialog waits at most this
/// many milliseconds for its first response. They are as many, of the same letters, and none runs longer.
#[tactic(auto, unfolding(crate::specs::Waiting::starts_within))]
pub(crate) fn starts_within(wait: u64, parts: &Parts, starts: Starts) -> Starts
    requires { IsShort starts }
    ensures starts { result ≡ starts_within wait parts.now starts }
    ensures count { starts_count result ≡ starts_count starts }
    ensures short { IsShort result }
{
    if begins_dialog(parts) {
        limited(wait, starts)
    } else {
        starts
    }
}
