//! The moments of a connection.

ghost use Rattle.std.specs.Prelude.{◌≡◌, ◌+◌, ◌≤◌, ◌↔◌, IsTrue};
ghost use Rattle.page_server.specs.Held.{max_stay};

/// The maximum lifetime of a connection, in milliseconds, however often its stage changes.
const MAX_STAY: u64 = 16_000;

/// When a connection was accepted, and since when it has been at its stage, in milliseconds.
#[derive(Clone, Copy)]
pub(crate) struct Moments {
    pub(crate) accepted: u64,
    pub(crate) since: u64,
}

/// The moments of a connection that is accepted now.
pub(crate) fn new_moments(now: u64) -> Moments
    ensures { result ≡ record { accepted = now; since = now } }
{
    Moments {
        accepted: now,
        since: now,
    }
}

impl Moments {
    /// The moments of the connection when its next stage begins now.
    pub(crate) fn begin(self, now: u64) -> Moments
        ensures { result ≡ record self { since = now } }
    {
        Moments { since: now, ..self }
    }

    /// Whether the connection has lasted as long as one may.
    pub(crate) fn is_over(self, now: u64) -> bool
        ensures { IsTrue result ↔ (self.accepted + max_stay ≤ now) }
    {
        now.saturating_sub(self.accepted) >= MAX_STAY
    }
}
