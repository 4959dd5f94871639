//! When the counts of events are logged.

ghost use Rattle.std.specs.Prelude.{◌≡◌, ◌≢◌, ◌≤◌, ◌<◌, ◌+◌, ◌⊎◌, IsTrue, false};
ghost use Rattle.event_rows.specs.Tally.{none_counted};
ghost use Rattle.log_rules.specs.Counts.{between_counts, next_after};

use event_rows::Tally;

/// The counts are logged this often at most, in milliseconds.
const BETWEEN_COUNTS: u64 = 600_000;

/// The counts that were logged last, and when they may be logged next, in milliseconds.
#[derive(Clone, Copy)]
pub struct CountSchedule {
    pub(crate) logged: Tally,
    pub(crate) next: u64,
}

/// Whether both have the same counts.
fn are_same(tally: Tally, other: Tally) -> bool
    ensures same { IsTrue result → tally ≡ other }
    ensures other { result ≡ false → tally ≢ other }
{
    tally.done == other.done
        && tally.unread == other.unread
        && tally.stray == other.stray
        && tally.ack == other.ack
        && tally.no_branch == other.no_branch
        && tally.clock == other.clock
        && tally.spent == other.spent
        && tally.shed == other.shed
        && tally.idle == other.idle
}

impl CountSchedule {
    /// Ten minutes after the start, if anything was counted by then. Takes no memory.
    pub fn new() -> CountSchedule
        ensures logged { result.logged ≡ none_counted }
        ensures next { result.next ≡ between_counts }
    {
        CountSchedule {
            logged: Tally::none_counted(),
            next: BETWEEN_COUNTS,
        }
    }

    /// Whether these counts are to be logged at this moment, in milliseconds: ten minutes have passed, and they differ
    /// from those that were logged last. Takes no memory.
    pub fn is_due(&self, tally: Tally, now: u64) -> bool
        ensures due { IsTrue result → (self.now.next ≤ now) × (tally ≢ self.now.logged) }
        ensures not_due { result ≡ false → (now < self.now.next) ⊎ (tally ≡ self.now.logged) }
    {
        self.next <= now && !are_same(tally, self.logged)
    }

    /// These counts were logged at this moment, in milliseconds. Takes no memory.
    pub fn note(&mut self, tally: Tally, now: u64)
        ensures logged { self.new.logged ≡ tally }
        ensures next { self.new.next ≡ next_after now }
    {
        self.logged = tally;
        self.next = now.saturating_add(BETWEEN_COUNTS);
    }
}
