//! The clock of the signalling.

ghost use Rattle.std.specs.Prelude.{◌≡◌, ◌≤◌, [], IfOk};

use live::{Clock as Moments, NumberLog};
use std::io;
use std::rt::Clock;
use std::time::Duration;

/// The system's clock, from the start on, in milliseconds. Its moments never fall: if the system refuses one, or gives
/// an earlier one, the last is given again.
#[derive(Drop)]
pub struct SystemClock<'a, R> {
    rt: &'a R,
    start: Duration,
    /// The last moment that it gave.
    last: u64,
    /// The moments that it gave. Only clauses read it.
    told: NumberLog,
}

impl<'a, R: Clock> SystemClock<'a, R> {
    /// A clock that starts now. An error if the system has no clock.
    pub fn new(rt: &'a R) -> io::Result<SystemClock<'a, R>>
        ensures last { IfOk result (λ clock. clock.last ≡ 0) }
        ensures told { IfOk result (λ clock. clock.told.entries ≡ []) }
    {
        let start = rt.monotonic()?;
        Ok(SystemClock {
            rt,
            start,
            last: 0,
            told: NumberLog::new(),
        })
    }
}

impl<R: Clock> Moments for SystemClock<'_, R> {
    ghost told = { λ clock. clock.told.entries };

    ghost use Rattle.std.specs.Prelude.{◌≡◌, ◌≤◌, ◌∷◌, ◌++◌, []};

    fn now(&mut self) -> u64
        ensures told { self.new.told.entries ≡ self.old.told.entries ++ result ∷ [] }
        ensures rises { self.old.last ≤ result }
        ensures last { self.new.last ≡ result }
    {
        if let Ok(moment) = self.rt.monotonic() {
            let since = moment.saturating_sub(self.start);
            if let Ok(millis) = u64::try_from(since.as_millis()) {
                self.last = self.last.max(millis);
            }
        }
        self.told.note(self.last);
        self.last
    }
}
