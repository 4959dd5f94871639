//! The end of the signalling.

ghost use Rattle.std.specs.Prelude.{◌≡◌, ◌<◌, ◌≤◌, ◌∷◌, ◌++◌, [], true, false, min, if◌then◌else◌};
ghost use Rattle.rtrb.specs.Ring.{known_items, received, sent};
ghost use Rattle.page_desk.specs.Rings.{TakesOne, IsPassedOn};
ghost use Rattle.page_desk.specs.Snapshots.{next_after};

use rtrb::{Consumer, Producer};
use status::Status;

/// This many milliseconds pass between two snapshots at least.
const BETWEEN_SNAPSHOTS: u64 = 1_000;

/// What the signalling has of the page, for which it never waits: what finds no room is left out.
#[derive(Drop)]
pub struct StatusDesk {
    /// A byte for each question.
    pub(crate) asked: Consumer<u8>,
    pub(crate) moments: Producer<u64>,
    pub(crate) statuses: Producer<Status>,
    pub(crate) lines: Producer<u8>,
    /// When the next snapshot may be made, in milliseconds.
    pub(crate) next: u64,
}

impl StatusDesk {
    /// Passes on the current time, in milliseconds. Returns whether a snapshot of this moment is asked for and due; the
    /// question is answered then, and the next snapshot is due a second later. Takes no memory.
    pub fn look(&mut self, now: u64) -> bool
        ensures moment { IsPassedOn (now ∷ []) self.old.moments self.new.moments }
        ensures due { result ≡ true → (self.old.next ≤ now) × TakesOne (received self.old.asked) (received self.new.asked) × (self.new.next ≡ next_after now) }
        ensures not_due { result ≡ false → (received self.new.asked ≡ received self.old.asked) × (self.new.next ≡ self.old.next) }
        ensures unasked { result ≡ false → self.old.next ≤ now → known_items self.new.asked ≡ [] }
        ensures statuses { sent self.new.statuses ≡ sent self.old.statuses }
        ensures lines { sent self.new.lines ≡ sent self.old.lines }
    {
        let _ = self.moments.push(now);
        if now < self.next || self.asked.pop().is_err() {
            return false;
        }
        self.next = now.saturating_add(BETWEEN_SNAPSHOTS);
        true
    }

    /// Passes a snapshot on. Takes no memory.
    pub fn put_status(&mut self, status: Status)
        ensures status { IsPassedOn (status ∷ []) self.old.statuses self.new.statuses }
        ensures moments { sent self.new.moments ≡ sent self.old.moments }
        ensures asked { received self.new.asked ≡ received self.old.asked }
        ensures lines { sent self.new.lines ≡ sent self.old.lines }
        ensures next { self.new.next ≡ self.old.next }
    {
        let _ = self.statuses.push(status);
    }

    /// Passes lines of the log on, all of these or none. Takes no memory.
    pub fn put_lines(&mut self, lines: &[u8])
        ensures lines { IsPassedOn lines.now self.old.lines self.new.lines }
        ensures moments { sent self.new.moments ≡ sent self.old.moments }
        ensures asked { received self.new.asked ≡ received self.old.asked }
        ensures statuses { sent self.new.statuses ≡ sent self.old.statuses }
        ensures next { self.new.next ≡ self.old.next }
    {
        let _ = self.lines.push_entire_slice(lines);
    }
}
