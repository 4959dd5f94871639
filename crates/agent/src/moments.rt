//! Events that are only counted, and when something is due.

ghost use Rattle.std.specs.Prelude.{◌≡◌, nat_le, if◌then◌else◌};
ghost use Rattle.port_pool.specs.RelayTable.{changed_by};
ghost use Rattle.event_rows.specs.Rows.{earlier, only_counts, what_counts};
ghost use Rattle.event_rows.specs.State.{after_count, moment_at, moments_end};

use crate::agent::Agent;
use configuration::is_user_list;
use events::{Event, What};
use plans::{Taken, Why, note_of_taken};
use sip_message::MessageError;

/// Moments end here, in milliseconds.
const MOMENTS_END: u64 = 1 << 60;

/// This many tokens may have been made before an event.
const MAX_TOKENS: u64 = 1 << 63;

/// The most bytes of a datagram.
const MAX_DATAGRAM: usize = 16_384;

/// The lesser of two moments, of those that exist. Takes no memory.
pub(crate) fn earlier(one: Option<u64>, other: Option<u64>) -> Option<u64>
    ensures { result ≡ earlier one other }
{
    match (one, other) {
        (None, other) => other,
        (one, None) => one,
        (Some(one), Some(other)) => Some(one.min(other)),
    }
}

impl Agent {
    fn what_counts(&self, now: u64, what: &What) -> Option<Taken>
        ensures { result ≡ what_counts self.now now what.now }
    {
        match what {
            What::Datagram { bytes, .. } => {
                if bytes.as_bytes().len() > MAX_DATAGRAM {
                    return Some(Taken::Dropped(Why::Unread(MessageError::TooLong)));
                }
                None
            }
            What::Due => {
                if self.table.first_due(now).is_some() || self.calls.first_due(now).is_some() {
                    return None;
                }
                Some(Taken::Idle)
            }
            What::Silent(number) => {
                if self.calls.has_settled(*number) {
                    return None;
                }
                Some(Taken::Idle)
            }
            What::Users(users) => {
                if is_user_list(users.as_slice()) {
                    return None;
                }
                Some(Taken::Idle)
            }
        }
    }

    /// The answer to an event that is only counted: one at a moment that can't be counted, one for which no token is
    /// left, a datagram that is too long, a timer where none is due, silence in no settled call, and users that a
    /// configuration may not list. None for all others. Takes no memory.
    #[tactic(auto, unfolding(event_rows::specs::Rows::only_counts))]
    pub(crate) fn only_counts(&self, event: &Event) -> Option<Taken>
        ensures { result ≡ only_counts self.now event.entry.now }
    {
        if event.now >= MOMENTS_END {
            return Some(Taken::Dropped(Why::Clock));
        }
        if self.tokens >= MAX_TOKENS {
            return Some(Taken::Dropped(Why::Spent));
        }
        self.what_counts(self.moment.max(event.now), &event.what)
    }

    /// Counts an event of this moment that was answered so. Takes no memory.
    pub(crate) fn count(&mut self, now: u64, taken: Taken)
        ensures agent { self.new ≡ after_count self.old (if nat_le moments_end now then self.old.moment else moment_at self.old now) taken }
        ensures leads { changed_by self.old.calls.pool.rows self.new.changes ≡ self.new.calls.pool.rows }
    {
        if now < MOMENTS_END {
            self.moment = self.moment.max(now);
        }
        self.changes = Vec::new(self.alloc);
        self.tally = self.tally.with(taken);
        self.note = note_of_taken(taken);
        self.registered = None;
    }
}
