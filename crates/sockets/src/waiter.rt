//! What waits for sockets.

ghost use Rattle.std.specs.Prelude.{◌≡◌, ◌≤◌, [], ◌∷◌, ◌++◌, length, IfOk};
ghost use Rattle.mio.specs.Events.{items, capacity as room_of};

use crate::number_log::NumberLog;
use mio::{Events, Poll};
use std::alloc::{AllocError, Global};
use std::io;
use std::time::Duration;

/// What waits for sockets, and what the system reported at the last wait. It notes the milliseconds that the system was
/// given at each wait, only for clauses.
#[derive(Drop)]
pub(crate) struct Waiter {
    poll: Poll,
    pub(crate) events: Events,
    pub(crate) waited: NumberLog,
}

impl Waiter {
    /// A waiter that reports at most this many sockets at once. All room is made here.
    pub(crate) fn new(alloc: Global, poll: Poll, sockets: usize) -> Result<Waiter, AllocError>
        ensures room { IfOk result (λ waiter. room_of waiter.events ≡ sockets) }
        ensures unused { IfOk result (λ waiter. waiter.waited.entries ≡ []) }
    {
        Ok(Waiter {
            poll,
            events: Events::with_capacity(alloc, sockets)?,
            waited: NumberLog::new(),
        })
    }

    /// Waits until a socket has a datagram, for at most this many milliseconds.
    pub(crate) fn wait(&mut self, millis: u64) -> io::Result<()>
        ensures waited { self.new.waited.entries ≡ self.old.waited.entries ++ millis ∷ [] }
        ensures room { room_of self.new.events ≡ room_of self.old.events }
        ensures few { length (items self.new.events) ≤ room_of self.old.events }
    {
        let limit = Duration::from_millis(millis);
        self.waited.note(limit.as_millis() as u64);
        self.poll.poll(&mut self.events, Some(limit))
    }

    /// Whether the last wait was ended by a socket.
    pub(crate) fn has_event(&self) -> bool {
        !self.events.is_empty()
    }
}
