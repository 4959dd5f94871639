//! Which relay sockets have a datagram.

ghost use Rattle.std.specs.Prelude.{◌≡◌, ◌≤◌, ◌∷◌, ◌++◌, ◌+◌, [], None, Ok, length, map, max, reverse, vec_capacity, vec_len, IfOk, IfSome};
ghost use Rattle.std.specs.Result.{is_err};
ghost use Rattle.mio.specs.Event.{event_token};
ghost use Rattle.mio.specs.Events.{items, capacity as room_of};
ghost use Rattle.sockets.specs.Waits.{max_media_wait};

use crate::last_call::LastCall;
use crate::number_log::NumberLog;
use crate::waiter::Waiter;
use mio::net::UdpSocket;
use mio::{Events, Poll, Token};
use std::alloc::{AllocError, Global};
use std::io;

/// How many milliseconds are waited at most.
const MAX_WAIT: u64 = 100;

/// What waits for the sockets of one worker, and those that had a datagram at the last wait and have not been read
/// since. Sockets are named by their places among all relay sockets. It notes the places that it reads, only for
/// clauses.
#[derive(Drop)]
pub(crate) struct Ready {
    pub(crate) waiter: Waiter,
    places: Vec<usize>,
    reads: NumberLog,
    ghost room: { room_of waiter.events ≤ vec_capacity places },
}

impl Ready {
    /// Nothing is ready. All room is made here.
    pub(crate) fn new(alloc: Global, poll: Poll, sockets: usize) -> Result<Ready, AllocError>
        ensures room { IfOk result (λ ready. room_of ready.waiter.events ≡ max sockets 1) }
        ensures unused { IfOk result (λ ready. ready.waiter.waited.entries ≡ []) }
    {
        let room = sockets.max(1);
        Ok(Ready {
            waiter: Waiter::new(alloc, poll, room)?,
            places: Vec::with_capacity(alloc, room)?,
            reads: NumberLog::new(),
        })
    }

    /// A datagram that is there, with the place of its socket and its length. A socket is read once until the system
    /// is asked again, which reports all that have more. So they take turns, and no receive finds nothing.
    #[tactic(auto, using(crate::proofs::Turns::turn))]
    pub(crate) fn take(
        &mut self,
        sockets: &[UdpSocket],
        buffer: &mut [u8],
        last: &mut LastCall,
    ) -> io::Result<Option<(usize, usize)>>
        ensures fits { IfOk result (λ r. IfSome r (λ d. d.1 ≤ length buffer.new)) }
        ensures turns { self.new.reads.entries ++ reverse self.new.places.items ≡ self.old.reads.entries ++ reverse self.old.places.items }
        ensures all { result ≡ Ok None → self.new.places.items ≡ [] }
        ensures waited { self.new.waiter.waited.entries ≡ self.old.waiter.waited.entries }
        ensures failed { last.new.failed ≡ is_err result }
    {
        last.skip();
        while let Some(place) = self.places.pop() {
            self.reads.note(place as u64);
            if let Some(length) = take_at(sockets, place, buffer, last)? {
                return Ok(Some((place, length)));
            }
        }
        Ok(None)
    }

    /// Waits until a socket has a datagram, for at most a tenth of a second.
    pub(crate) fn wait(&mut self) -> io::Result<()>
        ensures listed { self.new.places.items ≡ map (λ e. (event_token e).0) (items self.new.waiter.events) }
        ensures waited { self.new.waiter.waited.entries ≡ self.old.waiter.waited.entries ++ max_media_wait ∷ [] }
        ensures reads { self.new.reads.entries ≡ self.old.reads.entries }
    {
        let waited = self.waiter.wait(MAX_WAIT);
        self.places.clear();
        list_all(&self.waiter.events, &mut self.places);
        waited
    }
}

// A datagram at the socket of this place. None if there is none.
fn take_at(
    sockets: &[UdpSocket],
    place: usize,
    buffer: &mut [u8],
    last: &mut LastCall,
) -> io::Result<Option<usize>>
    ensures fits { IfOk result (λ r. IfSome r (λ count. count ≤ length buffer.new)) }
    ensures failed { last.new.failed ≡ is_err result }
{
    let Some(socket) = sockets.get(place) else {
        last.skip();
        return Ok(None);
    };
    match last.receive(socket, buffer)? {
        Some((length, _)) => Ok(Some(length)),
        None => Ok(None),
    }
}

// Lists the places that are ready, the first last.
fn list_all(events: &Events, places: &mut Vec<usize>)
    requires { vec_len places.old + length (items events.now) ≤ vec_capacity places.old }
    ensures listed { places.new.items ≡ places.old.items ++ map (λ e. (event_token e).0) (items events.now) }
    ensures room { vec_capacity places.new ≡ vec_capacity places.old }
{
    for event in events.iter() {
        let Token(place) = event.token();
        places.push_reserved(place);
    }
}
