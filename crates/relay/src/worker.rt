//! A worker: it takes a datagram, looks its port up, and sends it on.
ghost use Rattle.std.specs.Prelude.{◌≡◌, ◌≤◌, ◌⊎◌, length, IfOk, IfErr, MatchResult, OnErr, true, []};
ghost use Rattle.relay.specs.Limits.{datagram_room};
ghost use Rattle.relay.specs.Lists.{table_after};
ghost use Rattle.relay.specs.Lists.{StartsWith, BeginAlike};

use crate::counts::Counter;
use crate::socket::MediaSocket;
use crate::viewer::{Stamp, Viewer};
use std::alloc::Global;
use thiserror::Error;

/// Room for any datagram.
const DATAGRAM: usize = 65_536;

/// What a turn did.
#[derive(Clone, Copy)]
pub enum Turn {
    /// No datagram was there.
    Idle,
    Sent,
    /// The datagram's port has no row.
    NoRow,
    /// The board is closed.
    Closed,
}

/// Why a turn ended early. Nothing was sent.
#[derive(Clone, Copy, Debug, Error)]
pub enum TurnFault {
    /// No datagram was taken.
    #[error("a datagram could not be received")]
    Receive,
    /// The datagram that was taken is lost.
    #[error("a datagram could not be sent")]
    Send,
}

/// A viewer, its sockets, the counts of what it passes on, and a buffer for one datagram.
#[derive(Drop)]
pub struct Worker<S, V = Viewer> {
    pub viewer: V,
    pub socket: S,
    pub counter: Counter,
    buffer: Vec<u8>,
    ghost room: { length buffer.items ≡ datagram_room },
}

impl<S: MediaSocket> Worker<S> {
    ghost use Rattle.relay.specs.Datagrams.{Does, Loses};

    /// Makes the buffer, with nothing counted. If memory is refused, both arguments are returned.
    pub fn new(alloc: Global, viewer: Viewer, socket: S) -> Result<Worker<S>, (Viewer, S)>
        ensures parts { MatchResult result (λ w. (w.viewer ≡ viewer) × (w.socket ≡ socket)) (λ r. r ≡ (viewer, socket)) }
        ensures counted { IfOk result (λ w. w.counter.ports ≡ []) }
    {
        let Ok(counter) = Counter::new(alloc) else {
            return Err((viewer, socket));
        };
        match vec![in alloc; 0; DATAGRAM] {
            Ok(buffer) => Ok(Worker {
                viewer,
                socket,
                counter,
                buffer,
            }),
            Err(_) => Err((viewer, socket)),
        }
    }

    /// Takes one datagram, if one is there, sends it on by the row that is seen at its port, and counts it if it was
    /// sent.
    pub fn turn(&mut self) -> Result<Turn, TurnFault>
        ensures did { IfOk result (λ t. Does (table_after self.new.viewer) (S.taken self.old.socket) (S.taken self.new.socket) (S.sent self.old.socket) (S.sent self.new.socket) self.old.counter self.new.counter t) }
        ensures lost { IfErr result (λ f. Loses (table_after self.new.viewer) (S.taken self.old.socket) (S.taken self.new.socket) f) }
        ensures fault { OnErr result (S.failed self.new.socket ≡ true) }
        ensures nothing { OnErr result (S.sent self.new.socket ≡ S.sent self.old.socket) }
        ensures uncounted { OnErr result (self.new.counter ≡ self.old.counter) }
        ensures closed { IfOk result (λ t. t ≡ Turn.Closed → self.new.viewer ≡ self.old.viewer) }
        ensures later { StartsWith self.new.viewer self.old.viewer }
        ensures room { S.room self.new.socket ≡ datagram_room }
    {
        let (port, length) = match self.socket.receive(self.buffer.as_mut_slice()) {
            Ok(Some(found)) => found,
            Ok(None) => return Ok(Turn::Idle),
            Err(_) => return Err(TurnFault::Receive),
        };
        let Some((_, row)) = self.viewer.route(port) else {
            return Ok(Turn::Closed);
        };
        let Some(hop) = row else {
            return Ok(Turn::NoRow);
        };
        let bytes = &self.buffer.as_slice()[..length];
        match self.socket.send(hop.from, hop.to, bytes) {
            Ok(()) => {
                self.counter.count(port);
                Ok(Turn::Sent)
            }
            Err(_) => Err(TurnFault::Send),
        }
    }

    /// Passes the lists of the stamp to the viewer.
    pub fn learn(&mut self, stamp: Stamp)
        ensures one { (self.new.viewer ≡ self.old.viewer) ⊎ (self.new.viewer ≡ stamp) }
        ensures number { (length self.old.viewer ≤ length self.new.viewer) × (length stamp ≤ length self.new.viewer) }
        ensures both { BeginAlike self.old.viewer stamp → StartsWith self.new.viewer self.old.viewer × StartsWith self.new.viewer stamp }
        ensures socket { self.new.socket ≡ self.old.socket }
        ensures counter { self.new.counter ≡ self.old.counter }
    {
        self.viewer.learn(stamp);
    }
}
