//! The sockets of the relay ports, as one worker has them.

ghost use Rattle.std.specs.Prelude.{◌≡◌, ◌≤◌, length, IfOk, IfSome};
ghost use Rattle.std.specs.Result.{is_err};

use crate::last_call::LastCall;
use crate::log::Log;
use crate::ready::Ready;
use crate::sip_socket::send_all;
use mio::net::UdpSocket;
use relay::{MediaSocket, SocketFault};
use sip_uri::Addr;
use std::io;
use std::io::ErrorKind;
use std::marker::Model;
use std::sync::Arc;

/// All relay sockets, by rising port, and those of this worker that are ready. It notes what it takes, and what it is
/// asked to send and sends, only for clauses.
#[derive(Drop)]
pub struct MediaSockets {
    pub(crate) sockets: Arc<Vec<UdpSocket>>,
    /// The first relay port.
    pub(crate) first: u16,
    pub(crate) ready: Ready,
    pub(crate) last: LastCall,
    pub(crate) taken: Log,
    pub(crate) asked: Log,
    pub(crate) sent: Log,
    /// The room that the last receive was given. Only clauses read it.
    pub(crate) room: usize,
}

impl Model for MediaSockets {
    ghost use Rattle.sockets.specs.Traffic.{Traffic};

    ghost Value = { Traffic };

    ghost view = { λ s. record { taken = s.taken.entries; asked = s.asked.entries; sent = s.sent.entries; waited = s.ready.waiter.waited.entries; room = s.room; failed = s.last.failed } };
}

impl MediaSockets {
    // A datagram that is there, with its port and its length.
    fn take(&mut self, buffer: &mut [u8]) -> io::Result<Option<(u16, usize)>>
        ensures fits { IfOk result (λ r. IfSome r (λ d. d.1 ≤ length buffer.new)) }
        ensures taken { self.new.taken ≡ self.old.taken }
        ensures asked { self.new.asked ≡ self.old.asked }
        ensures sent { self.new.sent ≡ self.old.sent }
        ensures waited { self.new.waited ≡ self.old.waited }
        ensures room { self.new.room ≡ self.old.room }
        ensures failed { self.new.failed ≡ is_err result }
    {
        let sockets = self.sockets.as_slice();
        match self.ready.take(sockets, buffer, &mut self.last)? {
            None => Ok(None),
            Some((place, length)) => match u16::try_from(place) {
                Ok(above) => Ok(Some((self.first.wrapping_add(above), length))),
                Err(_) => Ok(None),
            },
        }
    }

    fn send_from(&self, from: u16, to: Addr, bytes: &[u8]) -> io::Result<()> {
        let place = usize::from(from.wrapping_sub(self.first));
        match self.sockets.as_slice().get(place) {
            Some(socket) => send_all(socket, to, bytes),
            None => Err(io::Error::from(ErrorKind::NotFound)),
        }
    }
}

impl MediaSocket for MediaSockets {
    ghost use Rattle.std.specs.Prelude.{map};

    ghost taken = { λ s. map (λ d. record { port = d.own; bytes = d.bytes }) s.taken };

    ghost sent = { λ s. map (λ d. record { from = d.own; to = record { ip = d.ip; port = d.port }; bytes = d.bytes }) s.sent };

    ghost failed = { λ s. s.failed };

    ghost room = { λ s. s.room };

    fn receive(&mut self, buffer: &mut [u8]) -> Result<Option<(u16, usize)>, SocketFault> {
        self.room = buffer.len();
        match self.take(buffer) {
            Ok(Some((port, length))) => {
                self.taken.note(port, &[], 0, &buffer[..length]);
                Ok(Some((port, length)))
            }
            Ok(None) => Ok(None),
            Err(_) => Err(SocketFault),
        }
    }

    fn send(&mut self, from: u16, to: Addr, bytes: &[u8]) -> Result<(), SocketFault> {
        self.asked.note(from, &to.ip, to.port, bytes);
        let answer = self.send_from(from, to, bytes);
        match self.last.take(answer) {
            Ok(()) => {
                self.sent.note(from, &to.ip, to.port, bytes);
                Ok(())
            }
            Err(_) => Err(SocketFault),
        }
    }

    fn wait(&mut self) -> Result<(), SocketFault> {
        match self.last.take(self.ready.wait()) {
            Ok(()) => Ok(()),
            Err(_) => Err(SocketFault),
        }
    }
}
