//! The socket for SIP.

ghost use Rattle.std.specs.Prelude.{◌≡◌, ◌≤◌, [], ◌∷◌, ◌++◌, length, take, IfOk, IfSome, MatchOption, MatchResult};
ghost use Rattle.std.specs.Result.{is_err};
ghost use Rattle.sockets.specs.Traffic.{at_sip};

use crate::addresses::{from_system, to_system};
use crate::last_call::LastCall;
use crate::log::Log;
use crate::tries::Tries;
use crate::waiter::Waiter;
use mio::net::UdpSocket;
use sip_uri::Addr;
use std::io;
use std::io::ErrorKind;
use std::marker::Model;

/// A socket at the server's port for SIP, and what waits for it. It notes what it takes, and what it is asked to send
/// and sends, only for clauses.
#[derive(Drop)]
pub struct SipSocket {
    pub(crate) socket: UdpSocket,
    pub(crate) waiter: Waiter,
    pub(crate) tries: Tries,
    pub(crate) last: LastCall,
    pub(crate) taken: Log,
    pub(crate) asked: Log,
    pub(crate) sent: Log,
    /// The room that the last receive was given. Only clauses read it.
    pub(crate) room: usize,
}

/// A datagram, with where it came from, if one is there and a receive was to be tried.
fn receive_from(
    socket: &UdpSocket,
    tries: &mut Tries,
    last: &mut LastCall,
    buffer: &mut [u8],
) -> io::Result<Option<(Addr, usize)>>
    ensures fits { IfOk result (λ r. IfSome r (λ d. d.1 ≤ length buffer.new)) }
    ensures failed { last.new.failed ≡ is_err result }
{
    if !tries.are_left() {
        last.skip();
        return Ok(None);
    }
    match last.receive(socket, buffer)? {
        Some((length, source)) => {
            *tries = tries.behind_datagram();
            match from_system(source) {
                Some(source) => Ok(Some((source, length))),
                None => Ok(None),
            }
        }
        None => {
            *tries = tries.behind_nothing();
            Ok(None)
        }
    }
}

/// Sends a whole datagram.
pub(crate) fn send_all(socket: &UdpSocket, to: Addr, bytes: &[u8]) -> io::Result<()> {
    let sent = socket.send_to(bytes, to_system(to))?;
    if sent == bytes.len() {
        Ok(())
    } else {
        Err(io::Error::from(ErrorKind::WriteZero))
    }
}

impl Model for SipSocket {
    ghost use Rattle.sockets.specs.Traffic.{Traffic};

    ghost Value = { Traffic };

    ghost view = { λ s. record { taken = s.taken.entries; asked = s.asked.entries; sent = s.sent.entries; waited = s.waiter.waited.entries; room = s.room; failed = s.last.failed } };
}

impl SipSocket {
    /// Takes a datagram into the buffer, and returns where it came from and its length in bytes. None if there is
    /// none now, if one came by IPv6, or if none is known of: `wait` asks, and returns at once if one is there. What
    /// doesn't fit the buffer is cut off. Err is the system's refusal.
    pub fn receive(&mut self, buffer: &mut [u8]) -> io::Result<Option<(Addr, usize)>>
        ensures fits { IfOk result (λ r. IfSome r (λ d. d.1 ≤ length buffer.new)) }
        ensures taken { MatchResult result (λ r. MatchOption r (self.new.taken ≡ self.old.taken) (λ d. self.new.taken ≡ self.old.taken ++ at_sip d.0 (take d.1 buffer.new) ∷ [])) (λ _. self.new.taken ≡ self.old.taken) }
        ensures asked { self.new.asked ≡ self.old.asked }
        ensures sent { self.new.sent ≡ self.old.sent }
        ensures waited { self.new.waited ≡ self.old.waited }
        ensures room { self.new.room ≡ length buffer.old }
        ensures failed { self.new.failed ≡ is_err result }
    {
        self.room = buffer.len();
        let received = receive_from(&self.socket, &mut self.tries, &mut self.last, buffer)?;
        if let Some((source, length)) = received {
            self.taken
                .note(0, &source.ip, source.port, &buffer[..length]);
        }
        Ok(received)
    }

    /// Sends a datagram. Err is the system's refusal, or that it took only a part of the datagram.
    pub fn send(&mut self, to: Addr, bytes: &[u8]) -> io::Result<()>
        ensures asked { self.new.asked ≡ self.old.asked ++ at_sip to bytes.now ∷ [] }
        ensures sent { MatchResult result (λ _. self.new.sent ≡ self.old.sent ++ at_sip to bytes.now ∷ []) (λ _. self.new.sent ≡ self.old.sent) }
        ensures taken { self.new.taken ≡ self.old.taken }
        ensures waited { self.new.waited ≡ self.old.waited }
        ensures room { self.new.room ≡ self.old.room }
        ensures failed { self.new.failed ≡ is_err result }
    {
        self.asked.note(0, &to.ip, to.port, bytes);
        self.last.take(send_all(&self.socket, to, bytes))?;
        self.sent.note(0, &to.ip, to.port, bytes);
        Ok(())
    }

    /// Waits until a datagram is there, for at most this many milliseconds. Err is the system's refusal.
    pub fn wait(&mut self, millis: u64) -> io::Result<()>
        ensures taken { self.new.taken ≡ self.old.taken }
        ensures asked { self.new.asked ≡ self.old.asked }
        ensures sent { self.new.sent ≡ self.old.sent }
        ensures waited { self.new.waited ≡ self.old.waited ++ millis ∷ [] }
        ensures room { self.new.room ≡ self.old.room }
        ensures failed { self.new.failed ≡ is_err result }
    {
        self.last.take(self.waiter.wait(millis))?;
        self.tries = self.tries.behind_question(self.waiter.has_event());
        Ok(())
    }
}
