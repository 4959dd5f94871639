//! The sockets of the relay ports.
ghost use Rattle.std.specs.Prelude.{◌≡◌, ◌≤◌, ℕ, List, Bool, ◌∷◌, ◌++◌, length, take, MatchResult, MatchOption, [], IfOk, IfSome};
ghost use Rattle.std.specs.Result.{is_err};
ghost use Rattle.relay.specs.Datagrams.{Taken, Forwarded};

use sip_uri::Addr;
use thiserror::Error;

/// A socket failed, and its datagram is lost.
#[derive(Clone, Copy, Debug, Error)]
#[error("a socket failed")]
pub struct SocketFault;

/// Sockets at relay ports. Contracts see the datagrams that they took and sent, the room that a receive was given,
/// and whether the last call failed.
pub trait MediaSocket {
    ghost taken: { Self → List Taken };

    ghost sent: { Self → List Forwarded };

    /// Whether the last call failed.
    ghost failed: { Self → Bool };

    /// The bytes of room that the last receive was given.
    ghost room: { Self → ℕ };

    /// Takes a datagram into the buffer, and returns its port and length. None if there is none now. What doesn't fit
    /// the buffer is cut off.
    fn receive(&mut self, buffer: &mut [u8]) -> Result<Option<(u16, usize)>, SocketFault>
        ensures fits { IfOk result (λ r. IfSome r (λ d. d.1 ≤ length buffer.new)) }
        ensures taken { MatchResult result (λ r. MatchOption r (taken self.new ≡ taken self.old) (λ d. taken self.new ≡ taken self.old ++ record { port = d.0; bytes = take d.1 buffer.new } ∷ [])) (λ _. taken self.new ≡ taken self.old) }
        ensures sent { sent self.new ≡ sent self.old }
        ensures room { room self.new ≡ length buffer.old }
        ensures failed { failed self.new ≡ is_err result };

    /// Sends from a relay port.
    fn send(&mut self, from: u16, to: Addr, bytes: &[u8]) -> Result<(), SocketFault>
        ensures sent { MatchResult result (λ _. sent self.new ≡ sent self.old ++ record { from = from; to = to; bytes = bytes.now } ∷ []) (λ _. sent self.new ≡ sent self.old) }
        ensures taken { taken self.new ≡ taken self.old }
        ensures room { room self.new ≡ room self.old }
        ensures failed { failed self.new ≡ is_err result };

    /// Waits until a datagram may be there, for at most a tenth of a second.
    fn wait(&mut self) -> Result<(), SocketFault>
        ensures taken { taken self.new ≡ taken self.old }
        ensures sent { sent self.new ≡ sent self.old }
        ensures room { room self.new ≡ room self.old }
        ensures failed { failed self.new ≡ is_err result };
}
