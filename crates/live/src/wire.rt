//! The socket of the signalling.

ghost use Rattle.std.specs.Prelude.{◌≡◌, ◌≤◌, [], ◌∷◌, ◌++◌, length, take, IfOk, IfSome, MatchOption, MatchResult};
ghost use Rattle.std.specs.Result.{is_err};
ghost use Rattle.live.specs.Sending.{tried_one};
ghost use Rattle.live.specs.States.{WireState};

use sip_uri::Addr;
use thiserror::Error;

/// The socket failed. A datagram that was to be sent is lost.
#[derive(Clone, Copy, Debug, Error)]
#[error("the socket of the signalling failed")]
pub struct WireFault;

/// The socket of the signalling. Its clauses say what it took, the room that it was given, what it was asked to send,
/// and what of that went. They also say how long it was asked to wait, and whether the last call failed.
pub trait Wire {
    ghost seen: { Self → WireState };

    /// Takes a datagram into the buffer, and returns where it came from and its length in bytes. None if there is
    /// none now, or if none is known of yet: `wait` learns of it. What doesn't fit the buffer is cut off.
    fn receive(&mut self, buffer: &mut [u8]) -> Result<Option<(Addr, usize)>, WireFault>
        ensures fits { IfOk result (λ r. IfSome r (λ d. d.1 ≤ length buffer.new)) }
        ensures taken { MatchResult result
            (λ r. MatchOption r ((seen self.new).taken ≡ (seen self.old).taken)
            (λ d. (seen self.new).taken ≡ (seen self.old).taken ++ record { source = d.0; bytes = take d.1 buffer.new } ∷ []))
            (λ _. (seen self.new).taken ≡ (seen self.old).taken) }
        ensures rooms { (seen self.new).rooms ≡ (seen self.old).rooms ++ length buffer.old ∷ [] }
        ensures tried { (seen self.new).tried ≡ (seen self.old).tried }
        ensures waited { (seen self.new).waited ≡ (seen self.old).waited }
        ensures failed { (seen self.new).failed ≡ is_err result };

    /// Sends a datagram.
    fn send(&mut self, to: Addr, bytes: &[u8]) -> Result<(), WireFault>
        ensures tried { (seen self.new).tried ≡ tried_one (seen self.old).tried (record { to = to; bytes = bytes.now }) (is_err result) }
        ensures taken { (seen self.new).taken ≡ (seen self.old).taken }
        ensures rooms { (seen self.new).rooms ≡ (seen self.old).rooms }
        ensures waited { (seen self.new).waited ≡ (seen self.old).waited }
        ensures failed { (seen self.new).failed ≡ is_err result };

    /// Waits until a datagram is there, for at most this many milliseconds.
    fn wait(&mut self, millis: u64) -> Result<(), WireFault>
        ensures waited { (seen self.new).waited ≡ (seen self.old).waited ++ millis ∷ [] }
        ensures taken { (seen self.new).taken ≡ (seen self.old).taken }
        ensures rooms { (seen self.new).rooms ≡ (seen self.old).rooms }
        ensures tried { (seen self.new).tried ≡ (seen self.old).tried }
        ensures failed { (seen self.new).failed ≡ is_err result };
}
