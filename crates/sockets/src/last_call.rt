//! What the answers of the system mean.

ghost use Rattle.std.specs.Prelude.{◌≡◌, ◌≤◌, ◌↔◌, ℕ, IfErr, IfOk, IfSome, IsTrue, None, Ok, Err, Some, false, length};
ghost use Rattle.std.specs.IoError.{error_kind};
ghost use Rattle.std.specs.Result.{is_err};
ghost use Rattle.sockets.specs.Answers.{IsOfNothing};

use mio::net::UdpSocket;
use std::io;
use std::io::ErrorKind;
use std::net::SocketAddr;

/// Whether the last call to the system failed. It alone judges that, for every socket.
#[derive(Clone, Copy)]
pub(crate) struct LastCall {
    failed: bool,
}

/// Whether an error says that nothing is there to be received now.
pub(crate) fn is_of_nothing(kind: ErrorKind) -> bool
    ensures { IsTrue result ↔ IsOfNothing kind }
{
    matches!(kind, ErrorKind::WouldBlock | ErrorKind::Interrupted)
}

/// What a receive gave. None if nothing is there.
fn judged(answer: io::Result<(usize, SocketAddr)>) -> io::Result<Option<(usize, SocketAddr)>>
    ensures found { IfOk answer (λ d. result ≡ Ok (Some d)) }
    ensures nothing { IfErr answer (λ e. IsOfNothing (error_kind e) → result ≡ Ok None) }
    ensures failure { IfErr answer (λ e. ¬ IsOfNothing (error_kind e) → result ≡ Err e) }
    ensures fits { (most : ℕ) → IfOk answer (λ d. d.0 ≤ most) → IfOk result (λ r. IfSome r (λ d. d.0 ≤ most)) }
{
    match answer {
        Ok(datagram) => Ok(Some(datagram)),
        Err(error) if is_of_nothing(error.kind()) => Ok(None),
        Err(error) => Err(error),
    }
}

impl LastCall {
    /// No call was made.
    pub(crate) fn new() -> LastCall
        ensures { result.failed ≡ false }
    {
        LastCall { failed: false }
    }

    /// No call was needed.
    pub(crate) fn skip(&mut self)
        ensures { self.new.failed ≡ false }
    {
        self.failed = false;
    }

    /// Receives a datagram, and returns its length and where it came from. None if nothing is there.
    pub(crate) fn receive(
        &mut self,
        socket: &UdpSocket,
        buffer: &mut [u8],
    ) -> io::Result<Option<(usize, SocketAddr)>>
        ensures fits { IfOk result (λ r. IfSome r (λ d. d.0 ≤ length buffer.new)) }
        ensures failed { self.new.failed ≡ is_err result }
    {
        let received = judged(socket.recv_from(buffer));
        self.failed = received.is_err();
        received
    }

    /// The answer to a send or a wait: every error is a failure.
    pub(crate) fn take(&mut self, answer: io::Result<()>) -> io::Result<()>
        ensures answer { result ≡ answer }
        ensures failed { self.new.failed ≡ is_err result }
    {
        self.failed = answer.is_err();
        answer
    }
}
