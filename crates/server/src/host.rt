//! What serves telephones on sockets.

ghost use Rattle.std.specs.Prelude.{◌≡◌, ℕ, Option, Some};
ghost use Rattle.configuration.specs.declared.config.Config as office;

use configuration::Config;
use thiserror::Error;

/// Why it could not go on.
#[derive(Clone, Copy, Debug, Error)]
pub enum HostFault {
    #[error("a socket could not be opened, or failed too often in a row")]
    Socket,
    #[error("out of memory, or of threads")]
    OutOfMemory,
}

/// Opens the sockets of a configuration, and serves the telephones there.
pub trait Host {
    /// The configuration that it was asked to serve last, and for how many turns.
    ghost asked: { Self → Option (office.Config × Option ℕ) };

    /// Serves until this many turns of the signalling are made, or without end. Nothing is served if a socket can't
    /// be opened.
    fn serve(&mut self, config: &Config, turns: Option<u64>) -> Result<(), HostFault>
        ensures asked { asked self.new ≡ Some (config.now, turns) };
}
