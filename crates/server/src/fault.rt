//! Why the program ends before its work is done.

use crate::reason::Reason;
use configuration::ConfigFault;
use std::alloc::{AllocError, AllocFailed};
use std::fmt;
use thiserror::Error;

/// Why `once`, `replay`, `follow` or `serve` gave up.
#[derive(Debug, Drop, Error)]
pub enum Fault {
    /// The input or the script failed, or never ended. Nothing was written except what `follow` did at earlier
    /// events.
    Input,
    /// No event begins at this place of the script, in bytes. Nothing was written except what `follow` did at earlier
    /// events.
    Script(usize),
    /// The file of the configuration failed or never ended, or has this fault. Nothing was written.
    Config(Option<ConfigFault>),
    /// The output failed. How much was written is unknown.
    Output,
    /// A socket could not be opened, or failed too often in a row.
    Socket,
    /// Memory ran out. Nothing was written except what the script's earlier events sent.
    OutOfMemory,
}

impl Fault {
    ghost use Rattle.std.specs.Prelude.{◌≡◌, option_map};
    ghost use Rattle.server.specs.Statuses.{status_of, fault_words_of, reason_of};

    /// The exit status.
    pub fn status(&self) -> u8
        ensures { result ≡ status_of self.now }
    {
        match self {
            Fault::Config(_) => 3,
            Fault::Input | Fault::Script(_) | Fault::Output => 4,
            Fault::Socket => 5,
            Fault::OutOfMemory => 6,
        }
    }

    /// The words for standard error, without a line end.
    pub fn words(&self) -> &'static str
        ensures { result.now ≡ fault_words_of self.now }
    {
        match self {
            Fault::Config(_) => "office: config",
            Fault::Input | Fault::Script(_) | Fault::Output => "office: script",
            Fault::Socket => "office: socket",
            Fault::OutOfMemory => "office: memory",
        }
    }

    /// The reason, which follows these words on a line of its own if more is known.
    pub fn reason(&self) -> Option<Reason<'_>>
        ensures { option_map (λ reason. reason.fault.now) result ≡ reason_of self.now }
    {
        match self {
            Fault::Script(_) | Fault::Config(_) => Some(Reason { fault: self }),
            Fault::Input | Fault::Output | Fault::Socket | Fault::OutOfMemory => None,
        }
    }
}

impl fmt::Display for Fault {
    ghost use Rattle.std.specs.Prelude.{Some};
    ghost use Rattle.server.specs.Statuses.{fault_words_of};

    ghost output = { λ f. Some (fault_words_of f) };

    fn fmt<W: fmt::Write>(&self, f: &mut fmt::Formatter<W>) -> fmt::Result {
        f.write_str(self.words())
    }
}

impl From<AllocError> for Fault {
    ghost use Rattle.std.specs.Prelude.{◌≡◌};
    ghost use Rattle.server.specs.declared.fault.Fault.TheVariants.{OutOfMemory};

    ghost from_gives = { λ _ e. e ≡ OutOfMemory };

    fn from(_e: AllocError) -> Fault {
        Fault::OutOfMemory
    }
}

impl<T: Drop> From<AllocFailed<T>> for Fault {
    ghost use Rattle.std.specs.Prelude.{◌≡◌};
    ghost use Rattle.server.specs.declared.fault.Fault.TheVariants.{OutOfMemory};

    ghost from_gives = { λ _ e. e ≡ OutOfMemory };

    fn from(_e: AllocFailed<T>) -> Fault {
        Fault::OutOfMemory
    }
}
