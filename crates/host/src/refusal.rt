//! Why no telephones are served, in words.

ghost use Rattle.host.specs.Refusals.{IsFaultOf, IsFaultOfKind};

use crate::descriptors::TooFewDescriptors;
use server::HostFault;
use sockets::Unbound;
use std::fmt;
use std::io::ErrorKind;

/// Why no telephones are served.
#[derive(Clone, Copy)]
pub enum Refusal {
    Unbound(Unbound),
    Descriptors(TooFewDescriptors),
}

/// The fault that an error of the system means for the program. Takes no memory.
pub fn fault_of(kind: ErrorKind) -> HostFault
    ensures { IsFaultOfKind kind result }
{
    if kind == ErrorKind::OutOfMemory {
        HostFault::OutOfMemory
    } else {
        HostFault::Socket
    }
}

impl Refusal {
    /// The fault that it means for the program. Takes no memory.
    pub fn fault(self) -> HostFault
        ensures { IsFaultOf self result }
    {
        match self {
            Refusal::Unbound(unbound) => fault_of(unbound.kind),
            Refusal::Descriptors(_) => HostFault::Socket,
        }
    }
}

impl fmt::Display for Refusal {
    fn fmt<W: fmt::Write>(&self, f: &mut fmt::Formatter<W>) -> fmt::Result {
        match self {
            Refusal::Unbound(unbound) => write!(f, "{unbound}"),
            Refusal::Descriptors(few) => write!(f, "{few}"),
        }
    }
}
