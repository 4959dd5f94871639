//! `serve`: an office of the configuration of a file, on sockets.

ghost use Rattle.std.specs.Prelude.{◌≡◌, IfErr, OnOk};
ghost use Rattle.server.specs.Faults.{host_fault};
ghost use Rattle.server.specs.Serve.{Serves, ServeLeaves};

use crate::day::config_of;
use crate::fault::Fault;
use crate::host::{Host, HostFault};
use std::alloc::Global;
use std::io::Read;

fn host_fault(fault: HostFault) -> Fault
    ensures { result ≡ host_fault fault }
{
    match fault {
        HostFault::Socket => Fault::Socket,
        HostFault::OutOfMemory => Fault::OutOfMemory,
    }
}

/// Reads a configuration, and has its office served.
pub fn serve<C: Read + Drop, H: Host>(
    alloc: Global,
    config: C,
    host: &mut H,
    turns: Option<u64>,
) -> Result<(), Fault>
    ensures served { OnOk result (Serves (C.remaining config) turns (H.asked host.new)) }
    ensures refused { IfErr result (ServeLeaves (C.remaining config) turns (H.asked host.old) (H.asked host.new)) }
{
    let office = config_of(alloc, config)?;
    match host.serve(&office, turns) {
        Ok(()) => Ok(()),
        Err(fault) => Err(host_fault(fault)),
    }
}
