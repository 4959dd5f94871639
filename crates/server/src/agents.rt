//! The agent of a configuration.

ghost use Rattle.std.specs.Prelude.{◌≡◌, None, IfErr, IfOk};
ghost use Rattle.configuration.specs.Rules.{first_broken};
ghost use Rattle.event_rows.specs.State.{IsNew};
ghost use Rattle.server.specs.Faults.{config_fault};

use crate::fault::Fault;
use agent::Agent;
use configuration::{Config, ConfigError};
use index::PrintKey;
use std::alloc::Global;

/// What a refused configuration means as a fault of the program.
pub(crate) fn config_fault(error: ConfigError) -> Fault
    ensures { result ≡ config_fault error }
{
    match error {
        ConfigError::OutOfMemory => Fault::OutOfMemory,
        _ => Fault::Config(None),
    }
}

/// An agent for this office, before anything has happened to it.
pub(crate) fn agent_of(alloc: Global, config: &Config) -> Result<Agent, Fault>
    requires { first_broken config.now ≡ None }
    ensures made { IfOk result (IsNew config.now) }
    ensures refused { IfErr result (λ e. e ≡ Fault.OutOfMemory) }
{
    match Agent::new(alloc, PrintKey::FIXED, config) {
        Ok(agent) => Ok(agent),
        Err(error) => Err(config_fault(error)),
    }
}
