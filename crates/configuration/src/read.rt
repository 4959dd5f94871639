//! Reading a configuration.

ghost use Rattle.std.specs.Prelude.{◌≡◌, IfOk, IfErr, MatchResult};
ghost use Rattle.toml.specs.View.{table_view};
ghost use Rattle.configuration.specs.declared.config.Config.{Config};
ghost use Rattle.configuration.specs.declared.error.ConfigError.TheVariants.{OutOfMemory};
ghost use Rattle.configuration.specs.Reading.{IsErrorOf, IsTextOf, RefusesText, ReadsConfig, IsWrittenIn, Refuses};
ghost use Rattle.configuration.specs.Rules.{KeepsRules};

use crate::config::Config;
use crate::error::ConfigError;
use crate::judge::{Refusal, judged};
use std::alloc::Global;
use toml::Table;
use toml::de::Error;

/// Why a text has no table.
fn error_of(error: &Error) -> ConfigError
    ensures { IsErrorOf error.now result }
{
    if error.is_memory() {
        ConfigError::OutOfMemory
    } else {
        ConfigError::File
    }
}

/// The table of a text.
fn table_of(alloc: Global, bytes: &[u8]) -> Result<Table, ConfigError>
    ensures ok { IfOk result (λ table. IsTextOf bytes.now (table_view table)) }
    ensures refused { IfErr result (RefusesText bytes.now) }
{
    match toml::table_from_slice(alloc, bytes) {
        Ok(table) => Ok(table),
        Err(error) => Err(error_of(&error)),
    }
}

fn read(alloc: Global, bytes: &[u8]) -> Result<Config, ConfigError>
    ensures found { IfOk result (λ c. ReadsConfig bytes.now c) }
    ensures refused { IfErr result (Refuses bytes.now) }
{
    let table = table_of(alloc, bytes)?;
    match judged(alloc, &table) {
        Ok(config) => Ok(config),
        Err(Refusal::OutOfMemory) => Err(ConfigError::OutOfMemory),
        Err(Refusal::Flawed(flaw)) => Err(flaw.rule()),
    }
}

/// The configuration in the text of a file (TOML). A file that holds none is refused before any rule is checked.
pub fn read_config(alloc: Global, bytes: &[u8]) -> Result<Config, ConfigError>
    // What is read is what the bytes say, and it keeps the rules.
    ensures found { IfOk result (λ c. ReadsConfig bytes.now c) }
    ensures kept { IfOk result (λ c. KeepsRules c) }
    // No number or address of it was truncated to fit its field.
    ensures written { IfOk result (λ c. IsWrittenIn bytes.now c) }
    // A configuration that the bytes say and that keeps the rules is read, unless memory runs out.
    ensures only { (c : Config) → ReadsConfig bytes.now c → MatchResult result (λ d. d ≡ c) (λ e. e ≡ OutOfMemory) }
    // Each refusal has its reason.
    ensures refused { IfErr result (Refuses bytes.now) }
{
    read(alloc, bytes)
}
