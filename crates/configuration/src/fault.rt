//! Why a text is not a configuration that keeps the rules, and where.

ghost use Rattle.std.specs.Prelude.{◌≡◌, ◌≤◌, ℕ, true, length, take, Some, option_map, IfOk, IfSome, IfNone};
ghost use Rattle.std.specs.Option.{option_copied};
ghost use Rattle.toml.specs.View.{table_view};
ghost use Rattle.toml.specs.Errors.{IsMemory, IsWithin};
ghost use Rattle.configuration.specs.declared.config.Config.{Config};
ghost use Rattle.configuration.specs.Flaws.{rule_of, flaw_in};
ghost use Rattle.configuration.specs.Lines.{line_behind};
ghost use Rattle.configuration.specs.Reading.{IsTextOf, ReadsConfig, Refuses};
ghost use Rattle.configuration.specs.FaultOf.{key_of_flaw, is_no_toml, HasTable, IsKeyLine, IsFaultOf};

use crate::flaw::Flaw;
use crate::judge::{Refusal, judged};
use crate::key::Key;
use crate::lines::{line_behind, line_of};
use std::alloc::{AllocError, Global};
use text::Text;
use toml::Table;
use toml::de::Error;

/// Why a text is not a configuration that keeps the rules.
#[derive(Drop)]
pub struct ConfigFault {
    /// The line, from 1. None if a key is missing, or the text is too long to be searched.
    pub line: Option<usize>,
    pub flaw: Flaw<'static>,
}

/// The key whose line is reported.
fn key_of_flaw<'f>(flaw: &'f Flaw<'static>) -> Option<&'f [u8]>
    ensures { option_copied result ≡ key_of_flaw flaw.now }
{
    match flaw {
        Flaw::NoToml(_) | Flaw::Missing(_) => None,
        Flaw::UnknownKey(key) => Some(key.as_bytes()),
        Flaw::OtherType(key) | Flaw::OutOfRange(key, _) | Flaw::Malformed(key, _) => {
            Some(key.name().as_bytes())
        }
        Flaw::Odd(_) => Some(Key::RelayFirst.name().as_bytes()),
        Flaw::PastLastPort(_) => Some(Key::RelayPairs.name().as_bytes()),
        Flaw::RelayPort(_) => Some(Key::SipPort.name().as_bytes()),
        Flaw::RandomKey(_) => Some(Key::RandomKey.name().as_bytes()),
        Flaw::UserCount(_) | Flaw::UserTwice(_) => Some(Key::Users.name().as_bytes()),
    }
}

/// The line of a key, if there is one.
fn key_line(alloc: Global, bytes: &[u8], key: Option<&[u8]>) -> Result<Option<usize>, AllocError>
    requires { HasTable bytes.now }
    ensures { IfOk result (λ line. IsKeyLine bytes.now (option_copied key.entry) line) }
{
    match key {
        Some(key) => line_of(alloc, bytes, key),
        None => Ok(None),
    }
}

/// The line on which TOML's reader found an error.
fn error_line(bytes: &[u8], error: &Error) -> Option<usize>
    requires within { IsWithin bytes.now error.now }
    requires text { ¬ (IsMemory error.now) }
    ensures { (at : ℕ) × (at ≤ length bytes.now) × (result ≡ Some (line_behind (take at bytes.now))) }
{
    let span = error.span()?;
    Some(line_behind(&bytes[..span.start]))
}

/// What is wrong with a text in which TOML's reader found this error.
fn no_table(alloc: Global, bytes: &[u8], error: &Error) -> Result<ConfigFault, AllocError>
    requires within { IsWithin bytes.now error.now }
    requires text { ¬ (IsMemory error.now) }
    ensures kind { IfOk result (λ fault. is_no_toml fault.flaw ≡ true) }
    ensures line { IfOk result (λ fault. (at : ℕ) × (at ≤ length bytes.now) × (fault.line ≡ Some (line_behind (take at bytes.now)))) }
{
    Ok(ConfigFault {
        line: error_line(bytes, error),
        flaw: Flaw::NoToml(Text::from_slice(alloc, error.message().as_bytes())?),
    })
}

/// What is wrong with a text whose table has this as its first flaw.
fn at_line(alloc: Global, bytes: &[u8], flaw: Flaw<'static>) -> Result<ConfigFault, AllocError>
    requires { HasTable bytes.now }
    ensures flaw { IfOk result (λ fault. fault.flaw ≡ flaw.entry) }
    ensures line { IfOk result (λ fault. IsKeyLine bytes.now (key_of_flaw fault.flaw) fault.line) }
{
    let line = key_line(alloc, bytes, key_of_flaw(&flaw))?;
    Ok(ConfigFault { line, flaw })
}

/// The first flaw of a table, and its line.
fn table_fault(
    alloc: Global,
    bytes: &[u8],
    table: &Table,
) -> Result<Option<ConfigFault>, AllocError>
    requires { IsTextOf bytes.now (table_view table.now) }
    ensures found { IfOk result (λ fault. option_map (λ f. f.flaw) fault ≡ flaw_in (table_view table.now)) }
    ensures line { IfOk result (λ fault. IfSome fault (λ f. IsKeyLine bytes.now (key_of_flaw f.flaw) f.line)) }
{
    match judged(alloc, table) {
        Ok(_) => Ok(None),
        Err(Refusal::Flawed(flaw)) => Ok(Some(at_line(alloc, bytes, flaw)?)),
        Err(Refusal::OutOfMemory) => Err(AllocError),
    }
}

/// Why a text is not a configuration that keeps the rules; none if it is one. The rule is the one for which
/// `read_config` refuses it.
pub fn fault_of(alloc: Global, bytes: &[u8]) -> Result<Option<ConfigFault>, AllocError>
    // The first flaw, and its line.
    ensures found { IfOk result (λ fault. IfSome fault (IsFaultOf bytes.now)) }
    // It is refused, and for this rule.
    ensures rule { IfOk result (λ fault. IfSome fault (λ f. Refuses bytes.now (rule_of f.flaw))) }
    // A text without a fault is a configuration that keeps the rules.
    ensures none { IfOk result (λ fault. IfNone fault ((c : Config) × ReadsConfig bytes.now c)) }
{
    match toml::table_from_slice(alloc, bytes) {
        Ok(table) => table_fault(alloc, bytes, &table),
        Err(error) if error.is_memory() => Err(AllocError),
        Err(error) => Ok(Some(no_table(alloc, bytes, &error)?)),
    }
}
