//! What is wrong with a configuration's file.

use crate::error::ConfigError;
use crate::key::Key;
use std::alloc::{AllocError, Global};
use text::Text;

/// What is wrong with a configuration's file, and the value at fault.
#[derive(Drop)]
pub enum Flaw<'a> {
    /// It is not UTF-8 or not TOML, in the words of TOML's reader.
    NoToml(Text<'a>),
    UnknownKey(Text<'a>),
    Missing(Key),
    /// The value is of another type.
    OtherType(Key),
    OutOfRange(Key, i64),
    /// The first relay port is odd.
    Odd(i64),
    /// This many pairs end above port 65535.
    PastLastPort(i64),
    /// The port for SIP is one of the relay's.
    RelayPort(i64),
    /// The address, the domain, a user, the word of the log, or the address of the page.
    Malformed(Key, Text<'a>),
    /// The key of the random numbers has this many bytes, which are secret.
    RandomKey(usize),
    UserCount(usize),
    UserTwice(Text<'a>),
}

ghost use Rattle.std.specs.Prelude.{◌≡◌, IfOk};
ghost use Rattle.configuration.specs.Flaws.{rule_of};

impl<'a> Flaw<'a> {
    /// The rule that is broken.
    pub fn rule(&self) -> ConfigError
        ensures { result ≡ rule_of self.now }
    {
        match self {
            Flaw::NoToml(_)
            | Flaw::UnknownKey(_)
            | Flaw::Missing(_)
            | Flaw::OtherType(_)
            | Flaw::RandomKey(_) => ConfigError::File,
            Flaw::OutOfRange(key, _) | Flaw::Malformed(key, _) => key.rule(),
            Flaw::Odd(_) | Flaw::PastLastPort(_) | Flaw::RelayPort(_) => ConfigError::RelayPorts,
            Flaw::UserCount(_) | Flaw::UserTwice(_) => ConfigError::Users,
        }
    }

    /// The same flaw, which borrows nothing.
    pub(crate) fn keep(&self, alloc: Global) -> Result<Flaw<'static>, AllocError>
        ensures { IfOk result (λ flaw. flaw ≡ self.now) }
    {
        Ok(match self {
            Flaw::NoToml(words) => Flaw::NoToml(words.keep(alloc)?),
            Flaw::UnknownKey(key) => Flaw::UnknownKey(key.keep(alloc)?),
            Flaw::Missing(key) => Flaw::Missing(*key),
            Flaw::OtherType(key) => Flaw::OtherType(*key),
            Flaw::OutOfRange(key, number) => Flaw::OutOfRange(*key, *number),
            Flaw::Odd(number) => Flaw::Odd(*number),
            Flaw::PastLastPort(number) => Flaw::PastLastPort(*number),
            Flaw::RelayPort(number) => Flaw::RelayPort(*number),
            Flaw::Malformed(key, text) => Flaw::Malformed(*key, text.keep(alloc)?),
            Flaw::RandomKey(count) => Flaw::RandomKey(*count),
            Flaw::UserCount(count) => Flaw::UserCount(*count),
            Flaw::UserTwice(user) => Flaw::UserTwice(user.keep(alloc)?),
        })
    }
}
