//! How much a server logs of what it does.

ghost use Rattle.std.specs.Prelude.{◌≡◌};
ghost use Rattle.configuration.specs.Files.{level_named};

use crate::tables::is_same;

/// How much a server logs of what it does. Each level logs more than the one before.
#[derive(Clone, Copy, Debug)]
pub enum LogLevel {
    Nothing,
    Trouble,
    /// Trouble, calls, and who registers.
    Calls,
    All,
}

/// The level if none is named.
pub(crate) const USUAL_LEVEL: LogLevel = LogLevel::Calls;

/// The level that a file names.
pub(crate) fn level_named(word: &[u8]) -> Option<LogLevel>
    ensures { result ≡ level_named word.now }
{
    if is_same(word, b"none") {
        Some(LogLevel::Nothing)
    } else if is_same(word, b"trouble") {
        Some(LogLevel::Trouble)
    } else if is_same(word, b"calls") {
        Some(LogLevel::Calls)
    } else if is_same(word, b"all") {
        Some(LogLevel::All)
    } else {
        None
    }
}
