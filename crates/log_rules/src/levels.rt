//! What each level logs.

ghost use Rattle.std.specs.Prelude.{◌≡◌};
ghost use Rattle.configuration.specs.declared.level.LogLevel.TheVariants as levels;
ghost use Rattle.log_rules.specs.Levels.{is_of_strangers, is_up_to, least_level, logs_note, rank};

use configuration::LogLevel;
use plans::Note;

fn rank(level: LogLevel) -> u8
    ensures { result ≡ rank level }
{
    match level {
        LogLevel::Nothing => 0,
        LogLevel::Trouble => 1,
        LogLevel::Calls => 2,
        LogLevel::All => 3,
    }
}

fn is_up_to(least: LogLevel, level: LogLevel) -> bool
    ensures { result ≡ is_up_to least level }
{
    rank(least) <= rank(level)
}

/// The least level that logs what an event was about; none for an event that no level logs.
fn least_level(note: Note) -> Option<LogLevel>
    ensures { result ≡ least_level note }
{
    match note {
        Note::Quiet => None,
        Note::Shed => Some(LogLevel::Trouble),
        Note::Call(_) | Note::Registered | Note::Refused(_) => Some(LogLevel::Calls),
        Note::Dropped(_) => Some(LogLevel::All),
    }
}

/// Whether a level logs what an event was about.
pub fn logs_note(level: LogLevel, note: Note) -> bool
    ensures { result ≡ logs_note level note }
{
    match least_level(note) {
        Some(least) => is_up_to(least, level),
        None => false,
    }
}

/// Whether a level logs trouble, and the counts.
pub fn logs_trouble(level: LogLevel) -> bool
    ensures { result ≡ is_up_to levels.Trouble level }
{
    is_up_to(LogLevel::Trouble, level)
}

/// Whether a level logs calls, and changes of the users.
pub fn logs_calls(level: LogLevel) -> bool
    ensures { result ≡ is_up_to levels.Calls level }
{
    is_up_to(LogLevel::Calls, level)
}

/// Whether anyone who reaches the port can cause as many of these events as he likes.
pub fn is_of_strangers(note: Note) -> bool
    ensures { result ≡ is_of_strangers note }
{
    matches!(note, Note::Refused(_) | Note::Dropped(_) | Note::Shed)
}
