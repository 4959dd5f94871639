//! Faults in words, each on one line, whatever the file says.

use crate::fault::ConfigFault;
use crate::flaw::Flaw;
use crate::key::{Key, Kind, Measure};
use std::fmt;

/// How many bytes of a text are shown at most.
const MAX_SHOWN: usize = 100;

/// A text of the file: characters that could end a line, or the message, are escaped.
#[derive(Clone, Copy)]
struct Shown<'t>(&'t [u8]);

impl fmt::Display for Shown<'_> {
    fn fmt<W: fmt::Write>(&self, f: &mut fmt::Formatter<W>) -> fmt::Result {
        let Shown(text) = *self;
        for byte in &text[..text.len().min(MAX_SHOWN)] {
            match byte {
                b'"' | b'\\' => write!(f, "\\x{byte:02x}")?,
                b' '..=b'~' => f.write_char(char::from(*byte))?,
                _ => write!(f, "\\x{byte:02x}")?,
            }
        }
        if text.len() > MAX_SHOWN {
            f.write_str("...")?;
        }
        Ok(())
    }
}

impl fmt::Display for Key {
    fn fmt<W: fmt::Write>(&self, f: &mut fmt::Formatter<W>) -> fmt::Result {
        f.write_str(self.name())
    }
}

/// What the value of a key has to be.
#[derive(Clone, Copy)]
struct Asked(Key);

/// What a rule asks of the value of a key.
fn words_of_rule(key: Key) -> &'static str {
    match key {
        Key::RelayFirst => "an even port from 1024 to 65534",
        Key::RelayPairs => "a number from 1 to 2048 with no port above 65535",
        Key::SipPort => "a port from 1 to 65535 that is no relay port",
        Key::MinExpires => "a number of seconds from 1 to 3600",
        Key::MaxExpires => "a number of seconds from min_expires to 4294967295",
        Key::SilentMinutes => "a number of minutes from 1 to 1440",
        Key::LongestCallHours => "a number of hours from 1 to 168",
        Key::SourceShare => "a number from 1 to 4096",
        Key::Ip => "an IPv4 address in dotted form, not 0.0.0.0 and below 224.0.0.0",
        Key::Domain => "a host name",
        Key::Users => {
            "a list of 1 to 1000 names, none twice, each of 1 to 64 letters, digits, '-', '_' or '.'"
        }
        _ => "a value of its kind",
    }
}

/// What a number counts, in words.
fn words_of_measure(measure: Measure) -> &'static str {
    match measure {
        Measure::Things => "a number",
        Measure::Seconds => "a number of seconds",
    }
}

impl fmt::Display for Asked {
    fn fmt<W: fmt::Write>(&self, f: &mut fmt::Formatter<W>) -> fmt::Result {
        let words = match self.0.row().kind {
            Kind::Between(measure, least, most) => {
                let number = words_of_measure(measure);
                return write!(f, "; {number} from {least} to {most} is asked");
            }
            Kind::Truth => "true or false",
            Kind::Digits => "a text of 64 hexadecimal digits",
            Kind::Level => "\"none\", \"trouble\", \"calls\" or \"all\"",
            Kind::Page => "ADDRESS:PORT, with a loopback address unless status_open is true,",
            Kind::Whole(_) | Kind::Text(_) | Kind::Texts(_) => words_of_rule(self.0),
        };
        write!(f, "; {words} is asked")
    }
}

/// A number that breaks the rule of its key.
fn put_number<W: fmt::Write>(
    f: &mut fmt::Formatter<W>,
    key: Key,
    number: i64,
    why: &str,
) -> fmt::Result {
    write!(f, "{key}: {number} {why}{}", Asked(key))
}

/// What a text of the key fails to be.
fn unfit(key: Key) -> &'static str {
    match key {
        Key::Ip => "is no address of a server",
        Key::Domain => "is no host name",
        Key::Log => "is no word for the log",
        Key::Status => "is no address for the page",
        _ => "is no name of a user",
    }
}

/// A text that breaks the rule of its key.
fn put_text<W: fmt::Write>(
    f: &mut fmt::Formatter<W>,
    key: Key,
    text: &[u8],
    why: &str,
) -> fmt::Result {
    write!(f, "{key}: \"{}\" {why}{}", Shown(text), Asked(key))
}

impl fmt::Display for Flaw<'_> {
    fn fmt<W: fmt::Write>(&self, f: &mut fmt::Formatter<W>) -> fmt::Result {
        match self {
            Flaw::NoToml(words) => write!(f, "no TOML: {}", Shown(words.as_bytes())),
            Flaw::UnknownKey(key) => write!(f, "{}: an unknown key", Shown(key.as_bytes())),
            Flaw::Missing(key) => write!(f, "{key}: missing{}", Asked(*key)),
            Flaw::OtherType(key) => write!(f, "{key}: a value of another type{}", Asked(*key)),
            Flaw::OutOfRange(key, number) => put_number(f, *key, *number, "is out of range"),
            Flaw::Odd(number) => put_number(f, Key::RelayFirst, *number, "is odd"),
            Flaw::PastLastPort(number) => {
                put_number(f, Key::RelayPairs, *number, "pairs end above port 65535")
            }
            Flaw::RelayPort(number) => put_number(f, Key::SipPort, *number, "is a relay port"),
            Flaw::Malformed(key, text) => put_text(f, *key, text.as_bytes(), unfit(*key)),
            Flaw::RandomKey(count) => {
                let asked = Asked(Key::RandomKey);
                write!(f, "random_key: another text, of {count} bytes{asked}")
            }
            Flaw::UserCount(count) => write!(f, "users: {count} names{}", Asked(Key::Users)),
            Flaw::UserTwice(user) => put_text(f, Key::Users, user.as_bytes(), "stands twice"),
        }
    }
}

impl fmt::Display for ConfigFault {
    fn fmt<W: fmt::Write>(&self, f: &mut fmt::Formatter<W>) -> fmt::Result {
        if let Some(line) = self.line {
            write!(f, "line {line}: ")?;
        }
        write!(f, "{}", self.flaw)
    }
}

impl fmt::Debug for ConfigFault {
    fn fmt<W: fmt::Write>(&self, f: &mut fmt::Formatter<W>) -> fmt::Result {
        write!(f, "{self}")
    }
}

impl std::error::Error for ConfigFault {}
