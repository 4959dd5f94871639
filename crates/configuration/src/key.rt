//! The table of the keys of a configuration's file.

use crate::error::ConfigError;

/// A key of a configuration's file.
#[derive(Clone, Copy, Debug)]
pub enum Key {
    RelayFirst,
    RelayPairs,
    SipPort,
    MinExpires,
    MaxExpires,
    SilentMinutes,
    LongestCallHours,
    SourceShare,
    Workers,
    AnswerWithin,
    OldestLeaves,
    Ip,
    RandomKey,
    Domain,
    Users,
    Log,
    StatusOpen,
    Status,
}

/// What a number counts.
#[derive(Clone, Copy)]
pub(crate) enum Measure {
    Things,
    Seconds,
}

/// What a value has to be by itself. What a rule says beyond that is checked once each key's value is right by itself.
#[derive(Clone, Copy)]
pub(crate) enum Kind {
    /// A whole number. This rule says which.
    Whole(ConfigError),
    /// A number from the first to the second.
    Between(Measure, u32, u32),
    Truth,
    /// A text. This rule says which.
    Text(ConfigError),
    /// 64 hexadecimal digits, which are secret.
    Digits,
    /// A word for the log.
    Level,
    /// An address for the page.
    Page,
    /// A list of texts. This rule says which.
    Texts(ConfigError),
}

/// A row of the table of keys.
#[derive(Clone, Copy)]
pub(crate) struct Row {
    /// How a file spells the key.
    pub name: &'static str,
    pub is_required: bool,
    pub kind: Kind,
}

/// The keys, in the order in which their values are judged.
pub(crate) const KEYS: &[Key] = &[
    Key::RelayFirst,
    Key::RelayPairs,
    Key::SipPort,
    Key::MinExpires,
    Key::MaxExpires,
    Key::SilentMinutes,
    Key::LongestCallHours,
    Key::SourceShare,
    Key::Workers,
    Key::AnswerWithin,
    Key::OldestLeaves,
    Key::Ip,
    Key::RandomKey,
    Key::Domain,
    Key::Users,
    Key::Log,
    Key::StatusOpen,
    Key::Status,
];

ghost use Rattle.std.specs.Prelude.{◌≡◌};
ghost use Rattle.configuration.specs.Keys.{kind_rule, key_rule, key_name, row_of, required, optional};

fn required(name: &'static str, kind: Kind) -> Row
    ensures name { result.name.now ≡ name.now }
    ensures is_required { result.is_required ≡ (required name.now kind).is_required }
    ensures kind { result.kind ≡ kind }
{
    Row {
        name,
        is_required: true,
        kind,
    }
}

fn optional(name: &'static str, kind: Kind) -> Row
    ensures name { result.name.now ≡ name.now }
    ensures is_required { result.is_required ≡ (optional name.now kind).is_required }
    ensures kind { result.kind ≡ kind }
{
    Row {
        name,
        is_required: false,
        kind,
    }
}

impl Kind {
    /// The rule that a value breaks which is not of this kind, or not as its rule says.
    fn rule(self) -> ConfigError
        ensures { result ≡ kind_rule self }
    {
        match self {
            Kind::Whole(rule) | Kind::Text(rule) | Kind::Texts(rule) => rule,
            Kind::Between(..) | Kind::Truth | Kind::Digits | Kind::Level | Kind::Page => {
                ConfigError::File
            }
        }
    }
}

impl Key {
    /// Its row.
    pub(crate) fn row(self) -> Row
        ensures name { result.name.now ≡ (row_of self).name }
        ensures is_required { result.is_required ≡ (row_of self).is_required }
        ensures kind { result.kind ≡ (row_of self).kind }
    {
        match self {
            Key::RelayFirst => required("relay_first", Kind::Whole(ConfigError::RelayPorts)),
            Key::RelayPairs => required("relay_pairs", Kind::Whole(ConfigError::RelayPorts)),
            Key::SipPort => required("sip_port", Kind::Whole(ConfigError::Address)),
            Key::MinExpires => required("min_expires", Kind::Whole(ConfigError::MinExpires)),
            Key::MaxExpires => optional("max_expires", Kind::Whole(ConfigError::MinExpires)),
            Key::SilentMinutes => optional(
                "silent_minutes",
                Kind::Whole(ConfigError::CallDuration),
            ),
            Key::LongestCallHours => optional(
                "longest_call_hours",
                Kind::Whole(ConfigError::CallDuration),
            ),
            Key::SourceShare => optional("source_share", Kind::Whole(ConfigError::SourceShare)),
            Key::Workers => optional("workers", Kind::Between(Measure::Things, 1, 8)),
            Key::AnswerWithin => optional("answer_within", Kind::Between(Measure::Seconds, 1, 32)),
            Key::OldestLeaves => optional("oldest_leaves", Kind::Truth),
            Key::Ip => required("ip", Kind::Text(ConfigError::Address)),
            Key::RandomKey => required("random_key", Kind::Digits),
            Key::Domain => optional("domain", Kind::Text(ConfigError::Domain)),
            Key::Users => required("users", Kind::Texts(ConfigError::Users)),
            Key::Log => optional("log", Kind::Level),
            Key::StatusOpen => optional("status_open", Kind::Truth),
            Key::Status => optional("status", Kind::Page),
        }
    }

    /// How a file spells it.
    pub fn name(self) -> &'static str
        ensures { result.now ≡ key_name self }
    {
        self.row().name
    }

    /// The rule of its value.
    pub(crate) fn rule(self) -> ConfigError
        ensures { result ≡ key_rule self }
    {
        self.row().kind.rule()
    }
}
