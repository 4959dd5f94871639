//! The first flaw for which a configuration breaks a rule.

ghost use Rattle.std.specs.Prelude.{◌≡◌, ◌<◌, ◌+◌, pos, nat_eq, [], None, Some, length, drop, slice_index_or, unwrap_or, MatchResult, OnOk};
ghost use Rattle.std.specs.List.{list_any};
ghost use Rattle.std.specs.Cmp.Lexicographic.{pointwise};
ghost use Rattle.configuration.specs.Rules.{first_broken, KeepsRules};
ghost use Rattle.configuration.specs.Flaws.{relay_flaw, address_flaw, malformed_user, user_twice, users_flaw, lifetime_flaw, domain_flaw, duration_flaw, share_flaw, rules_flaw};

use crate::config::Config;
use crate::error::ConfigError;
use crate::flaw::Flaw;
use crate::key::Key;
use crate::names::{is_among, is_user};
use crate::rules::{
    MAX_RELAY_PAIRS, MIN_RELAY_PORT, has_domain, has_length_limit, has_lifetime,
    has_longest_lifetime, has_room_for_ports, has_share, has_silence_limit, is_relay_port,
    is_server_address,
};
use crate::user_list::MAX_USERS;
use text::Text;

fn number_or_0(number: Option<u32>) -> i64
    ensures { result ≡ pos (unwrap_or number 0) }
{
    i64::from(number.unwrap_or(0))
}

#[tactic(auto, unfolding(crate::specs::Flaws::relay_flaw))]
fn relay_flaw<'c>(config: &Config) -> Option<Flaw<'c>>
    ensures { result ≡ relay_flaw config.now }
{
    if config.relay_first % 2 != 0 {
        return Some(Flaw::Odd(i64::from(config.relay_first)));
    }
    if config.relay_first < MIN_RELAY_PORT {
        return Some(Flaw::OutOfRange(Key::RelayFirst, i64::from(config.relay_first)));
    }
    if config.relay_pairs < 1 || config.relay_pairs > MAX_RELAY_PAIRS {
        return Some(Flaw::OutOfRange(Key::RelayPairs, i64::from(config.relay_pairs)));
    }
    if !has_room_for_ports(config) {
        return Some(Flaw::PastLastPort(i64::from(config.relay_pairs)));
    }
    if is_relay_port(config, config.sip_port) {
        return Some(Flaw::RelayPort(i64::from(config.sip_port)));
    }
    None
}

#[tactic(auto, unfolding(crate::specs::Flaws::address_flaw))]
fn address_flaw<'c>(config: &Config) -> Option<Flaw<'c>>
    ensures { result ≡ address_flaw config.now }
{
    if !is_server_address(&config.ip) {
        return Some(Flaw::Malformed(Key::Ip, Text::lent(b"")));
    }
    if config.sip_port == 0 {
        return Some(Flaw::OutOfRange(Key::SipPort, i64::from(config.sip_port)));
    }
    None
}

fn malformed_user<'c>(users: &'c [Text<'static>]) -> Option<Flaw<'c>>
    ensures { result ≡ malformed_user users.now }
{
    for user in users {
        if !is_user(user.as_bytes()) {
            return Some(Flaw::Malformed(Key::Users, Text::lent(user.as_bytes())));
        }
    }
    None
}

/// Whether the user at a place occurs again after it.
fn stands_again(users: &[Text<'static>], at: usize) -> bool
    requires { at < length users.now }
    ensures { result ≡ list_any (λ other. pointwise nat_eq other (slice_index_or users.now at [])) (drop (at + 1) users.now) }
{
    is_among(&users[at], &users[at + 1..])
}

fn user_twice<'c>(users: &'c [Text<'static>]) -> Option<Flaw<'c>>
    ensures { result ≡ user_twice users.now }
{
    for at in 0..users.len() {
        if stands_again(users, at) {
            return Some(Flaw::UserTwice(Text::lent(users[at].as_bytes())));
        }
    }
    None
}

#[tactic(auto, unfolding(crate::specs::Flaws::users_flaw))]
fn users_flaw(config: &Config) -> Option<Flaw<'_>>
    ensures { result ≡ users_flaw config.now }
{
    let users = config.users.as_slice();
    if 1 <= users.len() && users.len() <= MAX_USERS {
        malformed_user(users).or(user_twice(users))
    } else {
        Some(Flaw::UserCount(users.len()))
    }
}

#[tactic(auto, unfolding(crate::specs::Flaws::lifetime_flaw))]
fn lifetime_flaw<'c>(config: &Config) -> Option<Flaw<'c>>
    ensures { result ≡ lifetime_flaw config.now }
{
    if !has_lifetime(config) {
        return Some(Flaw::OutOfRange(Key::MinExpires, i64::from(config.min_expires)));
    }
    if !has_longest_lifetime(config) {
        return Some(Flaw::OutOfRange(Key::MaxExpires, number_or_0(config.max_expires)));
    }
    None
}

#[tactic(auto, unfolding(crate::specs::Flaws::domain_flaw))]
fn domain_flaw(config: &Config) -> Option<Flaw<'_>>
    ensures { result ≡ domain_flaw config.now }
{
    if has_domain(config) {
        return None;
    }
    let name = match &config.domain {
        Some(name) => name.as_bytes(),
        None => &[],
    };
    Some(Flaw::Malformed(Key::Domain, Text::lent(name)))
}

#[tactic(auto, unfolding(crate::specs::Flaws::duration_flaw))]
fn duration_flaw<'c>(config: &Config) -> Option<Flaw<'c>>
    ensures { result ≡ duration_flaw config.now }
{
    if !has_silence_limit(config) {
        return Some(Flaw::OutOfRange(Key::SilentMinutes, number_or_0(config.silent_minutes)));
    }
    if !has_length_limit(config) {
        let hours = number_or_0(config.longest_call_hours);
        return Some(Flaw::OutOfRange(Key::LongestCallHours, hours));
    }
    None
}

#[tactic(auto, unfolding(crate::specs::Flaws::share_flaw))]
fn share_flaw<'c>(config: &Config) -> Option<Flaw<'c>>
    ensures { result ≡ share_flaw config.now }
{
    if !has_share(config) {
        return Some(Flaw::OutOfRange(Key::SourceShare, number_or_0(config.source_share)));
    }
    None
}

/// The first flaw for which a configuration breaks a rule. Its numbers are the configuration's, and an address that
/// breaks the rule has no text.
#[tactic(auto, unfolding(crate::specs::Flaws::rules_flaw))]
pub(crate) fn rules_flaw(config: &Config) -> Option<Flaw<'_>>
    ensures { result ≡ rules_flaw config.now }
{
    relay_flaw(config)
        .or(address_flaw(config))
        .or(users_flaw(config))
        .or(lifetime_flaw(config))
        .or(domain_flaw(config))
        .or(duration_flaw(config))
        .or(share_flaw(config))
}

/// Checks whether a configuration keeps the rules, and otherwise returns the first rule that it breaks. Takes no
/// memory.
#[tactic(auto, using(crate::proofs::JudgeLaws::keeps, crate::proofs::JudgeLaws::breaks))]
pub fn check(config: &Config) -> Result<(), ConfigError>
    // What a configuration that passes has.
    ensures kept { OnOk result (KeepsRules config.now) }
    // It passes if no rule is broken, and otherwise the first broken rule decides.
    ensures exact { MatchResult result (λ _. first_broken config.now ≡ None) (λ e. first_broken config.now ≡ Some e) }
{
    match rules_flaw(config) {
        Some(flaw) => Err(flaw.rule()),
        None => Ok(()),
    }
}
