//! What the rules of a configuration ask.

ghost use Rattle.std.specs.Prelude.{◌≡◌, ◌==◌};
ghost use Rattle.std.specs.List.{list_all};
ghost use Rattle.configuration.specs.Rules.{is_relay_port, has_room_for_ports, is_server_address, has_lifetime, has_longest_lifetime, has_domain, is_upto, has_silence_limit, has_length_limit, has_share};

use crate::config::Config;
use crate::names::is_domain;

pub(crate) const MIN_RELAY_PORT: u16 = 1024;

pub(crate) const MAX_RELAY_PAIRS: u16 = 2048;

/// How many ports there are, 0 included.
const ALL_PORTS: u32 = 65536;

/// The greatest allowed minimum lifetime of a binding, in seconds.
const MAX_MIN_EXPIRES: u32 = 3600;

/// The maximum number of minutes that a call may last without media: a day.
const MAX_SILENT_MINUTES: u32 = 1440;

/// The maximum number of hours that a call may last: a week.
const MAX_LONGEST_CALL_HOURS: u32 = 168;

/// The greatest allowed maximum of live server transactions for one source address.
const MAX_SOURCE_SHARE: u32 = 4096;

/// Whether the port is one of the relay's.
pub(crate) fn is_relay_port(config: &Config, port: u16) -> bool
    ensures { result ≡ is_relay_port config.now port }
{
    config.relay_first <= port
        && u32::from(port) < u32::from(config.relay_first) + 2 * u32::from(config.relay_pairs)
}

/// Whether no relay port is above 65535.
pub(crate) fn has_room_for_ports(config: &Config) -> bool
    ensures { result ≡ has_room_for_ports config.now }
{
    u32::from(config.relay_first) + 2 * u32::from(config.relay_pairs) <= ALL_PORTS
}

fn is_zero(ip: &[u8]) -> bool
    ensures { result ≡ list_all (λ octet. octet == 0) ip.now }
{
    ip.iter().all(|octet| *octet == 0)
}

/// Whether an address may be a server's.
pub(crate) fn is_server_address(ip: &[u8; 4]) -> bool
    ensures { result ≡ is_server_address ip.now }
{
    !is_zero(ip) && ip[0] < 224
}

#[tactic(auto, unfolding(crate::specs::Rules::has_lifetime))]
pub(crate) fn has_lifetime(config: &Config) -> bool
    ensures { result ≡ has_lifetime config.now }
{
    1 <= config.min_expires && config.min_expires <= MAX_MIN_EXPIRES
}

/// Whether the maximum lifetime of a binding, if there is one, is no less than the minimum.
#[tactic(auto, unfolding(crate::specs::Rules::has_longest_lifetime))]
pub(crate) fn has_longest_lifetime(config: &Config) -> bool
    ensures { result ≡ has_longest_lifetime config.now }
{
    match config.max_expires {
        Some(most) => config.min_expires <= most,
        None => true,
    }
}

#[tactic(auto, unfolding(crate::specs::Rules::has_domain))]
pub(crate) fn has_domain(config: &Config) -> bool
    ensures { result ≡ has_domain config.now }
{
    match &config.domain {
        Some(name) => is_domain(name.as_bytes()),
        None => true,
    }
}

/// Whether a number, if there is one, is from 1 to the most.
fn is_upto(most: u32, number: Option<u32>) -> bool
    ensures { result ≡ is_upto most number }
{
    match number {
        Some(number) => 1 <= number && number <= most,
        None => true,
    }
}

/// Whether the minutes without media are 1 to 1440, if there are any.
#[tactic(auto, unfolding(crate::specs::Rules::has_silence_limit))]
pub(crate) fn has_silence_limit(config: &Config) -> bool
    ensures { result ≡ has_silence_limit config.now }
{
    is_upto(MAX_SILENT_MINUTES, config.silent_minutes)
}

/// Whether the hours of the longest call are 1 to 168, if there are any.
#[tactic(auto, unfolding(crate::specs::Rules::has_length_limit))]
pub(crate) fn has_length_limit(config: &Config) -> bool
    ensures { result ≡ has_length_limit config.now }
{
    is_upto(MAX_LONGEST_CALL_HOURS, config.longest_call_hours)
}

/// Whether the maximum number of live transactions for one source address is 1 to 4096, if there is such a limit.
#[tactic(auto, unfolding(crate::specs::Rules::has_share))]
pub(crate) fn has_share(config: &Config) -> bool
    ensures { result ≡ has_share config.now }
{
    is_upto(MAX_SOURCE_SHARE, config.source_share)
}
