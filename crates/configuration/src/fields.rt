//! The values of a configuration, as a table has them whose keys have no flaw.

ghost use Rattle.std.specs.Prelude.{◌≡◌, option_map, IfOk};
ghost use Rattle.toml.specs.View.{view, array_view, table_view};
ghost use Rattle.configuration.specs.declared.key.Key.TheVariants as keys;
ghost use Rattle.configuration.specs.Files.{array_at, text_at, said_number, port_at, seconds_at, limit_at, small_at, ip_at, key_of, random_key_at, text_in, texts_in, users_in, log_at, config_in};

use crate::config::Config;
use crate::key::Key;
use crate::level::{LogLevel, USUAL_LEVEL, level_named};
use crate::numbers::{below_2_8, number_of, port_of};
use crate::ranges::expanded;
use crate::status::status_at;
use crate::tables::{array_at, flag_at, number_at, text_at};
use hex::FromHex;
use sip_uri::ip4;
use std::alloc::{AllocError, Global};
use text::{Text, Texts};
use toml::value::Array;
use toml::{Table, Value};

/// The number of workers if none is configured.
const USUAL_WORKERS: u8 = 2;

/// The default number of seconds that a callee's telephone has for its first response: 64*T1.
const USUAL_ANSWER_WITHIN: u8 = 32;

/// The number that a table says, which may not fit its field.
pub(crate) fn said_number(table: &Table, key: Key) -> i64
    ensures { result ≡ said_number key (table_view table.now) }
{
    number_at(table, key).unwrap_or(0)
}

/// A port, or a number of pairs.
fn port_at(table: &Table, key: Key) -> u16
    ensures { result ≡ port_at key (table_view table.now) }
{
    port_of(said_number(table, key))
}

fn seconds_at(table: &Table, key: Key) -> u32
    ensures { result ≡ seconds_at key (table_view table.now) }
{
    number_of(said_number(table, key))
}

/// A number that may be missing.
fn limit_at(table: &Table, key: Key) -> Option<u32>
    ensures { result ≡ limit_at key (table_view table.now) }
{
    match number_at(table, key) {
        Some(number) => Some(number_of(number)),
        None => None,
    }
}

/// A number below 256; the usual one if the key is missing.
fn small_at(table: &Table, key: Key, usual: u8) -> u8
    ensures { result ≡ small_at key usual (table_view table.now) }
{
    match number_at(table, key) {
        Some(number) => below_2_8(number).unwrap_or(usual),
        None => usual,
    }
}

fn ip_at(table: &Table) -> [u8; 4]
    ensures { result ≡ ip_at (table_view table.now) }
{
    match text_at(table, Key::Ip) {
        Some(text) => ip4(text.as_bytes()).unwrap_or([0, 0, 0, 0]),
        None => [0, 0, 0, 0],
    }
}

/// 64 hexadecimal digits as bytes.
pub(crate) fn key_of(text: &str) -> Option<[u8; 32]>
    ensures { result ≡ key_of text.now }
{
    <[u8; 32] as FromHex>::from_hex(text).ok()
}

fn random_key_at(table: &Table) -> [u8; 32]
    ensures { result ≡ random_key_at (table_view table.now) }
{
    match text_at(table, Key::RandomKey) {
        Some(text) => key_of(text).unwrap_or([0; 32]),
        None => [0; 32],
    }
}

fn domain_at(alloc: Global, table: &Table) -> Result<Option<Text<'static>>, AllocError>
    ensures { IfOk result (λ domain. domain ≡ text_at keys.Domain (table_view table.now)) }
{
    match text_at(table, Key::Domain) {
        Some(text) => Ok(Some(Text::from_slice(alloc, text.as_bytes())?)),
        None => Ok(None),
    }
}

fn text_in(alloc: Global, value: &Value) -> Result<Text<'static>, AllocError>
    ensures { IfOk result (λ text. text ≡ text_in (view value.now)) }
{
    match value.as_str() {
        Some(text) => Text::from_slice(alloc, text.as_bytes()),
        None => Ok(Text::lent(b"")),
    }
}

fn texts_in(alloc: Global, array: &Array) -> Result<Texts<'static>, AllocError>
    ensures { IfOk result (λ texts. texts ≡ texts_in (array_view array.now)) }
{
    let mut texts = Vec::new(alloc);
    for value in array {
        texts.push(text_in(alloc, value)?)?;
    }
    Ok(Texts::from_vec(texts))
}

fn users_in(alloc: Global, array: Option<&Array>) -> Result<Texts<'static>, AllocError>
    ensures { IfOk result (λ users. users ≡ users_in (option_map (λ items. array_view items.now) array.entry)) }
{
    match array {
        Some(array) => expanded(alloc, texts_in(alloc, array)?),
        None => Ok(Texts::from_vec(Vec::new(alloc))),
    }
}

fn log_at(table: &Table) -> LogLevel
    ensures { result ≡ log_at (table_view table.now) }
{
    match text_at(table, Key::Log) {
        Some(word) => level_named(word.as_bytes()).unwrap_or(USUAL_LEVEL),
        None => USUAL_LEVEL,
    }
}

/// The configuration in a table whose keys have no flaw, whether or not it keeps the rules.
#[tactic(auto, unfolding(crate::specs::Files::config_in))]
pub(crate) fn config_in(alloc: Global, table: &Table) -> Result<Config, AllocError>
    ensures { IfOk result (λ config. config ≡ config_in (table_view table.now)) }
{
    let domain = domain_at(alloc, table)?;
    let users = users_in(alloc, array_at(table, Key::Users))?;
    Ok(Config {
        relay_first: port_at(table, Key::RelayFirst),
        relay_pairs: port_at(table, Key::RelayPairs),
        ip: ip_at(table),
        sip_port: port_at(table, Key::SipPort),
        users,
        min_expires: seconds_at(table, Key::MinExpires),
        max_expires: limit_at(table, Key::MaxExpires),
        oldest_leaves: flag_at(table, Key::OldestLeaves),
        silent_minutes: limit_at(table, Key::SilentMinutes),
        longest_call_hours: limit_at(table, Key::LongestCallHours),
        source_share: limit_at(table, Key::SourceShare),
        domain,
        workers: small_at(table, Key::Workers, USUAL_WORKERS),
        random_key: random_key_at(table),
        log: log_at(table),
        answer_within: small_at(table, Key::AnswerWithin, USUAL_ANSWER_WITHIN),
        status: status_at(table),
    })
}
