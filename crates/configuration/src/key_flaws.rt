//! The first flaw of a table's keys: each is judged by its row.

ghost use Rattle.std.specs.Prelude.{◌≡◌, option_map};
ghost use Rattle.std.specs.Option.{option_copied};
ghost use Rattle.toml.specs.View.{view, table_view, array_view};
ghost use Rattle.configuration.specs.Flaws.{unknown_key, unknown_flaw, unless, number_flaw, digits_flaw, level_flaw, page_flaw, are_texts, texts_flaw, value_flaw, key_flaw, first_flaw, said_flaw};

use crate::fields::key_of;
use crate::flaw::Flaw;
use crate::key::{KEYS, Key, Kind};
use crate::level::level_named;
use crate::numbers::is_within;
use crate::status::page_at;
use crate::tables::{flag_at, is_known_key, value_at};
use text::Text;
use toml::value::Array;
use toml::{Table, Value};

/// The first key of a table that is not a key of a configuration.
fn unknown_key(table: &Table) -> Option<&str>
    ensures { option_copied result ≡ unknown_key (table_view table.now) }
{
    for key in table.keys() {
        if !is_known_key(key.as_bytes()) {
            return Some(key.as_str());
        }
    }
    None
}

fn unknown_flaw(table: &Table) -> Option<Flaw<'_>>
    ensures { result ≡ unknown_flaw (unknown_key (table_view table.now)) }
{
    match unknown_key(table) {
        Some(key) => Some(Flaw::UnknownKey(Text::lent(key.as_bytes()))),
        None => None,
    }
}

/// A flaw of a value that is not of the key's type.
fn type_flaw<'t>(key: Key, is_typed: bool) -> Option<Flaw<'t>>
    ensures { result ≡ unless is_typed (Flaw.OtherType key) }
{
    if is_typed {
        None
    } else {
        Some(Flaw::OtherType(key))
    }
}

fn number_flaw<'t>(key: Key, least: u32, most: u32, number: Option<i64>) -> Option<Flaw<'t>>
    ensures { result ≡ number_flaw key least most number }
{
    match number {
        Some(number) if is_within(least, most, number) => None,
        Some(number) => Some(Flaw::OutOfRange(key, number)),
        None => Some(Flaw::OtherType(key)),
    }
}

fn digits_flaw<'t>(key: Key, text: Option<&'t str>) -> Option<Flaw<'t>>
    ensures { result ≡ digits_flaw key (option_copied text.entry) }
{
    let Some(text) = text else {
        return Some(Flaw::OtherType(key));
    };
    match key_of(text) {
        Some(_) => None,
        None => Some(Flaw::RandomKey(text.len())),
    }
}

fn level_flaw<'t>(key: Key, word: Option<&'t str>) -> Option<Flaw<'t>>
    ensures { result ≡ level_flaw key (option_copied word.entry) }
{
    let Some(word) = word else {
        return Some(Flaw::OtherType(key));
    };
    match level_named(word.as_bytes()) {
        Some(_) => None,
        None => Some(Flaw::Malformed(key, Text::lent(word.as_bytes()))),
    }
}

fn page_flaw<'t>(key: Key, is_open: bool, text: Option<&'t str>) -> Option<Flaw<'t>>
    ensures { result ≡ page_flaw key is_open (option_copied text.entry) }
{
    let Some(text) = text else {
        return Some(Flaw::OtherType(key));
    };
    match page_at(is_open, text.as_bytes()) {
        Some(_) => None,
        None => Some(Flaw::Malformed(key, Text::lent(text.as_bytes()))),
    }
}

fn are_all_texts(array: &Array) -> bool
    ensures { result ≡ are_texts (array_view array.now) }
{
    for value in array {
        if value.as_str().is_none() {
            return false;
        }
    }
    true
}

fn texts_flaw<'t>(key: Key, array: Option<&Array>) -> Option<Flaw<'t>>
    ensures { result ≡ texts_flaw key (option_map (λ items. array_view items.now) array.entry) }
{
    match array {
        Some(array) => type_flaw(key, are_all_texts(array)),
        None => Some(Flaw::OtherType(key)),
    }
}

/// What is wrong with a value by itself.
fn value_flaw<'t>(key: Key, kind: Kind, is_open: bool, value: &'t Value) -> Option<Flaw<'t>>
    ensures { result ≡ value_flaw key is_open kind (view value.now) }
{
    match kind {
        Kind::Whole(_) => type_flaw(key, value.as_integer().is_some()),
        Kind::Between(_, least, most) => number_flaw(key, least, most, value.as_integer()),
        Kind::Truth => type_flaw(key, value.as_bool().is_some()),
        Kind::Text(_) => type_flaw(key, value.as_str().is_some()),
        Kind::Digits => digits_flaw(key, value.as_str()),
        Kind::Level => level_flaw(key, value.as_str()),
        Kind::Page => page_flaw(key, is_open, value.as_str()),
        Kind::Texts(_) => texts_flaw(key, value.as_array()),
    }
}

/// What is wrong with the value of a key by itself, or that it is missing.
fn key_flaw(table: &Table, key: Key) -> Option<Flaw<'_>>
    ensures { result ≡ key_flaw (table_view table.now) key }
{
    let row = key.row();
    match value_at(table, key) {
        Some(value) => value_flaw(key, row.kind, flag_at(table, Key::StatusOpen), value),
        None if row.is_required => Some(Flaw::Missing(key)),
        None => None,
    }
}

/// The first flaw of these keys.
fn first_flaw<'t>(table: &'t Table, keys: &[Key]) -> Option<Flaw<'t>>
    ensures { result ≡ first_flaw (table_view table.now) keys.now }
{
    for key in keys {
        if let Some(flaw) = key_flaw(table, *key) {
            return Some(flaw);
        }
    }
    None
}

/// The first flaw for which a table is no configuration.
#[tactic(auto, unfolding(crate::specs::Flaws::said_flaw))]
pub(crate) fn said_flaw(table: &Table) -> Option<Flaw<'_>>
    ensures { result ≡ said_flaw (table_view table.now) }
{
    unknown_flaw(table).or(first_flaw(table, KEYS))
}
