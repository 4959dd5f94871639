//! The values at the keys of a table.

ghost use Rattle.std.specs.Prelude.{◌≡◌, option_map};
ghost use Rattle.std.specs.Option.{option_copied};
ghost use Rattle.toml.specs.View.{view, array_view, table_view};
ghost use Rattle.configuration.specs.Keys.{is_same, is_among, is_known_key};
ghost use Rattle.configuration.specs.Files.{value_at, number_at, text_at, array_at, flag_at};

use crate::key::{KEYS, Key};
use toml::value::Array;
use toml::{Table, Value};

/// Whether two texts are the same.
pub(crate) fn is_same(text: &[u8], other: &[u8]) -> bool
    ensures { result ≡ is_same text.now other.now }
{
    text == other
}

/// Whether one of the keys has this name.
fn is_among(keys: &[Key], name: &[u8]) -> bool
    ensures { result ≡ is_among keys.now name.now }
{
    keys.iter().any(|key| is_same(name, key.name().as_bytes()))
}

/// Whether a key of a configuration has this name.
pub(crate) fn is_known_key(name: &[u8]) -> bool
    ensures { result ≡ is_known_key name.now }
{
    is_among(KEYS, name)
}

/// The value of a key.
pub(crate) fn value_at<'t>(table: &'t Table, key: Key) -> Option<&'t Value>
    ensures { option_map (λ value. view value.now) result ≡ value_at key (table_view table.now) }
{
    table.get(key.name())
}

/// The whole number of a key.
pub(crate) fn number_at(table: &Table, key: Key) -> Option<i64>
    ensures { result ≡ number_at key (table_view table.now) }
{
    match value_at(table, key) {
        Some(value) => value.as_integer(),
        None => None,
    }
}

/// The text of a key.
pub(crate) fn text_at<'t>(table: &'t Table, key: Key) -> Option<&'t str>
    ensures { option_copied result ≡ text_at key (table_view table.now) }
{
    match value_at(table, key) {
        Some(value) => value.as_str(),
        None => None,
    }
}

/// The list of a key.
pub(crate) fn array_at<'t>(table: &'t Table, key: Key) -> Option<&'t Array>
    ensures { option_map (λ array. array_view array.now) result ≡ array_at key (table_view table.now) }
{
    match value_at(table, key) {
        Some(value) => value.as_array(),
        None => None,
    }
}

/// Whether a key is true. A key that is missing is not.
pub(crate) fn flag_at(table: &Table, key: Key) -> bool
    ensures { result ≡ flag_at key (table_view table.now) }
{
    match value_at(table, key) {
        Some(value) => value.as_bool().unwrap_or(false),
        None => false,
    }
}
