//! What comes after a value of TOML: its text is skipped as the grammar reads it, and nothing of it is kept.

ghost use Rattle.std.specs.Prelude.{◌≡◌, ℕ, ◌<◌, ◌≤◌, length, IfOk};
ghost use Rattle.toml.specs.Data.{no_items};
ghost use Rattle.toml.specs.Tables.{no_nodes};
ghost use Rattle.toml.specs.Parse.{after_element, key_equals, atom, val, items, members};
ghost use Rattle.toml_parser.specs.Reading.{Gives, Reads, Shortens, key_view};
ghost use Rattle.configuration.specs.Entries.{Skips};

use std::alloc::Global;
use toml_parser::text::{first, skip, skip_blank, skip_ws};
use toml_parser::{ErrorKind, Key, ParseError, dotted_key, quoted, starts_string, unquoted};

/// What comes after a value with arrays and inline tables at most `depth` deep.
#[cycle(value)]
pub(crate) fn skip_value(alloc: Global, s: &str, depth: usize) -> Result<&str, ParseError>
    ensures value { Skips result (val depth s.now) }
    ensures shorter { IfOk result (λ rest. length rest.now < length s.now) }
{
    let byte = first(s);
    if byte != b'[' && byte != b'{' {
        return skip_atom(alloc, s);
    }
    if depth == 0 {
        return Err(ParseError::at(ErrorKind::Recursion, s));
    }
    if byte == b'[' {
        skip_items(alloc, skip(s, 1), depth - 1)
    } else {
        skip_members(alloc, skip(s, 1), depth - 1)
    }
}

/// What comes after a string, a number, a date or a truth value.
fn skip_atom(alloc: Global, s: &str) -> Result<&str, ParseError>
    ensures value { Skips result (atom s.now) }
    ensures shorter { IfOk result (λ rest. length rest.now < length s.now) }
{
    if starts_string(s) {
        let (_text, rest) = quoted(alloc, s)?;
        Ok(rest)
    } else {
        let (_scalar, rest) = unquoted(alloc, s)?;
        Ok(rest)
    }
}

/// What comes after an array, from its first value on.
#[cycle(value)]
fn skip_items(alloc: Global, s: &str, depth: usize) -> Result<&str, ParseError>
    ensures value { (n : ℕ) → length s.now < n → Skips result (items (val depth) n no_items s.now) }
    ensures shorter { IfOk result (λ rest. length rest.now < length s.now) }
{
    let mut rest = s;
    'items: loop {
        let start = skip_blank(rest, true);
        if first(start) == b']' {
            return Ok(skip(start, 1));
        }
        let after = skip_value(alloc, start, depth)?;
        rest = behind_element(after, b']')?;
    }
}

/// What comes after an inline table, from its first key on.
#[cycle(value)]
fn skip_members(alloc: Global, s: &str, depth: usize) -> Result<&str, ParseError>
    ensures value { (n : ℕ) → length s.now < n → Skips result (members (val depth) n no_nodes s.now) }
    ensures shorter { IfOk result (λ rest. length rest.now < length s.now) }
{
    let mut rest = s;
    'members: loop {
        let start = skip_blank(rest, true);
        if first(start) == b'}' {
            return Ok(skip(start, 1));
        }
        let (_key, at_value) = key_equals(alloc, start)?;
        let after = skip_value(alloc, at_value, depth)?;
        rest = behind_element(after, b'}')?;
    }
}

/// What comes after the comma, or from the closing bracket on.
fn behind_element(s: &str, closing: u8) -> Result<&str, ParseError>
    ensures value { Gives (λ rest. rest.now) result (after_element closing s.now) }
    ensures within { IfOk result (λ rest. length rest.now ≤ length s.now) }
{
    let rest = skip_blank(s, true);
    if first(rest) == b',' {
        Ok(skip(rest, 1))
    } else if first(rest) == closing {
        Ok(rest)
    } else {
        Err(ParseError::at(ErrorKind::Value, rest))
    }
}

/// A key, `=` and the white space after it.
pub(crate) fn key_equals(alloc: Global, s: &str) -> Result<(Key, &str), ParseError>
    ensures value { Reads key_view result (key_equals s.now) }
    ensures shorter { Shortens s.now result }
{
    let (key, rest) = dotted_key(alloc, s)?;
    if first(rest) != b'=' {
        return Err(ParseError::at(ErrorKind::MissingEquals, rest));
    }
    Ok((key, skip_ws(skip(rest, 1))))
}
