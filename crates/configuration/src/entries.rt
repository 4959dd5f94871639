//! The entries of a text, one per line: a key with its value, or the header of a table.

ghost use Rattle.std.specs.Prelude.{◌≡◌, ◌≤◌, ◌<◌, ◌&&◌, ◌||◌, not, List, length, option_map, IfOk, IfSome, MatchResult};
ghost use Rattle.toml.specs.Parse as grammar;
ghost use Rattle.toml_parser.specs.Reading.{Reads, Shortens, key_view};
ghost use Rattle.configuration.specs.Keys.{is_same};
ghost use Rattle.configuration.specs.Entries.{Entry, AreEntries, first_top, root_of, IsRead};

use crate::skip::{key_equals, skip_value};
use crate::tables::is_same;
use std::alloc::Global;
use toml_parser::text::{byte_at, first, skip, skip_blank, skip_ws};
use toml_parser::{ErrorKind, Key, ParseError, RECURSION_LIMIT, dotted_key};

/// The text without a byte order mark.
pub(crate) fn skip_bom(s: &str) -> &str
    ensures rest { result.now ≡ grammar.skip_bom s.now }
    ensures within { length result.now ≤ length s.now }
{
    if first(s) == 0xEF && byte_at(s, 1) == 0xBB && byte_at(s, 2) == 0xBF {
        &s[3..]
    } else {
        s
    }
}

/// The key of a header and its first closing bracket.
fn header_key(alloc: Global, s: &str) -> Result<(Key, &str), ParseError>
    ensures value { Reads key_view result (grammar.header_key s.now) }
    ensures shorter { Shortens s.now result }
{
    let (key, rest) = dotted_key(alloc, skip_ws(s))?;
    if first(rest) != b']' {
        return Err(ParseError::at(ErrorKind::UnclosedTable, rest));
    }
    Ok((key, skip(rest, 1)))
}

/// The key of an entry, whether it is a header, and what comes after it.
fn read_entry(alloc: Global, s: &str) -> Result<(Key, bool, &str), ParseError>
    ensures value { IsRead result (grammar.line s.now) }
    ensures shorter { IfOk result (λ entry. length entry.2.now < length s.now) }
{
    if first(s) != b'[' {
        let (key, at_value) = key_equals(alloc, s)?;
        let rest = skip_value(alloc, at_value, RECURSION_LIMIT)?;
        Ok((key, false, rest))
    } else if byte_at(s, 1) != b'[' {
        let (key, rest) = header_key(alloc, skip(s, 1))?;
        Ok((key, true, rest))
    } else {
        let (key, rest) = header_key(alloc, skip(s, 2))?;
        if first(rest) != b']' {
            return Err(ParseError::at(ErrorKind::UnclosedArrayTable, rest));
        }
        Ok((key, true, skip(rest, 1)))
    }
}

/// The first part of a key, which is a key of the whole file.
fn root_of<'k>(key: &'k Key) -> &'k [u8]
    ensures { result.now ≡ root_of (key_view key.now) }
{
    match key.path.first() {
        Some(part) => part.as_bytes(),
        None => key.last.as_bytes(),
    }
}

/// Whether an entry with this name is of a key of the whole file. A pair under a header is in that header's table.
fn is_of(name: &Key, is_header: bool, under_header: bool, key: &[u8]) -> bool
    ensures { result ≡ ((is_header || not under_header) && is_same (root_of (key_view name.now)) key.now) }
{
    (is_header || !under_header) && is_same(root_of(name), key)
}

/// The text from the first entry that is of a key of the whole file.
pub(crate) fn first_top<'t>(
    alloc: Global,
    text: &'t str,
    key: &[u8],
) -> Result<Option<&'t str>, ParseError>
    ensures found { (entries : List Entry) → AreEntries text.now entries
        → MatchResult result (λ from. option_map (λ s. s.now) from ≡ option_map (λ e. e.from) (first_top key.now entries)) (λ e. e ≡ ParseError.OutOfMemory) }
    ensures within { IfOk result (λ from. IfSome from (λ s. length s.now ≤ length text.now)) }
{
    let mut rest = text;
    let mut under_header = false;
    'entries: loop {
        let start = skip_blank(rest, true);
        if start.is_empty() {
            return Ok(None);
        }
        let (name, is_header, behind) = read_entry(alloc, start)?;
        if is_of(&name, is_header, under_header, key) {
            return Ok(Some(start));
        }
        under_header = under_header || is_header;
        rest = behind;
    }
}
