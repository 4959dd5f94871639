//! The well-formed header fields of a text that need not be a message.

ghost use Rattle.std.specs.Prelude.{◌≡◌, ◌∷◌, map, IfOk, OnOk};
ghost use Rattle.std.specs.List.{list_all};
ghost use Rattle.text.specs.Trim.{trimmed};
ghost use Rattle.header_fields.specs.Fields.{is_continuing, continued, readable_of, readable_headers};
ghost use Rattle.header_fields.specs.Glue.{glue, unfolded};
ghost use Rattle.header_fields.specs.HeaderNames.{long_name};
ghost use Rattle.header_fields.specs.Lines.{texts};

use crate::field::{begins_blank, name_and_value};
use crate::field_value::FieldValue;
use crate::header_names::long_name;
use crate::headers::Header;
use crate::lines::is_clean;
use std::alloc::{AllocError, Global};
use text::{Text, trim_blanks};

/// The lines at the front that continue a field.
fn continuation_lines<'a, 'b>(lines: &'a [&'b [u8]]) -> &'a [&'b [u8]]
    ensures { texts result.now ≡ continued (texts lines.now) }
{
    for at in 0..lines.len() {
        if !begins_blank(lines[at]) {
            return &lines[..at];
        }
    }
    lines
}

fn is_continuing(line: &[u8]) -> bool
    ensures { result ≡ is_continuing line.now }
{
    begins_blank(line) && is_clean(line)
}

fn all_continuing(lines: &[&[u8]]) -> bool
    ensures { result ≡ list_all is_continuing (texts lines.now) }
{
    for line in lines {
        if !is_continuing(line) {
            return false;
        }
    }
    true
}

/// Appends a piece to a value, with one space between them if neither is empty.
fn glue(value: &mut Vec<u8>, piece: &[u8]) -> Result<(), AllocError>
    ensures { OnOk result (value.new.items ≡ glue value.old.items piece.now) }
{
    if piece.is_empty() {
        return Ok(());
    }
    if value.is_empty() {
        return value.extend_from_slice(piece);
    }
    value.push(b' ')?;
    value.extend_from_slice(piece)
}

/// A value whose line ends, with the blanks around them, read as one space (RFC 3261 section 7.3.1).
fn unfold(alloc: Global, begun: &[u8], more: &[&[u8]]) -> Result<Text<'static>, AllocError>
    ensures { IfOk result (λ value. value ≡ unfolded (map trimmed (begun.now ∷ texts more.now))) }
{
    let mut value = Vec::from_slice(alloc, trim_blanks(begun))?;
    for line in more {
        glue(&mut value, trim_blanks(line))?;
    }
    Ok(Text::from_vec(value))
}

/// The header with this name, what its first line has after the colon, and the lines that continue it.
fn made<'a>(
    alloc: Global,
    name: &'a [u8],
    begun: &[u8],
    more: &[&[u8]],
) -> Result<Header<'a>, AllocError>
    ensures { IfOk result (λ h. h ≡ record { name = long_name name.now; value = unfolded (map trimmed (begun.now ∷ texts more.now)) }) }
{
    Ok(Header {
        name: Text::lent(long_name(name)),
        value: FieldValue::whole(unfold(alloc, begun, more)?),
    })
}

/// The header of a first line and of the lines that continue it, if they are well formed.
#[tactic(auto, unfolding(crate::specs::Fields::field_of, crate::specs::Fields::is_raw_field))]
fn readable<'a>(
    alloc: Global,
    first: &'a [u8],
    more: &[&[u8]],
) -> Result<Option<Header<'a>>, AllocError>
    ensures { IfOk result (λ h. h ≡ readable_of (record { first = first.now; more = texts more.now })) }
{
    if begins_blank(first) || !is_clean(first) || !all_continuing(more) {
        return Ok(None);
    }
    match name_and_value(first) {
        Some((name, begun)) => Ok(Some(made(alloc, name, begun, more)?)),
        None => Ok(None),
    }
}

/// The headers of the well-formed fields, in order; others are skipped, with the lines that continue them.
pub fn readable_headers<'a>(
    alloc: Global,
    lines: &[&'a [u8]],
) -> Result<Vec<Header<'a>>, AllocError>
    ensures { IfOk result (λ hs. hs.items ≡ readable_headers (texts lines.now)) }
{
    let mut headers = Vec::new(alloc);
    for at in 0..lines.len() {
        if begins_blank(lines[at]) {
            continue;
        }
        let Some(header) = readable(alloc, lines[at], continuation_lines(&lines[at + 1..]))? else {
            continue;
        };
        headers.push(header)?;
    }
    Ok(headers)
}
