//! The header fields of a datagram.

ghost use Rattle.std.specs.Prelude.{◌≡◌, ◌+◌, ◌-◌, ◌<◌, ◌≤◌, ◌++◌, ◌∷◌, ℕ, List, Some, length, take, drop, true, IfOk, IfErr};
ghost use Rattle.header_fields.specs.Head.{ReadsHead, line_count, head_of, GivesHead, RefusesHead};
ghost use Rattle.header_fields.specs.Lines.{is_clean};
ghost use Rattle.header_fields.specs.Steps.{with_line, IsOpen, GivesLast, GivesLine};
ghost use Rattle.header_fields.specs.Folded.{unfolded_text};
ghost use Rattle.header_fields.specs.declared.headers.Header.{Header};

use crate::field::{begins_blank, header, name_and_value};
use crate::field_value::FieldValue;
use crate::headers::{Header, Headers};
use crate::lines::next_line;
use std::alloc::{AllocError, AllocFailed, Global};
use thiserror::Error;

/// How much room for header fields is allocated at first: most messages have fewer, and the allocator frees a block
/// of this size without merging it with its neighbours.
const FIELDS_AT_FIRST: usize = 14;

/// Why the header fields cannot be read.
#[derive(Clone, Copy, Debug, Error)]
pub enum HeadError {
    #[error("out of memory")]
    OutOfMemory,
    /// A line is malformed, there is no empty line, or there are too many lines.
    #[error("bad header line")]
    Line,
}

impl From<AllocError> for HeadError {
    ghost use Rattle.std.specs.Prelude.{◌≡◌};
    ghost use Rattle.header_fields.specs.declared.head.HeadError.TheVariants.{OutOfMemory};

    ghost from_gives = { λ _ e. e ≡ OutOfMemory };

    fn from(_e: AllocError) -> HeadError {
        HeadError::OutOfMemory
    }
}

impl<T: Drop> From<AllocFailed<T>> for HeadError {
    ghost use Rattle.std.specs.Prelude.{◌≡◌};
    ghost use Rattle.header_fields.specs.declared.head.HeadError.TheVariants.{OutOfMemory};

    ghost from_gives = { λ _ e. e ≡ OutOfMemory };

    fn from(_e: AllocFailed<T>) -> HeadError {
        HeadError::OutOfMemory
    }
}

/// Gives the last field this raw value.
fn set_last<'a>(headers: &mut Vec<Header<'a>>, raw: &'a [u8]) -> Result<(), HeadError>
    ensures { GivesLast result headers.old.items headers.new.items (unfolded_text raw.now) }
{
    let Some(last) = headers.pop() else {
        return Err(HeadError::Line);
    };
    headers.push(Header {
        name: last.name,
        value: FieldValue::of_raw(raw),
    })?;
    Ok(())
}

/// What comes before the line end that precedes this rest.
fn upto<'a>(field: &'a [u8], after: &[u8]) -> &'a [u8]
    requires { length after.now + 2 ≤ length field.now }
    ensures { result.now ≡ take (length field.now - (length after.now + 2)) field.now }
{
    &field[..field.len() - (after.len() + 2)]
}

/// The rest, starting after the colon of its first line.
fn behind_colon<'a>(rest: &'a [u8], line: &[u8], begun: &[u8]) -> &'a [u8]
    requires begun { length begun.now ≤ length line.now }
    requires line { length line.now ≤ length rest.now }
    ensures { result.now ≡ drop (length line.now - length begun.now) rest.now }
{
    &rest[line.len() - begun.len()..]
}

/// Adds the line to the fields, and returns the text from the last field's value on.
fn add_line<'a>(
    headers: &mut Vec<Header<'a>>,
    field: &'a [u8],
    rest: &'a [u8],
    line: &'a [u8],
    after: &'a [u8],
) -> Result<&'a [u8], HeadError>
    requires parts { rest.now ≡ line.now ++ 13 ∷ 10 ∷ after.now }
    requires clean { is_clean line.now ≡ true }
    requires open { IsOpen headers.old.items field.now rest.now }
    ensures added { GivesLine result headers.new.items (with_line headers.old.items line.now) }
    ensures open { IfOk result (λ next. IsOpen headers.new.items next.now after.now) }
{
    if begins_blank(line) {
        if headers.is_empty() {
            return Err(HeadError::Line);
        }
        set_last(headers, upto(field, after))?;
        return Ok(field);
    }
    let Some((name, begun)) = name_and_value(line) else {
        return Err(HeadError::Line);
    };
    headers.reserve(1)?;
    headers.push_reserved(header(name, begun));
    Ok(behind_colon(rest, line, begun))
}

/// The header fields up to the empty line, and what comes after it.
fn read_fields<'a>(
    alloc: Global,
    limit: u32,
    text: &'a [u8],
) -> Result<(Headers<'a>, &'a [u8]), HeadError>
    ensures exact { GivesHead result (head_of limit text.now) }
{
    let mut headers = Vec::with_capacity(alloc, FIELDS_AT_FIRST)?;
    let mut rest = text;
    let mut field = text;
    for _ in 0..limit {
        let Some((line, after)) = next_line(rest) else {
            return Err(HeadError::Line);
        };
        if line.is_empty() {
            return Ok((Headers::from_vec(headers), after));
        }
        field = match add_line(&mut headers, field, rest, line, after) {
            Ok(next) => next,
            Err(HeadError::OutOfMemory) => return Err(HeadError::OutOfMemory),
            Err(HeadError::Line) => return Err(HeadError::Line),
        };
        rest = after;
    }
    Err(HeadError::Line)
}

/// The headers of a text up to its empty line, and what comes after the empty line. The text has fewer header lines
/// than the limit, including continuation lines.
pub fn read_head<'a>(
    alloc: Global,
    limit: u32,
    text: &'a [u8],
) -> Result<(Headers<'a>, &'a [u8]), HeadError>
    // What is read are the headers and the body of the text, which has fewer header lines than the limit.
    ensures found { IfOk result (λ x. (reads : ReadsHead text.now x.0 x.1.now) × (line_count reads < limit)) }
    // Such a text is read, unless memory runs out.
    ensures only { (headers : List Header) (body : List ℕ) (reads : ReadsHead text.now headers body) → line_count reads < limit
        → GivesHead result (Some (headers, body)) }
    ensures refused { IfErr result (λ e. RefusesHead limit text.now e) }
    ensures exact { GivesHead result (head_of limit text.now) }
{
    read_fields(alloc, limit, text)
}
