//! The lines of a datagram, which end in CR LF (RFC 3261 section 7).

ghost use Rattle.std.specs.Prelude.{◌≡◌, ◌+◌, ◌≤◌, ◌<◌, [], length, map, option_map, IfSome, IfNone, IfOk};
ghost use Rattle.std.specs.List.{list_all};
ghost use Rattle.std.specs.Option.{option_copied};
ghost use Rattle.header_fields.specs.Lines.{upto_empty, ended_lines, texts, begins_line_end, line_end, before_line_end, after_line_end, is_clean, is_text_byte, line_of};

use memchr::memchr3;
use std::alloc::{AllocError, Global};

fn begins_line_end(text: &[u8]) -> bool
    ensures { result ≡ begins_line_end text.now }
{
    text.starts_with(b"\r\n")
}

/// The place of the first CR LF pair.
fn line_end(text: &[u8]) -> Option<usize>
    ensures place { result ≡ line_end text.now }
    ensures within { IfSome result (λ at. at + 2 ≤ length text.now) }
{
    for at in 0..text.len() {
        if begins_line_end(&text[at..]) {
            return Some(at);
        }
    }
    None
}

/// What comes before the first CR LF pair (everything if there is none), and what comes after it. Takes no memory.
#[tactic(auto, using(crate::proofs::LineLaws::line_at, crate::proofs::LineLaws::rest_at, crate::proofs::LineLaws::no_end_line, crate::proofs::LineLaws::no_end_rest))]
pub fn first_line(text: &[u8]) -> (&[u8], Option<&[u8]>)
    ensures line { result.0.now ≡ before_line_end text.now }
    ensures rest { option_copied result.1 ≡ after_line_end text.now }
{
    match line_end(text) {
        Some(at) => (&text[..at], Some(&text[at + 2..])),
        None => (text, None),
    }
}

fn is_text_byte(b: u8) -> bool
    ensures { result ≡ is_text_byte b }
{
    b != b'\r' && b != b'\n' && b != 0
}

/// Whether the text has no CR, no LF and no NUL. Takes no memory.
pub fn is_clean(text: &[u8]) -> bool
    ensures { result ≡ is_clean text.now }
{
    text.iter().all(|b| is_text_byte(*b))
}

/// The first line, and what comes after its end, if the line is clean: then its end is the first CR, LF or NUL. Takes
/// no memory.
pub fn next_line(text: &[u8]) -> Option<(&[u8], &[u8])>
    ensures { option_map (λ x. (x.0.now, x.1.now)) result ≡ line_of text.now }
{
    let at = memchr3(b'\r', b'\n', 0, text)?;
    if !begins_line_end(&text[at..]) {
        return None;
    }
    Some((&text[..at], &text[at + 2..]))
}

/// The first line, if it ends in CR LF, and what comes after it.
#[tactic(auto, using(crate::proofs::EndedLaws::line_ended, crate::proofs::EndedLaws::line_not_ended, crate::proofs::EndedLaws::rest_is_shorter))]
fn ended_line(text: &[u8]) -> Option<(&[u8], &[u8])>
    ensures line { IfSome result (λ x. ended_lines text.now ≡ upto_empty x.0.now (ended_lines x.1.now)) }
    ensures shorter { IfSome result (λ x. length x.1.now < length text.now) }
    ensures last { IfNone result (ended_lines text.now ≡ []) }
{
    let (line, after) = first_line(text);
    Some((line, after?))
}

/// The lines that end in CR LF, up to an empty one.
pub fn ended_lines(alloc: Global, text: &[u8]) -> Result<Vec<&[u8]>, AllocError>
    ensures { IfOk result (λ v. texts v.items ≡ ended_lines text.now) }
{
    let mut lines = Vec::new(alloc);
    let mut rest = text;
    while let Some((line, after)) = ended_line(rest) {
        if line.is_empty() {
            return Ok(lines);
        }
        lines.push(line)?;
        rest = after;
    }
    Ok(lines)
}
