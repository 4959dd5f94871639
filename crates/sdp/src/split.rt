//! The lines of a text (RFC 4566 section 5).

ghost use Rattle.std.specs.Prelude.{◌≡◌, ◌<◌, ◌∷◌, ◌++◌, [], ◌==◌, true, length, IfOk, IfSome, IfNone, if◌then◌else◌};
ghost use Rattle.std.specs.List.{list_all};
ghost use Rattle.std.specs.Option.{option_copied};
ghost use Rattle.sdp.specs.Classes.{is_text_byte};
ghost use Rattle.sdp.specs.Lines.{without_cr, behind_lf, behind_line_end, is_clean, lines_of, texts};

use memchr::memchr3;
use std::alloc::{AllocError, Global};
use text::cut;

/// About how many bytes a line has, including its end.
const BYTES_A_LINE: usize = 16;

/// The text without a CR at its end.
fn without_cr(text: &[u8]) -> &[u8]
    ensures { result.now ≡ without_cr text.now }
{
    let Some((last, front)) = text.split_last() else {
        return text;
    };
    if *last == b'\r' { front } else { text }
}

/// The first line, if it has its end, and what comes after that.
#[tactic(auto, using(crate::proofs::LineCuts::line_ended, crate::proofs::LineCuts::line_not_ended, crate::proofs::LineCuts::rest_is_shorter))]
fn ended_line(text: &[u8]) -> Option<(&[u8], &[u8])>
    ensures line { IfSome result (λ x. lines_of text.now ≡ x.0.now ∷ lines_of x.1.now) }
    ensures shorter { IfSome result (λ x. length x.1.now < length text.now) }
    ensures last { IfNone result (lines_of text.now ≡ (if length text.now == 0 then [] else text.now ∷ [])) }
{
    let (line, after) = cut(text, b'\n');
    let rest = after?;
    Some((without_cr(line), rest))
}

fn behind_lf(text: &[u8]) -> Option<&[u8]>
    ensures { option_copied result ≡ behind_lf text.now }
{
    match text {
        [b'\n', rest @ ..] => Some(rest),
        _ => None,
    }
}

/// What comes after the line end, LF or CR LF, that the text begins with.
fn behind_line_end(text: &[u8]) -> Option<&[u8]>
    ensures { option_copied result ≡ behind_line_end text.now }
{
    match text {
        [b'\n', rest @ ..] => Some(rest),
        [b'\r', rest @ ..] => behind_lf(rest),
        _ => None,
    }
}

/// The first line, if it has its end and no other CR and no NUL, and what comes after its end.
fn clean_line(text: &[u8]) -> Option<(&[u8], &[u8])>
    ensures line { IfSome result (λ x. lines_of text.now ≡ x.0.now ∷ lines_of x.1.now) }
    ensures clean { IfSome result (λ x. is_clean x.0.now ≡ true) }
    ensures shorter { IfSome result (λ x. length x.1.now < length text.now) }
{
    let at = memchr3(b'\r', b'\n', 0, text)?;
    let rest = behind_line_end(&text[at..])?;
    Some((&text[..at], rest))
}

/// The leading lines that have their ends and no other CR and no NUL, and what comes after them.
fn clean_lines(alloc: Global, text: &[u8]) -> Result<(Vec<&[u8]>, &[u8]), AllocError>
    ensures lines { IfOk result (λ x. texts x.0.items ++ lines_of x.1.now ≡ lines_of text.now) }
    ensures clean { IfOk result (λ x. list_all is_clean (texts x.0.items) ≡ true) }
{
    let mut lines = Vec::with_capacity(alloc, text.len() / BYTES_A_LINE + 1)?;
    let mut rest = text;
    while let Some((line, after)) = clean_line(rest) {
        lines.push(line)?;
        rest = after;
    }
    Ok((lines, rest))
}

fn is_text_byte(b: u8) -> bool
    ensures { result ≡ is_text_byte b }
{
    b != b'\r' && b != b'\n' && b != 0
}

fn is_clean(text: &[u8]) -> bool
    ensures { result ≡ is_clean text.now }
{
    text.iter().all(|b| is_text_byte(*b))
}

/// The lines of a text, each with its end, which may be missing after the last.
fn ended_lines(alloc: Global, text: &[u8]) -> Result<Vec<&[u8]>, AllocError>
    ensures { IfOk result (λ lines. texts lines.items ≡ lines_of text.now) }
{
    let mut lines = Vec::new(alloc);
    let mut rest = text;
    while let Some((line, after)) = ended_line(rest) {
        lines.push(line)?;
        rest = after;
    }
    if !rest.is_empty() {
        lines.push(rest)?;
    }
    Ok(lines)
}

fn are_clean(lines: &[&[u8]]) -> bool
    ensures { result ≡ list_all is_clean (texts lines.now) }
{
    for line in lines {
        if !is_clean(line) {
            return false;
        }
    }
    true
}

/// The lines of a text, and whether none has a CR or a NUL. Each ends with LF or CR LF, which may be missing after
/// the last.
pub(crate) fn lines_of(alloc: Global, text: &[u8]) -> Result<(Vec<&[u8]>, bool), AllocError>
    ensures lines { IfOk result (λ x. texts x.0.items ≡ lines_of text.now) }
    ensures clean { IfOk result (λ x. x.1 ≡ list_all is_clean (lines_of text.now)) }
{
    let (mut lines, rest) = clean_lines(alloc, text)?;
    if rest.is_empty() {
        return Ok((lines, true));
    }
    let others = ended_lines(alloc, rest)?;
    lines.extend_from_slice(&others)?;
    Ok((lines, are_clean(&others)))
}
