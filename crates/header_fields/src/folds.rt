//! Values that are continued over lines.

ghost use Rattle.std.specs.Prelude.{◌≡◌, ◌++◌, OnOk};
ghost use Rattle.std.specs.Option.{option_copied};
ghost use Rattle.std.specs.Str.{str_eq_ignore_ascii_case};
ghost use Rattle.header_fields.specs.Folded.{unfolded_text, behind_piece, behind_next, begun_by, glued};

use crate::lines::first_line;
use std::alloc::AllocError;
use text::trim_blanks;

/// Whether a value has begun after this piece.
fn begun_by(is_begun: bool, piece: &[u8]) -> bool
    ensures { result ≡ begun_by is_begun piece.now }
{
    match piece {
        [] => is_begun,
        [_, ..] => true,
    }
}

/// Appends a piece to a value, with one space between them if neither is empty.
fn put_piece(out: &mut Vec<u8>, is_begun: bool, piece: &[u8]) -> Result<(), AllocError>
    ensures { OnOk result (out.new.items ≡ out.old.items ++ glued is_begun piece.now) }
{
    if is_begun {
        if piece.is_empty() {
            return Ok(());
        }
        out.push(b' ')?;
    }
    out.extend_from_slice(piece)
}

/// Writes what the raw text of a value says.
pub(crate) fn put_unfolded(out: &mut Vec<u8>, raw: &[u8]) -> Result<(), AllocError>
    ensures { OnOk result (out.new.items ≡ out.old.items ++ unfolded_text raw.now) }
{
    let mut rest = Some(raw);
    let mut is_begun = false;
    while let Some(text) = rest {
        let (line, after) = first_line(text);
        let piece = trim_blanks(line);
        put_piece(out, is_begun, piece)?;
        is_begun = begun_by(is_begun, piece);
        rest = after;
    }
    Ok(())
}

/// What comes after this piece, ignoring case, if it begins the text.
fn behind<'o>(piece: &[u8], text: &'o [u8]) -> Option<&'o [u8]>
    ensures { option_copied result ≡ behind_piece piece.now text.now }
{
    let mut wanted = piece;
    let mut left = text;
    while let [b, more @ ..] = wanted {
        let [c, others @ ..] = left else {
            return None;
        };
        if !b.eq_ignore_ascii_case(c) {
            return None;
        }
        wanted = more;
        left = others;
    }
    Some(left)
}

/// What comes after the next piece of a value, and after the space before it if there is one.
fn behind_next<'o>(is_begun: bool, piece: &[u8], left: &'o [u8]) -> Option<&'o [u8]>
    ensures { option_copied result ≡ behind_next is_begun piece.now left.now }
{
    if piece.is_empty() {
        return Some(left);
    }
    if !is_begun {
        return behind(piece, left);
    }
    behind(piece, behind(b" ", left)?)
}

/// Whether the raw text of a value equals this text, ignoring the case of ASCII letters.
pub(crate) fn is_unfolded_without_case(raw: &[u8], other: &[u8]) -> bool
    ensures { result ≡ str_eq_ignore_ascii_case (unfolded_text raw.now) other.now }
{
    let mut rest = Some(raw);
    let mut left = other;
    let mut is_begun = false;
    while let Some(text) = rest {
        let (line, after) = first_line(text);
        let piece = trim_blanks(line);
        let Some(behind) = behind_next(is_begun, piece, left) else {
            return false;
        };
        left = behind;
        is_begun = begun_by(is_begun, piece);
        rest = after;
    }
    left.is_empty()
}
