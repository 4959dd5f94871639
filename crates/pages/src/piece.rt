//! What a page is made of.

ghost use Rattle.std.specs.Prelude.{◌≡◌, ◌++◌, decimal, OnOk};
ghost use Rattle.std.specs.List.{flat_map};
ghost use Rattle.pages.specs.Pieces.{duration_text, part_text, piece_text};

use crate::escape::{Place, put_escaped};
use itoa::Buffer;
use std::alloc::AllocError;

/// A piece of a page.
#[derive(Clone, Copy)]
pub(crate) enum Piece<'a> {
    /// The server's own text, as it is.
    Markup(&'static [u8]),
    /// Text from outside, escaped.
    Text(&'a [u8]),
    Number(u64),
    /// Milliseconds, as days, hours, minutes and seconds.
    Duration(u64),
}

/// Writes a number in decimal. If memory runs out, a part may be written.
pub(crate) fn put_number(out: &mut Vec<u8>, number: u64) -> Result<(), AllocError>
    ensures { OnOk result (out.new.items ≡ out.old.items ++ decimal number) }
{
    let mut buffer = Buffer::new();
    out.extend_from_slice(buffer.format(number).as_bytes())
}

/// A part of a duration, if the whole has at least `least` seconds.
fn put_part(
    out: &mut Vec<u8>,
    seconds: u64,
    least: u64,
    part: u64,
    unit: &[u8],
) -> Result<(), AllocError>
    ensures { OnOk result (out.new.items ≡ out.old.items ++ part_text seconds least part unit.now) }
{
    if seconds < least {
        return Ok(());
    }
    put_number(out, part)?;
    out.extend_from_slice(unit)
}

fn put_duration(out: &mut Vec<u8>, millis: u64) -> Result<(), AllocError>
    ensures { OnOk result (out.new.items ≡ out.old.items ++ duration_text millis) }
{
    let seconds = millis / 1000;
    put_part(out, seconds, 86_400, seconds / 86_400, b" d ")?;
    put_part(out, seconds, 3_600, seconds / 3_600 % 24, b" h ")?;
    put_part(out, seconds, 60, seconds / 60 % 60, b" m ")?;
    put_part(out, seconds, 0, seconds % 60, b" s")
}

fn put_piece(out: &mut Vec<u8>, place: Place, piece: Piece<'_>) -> Result<(), AllocError>
    ensures { OnOk result (out.new.items ≡ out.old.items ++ piece_text place piece.entry) }
{
    match piece {
        Piece::Markup(markup) => out.extend_from_slice(markup),
        Piece::Text(text) => put_escaped(out, place, text),
        Piece::Number(number) => put_number(out, number),
        Piece::Duration(millis) => put_duration(out, millis),
    }
}

/// Appends pieces. If memory runs out, a part may be written.
pub(crate) fn put_pieces(
    out: &mut Vec<u8>,
    place: Place,
    pieces: &[Piece<'_>],
) -> Result<(), AllocError>
    ensures { OnOk result (out.new.items ≡ out.old.items ++ flat_map (piece_text place) pieces.now) }
{
    for piece in pieces {
        put_piece(out, place, *piece)?;
    }
    Ok(())
}
