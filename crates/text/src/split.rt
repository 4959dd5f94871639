//! The pieces of a text between separators that are outside quotes and angle brackets.

ghost use Rattle.std.specs.Prelude.{◌≡◌, ◌<◌, ◌==◌, ◌&&◌, ◌||◌, ◌++◌, length, map, IfOk, OnOk, IfSome};
ghost use Rattle.std.specs.List.{position};
ghost use Rattle.std.specs.Option.{option_copied};
ghost use Rattle.text.specs.Pieces.{is_outside, next_within, pieces, pieces_behind};
ghost use Rattle.text.specs.declared.split.Within.TheVariants.{Nothing};

use std::alloc::{AllocError, Global};

/// What a byte of a header's value is inside (RFC 3261 section 25.1: quoted-string, name-addr).
#[derive(Clone, Copy)]
pub enum Within {
    Nothing,
    Angles,
    Quotes,
    /// After a backslash in quotes.
    Escape,
}

impl Within {
    ghost use Rattle.std.specs.Prelude.{◌≡◌};
    ghost use Rattle.text.specs.Pieces.{next_within};

    /// What the byte after this one is inside.
    pub fn next(self, b: u8) -> Within
        ensures { result ≡ next_within self b }
    {
        match self {
            Within::Nothing => {
                if b == b'"' {
                    Within::Quotes
                } else if b == b'<' {
                    Within::Angles
                } else {
                    Within::Nothing
                }
            }
            Within::Angles => {
                if b == b'>' {
                    Within::Nothing
                } else {
                    Within::Angles
                }
            }
            Within::Quotes => {
                if b == b'"' {
                    Within::Nothing
                } else if b == b'\\' {
                    Within::Escape
                } else {
                    Within::Quotes
                }
            }
            Within::Escape => Within::Quotes,
        }
    }
}

fn ends_piece(within: Within, b: u8, separator: u8) -> bool
    ensures { result ≡ (is_outside within && b == separator) }
{
    match within {
        Within::Nothing => b == separator,
        Within::Angles | Within::Quotes | Within::Escape => false,
    }
}

/// The place of the first byte that ends a piece, or opens quotes or angle brackets.
fn place_of_mark(text: &[u8], separator: u8) -> Option<usize>
    ensures { result ≡ position (λ b. b == separator || b == 34 || b == 60) text.now }
{
    text.iter()
        .position(|b| *b == separator || *b == b'"' || *b == b'<')
}

/// The first piece, and what comes after the separator that ends it, if one does. Takes no memory.
pub fn cut_piece(text: &[u8], separator: u8) -> (&[u8], Option<&[u8]>)
    ensures pieces { pieces_behind separator result.0.now (option_copied result.1) ≡ pieces separator Nothing text.now }
    ensures shorter { IfSome result.1 (λ rest. length rest.now < length text.now) }
{
    let Some(mark) = place_of_mark(text, separator) else {
        return (text, None);
    };
    let mut within = Within::Nothing;
    for at in mark..text.len() {
        if ends_piece(within, text[at], separator) {
            return (&text[..at], Some(&text[at + 1..]));
        }
        within = within.next(text[at]);
    }
    (text, None)
}

/// Appends the pieces between separators that are inside nothing: one or more pieces. If memory runs out, some of
/// them may have been appended.
pub fn put_pieces<'a>(
    found: &mut Vec<&'a [u8]>,
    text: &'a [u8],
    separator: u8,
) -> Result<(), AllocError>
    ensures { OnOk result (map (λ p. p.now) found.new.items ≡ map (λ p. p.now) found.old.items ++ pieces separator Nothing text.now) }
{
    let mut within = Within::Nothing;
    let mut start = 0;
    for at in 0..text.len() {
        let ends = ends_piece(within, text[at], separator);
        within = within.next(text[at]);
        if !ends {
            continue;
        }
        found.push(&text[start..at])?;
        start = at + 1;
    }
    found.push(&text[start..])?;
    Ok(())
}

/// The pieces between separators that are inside nothing: one or more pieces.
pub fn pieces(alloc: Global, text: &[u8], separator: u8) -> Result<Vec<&[u8]>, AllocError>
    ensures { IfOk result (λ v. map (λ p. p.now) v.items ≡ pieces separator Nothing text.now) }
{
    let mut found = Vec::new(alloc);
    put_pieces(&mut found, text, separator)?;
    Ok(found)
}
