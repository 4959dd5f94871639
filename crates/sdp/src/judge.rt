//! Tests of lines that are in order, and of the description that they form.

ghost use Rattle.std.specs.Prelude.{◌≡◌, ◌==◌, nat_le, length};
ghost use Rattle.std.specs.List.{list_all};
ghost use Rattle.sdp.specs.Lines.{texts, has_mark, is_clean, is_formed};
ghost use Rattle.sdp.specs.Limits.{max_formats};
ghost use Rattle.sdp.specs.Reading.{is_version, has_origin, is_good_connection, is_good_medium, is_placed, has_places, has_few_media, has_few_formats, judgment};

use crate::class::{begins, has_mark};
use crate::connection::address;
use crate::description::{Description, Media};
use crate::error::DescriptionError;
use crate::medium_line::MediumParts;
use crate::origin_line::OriginParts;
use crate::value::value_on;

/// Media in a description.
const MAX_MEDIA: usize = 8;

/// Formats in a medium.
const MAX_FORMATS: usize = 32;

/// Whether in each line the byte after the type is `=`.
fn have_marks(lines: &[&[u8]]) -> bool
    ensures { result ≡ list_all has_mark (texts lines.now) }
{
    for line in lines {
        if !has_mark(line) {
            return false;
        }
    }
    true
}

/// Whether each line is `type=value`, given whether all are clean of CR, LF and NUL.
#[tactic(auto, using(crate::proofs::CleanLines::formed_by_parts))]
pub(crate) fn are_formed(lines: &[&[u8]], clean: bool) -> bool
    requires { clean ≡ list_all is_clean (texts lines.now) }
    ensures { result ≡ list_all is_formed (texts lines.now) }
{
    clean && have_marks(lines)
}

/// Whether the first line is `v=0`.
pub(crate) fn is_version(lines: &[&[u8]]) -> bool
    ensures { result ≡ is_version (texts lines.now) }
{
    match lines {
        [version, ..] => *version == b"v=0".as_slice(),
        [] => false,
    }
}

/// Whether the second line has an origin.
pub(crate) fn has_origin(lines: &[&[u8]]) -> bool
    ensures { result ≡ has_origin (texts lines.now) }
{
    match lines {
        [_, origin, ..] => OriginParts::of(value_on(origin)).is_well_formed(),
        _ => false,
    }
}

fn is_good_connection(line: &[u8]) -> bool
    ensures { result ≡ is_good_connection line.now }
{
    !begins(line, b"c") || address(value_on(line)).is_some()
}

/// Whether each line `c=` has an address.
pub(crate) fn are_connections(lines: &[&[u8]]) -> bool
    ensures { result ≡ list_all is_good_connection (texts lines.now) }
{
    for line in lines {
        if !is_good_connection(line) {
            return false;
        }
    }
    true
}

fn is_good_medium(line: &[u8]) -> bool
    ensures { result ≡ is_good_medium line.now }
{
    !begins(line, b"m") || MediumParts::of(value_on(line)).is_well_formed()
}

/// Whether each line `m=` has the parts of a medium.
pub(crate) fn are_media(lines: &[&[u8]]) -> bool
    ensures { result ≡ list_all is_good_medium (texts lines.now) }
{
    for line in lines {
        if !is_good_medium(line) {
            return false;
        }
    }
    true
}

fn is_placed(description: &Description<'_>, medium: &Media<'_>) -> bool
    ensures { result ≡ is_placed description.now medium.now }
{
    medium.port == 0 || medium.connection.is_some() || description.connection.is_some()
}

fn has_places(description: &Description<'_>) -> bool
    ensures { result ≡ has_places description.now }
{
    let media = description.media.as_slice();
    media.iter().all(|medium| is_placed(description, medium))
}

fn has_few_media(description: &Description<'_>) -> bool
    ensures { result ≡ has_few_media description.now }
{
    description.media.as_slice().len() <= MAX_MEDIA
}

fn are_few_formats(medium: &Media<'_>) -> bool
    ensures { result ≡ nat_le (length medium.now.formats) max_formats }
{
    medium.formats.as_slice().len() <= MAX_FORMATS
}

fn has_few_formats(description: &Description<'_>) -> bool
    ensures { result ≡ has_few_formats description.now }
{
    let media = description.media.as_slice();
    media.iter().all(|medium| are_few_formats(medium))
}

/// The description, if its media have places and are within the limits.
#[tactic(auto, unfolding(crate::specs::Reading::judgment))]
pub(crate) fn judgment(description: Description<'_>) -> Result<Description<'_>, DescriptionError>
    ensures { result ≡ judgment description.entry }
{
    if !has_places(&description) {
        return Err(DescriptionError::NoConnection);
    }
    if !has_few_media(&description) {
        return Err(DescriptionError::TooManyMedia);
    }
    if !has_few_formats(&description) {
        return Err(DescriptionError::TooManyFormats);
    }
    Ok(description)
}
