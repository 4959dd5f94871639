//! Formats, and when two of them match.

ghost use Rattle.std.specs.Prelude.{◌≡◌};
ghost use Rattle.std.specs.Option.{option_copied};
ghost use Rattle.offer_answer.specs.Formats.{is_attribute, text_for, rtpmap_in, first_rtpmap, rtpmap_of, maps_match, formats_match};

use sdp::{Line, Media};
use text::{Text, cut};

fn is_attribute(line: &Line<'_>, name: &[u8]) -> bool
    ensures { result ≡ is_attribute name.now line.now }
{
    line.letter == b'a' && cut(line.value.as_bytes(), b':').0 == name
}

fn text_for<'a>(format: &[u8], value: Option<&'a [u8]>) -> Option<&'a [u8]>
    ensures { option_copied result ≡ text_for format.now (option_copied value.entry) }
{
    let (number, text) = cut(value?, b' ');
    if number == format { text } else { None }
}

fn rtpmap_in<'a>(line: &'a Line<'_>, format: &[u8]) -> Option<&'a [u8]>
    ensures { option_copied result ≡ rtpmap_in format.now line.now }
{
    if is_attribute(line, b"rtpmap") {
        text_for(format, cut(line.value.as_bytes(), b':').1)
    } else {
        None
    }
}

fn first_rtpmap<'a>(lines: &'a [Line<'_>], format: &[u8]) -> Option<&'a [u8]>
    ensures { option_copied result ≡ first_rtpmap format.now lines.now }
{
    for line in lines {
        if let Some(text) = rtpmap_in(line, format) {
            return Some(text);
        }
    }
    None
}

/// What the first `rtpmap` of a format says: its encoding, as `opus/48000/2` (RFC 4566 section 6). Takes no memory.
pub fn rtpmap_of<'m>(medium: &'m Media<'_>, format: &[u8]) -> Option<&'m [u8]>
    ensures { option_copied result ≡ rtpmap_of medium.now format.now }
{
    first_rtpmap(medium.after.as_slice(), format)
}

fn maps_match(a: Option<&[u8]>, b: Option<&[u8]>, same_token: bool) -> bool
    ensures { result ≡ maps_match (option_copied a.entry) (option_copied b.entry) same_token }
{
    match (a, b) {
        (Some(a), Some(b)) => a.eq_ignore_ascii_case(b),
        _ => same_token,
    }
}

/// Whether format `f` of medium `m` and format `g` of medium `n` match: both have an `rtpmap` whose texts after the
/// format agree without case, or one has none and the formats are equal (RFC 3264 section 6.1, RFC 4566 section 6).
#[tactic(auto, unfolding(crate::specs::Formats::formats_match))]
pub(crate) fn formats_match(m: &Media<'_>, f: &Text<'_>, n: &Media<'_>, g: &Text<'_>) -> bool
    ensures { result ≡ formats_match m.now f.now n.now g.now }
{
    let a = rtpmap_of(m, f.as_bytes());
    let b = rtpmap_of(n, g.as_bytes());
    maps_match(a, b, f == g)
}
