//! The parts of a name and an address (RFC 3261 section 25.1, name-addr and addr-spec).

ghost use Rattle.std.specs.Prelude.{◌≡◌, not, codes, is_some};
ghost use Rattle.std.specs.List.{list_all};
ghost use Rattle.std.specs.Option.{option_copied};
ghost use Rattle.text.specs.Cut.{before, after};
ghost use Rattle.text.specs.Class.{is_one_of};
ghost use Rattle.sip_uri.specs.NameParts.{RawName, is_phrase_byte, phrase_of, with_params, bracketed, opened, quoted_name, worded_name, bare, name_from, name_of};

use crate::quotes::{fits_quotes, quoted_text};
use std::marker::Model;
use text::{cut, is_blank, is_token_byte, trim_blanks, without_blanks};

/// `"display" <uri>;params`, or the like: the display as it counts, the URI without blanks around it, and what comes
/// after the semicolon.
#[derive(Drop)]
pub struct NameParts<'a> {
    pub display: Option<&'a [u8]>,
    pub uri: &'a [u8],
    pub in_angles: bool,
    pub params: Option<&'a [u8]>,
}

impl<'a> Model for NameParts<'a> {
    ghost use Rattle.std.specs.Option.{option_copied};
    ghost use Rattle.sip_uri.specs.NameParts.{RawName};

    ghost Value = { RawName };

    ghost view = { λ p. record {
      display = option_copied p.display;
      uri = p.uri.now;
      in_angles = p.in_angles;
      params = option_copied p.params;
    } };
}

fn is_phrase_byte(b: u8) -> bool
    ensures { result ≡ is_phrase_byte b }
{
    is_token_byte(b) || is_blank(b)
}

fn is_phrase(text: &[u8]) -> bool
    ensures { result ≡ list_all is_phrase_byte text.now }
{
    text.iter().all(|b| is_phrase_byte(*b))
}

/// The text without the blanks at its ends, if there is anything else.
fn phrase_of(text: &[u8]) -> Option<&[u8]>
    ensures { option_copied result ≡ phrase_of text.now }
{
    let words = trim_blanks(text);
    if words.is_empty() { None } else { Some(words) }
}

fn with_params<'a>(
    display: Option<&'a [u8]>,
    uri: &'a [u8],
    rest: &'a [u8],
) -> Option<NameParts<'a>>
    ensures { result ≡ with_params (option_copied display.entry) uri.now rest.now }
{
    let params = match rest {
        [] => None,
        [b';', params @ ..] => Some(params),
        _ => return None,
    };
    Some(NameParts {
        display,
        uri,
        in_angles: true,
        params,
    })
}

/// What comes after the opening angle bracket.
#[tactic(auto, unfolding(crate::specs::NameParts::bracketed))]
fn in_brackets<'a>(display: Option<&'a [u8]>, text: &'a [u8]) -> Option<NameParts<'a>>
    ensures { result ≡ bracketed (option_copied display.entry) text.now }
{
    let (uri, rest) = cut(text, b'>');
    with_params(display, uri, without_blanks(rest?))
}

#[tactic(auto, unfolding(crate::specs::NameParts::opened))]
fn after_bracket<'a>(display: Option<&'a [u8]>, text: &'a [u8]) -> Option<NameParts<'a>>
    ensures { result ≡ opened (option_copied display.entry) text.now }
{
    match text {
        [b'<', rest @ ..] => in_brackets(display, rest),
        _ => None,
    }
}

/// What comes after the quotation mark that opens a display.
#[tactic(auto, unfolding(crate::specs::NameParts::quoted_name))]
fn quoted_name(text: &[u8]) -> Option<NameParts<'_>>
    ensures { result ≡ quoted_name text.now }
{
    let (display, rest) = quoted_text(text)?;
    if !fits_quotes(display) {
        return None;
    }
    after_bracket(Some(display), without_blanks(rest))
}

/// Tokens, or nothing, before the opening angle bracket.
#[tactic(auto, unfolding(crate::specs::NameParts::worded_name))]
fn worded_name(text: &[u8]) -> Option<NameParts<'_>>
    ensures { result ≡ worded_name text.now }
{
    let (front, rest) = cut(text, b'<');
    let rest = rest?;
    if !is_phrase(front) {
        return None;
    }
    in_brackets(phrase_of(front), rest)
}

/// Whether an angle bracket opens before the first semicolon.
fn has_angle(text: &[u8]) -> bool
    ensures { result ≡ is_some (after 60 (before 59 text.now)) }
{
    if let [b'<', ..] = text {
        return true;
    }
    let (front, _) = cut(text, b';');
    let (_, rest) = cut(front, b'<');
    rest.is_some()
}

fn bare(text: &[u8]) -> NameParts<'_>
    ensures { result ≡ bare text.now }
{
    let (uri, params) = cut(text, b';');
    NameParts {
        display: None,
        uri: trim_blanks(uri),
        in_angles: false,
        params,
    }
}

#[tactic(auto, unfolding(crate::specs::NameParts::name_from))]
fn name_from(text: &[u8]) -> Option<NameParts<'_>>
    ensures { result ≡ name_from text.now }
{
    if let [b'"', rest @ ..] = text {
        return quoted_name(rest);
    }
    if has_angle(text) {
        worded_name(text)
    } else {
        Some(bare(text))
    }
}

/// The parts of a text, if its outer form can be split.
#[tactic(auto, unfolding(crate::specs::NameParts::name_of))]
pub fn parts_of(text: &[u8]) -> Option<NameParts<'_>>
    ensures { result ≡ name_of text.now }
{
    name_from(without_blanks(text))
}

/// Whether the text has no comma, semicolon or question mark.
fn stands_alone(text: &[u8]) -> bool
    ensures { result ≡ list_all (λ b. not (is_one_of (codes ",;?") b)) text.now }
{
    text.iter().all(|b| !b",;?".contains(b))
}

impl<'a> NameParts<'a> {
    ghost use Rattle.std.specs.Prelude.{◌≡◌};
    ghost use Rattle.sip_uri.specs.NameParts.{stands_well};

    /// Whether the URI is in angle brackets if it has to be.
    #[tactic(auto, unfolding(crate::specs::NameParts::stands_well))]
    pub fn stands_well(&self) -> bool
        ensures { result ≡ stands_well self.now }
    {
        self.in_angles || stands_alone(self.uri)
    }
}
