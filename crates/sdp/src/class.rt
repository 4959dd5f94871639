//! Classes of bytes, and texts made of them (RFC 4566 section 9).

ghost use Rattle.std.specs.Prelude.{◌≡◌, ◌==◌};
ghost use Rattle.std.specs.List.{list_all, slice_split};
ghost use Rattle.sdp.specs.Classes.{is_token_char, is_token, is_visible, is_word, begins, is_number, is_integer, is_proto};
ghost use Rattle.sdp.specs.Lines.{has_mark};

use text::is_run_of_digits;

/// Whether the byte after the type is `=`.
pub(crate) fn has_mark(line: &[u8]) -> bool
    ensures { result ≡ has_mark line.now }
{
    match line {
        [_, mark, ..] => *mark == b'=',
        _ => false,
    }
}

/// Each byte of a token is at its own place, and `@` is at every other place.
static TOKEN_CHARS: [u8; 256] = *b"\
    @@@@@@@@@@@@@@@@@@@@@@@@@@@@@@@@\
    @!@#$%&'@@*+@-.@0123456789@@@@@@\
    @ABCDEFGHIJKLMNOPQRSTUVWXYZ@@@^_\
    `abcdefghijklmnopqrstuvwxyz{|}~@\
    @@@@@@@@@@@@@@@@@@@@@@@@@@@@@@@@\
    @@@@@@@@@@@@@@@@@@@@@@@@@@@@@@@@\
    @@@@@@@@@@@@@@@@@@@@@@@@@@@@@@@@\
    @@@@@@@@@@@@@@@@@@@@@@@@@@@@@@@@";

fn is_token_char(b: u8) -> bool
    ensures { result ≡ is_token_char b }
{
    TOKEN_CHARS[usize::from(b)] != b'@'
}

fn all_token(text: &[u8]) -> bool
    ensures { result ≡ list_all is_token_char text.now }
{
    text.iter().all(|b| is_token_char(*b))
}

#[tactic(auto, unfolding(crate::specs::Classes::is_token))]
pub(crate) fn is_token(text: &[u8]) -> bool
    ensures { result ≡ is_token text.now }
{
    !text.is_empty() && all_token(text)
}

fn is_visible(b: u8) -> bool
    ensures { result ≡ is_visible b }
{
    b >= 33 && b != 127
}

fn all_visible(text: &[u8]) -> bool
    ensures { result ≡ list_all is_visible text.now }
{
    text.iter().all(|b| is_visible(*b))
}

/// Whether the text is one or more bytes, none of them a blank or a control byte.
#[tactic(auto, unfolding(crate::specs::Classes::is_word))]
pub(crate) fn is_word(text: &[u8]) -> bool
    ensures { result ≡ is_word text.now }
{
    !text.is_empty() && all_visible(text)
}

/// Whether the text begins with one of these bytes.
pub(crate) fn begins(text: &[u8], set: &[u8]) -> bool
    ensures { result ≡ begins set.now text.now }
{
    match text {
        [first, ..] => set.contains(first),
        [] => false,
    }
}

#[tactic(auto, unfolding(crate::specs::Classes::is_number))]
pub(crate) fn is_number(text: &[u8]) -> bool
    ensures { result ≡ is_number text.now }
{
    is_run_of_digits(text)
}

/// Whether the text is digits, the first of which is not 0.
#[tactic(auto, unfolding(crate::specs::Classes::is_integer))]
pub(crate) fn is_integer(text: &[u8]) -> bool
    ensures { result ≡ is_integer text.now }
{
    is_run_of_digits(text) && !begins(text, b"0")
}

/// Whether the text is tokens with slashes between them.
#[tactic(auto, unfolding(crate::specs::Classes::is_proto))]
pub(crate) fn is_proto(text: &[u8]) -> bool
    ensures { result ≡ is_proto text.now }
{
    text.split(|b| *b == b'/').all(|part| is_token(part))
}

/// Whether the text is tokens with single spaces between them.
pub(crate) fn are_tokens(text: &[u8]) -> bool
    ensures { result ≡ list_all is_token (slice_split (λ b. b == 32) text.now) }
{
    text.split(|b| *b == b' ').all(|part| is_token(part))
}
