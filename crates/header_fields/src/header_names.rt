//! The names of header fields.

ghost use Rattle.std.specs.Prelude.{◌≡◌};
ghost use Rattle.std.specs.Option.{option_copied};
ghost use Rattle.header_fields.specs.HeaderNames.{long_of, long_name};

/// The long name of a letter, in lower case (RFC 3261 sections 7.3.3 and 20).
fn long_of(letter: u8) -> Option<&'static [u8]>
    ensures { option_copied result ≡ long_of letter }
{
    match letter {
        b'c' => Some(b"Content-Type"),
        b'e' => Some(b"Content-Encoding"),
        b'f' => Some(b"From"),
        b'i' => Some(b"Call-ID"),
        b'k' => Some(b"Supported"),
        b'l' => Some(b"Content-Length"),
        b'm' => Some(b"Contact"),
        b's' => Some(b"Subject"),
        b't' => Some(b"To"),
        b'v' => Some(b"Via"),
        _ => None,
    }
}

/// The name, or the long name if it is a compact one, ignoring case (RFC 3261 section 7.3.3).
#[tactic(auto, unfolding(crate::specs::HeaderNames::long_name))]
pub(crate) fn long_name(name: &[u8]) -> &[u8]
    ensures { result.now ≡ long_name name.now }
{
    match name {
        [letter] => long_of(letter.to_ascii_lowercase()).unwrap_or(name),
        _ => name,
    }
}
