//! Texts from outside, escaped so that they neither end nor begin anything where they are placed.

ghost use Rattle.std.specs.Prelude.{◌≡◌, ◌<◌, ◌++◌, OnOk};
ghost use Rattle.pages.specs.Escape.{escaped, escaped_byte, hex_digit, html_byte, is_printable, plain_byte, quoted_byte, unprinted};

use std::alloc::AllocError;

/// Where a text is placed.
#[derive(Clone, Copy, Debug)]
pub(crate) enum Place {
    /// In the text or in an attribute of an HTML element.
    Html,
    /// In a string of JSON (RFC 8259 section 7).
    Json,
    /// In the value of a label of Prometheus' text form.
    Label,
}

/// A printable character of ASCII, or the space.
fn is_printable(byte: u8) -> bool
    ensures { result ≡ is_printable byte }
{
    b' ' <= byte && byte < 127
}

/// A hexadecimal digit below 16.
fn hex_digit(digit: u8) -> u8
    requires { digit < 16 }
    ensures { result ≡ hex_digit digit }
{
    if digit < 10 {
        b'0' + digit
    } else {
        b'a' - 10 + digit
    }
}

/// What comes before the two digits of a byte that is not printed.
fn unprinted(place: Place) -> &'static [u8]
    ensures { result.now ≡ unprinted place }
{
    match place {
        Place::Html => b"\\x",
        Place::Json => b"\\u00",
        Place::Label => b"\\\\x",
    }
}

fn put_plain(out: &mut Vec<u8>, place: Place, byte: u8) -> Result<(), AllocError>
    ensures { OnOk result (out.new.items ≡ out.old.items ++ plain_byte place byte) }
{
    if is_printable(byte) {
        out.push(byte)?;
        return Ok(());
    }
    out.extend_from_slice(unprinted(place))?;
    out.extend_from_slice(&[hex_digit(byte / 16), hex_digit(byte % 16)])
}

fn put_html_byte(out: &mut Vec<u8>, byte: u8) -> Result<(), AllocError>
    ensures { OnOk result (out.new.items ≡ out.old.items ++ html_byte byte) }
{
    match byte {
        b'&' => out.extend_from_slice(b"&amp;"),
        b'<' => out.extend_from_slice(b"&lt;"),
        b'>' => out.extend_from_slice(b"&gt;"),
        b'"' => out.extend_from_slice(b"&quot;"),
        b'\'' => out.extend_from_slice(b"&#39;"),
        _ => put_plain(out, Place::Html, byte),
    }
}

/// A byte of a text between quotes.
fn put_quoted_byte(out: &mut Vec<u8>, place: Place, byte: u8) -> Result<(), AllocError>
    ensures { OnOk result (out.new.items ≡ out.old.items ++ quoted_byte place byte) }
{
    match byte {
        b'"' => out.extend_from_slice(b"\\\""),
        b'\\' => out.extend_from_slice(b"\\\\"),
        _ => put_plain(out, place, byte),
    }
}

fn put_byte(out: &mut Vec<u8>, place: Place, byte: u8) -> Result<(), AllocError>
    ensures { OnOk result (out.new.items ≡ out.old.items ++ escaped_byte place byte) }
{
    match place {
        Place::Html => put_html_byte(out, byte),
        Place::Json => put_quoted_byte(out, place, byte),
        Place::Label => put_quoted_byte(out, place, byte),
    }
}

/// Appends a text from outside, escaped. If memory runs out, a part may be written.
pub(crate) fn put_escaped(out: &mut Vec<u8>, place: Place, text: &[u8]) -> Result<(), AllocError>
    ensures { OnOk result (out.new.items ≡ out.old.items ++ escaped place text.now) }
{
    for byte in text {
        put_byte(out, place, *byte)?;
    }
    Ok(())
}
