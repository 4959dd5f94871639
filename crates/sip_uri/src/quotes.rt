//! Quoted strings (RFC 3261 section 25.1).

ghost use Rattle.std.specs.Prelude.{◌≡◌, ◌<◌, false, length, IfSome, option_map};
ghost use Rattle.sip_uri.specs.Quoted.{closing_quote, quoted, is_quoted_byte, is_pair_byte, may_stand, fits_quotes, ends_quoted, is_quoted};

/// The place of the closing quotation mark.
fn closing_quote(text: &[u8]) -> Option<usize>
    ensures place { result ≡ closing_quote false text.now }
    ensures within { IfSome result (λ n. n < length text.now) }
{
    let mut escaped = false;
    for at in 0..text.len() {
        if text[at] == b'"' && !escaped {
            return Some(at);
        }
        escaped = !escaped && text[at] == b'\\';
    }
    None
}

/// The text up to the closing quotation mark, as written, and what comes after it.
#[tactic(auto, unfolding(crate::specs::Quoted::quoted))]
pub fn quoted_text(text: &[u8]) -> Option<(&[u8], &[u8])>
    ensures { option_map (λ x. (x.0.now, x.1.now)) result ≡ quoted text.now }
{
    let at = closing_quote(text)?;
    Some((&text[..at], &text[at + 1..]))
}

fn is_quoted_byte(b: u8) -> bool
    ensures { result ≡ is_quoted_byte b }
{
    b == b'\t' || b >= b' ' && b != b'"' && b != b'\\' && b != 127
}

fn is_pair_byte(b: u8) -> bool
    ensures { result ≡ is_pair_byte b }
{
    b < 128 && b != b'\n' && b != b'\r'
}

fn may_stand(escaped: bool, b: u8) -> bool
    ensures { result ≡ may_stand escaped b }
{
    if escaped {
        is_pair_byte(b)
    } else {
        is_quoted_byte(b) || b == b'\\'
    }
}

/// Whether the text may be put between quotation marks.
pub fn fits_quotes(text: &[u8]) -> bool
    ensures { result ≡ fits_quotes false text.now }
{
    let mut escaped = false;
    for b in text {
        if !may_stand(escaped, *b) {
            return false;
        }
        escaped = !escaped && *b == b'\\';
    }
    !escaped
}

fn ends_quoted(text: &[u8]) -> bool
    ensures { result ≡ ends_quoted (quoted text.now) }
{
    match quoted_text(text) {
        Some((inside, rest)) => fits_quotes(inside) && rest.is_empty(),
        None => false,
    }
}

/// Whether the text is a quoted string.
#[tactic(auto, unfolding(crate::specs::Quoted::is_quoted))]
pub fn is_quoted(text: &[u8]) -> bool
    ensures { result ≡ is_quoted text.now }
{
    match text {
        [b'"', rest @ ..] => ends_quoted(rest),
        _ => false,
    }
}
