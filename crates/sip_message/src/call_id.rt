//! The form of Call-ID (RFC 3261 sections 20.8 and 25.1).

ghost use Rattle.std.specs.Prelude.{◌≡◌};
ghost use Rattle.std.specs.List.{list_all};
ghost use Rattle.sip_message.specs.CallId.{is_word_byte, is_word, is_call_id};

use text::cut;

/// Each byte of a word is at its own place, and a bar is at every other place.
static WORD_BYTES: [u8; 256] = *b"\
    ||||||||||||||||||||||||||||||||\
    |!\"||%|'()*+|-./0123456789:|<|>?\
    |ABCDEFGHIJKLMNOPQRSTUVWXYZ[\\]|_\
    `abcdefghijklmnopqrstuvwxyz{|}~|\
    ||||||||||||||||||||||||||||||||\
    ||||||||||||||||||||||||||||||||\
    ||||||||||||||||||||||||||||||||\
    ||||||||||||||||||||||||||||||||";

fn is_word_byte(b: u8) -> bool
    ensures { result ≡ is_word_byte b }
{
    WORD_BYTES[usize::from(b)] != b'|'
}

fn all_word(text: &[u8]) -> bool
    ensures { result ≡ list_all is_word_byte text.now }
{
    text.iter().all(|b| is_word_byte(*b))
}

fn is_word(text: &[u8]) -> bool
    ensures { result ≡ is_word text.now }
{
    !text.is_empty() && all_word(text)
}

/// Whether the text is a Call-ID: a word, or two around an `@` (RFC 3261 section 25.1).
pub(crate) fn is_call_id(text: &[u8]) -> bool
    ensures { result ≡ is_call_id text.now }
{
    let (word, host) = cut(text, b'@');
    is_word(word) && host.is_none_or(|host| is_word(host))
}
