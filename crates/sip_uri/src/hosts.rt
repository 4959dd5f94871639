//! IPv4 addresses and host names (RFC 3261 section 25.1).

ghost use Rattle.std.specs.Prelude.{◌≡◌, false};
ghost use Rattle.sip_uri.specs.Hosts.{octet_of, ip4_of, without_dot, may_follow, goes_on, is_hostname, is_host};

use crate::class::is_label_byte;
use text::{cut, number_upto};

#[tactic(auto, unfolding(crate::specs::Hosts::octet_of))]
fn octet(text: &[u8]) -> Option<u8>
    ensures { result ≡ octet_of text.now }
{
    if text.is_empty() || text.len() > 3 {
        return None;
    }
    number_upto(255, text).map(|n| n as u8)
}

/// The four octets of an IPv4 address in dotted form.
#[tactic(auto, unfolding(crate::specs::Hosts::ip4_of))]
pub fn ip4(text: &[u8]) -> Option<[u8; 4]>
    ensures { result ≡ ip4_of text.now }
{
    let (a, rest) = cut(text, b'.');
    let a = octet(a)?;
    let (b, rest) = cut(rest?, b'.');
    let b = octet(b)?;
    let (c, rest) = cut(rest?, b'.');
    let c = octet(c)?;
    Some([a, b, c, octet(rest?)?])
}

/// The text without a dot at its end.
fn without_dot(text: &[u8]) -> &[u8]
    ensures { result.now ≡ without_dot text.now }
{
    let Some((last, front)) = text.split_last() else {
        return text;
    };
    if *last == b'.' { front } else { text }
}

/// Whether this byte may come after that one, with a dot before and after each label.
fn may_follow(last: u8, b: u8) -> bool
    ensures { result ≡ may_follow last b }
{
    if b == b'.' {
        last.is_ascii_alphanumeric()
    } else if last == b'.' {
        b.is_ascii_alphanumeric()
    } else {
        is_label_byte(b)
    }
}

/// Whether the text is labels with dots between them, the last of which begins with a letter.
fn is_name(text: &[u8]) -> bool
    ensures { result ≡ goes_on 46 false text.now }
{
    let mut last = b'.';
    let mut letter = false;
    for b in text {
        if !may_follow(last, *b) {
            return false;
        }
        if last == b'.' {
            letter = b.is_ascii_alphabetic();
        }
        last = *b;
    }
    letter && last.is_ascii_alphanumeric()
}

#[tactic(auto, using(crate::proofs::NameScan::name_again))]
pub(crate) fn is_hostname(text: &[u8]) -> bool
    ensures { result ≡ is_hostname text.now }
{
    is_name(without_dot(text))
}

/// Whether the text is the host of a URI: an IPv4 address or a host name.
#[tactic(auto, unfolding(crate::specs::Hosts::is_host))]
pub fn is_host(text: &[u8]) -> bool
    ensures { result ≡ is_host text.now }
{
    ip4(text).is_some() || is_hostname(text)
}
