//! The address on a `c=` line (RFC 4566 section 5.7).

ghost use Rattle.std.specs.Prelude.{◌≡◌};
ghost use Rattle.std.specs.List.{list_all};
ghost use Rattle.std.specs.Option.{option_copied};
ghost use Rattle.sdp.specs.Addresses.{octet_of, ip4_of, is_group_address, is_scope, is_multicast, is_name_byte, is_dotted_byte, is_name, unicast_of, inet_of, behind, address_of};

use crate::address::Address;
use crate::class::{begins, is_integer, is_word};
use text::{Text, cut, number_upto};

#[tactic(auto, unfolding(crate::specs::Addresses::octet_of))]
fn octet(text: &[u8]) -> Option<u8>
    ensures { result ≡ octet_of text.now }
{
    if text.is_empty() || text.len() > 1 && begins(text, b"0") {
        return None;
    }
    number_upto(255, text).map(|n| n as u8)
}

/// Four octets with dots between them, none with a leading zero.
#[tactic(auto, unfolding(crate::specs::Addresses::ip4_of))]
fn ip4(text: &[u8]) -> Option<[u8; 4]>
    ensures { result ≡ ip4_of text.now }
{
    let (a, rest) = cut(text, b'.');
    let a = octet(a)?;
    let (b, rest) = cut(rest?, b'.');
    let b = octet(b)?;
    let (c, rest) = cut(rest?, b'.');
    let c = octet(c)?;
    Some([a, b, c, octet(rest?)?])
}

fn unicast(text: &[u8]) -> Option<Address<'_>>
    ensures { result ≡ unicast_of (ip4_of text.now) }
{
    let octets = ip4(text)?;
    if octets[0] < 224 {
        Some(Address::Ip4(octets))
    } else {
        None
    }
}

fn is_group_address(octets: Option<[u8; 4]>) -> bool
    ensures { result ≡ is_group_address octets }
{
    match octets {
        Some(octets) => octets[0] >= 224 && octets[0] < 240,
        None => false,
    }
}

fn is_scope(text: Option<&[u8]>) -> bool
    ensures { result ≡ is_scope (option_copied text.entry) }
{
    let Some(text) = text else {
        return false;
    };
    let (ttl, count) = cut(text, b'/');
    octet(ttl).is_some()
        && match count {
            Some(count) => is_integer(count),
            None => true,
        }
}

#[tactic(auto, unfolding(crate::specs::Addresses::is_multicast))]
fn is_multicast(text: &[u8]) -> bool
    ensures { result ≡ is_multicast text.now }
{
    let (address, scope) = cut(text, b'/');
    is_scope(scope) && is_group_address(ip4(address))
}

fn is_name_byte(b: u8) -> bool
    ensures { result ≡ is_name_byte b }
{
    b.is_ascii_alphanumeric() || b"-.".contains(&b)
}

fn all_name(text: &[u8]) -> bool
    ensures { result ≡ list_all is_name_byte text.now }
{
    text.iter().all(|b| is_name_byte(*b))
}

fn is_dotted_byte(b: u8) -> bool
    ensures { result ≡ is_dotted_byte b }
{
    b.is_ascii_digit() || b == b'.'
}

fn all_dotted(text: &[u8]) -> bool
    ensures { result ≡ list_all is_dotted_byte text.now }
{
    text.iter().all(|b| is_dotted_byte(*b))
}

#[tactic(auto, unfolding(crate::specs::Addresses::is_name))]
fn is_name(text: &[u8]) -> bool
    ensures { result ≡ is_name text.now }
{
    text.len() >= 4 && !all_dotted(text) && all_name(text)
}

/// The address of type `IP4` in the text.
#[tactic(auto, unfolding(crate::specs::Addresses::inet_of))]
fn inet(text: &[u8]) -> Option<Address<'_>>
    ensures { result ≡ inet_of text.now }
{
    if is_name(text) {
        return Some(Address::Name(Text::lent(text)));
    }
    if is_multicast(text) {
        return Some(Address::Multicast(Text::lent(text)));
    }
    unicast(text)
}

fn behind<'a>(text: &'a [u8], front: &[u8]) -> Option<&'a [u8]>
    ensures { option_copied result ≡ behind front.now text.now }
{
    text.strip_prefix(front)
}

/// The address that the value of a `c=` line has.
#[tactic(auto, unfolding(crate::specs::Addresses::address_of))]
pub(crate) fn address(value: &[u8]) -> Option<Address<'_>>
    ensures { result ≡ address_of value.now }
{
    if let Some(text) = behind(value, b"IN IP4 ") {
        return inet(text);
    }
    match behind(value, b"IN IP6 ") {
        Some(text) if is_word(text) => Some(Address::Ip6(Text::lent(text))),
        _ => None,
    }
}
