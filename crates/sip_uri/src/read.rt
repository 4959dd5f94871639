//! Reading URIs.

ghost use Rattle.std.specs.Prelude.{◌≡◌, ◌==◌, ◌≤◌, IsTrue, IfOk, IfErr, Some, map, length};
ghost use Rattle.std.specs.List.{slice_split};
ghost use Rattle.std.specs.Option.{option_copied};
ghost use Rattle.percent_encoding.specs.Percent.{percent_decode};
ghost use Rattle.sip_uri.specs.Hosts.{ip4_of};
ghost use Rattle.sip_uri.specs.Reading.{Gives, is_plain, uri_of, value_of, host_of, host_read, param_of, fields_of, is_sip};
ghost use Rattle.sip_uri.specs.Grammar.{ReadsUri, Refuses};
ghost use Rattle.sip_uri.specs.declared.uri.Uri.{Uri};

use crate::error::UriError;
use crate::hosts::{ip4, is_hostname};
use crate::parts::Parts;
use crate::uri::{Host, Param, Params, Uri};
use std::alloc::{AllocError, Global};
use text::{Text, cut, lent, number_upto, same_without_case};

/// The host in a text, whose octets these are if it is an address.
fn host(text: &[u8], octets: Option<[u8; 4]>) -> Host<'_>
    requires { octets ≡ ip4_of text.now }
    ensures { result ≡ host_of text.now }
{
    match octets {
        Some(octets) => Host::Ip4(octets),
        None => Host::Name(Text::lent(text)),
    }
}

/// The host that the bytes are, as in a URI and in a Via (RFC 3261 section 25.1): an IPv4 address by its octets, or a
/// host name as written. `None` for others. Takes no memory.
#[tactic(auto, unfolding(crate::specs::Reading::host_read, crate::specs::Hosts::is_host))]
pub fn read_host(text: &[u8]) -> Option<Host<'_>>
    ensures { result ≡ host_read text.now }
{
    let octets = ip4(text);
    if octets.is_none() && !is_hostname(text) {
        return None;
    }
    Some(host(text, octets))
}

fn param(text: &[u8]) -> Param<'_>
    ensures { result ≡ param_of text.now }
{
    let (name, value) = cut(text, b'=');
    Param {
        name: Text::lent(name),
        value: lent(value),
    }
}

fn list_of_params(alloc: Global, text: &[u8], separator: u8) -> Result<Vec<Param<'_>>, AllocError>
    ensures { IfOk result (λ ps. ps.items ≡ map param_of (slice_split (λ b. b == separator) text.now)) }
{
    let mut params = Vec::new(alloc);
    for piece in text.split(|b| *b == separator) {
        params.push(param(piece))?;
    }
    Ok(params)
}

/// The parameters of a part whose pieces are between separators.
fn params(alloc: Global, text: &[u8], separator: u8) -> Result<Params<'_>, AllocError>
    ensures { IfOk result (λ ps. ps ≡ fields_of separator (Some text.now)) }
{
    Ok(Params::from_vec(list_of_params(alloc, text, separator)?))
}

/// Whether the text has no `%`, and so is what it decodes to.
fn is_plain(text: &[u8]) -> bool
    ensures { result ≡ is_plain text.now }
{
    text.iter().all(|b| *b != b'%')
}

/// The user with its escapes undone: lent where there are none.
#[tactic(auto, using(crate::proofs::PlainUsers::plain))]
fn user(alloc: Global, text: &[u8]) -> Result<Text<'_>, AllocError>
    ensures { IfOk result (λ t. t ≡ percent_decode text.now) }
{
    if is_plain(text) {
        return Ok(Text::lent(text));
    }
    let mut user = Vec::new(alloc);
    percent_encoding::percent_decode(text).append_to(&mut user)?;
    Ok(Text::from_vec(user))
}

#[tactic(auto, unfolding(crate::specs::Reading::value_of))]
fn value<'a>(
    alloc: Global,
    parts: &Parts<'a>,
    octets: Option<[u8; 4]>,
) -> Result<Uri<'a>, AllocError>
    requires { octets ≡ ip4_of parts.now.host }
    ensures { IfOk result (λ u. u ≡ value_of parts.now) }
{
    let user = match parts.user {
        Some(text) => Some(user(alloc, text)?),
        None => None,
    };
    let host = host(parts.host, octets);
    let port = match parts.port {
        Some(port) => number_upto(65535, port).map(|n| n as u16),
        None => None,
    };
    let list = match parts.params {
        Some(text) => params(alloc, text, b';')?,
        None => Params::from_vec(Vec::new(alloc)),
    };
    let headers = match parts.headers {
        Some(text) => params(alloc, text, b'&')?,
        None => Params::from_vec(Vec::new(alloc)),
    };
    Ok(Uri {
        user,
        host,
        port,
        params: list,
        headers,
    })
}

#[tactic(auto, unfolding(crate::specs::Reading::is_sip))]
fn is_sip(text: &[u8]) -> bool
    ensures test { result ≡ is_sip text.now }
    ensures long { IsTrue result → 4 ≤ length text.now }
{
    text.len() >= 4 && same_without_case(&text[..4], b"sip:")
}

#[tactic(auto, unfolding(crate::specs::Reading::uri_of))]
fn read(alloc: Global, bytes: &[u8]) -> Result<Uri<'_>, UriError>
    ensures { Gives result (uri_of bytes.now) }
{
    if !is_sip(bytes) {
        return Err(UriError::Scheme);
    }
    let parts = Parts::of(&bytes[4..]);
    let octets = ip4(parts.host);
    if !parts.is_well_formed(octets.is_some()) {
        return Err(UriError::Malformed);
    }
    if !parts.has_good_escapes() {
        return Err(UriError::BadEscape);
    }
    if !parts.has_good_port() {
        return Err(UriError::Port);
    }
    Ok(value(alloc, &parts, octets)?)
}

/// The URI in the bytes (RFC 3261 section 25.1, SIP-URI). Of several faults, the first in the order of `UriError` is
/// returned: the scheme, the form with every `%` allowed, the escapes of the whole URI, the port.
pub fn read_uri(alloc: Global, bytes: &[u8]) -> Result<Uri<'_>, UriError>
    // What is read is a URI with this value.
    ensures found { IfOk result (λ uri. ReadsUri bytes.now uri) }
    // A URI is read, unless memory runs out.
    ensures only { (uri : Uri) → ReadsUri bytes.now uri → Gives result (Ok uri) }
    // Each refusal has its reason.
    ensures refused { IfErr result (λ e. Refuses bytes.now e) }
    // All of this at once, as a function of the bytes.
    ensures exact { Gives result (uri_of bytes.now) }
{
    read(alloc, bytes)
}
