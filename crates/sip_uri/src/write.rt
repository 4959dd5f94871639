//! Writing URIs.

ghost use Rattle.std.specs.Prelude.{◌≡◌, ◌++◌, ℕ, List, OnErr, OnOk, IfOk, decimal};
ghost use Rattle.std.specs.Option.{option_copied};
ghost use Rattle.sip_uri.specs.declared.uri.Uri.{Uri};
ghost use Rattle.sip_uri.specs.Grammar.{ReadsUri};
ghost use Rattle.sip_uri.specs.Writing.{BeginsWith, escaped_byte, escaped, ip4_text, host_text, param_text, params_text, user_part, port_part, uri_text};

use crate::class::is_plain_user;
use crate::room::ROOM;
use crate::uri::{Host, Param, Uri};
use std::alloc::{AllocError, Global};
use text::{Text, put_number};

fn put_user_byte(out: &mut Vec<u8>, b: u8) -> Result<(), AllocError>
    ensures ok { OnOk result (out.new.items ≡ out.old.items ++ escaped_byte b) }
    ensures err { OnErr result (BeginsWith out.old.items out.new.items) }
{
    if is_plain_user(b) {
        out.push(b)?;
    } else {
        out.extend_from_slice(percent_encoding::percent_encode_byte(b).as_bytes())?;
    }
    Ok(())
}

#[tactic(auto, unfolding(crate::specs::Writing::escaped))]
fn put_escaped(out: &mut Vec<u8>, user: &[u8]) -> Result<(), AllocError>
    ensures ok { OnOk result (out.new.items ≡ out.old.items ++ escaped user.now) }
    ensures err { OnErr result (BeginsWith out.old.items out.new.items) }
{
    for b in user {
        put_user_byte(out, *b)?;
    }
    Ok(())
}

/// Appends an IPv4 address in plain decimals. If memory runs out, a part may be written.
pub fn put_ip4(out: &mut Vec<u8>, octets: &[u8; 4]) -> Result<(), AllocError>
    ensures ok { OnOk result (out.new.items ≡ out.old.items ++ ip4_text octets.now) }
    ensures err { OnErr result (BeginsWith out.old.items out.new.items) }
{
    put_number(out, u64::from(octets[0]))?;
    out.push(b'.')?;
    put_number(out, u64::from(octets[1]))?;
    out.push(b'.')?;
    put_number(out, u64::from(octets[2]))?;
    out.push(b'.')?;
    put_number(out, u64::from(octets[3]))?;
    Ok(())
}

/// Appends a host: an IPv4 address in plain decimals, or a name as it is. If memory runs out, a part may be written.
pub fn put_host(out: &mut Vec<u8>, host: &Host) -> Result<(), AllocError>
    ensures ok { OnOk result (out.new.items ≡ out.old.items ++ host_text host.now) }
    ensures err { OnErr result (BeginsWith out.old.items out.new.items) }
{
    match host {
        Host::Ip4(octets) => put_ip4(out, octets)?,
        Host::Name(name) => out.extend_from_slice(name.as_bytes())?,
    }
    Ok(())
}

/// Appends `name` or `name=value`. If memory runs out, a part may be written.
pub fn put_param(out: &mut Vec<u8>, param: &Param) -> Result<(), AllocError>
    ensures ok { OnOk result (out.new.items ≡ out.old.items ++ param_text param.now) }
    ensures err { OnErr result (BeginsWith out.old.items out.new.items) }
{
    out.extend_from_slice(param.name.as_bytes())?;
    if let Some(value) = &param.value {
        out.push(b'=')?;
        out.extend_from_slice(value.as_bytes())?;
    }
    Ok(())
}

/// Appends parameters, the first after one byte and each other after another. If memory runs out, a part may be
/// written.
pub fn put_params(
    out: &mut Vec<u8>,
    params: &[Param],
    first: u8,
    next: u8,
) -> Result<(), AllocError>
    ensures ok { OnOk result (out.new.items ≡ out.old.items ++ params_text first next params.now) }
    ensures err { OnErr result (BeginsWith out.old.items out.new.items) }
{
    let mut mark = first;
    for param in params {
        out.push(mark)?;
        put_param(out, param)?;
        mark = next;
    }
    Ok(())
}

#[tactic(auto, unfolding(crate::specs::Writing::user_part))]
fn put_user(out: &mut Vec<u8>, user: Option<&Text>) -> Result<(), AllocError>
    ensures ok { OnOk result (out.new.items ≡ out.old.items ++ user_part (option_copied user.entry)) }
    ensures err { OnErr result (BeginsWith out.old.items out.new.items) }
{
    if let Some(user) = user {
        put_escaped(out, user.as_bytes())?;
        out.push(b'@')?;
    }
    Ok(())
}

fn put_port(out: &mut Vec<u8>, port: Option<u16>) -> Result<(), AllocError>
    ensures ok { OnOk result (out.new.items ≡ out.old.items ++ port_part port) }
    ensures err { OnErr result (BeginsWith out.old.items out.new.items) }
{
    if let Some(port) = port {
        out.push(b':')?;
        put_number(out, u64::from(port))?;
    }
    Ok(())
}

/// Appends a URI. Bytes of its user that are not allowed in one are written as `%` and two upper-case digits. If
/// memory runs out, a part may be written.
#[tactic(auto, unfolding(crate::specs::Writing::uri_text))]
pub fn put_uri(out: &mut Vec<u8>, uri: &Uri) -> Result<(), AllocError>
    ensures ok { OnOk result (out.new.items ≡ out.old.items ++ uri_text uri.now) }
    ensures err { OnErr result (BeginsWith out.old.items out.new.items) }
{
    out.extend_from_slice(b"sip:")?;
    put_user(out, uri.user.as_ref())?;
    put_host(out, &uri.host)?;
    put_port(out, uri.port)?;
    put_params(out, uri.params.as_slice(), b';', b';')?;
    put_params(out, uri.headers.as_slice(), b'?', b'&')?;
    Ok(())
}

fn write(alloc: Global, uri: &Uri) -> Result<Text<'static>, AllocError>
    ensures { IfOk result (λ t. t ≡ uri_text uri.now) }
{
    let mut out = Vec::with_capacity(alloc, ROOM)?;
    put_uri(&mut out, uri)?;
    Ok(Text::from_vec(out))
}

/// The text of a URI. Bytes of its user that are not allowed in one are written as `%` and two upper-case digits.
pub fn write_uri(alloc: Global, uri: &Uri) -> Result<Text<'static>, AllocError>
    // The text itself.
    ensures text { IfOk result (λ t. t ≡ uri_text uri.now) }
    // What is written for a URI that was read from some text is read again as that URI.
    ensures again { (from : List ℕ) → ReadsUri from uri.now → IfOk result (λ t. ReadsUri t uri.now) }
{
    write(alloc, uri)
}
