//! What the server adds to the top Via of a request (RFC 3261 section 18.2.1, RFC 3581 section 4).

ghost use Rattle.std.specs.Prelude.{◌≡◌, ◌<◌, ◌≤◌, ℕ, slice_index, length, position, decimal, IfOk, IfSome, OnOk, map};
ghost use Rattle.std.specs.Option.{option_copied};
ghost use Rattle.sip_uri.specs.Writing.{ip4_text};
ghost use Rattle.sip_writing.specs.Reply.{is_param, is_empty_param, asks_port, value_put, with_value, without, is_address, needs_received, received, filled, with_received, marked_params, marked};

use sip_message::Via;
use sip_uri::{Addr, Host, Param, Params, param_named, put_ip4};
use std::alloc::{AllocError, Global};
use text::{Text, put_number, same_without_case};

pub(crate) fn is_param(param: &Param, name: &[u8]) -> bool
    ensures { result ≡ is_param name.now param.now }
{
    same_without_case(param.name.as_bytes(), name)
}

fn is_empty_param(param: Option<&Param>) -> bool
    ensures { result ≡ is_empty_param (option_copied param.entry) }
{
    match param {
        None => false,
        Some(param) => param.value.is_none(),
    }
}

/// Whether the sender asks for a response to the port that it sent from.
pub(crate) fn asks_port(params: &[Param]) -> bool
    ensures { result ≡ asks_port params.now }
{
    is_empty_param(param_named(params, b"rport"))
}

fn place_of(params: &[Param], name: &[u8]) -> Option<usize>
    ensures place { result ≡ position (is_param name.now) params.now }
    ensures bound { IfSome result (λ place. place < length params.now) }
{
    params.iter().position(|param| is_param(param, name))
}

fn put_value(
    params: &mut Vec<Param<'static>>,
    name: &[u8],
    value: Text<'static>,
) -> Result<(), AllocError>
    ensures { OnOk result (params.new.items ≡ with_value name.now value.entry params.old.items) }
{
    let Some(place) = place_of(params, name) else {
        return Ok(());
    };
    let name = params[place].name.clone()?;
    params[place] = Param {
        name,
        value: Some(value),
    };
    Ok(())
}

fn remove_all(params: &mut Vec<Param<'_>>, name: &[u8])
    ensures { params.new.items ≡ without name.now params.old.items }
{
    params.retain(|param| !is_param(param, name));
}

fn is_address(host: &Host, ip: &[u8; 4]) -> bool
    ensures { result ≡ is_address host.now ip.now }
{
    match host {
        Host::Ip4(octets) => octets == ip,
        Host::Name(_) => false,
    }
}

/// Whether `received` is added to the top Via: the host of sent-by differs, or `rport` was empty.
pub(crate) fn needs_received(asked: bool, host: &Host, ip: &[u8; 4]) -> bool
    ensures { result ≡ needs_received asked host.now ip.now }
{
    asked || !is_address(host, ip)
}

fn number_text(alloc: Global, number: u16) -> Result<Text<'static>, AllocError>
    ensures { IfOk result (λ t. t ≡ decimal number) }
{
    let mut out = Vec::with_capacity(alloc, 5)?;
    put_number(&mut out, u64::from(number))?;
    Ok(Text::from_vec(out))
}

/// A law: octets are bytes, and a port has 16 bits.
pub(crate) fn numbers_fit(ip: &[u8], port: u16)
    ensures octets { (i : ℕ) → slice_index ip.now i ≤ 255 }
    ensures port { port ≤ 65535 }
{}

#[tactic(auto, unfolding(crate::specs::Reply::received))]
fn source_param(alloc: Global, source: Addr) -> Result<Param<'static>, AllocError>
    ensures { IfOk result (λ p. p ≡ received source) }
{
    let name = Text::lent(b"received");
    let mut out = Vec::with_capacity(alloc, 15)?;
    put_ip4(&mut out, &source.ip)?;
    Ok(Param {
        name,
        value: Some(Text::from_vec(out)),
    })
}

fn fill_port(
    alloc: Global,
    params: &mut Vec<Param<'static>>,
    asked: bool,
    port: u16,
) -> Result<(), AllocError>
    ensures { OnOk result (params.new.items ≡ filled asked port params.old.items) }
{
    if asked {
        let port = number_text(alloc, port)?;
        put_value(params, b"rport", port)?;
        return Ok(());
    }
    Ok(())
}

fn add_received(
    alloc: Global,
    params: &mut Vec<Param<'static>>,
    needed: bool,
    source: Addr,
) -> Result<(), AllocError>
    ensures { OnOk result (params.new.items ≡ with_received needed source params.old.items) }
{
    if needed {
        let param = source_param(alloc, source)?;
        params.push(param)?;
        return Ok(());
    }
    Ok(())
}

fn marked_params(
    alloc: Global,
    params: &Params<'_>,
    asked: bool,
    needed: bool,
    source: Addr,
) -> Result<Params<'static>, AllocError>
    ensures { IfOk result (λ ps. ps ≡ marked_params asked needed source params.now) }
{
    let mut params = params.keep(alloc)?.into_vec();
    fill_port(alloc, &mut params, asked, source.port)?;
    remove_all(&mut params, b"received");
    add_received(alloc, &mut params, needed, source)?;
    Ok(Params::from_vec(params))
}

/// The Via with the source of its request: an empty `rport` gets the port, and `received` gets the address if the
/// host of sent-by differs or `rport` was empty.
#[tactic(auto, unfolding(crate::specs::Reply::marked))]
pub(crate) fn mark_source(
    alloc: Global,
    via: &Via<'_>,
    source: Addr,
) -> Result<Via<'static>, AllocError>
    ensures { IfOk result (λ v. v ≡ marked source via.now) }
{
    let asked = asks_port(via.params.as_slice());
    let needed = needs_received(asked, &via.host, &source.ip);
    let params = marked_params(alloc, &via.params, asked, needed, source)?;
    Ok(Via {
        sent_by: via.sent_by.keep(alloc)?,
        host: via.host.keep(alloc)?,
        port: via.port,
        params,
    })
}
