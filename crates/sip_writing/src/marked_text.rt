//! The top Via of a response, written without making a Via for it.

ghost use Rattle.std.specs.Prelude.{◌≡◌, ◌++◌, codes, OnOk};
ghost use Rattle.sip_message.specs.Lookup.{named};
ghost use Rattle.sip_writing.specs.MarkedText.{filled_text, kept_text, marked_param_text, marked_params_text, received_text};
ghost use Rattle.sip_writing.specs.Reply.{marked, via_text};
ghost use Rattle.sip_writing.specs.Writing.{header_text};

use crate::received::{asks_port, is_param, needs_received};
use sip_message::Via;
use sip_uri::{Addr, Param, put_ip4, put_param};
use std::alloc::AllocError;
use text::put_number;

fn put_filled(out: &mut Vec<u8>, param: &Param<'_>, port: u16) -> Result<(), AllocError>
    ensures { OnOk result (out.new.items ≡ out.old.items ++ filled_text port param.now) }
{
    out.push(b';')?;
    out.extend_from_slice(param.name.as_bytes())?;
    out.push(b'=')?;
    put_number(out, u64::from(port))?;
    Ok(())
}

fn put_kept(out: &mut Vec<u8>, param: &Param<'_>) -> Result<(), AllocError>
    ensures { OnOk result (out.new.items ≡ out.old.items ++ kept_text param.now) }
{
    if is_param(param, b"received") {
        return Ok(());
    }
    out.push(b';')?;
    put_param(out, param)?;
    Ok(())
}

fn put_marked_param(
    out: &mut Vec<u8>,
    param: &Param<'_>,
    fills: bool,
    port: u16,
) -> Result<(), AllocError>
    ensures { OnOk result (out.new.items ≡ out.old.items ++ marked_param_text fills port param.now) }
{
    if fills {
        put_filled(out, param, port)
    } else {
        put_kept(out, param)
    }
}

fn put_marked_params(
    out: &mut Vec<u8>,
    params: &[Param<'_>],
    asked: bool,
    port: u16,
) -> Result<(), AllocError>
    ensures { OnOk result (out.new.items ≡ out.old.items ++ marked_params_text asked port params.now) }
{
    let mut empty = asked;
    for param in params {
        let fills = empty && is_param(param, b"rport");
        put_marked_param(out, param, fills, port)?;
        empty = empty && !fills;
    }
    Ok(())
}

fn put_received(out: &mut Vec<u8>, needed: bool, source: Addr) -> Result<(), AllocError>
    ensures { OnOk result (out.new.items ≡ out.old.items ++ received_text needed source) }
{
    if needed {
        out.extend_from_slice(b";received=")?;
        put_ip4(out, &source.ip)?;
    }
    Ok(())
}

/// Writes the Via with the source of its request, on a line of its own: the bytes of the one that `marked` makes.
pub(crate) fn put_marked_via(
    out: &mut Vec<u8>,
    via: &Via<'_>,
    source: Addr,
) -> Result<(), AllocError>
    ensures { OnOk result (out.new.items ≡ out.old.items ++ header_text (named (codes "Via") (via_text (marked source via.now)))) }
{
    let params = via.params.as_slice();
    let asked = asks_port(params);
    let needed = needs_received(asked, &via.host, &source.ip);
    out.extend_from_slice(b"Via: SIP/2.0/UDP ")?;
    out.extend_from_slice(via.sent_by.as_bytes())?;
    put_marked_params(out, params, asked, source.port)?;
    put_received(out, needed, source)?;
    out.extend_from_slice(b"\r\n")?;
    Ok(())
}
