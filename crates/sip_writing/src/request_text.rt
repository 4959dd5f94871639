//! Requests that are written directly: the same bytes, without making a request for them.

ghost use Rattle.std.specs.Prelude.{◌≡◌, ◌++◌, codes, decimal, IfOk, OnOk};
ghost use Rattle.sip_message.specs.Lookup.{named};
ghost use Rattle.sip_message.specs.declared.message.Message.TheVariants as Kinds;
ghost use Rattle.sip_writing.specs.Outlines.{outlined};
ghost use Rattle.sip_writing.specs.Requests.{headers_with};
ghost use Rattle.sip_writing.specs.Writing.{header_text, headers_text, message_text};

use crate::reply_text::{put_call, put_vias};
use crate::room::ROOM;
use crate::write::{put_content, put_headers, put_request_line};
use sip_message::{Header, Parts};
use sip_uri::Uri;
use std::alloc::{AllocError, Global};
use text::{Text, put_number};

/// What a request is made of if its parts are at hand.
#[derive(Clone, Copy)]
pub struct Outline<'m, 'a> {
    pub method: &'m [u8],
    pub uri: &'m Uri<'a>,
    pub parts: &'m Parts<'a>,
    pub max_forwards: u8,
    /// Header fields that come after those that each request has.
    pub further: &'m [Header<'a>],
    pub body: &'m [u8],
}

/// Max-Forwards on a line of its own.
pub(crate) fn put_hops(out: &mut Vec<u8>, hops: u8) -> Result<(), AllocError>
    ensures { OnOk result (out.new.items ≡ out.old.items ++ header_text (named (codes "Max-Forwards") (decimal hops))) }
{
    out.extend_from_slice(b"Max-Forwards: ")?;
    put_number(out, u64::from(hops))?;
    out.extend_from_slice(b"\r\n")?;
    Ok(())
}

#[tactic(auto, unfolding(crate::specs::Requests::headers_with))]
fn put_required(out: &mut Vec<u8>, parts: &Parts<'_>, hops: u8) -> Result<(), AllocError>
    ensures { OnOk result (out.new.items ≡ out.old.items ++ headers_text (headers_with hops parts.now)) }
{
    put_vias(out, parts.vias.as_slice())?;
    put_hops(out, hops)?;
    out.extend_from_slice(b"From: ")?;
    out.extend_from_slice(parts.from_text.as_bytes())?;
    out.extend_from_slice(b"\r\nTo: ")?;
    out.extend_from_slice(parts.to_text.as_bytes())?;
    put_call(out, parts)?;
    Ok(())
}

#[tactic(auto, unfolding(crate::specs::Writing::message_text, crate::specs::Outlines::outlined))]
fn put_outline(out: &mut Vec<u8>, outline: &Outline<'_, '_>) -> Result<(), AllocError>
    ensures { OnOk result (out.new.items ≡ out.old.items ++ message_text (Kinds.Request (outlined outline.now))) }
{
    put_request_line(out, outline.method, outline.uri)?;
    put_required(out, outline.parts, outline.max_forwards)?;
    put_headers(out, outline.further)?;
    put_content(out, outline.body)
}

/// The bytes of the request with these parts.
pub fn write_outline(alloc: Global, outline: &Outline<'_, '_>) -> Result<Text<'static>, AllocError>
    ensures text { IfOk result (λ t. t ≡ message_text (Kinds.Request (outlined outline.now))) }
{
    let mut out = Vec::with_capacity(alloc, ROOM)?;
    put_outline(&mut out, outline)?;
    Ok(Text::from_vec(out))
}
