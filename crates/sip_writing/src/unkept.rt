//! Requests of which nothing is kept except their bytes: these are written directly, without making parts for them.

ghost use Rattle.std.specs.Prelude.{◌≡◌, ◌++◌, codes, IfOk, OnOk};
ghost use Rattle.sip_uri.specs.NameAddr.{name_addr_text};
ghost use Rattle.sip_uri.specs.Writing.{params_text};
ghost use Rattle.sip_message.specs.Lookup.{named};
ghost use Rattle.sip_message.specs.declared.message.Message.TheVariants as Kinds;
ghost use Rattle.sip_writing.specs.Requests.{cseq_text, headers_with, tag_params};
ghost use Rattle.sip_writing.specs.Unkept.{end_name, unkept_request, unkept_parts};
ghost use Rattle.sip_writing.specs.Writing.{header_text, headers_text, message_text};

use crate::reply_text::put_via;
use crate::request_text::put_hops;
use crate::room::ROOM;
use crate::write::{put_content, put_headers, put_request_line};
use sip_message::{Header, Via};
use sip_uri::{Uri, put_display_and_uri};
use std::alloc::{AllocError, Global};
use text::{Text, put_number};

/// From or To of a request: display and URI of an end, and only its tag, which is left out if it is empty (RFC 3261
/// section 12.2.1.1).
#[derive(Clone, Copy)]
pub struct EndName<'m, 'a> {
    pub display: &'m Option<Text<'a>>,
    pub uri: &'m Uri<'a>,
    pub tag: &'m [u8],
}

/// What a request that is sent and not kept is made of.
#[derive(Clone, Copy)]
pub struct Unkept<'m, 'a> {
    pub method: &'m [u8],
    pub uri: &'m Uri<'a>,
    pub via: &'m Via<'a>,
    pub max_forwards: u8,
    pub from: EndName<'m, 'a>,
    pub to: EndName<'m, 'a>,
    pub call_id: &'m [u8],
    /// The number of CSeq.
    pub number: u32,
    /// Header fields that come after those that each request has.
    pub further: &'m [Header<'a>],
    pub body: &'m [u8],
}

/// A header field on a line of its own, whose label is its name with the colon and the blank after it.
fn put_line(out: &mut Vec<u8>, label: &[u8], value: &[u8]) -> Result<(), AllocError>
    ensures { OnOk result (out.new.items ≡ out.old.items ++ (label.now ++ (value.now ++ codes "\r\n"))) }
{
    out.extend_from_slice(label)?;
    out.extend_from_slice(value)?;
    out.extend_from_slice(b"\r\n")
}

fn put_tag(out: &mut Vec<u8>, tag: &[u8]) -> Result<(), AllocError>
    ensures { OnOk result (out.new.items ≡ out.old.items ++ params_text 59 59 (tag_params tag.now)) }
{
    if !tag.is_empty() {
        out.extend_from_slice(b";tag=")?;
        out.extend_from_slice(tag)?;
    }
    Ok(())
}

#[tactic(auto, unfolding(sip_uri::specs::NameAddr::name_addr_text))]
fn put_end(out: &mut Vec<u8>, label: &[u8], end: &EndName<'_, '_>) -> Result<(), AllocError>
    ensures { OnOk result (out.new.items ≡ out.old.items ++ (label.now ++ (name_addr_text (end_name end.now) ++ codes "\r\n"))) }
{
    out.extend_from_slice(label)?;
    put_display_and_uri(out, end.display.as_ref(), end.uri)?;
    put_tag(out, end.tag)?;
    out.extend_from_slice(b"\r\n")
}

fn put_cseq(out: &mut Vec<u8>, number: u32, method: &[u8]) -> Result<(), AllocError>
    ensures { OnOk result (out.new.items ≡ out.old.items ++ header_text (named (codes "CSeq") (cseq_text number method.now))) }
{
    out.extend_from_slice(b"CSeq: ")?;
    put_number(out, u64::from(number))?;
    out.push(b' ')?;
    out.extend_from_slice(method)?;
    out.extend_from_slice(b"\r\n")
}

#[tactic(auto, unfolding(crate::specs::Requests::headers_with))]
fn put_required(out: &mut Vec<u8>, request: &Unkept<'_, '_>) -> Result<(), AllocError>
    ensures { OnOk result (out.new.items ≡ out.old.items ++ headers_text (headers_with request.now.max_forwards (unkept_parts request.now))) }
{
    put_via(out, request.via)?;
    put_hops(out, request.max_forwards)?;
    put_end(out, b"From: ", &request.from)?;
    put_end(out, b"To: ", &request.to)?;
    put_line(out, b"Call-ID: ", request.call_id)?;
    put_cseq(out, request.number, request.method)?;
    Ok(())
}

#[tactic(auto, unfolding(crate::specs::Writing::message_text, crate::specs::Unkept::unkept_request))]
fn put_request(out: &mut Vec<u8>, request: &Unkept<'_, '_>) -> Result<(), AllocError>
    ensures { OnOk result (out.new.items ≡ out.old.items ++ message_text (Kinds.Request (unkept_request request.now))) }
{
    put_request_line(out, request.method, request.uri)?;
    put_required(out, request)?;
    put_headers(out, request.further)?;
    put_content(out, request.body)
}

/// The bytes of a request of which nothing else is kept.
pub fn write_unkept(alloc: Global, request: &Unkept<'_, '_>) -> Result<Text<'static>, AllocError>
    ensures text { IfOk result (λ t. t ≡ message_text (Kinds.Request (unkept_request request.now))) }
{
    let mut out = Vec::with_capacity(alloc, ROOM)?;
    put_request(&mut out, request)?;
    Ok(Text::from_vec(out))
}
