//! Responses that are written directly: the same bytes, without making a response for them.

ghost use Rattle.std.specs.Prelude.{◌≡◌, ◌++◌, ◌∷◌, [], codes, decimal, IfOk, OnOk};
ghost use Rattle.sip_message.specs.Lookup.{named};
ghost use Rattle.sip_message.specs.declared.message.Message.TheVariants as Kinds;
ghost use Rattle.sip_writing.specs.Further.{with_further};
ghost use Rattle.sip_writing.specs.Reasons.{reason_of};
ghost use Rattle.sip_writing.specs.Reply.{marked_top, replied, reply_headers, reply_of, tagged_text, via_headers, via_text};
ghost use Rattle.sip_writing.specs.Writing.{header_text, headers_text, length_text, message_text};

use crate::marked_text::put_marked_via;
use crate::reasons::reason_of;
use crate::reply::puts_tag;
use crate::room::ROOM;
use crate::write::{put_content, put_headers};
use sip_message::{Header, Parts, Via};
use sip_uri::{Addr, put_params};
use std::alloc::{AllocError, Global};
use text::{Text, put_number};

/// What a response is made of: the request's parts and where it came from, the status, the tag that To gets if it has
/// none, and what comes after the fields that each response has.
#[derive(Clone, Copy)]
pub struct Reply<'m, 'a> {
    pub parts: &'m Parts<'a>,
    pub source: Addr,
    pub status: u16,
    pub tag: &'m [u8],
    pub further: &'m [Header<'a>],
    pub body: &'m [u8],
}

fn put_status(out: &mut Vec<u8>, status: u16) -> Result<(), AllocError>
    ensures { OnOk result (out.new.items ≡ out.old.items ++ codes "SIP/2.0 " ++ decimal status ++ 32 ∷ [] ++ reason_of status ++ codes "\r\n") }
{
    out.extend_from_slice(b"SIP/2.0 ")?;
    put_number(out, u64::from(status))?;
    out.push(b' ')?;
    out.extend_from_slice(reason_of(status))?;
    out.extend_from_slice(b"\r\n")
}

/// A Via on a line of its own.
pub(crate) fn put_via(out: &mut Vec<u8>, via: &Via<'_>) -> Result<(), AllocError>
    ensures { OnOk result (out.new.items ≡ out.old.items ++ header_text (named (codes "Via") (via_text via.now))) }
{
    out.extend_from_slice(b"Via: SIP/2.0/UDP ")?;
    out.extend_from_slice(via.sent_by.as_bytes())?;
    put_params(out, via.params.as_slice(), b';', b';')?;
    out.extend_from_slice(b"\r\n")?;
    Ok(())
}

/// Each Via on a line of its own.
pub(crate) fn put_vias(out: &mut Vec<u8>, vias: &[Via<'_>]) -> Result<(), AllocError>
    ensures { OnOk result (out.new.items ≡ out.old.items ++ headers_text (via_headers vias.now)) }
{
    for via in vias {
        put_via(out, via)?;
    }
    Ok(())
}

// The request's Vias, of which the top one is marked.
fn put_marked(out: &mut Vec<u8>, vias: &[Via<'_>], source: Addr) -> Result<(), AllocError>
    ensures { OnOk result (out.new.items ≡ out.old.items ++ headers_text (via_headers (marked_top source vias.now))) }
{
    let [top, below @ ..] = vias else {
        return Ok(());
    };
    put_marked_via(out, top, source)?;
    put_vias(out, below)
}

// The value of To.
fn put_to(out: &mut Vec<u8>, parts: &Parts<'_>, status: u16, tag: &[u8]) -> Result<(), AllocError>
    ensures { OnOk result (out.new.items ≡ out.old.items ++ tagged_text status parts.now.to parts.now.to_text tag.now) }
{
    out.extend_from_slice(parts.to_text.as_bytes())?;
    if puts_tag(status, &parts.to) {
        out.extend_from_slice(b";tag=")?;
        out.extend_from_slice(tag)?;
    }
    Ok(())
}

/// Writes what comes after the value of To: the end of its line, then Call-ID and CSeq, each on a line of its own.
pub(crate) fn put_call(out: &mut Vec<u8>, parts: &Parts<'_>) -> Result<(), AllocError>
    ensures { OnOk result (out.new.items ≡ out.old.items
        ++ (codes "\r\nCall-ID: " ++ (parts.now.call_id ++ (codes "\r\nCSeq: " ++ (parts.now.cseq_text ++ codes "\r\n"))))) }
{
    out.extend_from_slice(b"\r\nCall-ID: ")?;
    out.extend_from_slice(parts.call_id.as_bytes())?;
    out.extend_from_slice(b"\r\nCSeq: ")?;
    out.extend_from_slice(parts.cseq_text.as_bytes())?;
    out.extend_from_slice(b"\r\n")?;
    Ok(())
}

// Each piece has its cost, so the end of a line is written together with the name on the next.
fn put_repeated(out: &mut Vec<u8>, reply: &Reply<'_, '_>) -> Result<(), AllocError>
    ensures { OnOk result (out.new.items ≡ out.old.items
        ++ headers_text (reply_headers (replied reply.now.parts.now reply.now.source reply.now.status reply.now.tag.now))) }
{
    let parts = reply.parts;
    put_marked(out, parts.vias.as_slice(), reply.source)?;
    out.extend_from_slice(b"From: ")?;
    out.extend_from_slice(parts.from_text.as_bytes())?;
    out.extend_from_slice(b"\r\nTo: ")?;
    put_to(out, parts, reply.status, reply.tag)?;
    put_call(out, parts)?;
    Ok(())
}

#[tactic(auto, unfolding(crate::specs::Writing::message_text, crate::specs::Reply::reply_of))]
fn put_reply(out: &mut Vec<u8>, reply: &Reply<'_, '_>) -> Result<(), AllocError>
    ensures { OnOk result (out.new.items ≡ out.old.items ++ message_text (Kinds.Response
        (with_further (reply_of reply.now.parts.now reply.now.source reply.now.status reply.now.tag.now) reply.now.further.now reply.now.body.now))) }
{
    put_status(out, reply.status)?;
    put_repeated(out, reply)?;
    put_headers(out, reply.further)?;
    put_content(out, reply.body)
}

/// The bytes of the response that `reply_to` makes, with these further header fields after its own, and this body.
pub fn write_reply(alloc: Global, reply: &Reply<'_, '_>) -> Result<Text<'static>, AllocError>
    ensures text { IfOk result (λ t. t ≡ message_text (Kinds.Response
        (with_further (reply_of reply.now.parts.now reply.now.source reply.now.status reply.now.tag.now) reply.now.further.now reply.now.body.now))) }
{
    let mut out = Vec::with_capacity(alloc, ROOM)?;
    put_reply(&mut out, reply)?;
    Ok(Text::from_vec(out))
}
