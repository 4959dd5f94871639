//! Responses to requests (RFC 3261 section 8.2.6).

ghost use Rattle.std.specs.Prelude.{◌≡◌, ◌≤◌, ◌++◌, ◌∷◌, [], map, codes, unwrap_or, IsTrue, IfOk, OnOk};
ghost use Rattle.std.specs.List.{flat_map};
ghost use Rattle.text.specs.Class.{is_run_of, is_token_byte};
ghost use Rattle.sip_uri.specs.Writing.{param_text};
ghost use Rattle.sip_message.specs.Lookup.{named};
ghost use Rattle.sip_message.specs.Repeatable.{CanBeRepeated};
ghost use Rattle.sip_writing.specs.Further.{IsReadAgain};
ghost use Rattle.sip_writing.specs.Replies.{Replies};
ghost use Rattle.sip_writing.specs.Reply.{marked_top, puts_tag, tagged_params, tagged_to, tagged_text, replied, via_text, reply_headers, reply_of, tag_param, via_headers, response_port, response_address};

use crate::reasons::reason_of;
use crate::received::{asks_port, mark_source, numbers_fit};
use sip_message::{
    Ends, FieldValue, Header, Headers, Parts, Party, Response, Via, Vias, has_tag, parts_with,
};
use sip_uri::{Addr, NameAddr, Param, Params, keep_text, port_or_default, put_params};
use std::alloc::{AllocError, Global};
use text::{Text, both};

fn via_header(alloc: Global, via: &Via<'_>) -> Result<Header<'static>, AllocError>
    ensures { IfOk result (λ h. h ≡ named (codes "Via") (via_text via.now)) }
{
    let name = Text::lent(b"Via");
    let mut out = Vec::from_slice(alloc, b"SIP/2.0/UDP ")?;
    out.extend_from_slice(via.sent_by.as_bytes())?;
    put_params(&mut out, via.params.as_slice(), b';', b';')?;
    Ok(Header {
        name,
        value: FieldValue::whole(Text::from_vec(out)),
    })
}

/// A Via header field for each of these, in order (RFC 3261 section 20.42).
pub fn via_headers(alloc: Global, vias: &[Via<'_>]) -> Result<Headers<'static>, AllocError>
    ensures { IfOk result (λ hs. hs ≡ via_headers vias.now) }
{
    let mut headers = Vec::new(alloc);
    for via in vias {
        headers.push(via_header(alloc, via)?)?;
    }
    Ok(Headers::from_vec(headers))
}

/// The header fields of a response, except for those that one response needs and another doesn't.
#[tactic(auto, unfolding(crate::specs::Reply::reply_headers))]
fn reply_headers(alloc: Global, parts: &Parts<'_>) -> Result<Headers<'static>, AllocError>
    ensures { IfOk result (λ hs. hs ≡ reply_headers parts.now) }
{
    let mut headers = via_headers(alloc, parts.vias.as_slice())?;
    headers.add(alloc, b"From", parts.from_text.as_bytes())?;
    headers.add(alloc, b"To", parts.to_text.as_bytes())?;
    headers.add(alloc, b"Call-ID", parts.call_id.as_bytes())?;
    headers.add(alloc, b"CSeq", parts.cseq_text.as_bytes())?;
    Ok(headers)
}

#[tactic(auto, using(crate::proofs::ReplyLaws::top_marked))]
fn mark_top(alloc: Global, vias: &mut Vec<Via<'static>>, source: Addr) -> Result<(), AllocError>
    ensures { OnOk result (vias.new.items ≡ marked_top source vias.old.items) }
{
    if vias.is_empty() {
        return Ok(());
    }
    let top = mark_source(alloc, &vias[0], source)?;
    vias[0] = top;
    Ok(())
}

fn marked_top(alloc: Global, vias: &Vias<'_>, source: Addr) -> Result<Vias<'static>, AllocError>
    ensures { IfOk result (λ vs. vs ≡ marked_top source vias.now) }
{
    let mut vias = vias.keep(alloc)?.into_vec();
    mark_top(alloc, &mut vias, source)?;
    Ok(Vias::from_vec(vias))
}

pub(crate) fn puts_tag(status: u16, to: &NameAddr) -> bool
    ensures { result ≡ puts_tag status to.now }
{
    !has_tag(to.params.as_slice()) && status != 100
}

/// The parameter `tag` with this value (RFC 3261 section 19.3).
pub fn tag_param(alloc: Global, tag: &[u8]) -> Result<Param<'static>, AllocError>
    ensures { IfOk result (λ p. p ≡ tag_param tag.now) }
{
    let name = Text::lent(b"tag");
    let value = Text::from_slice(alloc, tag)?;
    Ok(Param {
        name,
        value: Some(value),
    })
}

fn tagged_params(
    alloc: Global,
    params: &Params<'_>,
    puts: bool,
    tag: &[u8],
) -> Result<Params<'static>, AllocError>
    ensures { IfOk result (λ ps. ps ≡ tagged_params puts params.now tag.now) }
{
    if !puts {
        return params.keep(alloc);
    }
    let mut params = params.keep(alloc)?.into_vec();
    let param = tag_param(alloc, tag)?;
    params.push(param)?;
    Ok(Params::from_vec(params))
}

fn tagged_to(
    alloc: Global,
    status: u16,
    to: &NameAddr<'_>,
    tag: &[u8],
) -> Result<NameAddr<'static>, AllocError>
    ensures { IfOk result (λ t. t ≡ tagged_to status to.now tag.now) }
{
    let params = tagged_params(alloc, &to.params, puts_tag(status, to), tag)?;
    let display = keep_text(alloc, &to.display)?;
    let uri = to.uri.keep(alloc)?;
    Ok(NameAddr {
        display,
        uri,
        params,
    })
}

fn tagged_text(
    alloc: Global,
    status: u16,
    to: &NameAddr<'_>,
    text: &Text<'_>,
    tag: &[u8],
) -> Result<Text<'static>, AllocError>
    ensures { IfOk result (λ t. t ≡ tagged_text status to.now text.now tag.now) }
{
    if !puts_tag(status, to) {
        return text.keep(alloc);
    }
    let mut bytes = Vec::from_slice(alloc, text.as_bytes())?;
    bytes.extend_from_slice(b";tag=")?;
    bytes.extend_from_slice(tag)?;
    Ok(Text::from_vec(bytes))
}

fn replied_to(
    alloc: Global,
    parts: &Parts<'_>,
    status: u16,
    tag: &[u8],
) -> Result<Party<'static>, AllocError>
    ensures name { IfOk result (λ to. to.name ≡ tagged_to status parts.now.to tag.now) }
    ensures text { IfOk result (λ to. to.text ≡ tagged_text status parts.now.to parts.now.to_text tag.now) }
{
    Ok(Party {
        text: tagged_text(alloc, status, &parts.to, &parts.to_text, tag)?,
        name: tagged_to(alloc, status, &parts.to, tag)?,
    })
}

fn replied_ends(
    alloc: Global,
    parts: &Parts<'_>,
    status: u16,
    tag: &[u8],
) -> Result<Ends<'static>, AllocError>
    ensures from { IfOk result (λ ends. (ends.from.name ≡ parts.now.from) × (ends.from.text ≡ parts.now.from_text)) }
    ensures name { IfOk result (λ ends. ends.to.name ≡ tagged_to status parts.now.to tag.now) }
    ensures text { IfOk result (λ ends. ends.to.text ≡ tagged_text status parts.now.to parts.now.to_text tag.now) }
{
    Ok(Ends {
        from: parts.keep_from(alloc)?,
        to: replied_to(alloc, parts, status, tag)?,
    })
}

#[tactic(auto, unfolding(crate::specs::Reply::replied))]
fn reply_parts(
    alloc: Global,
    parts: &Parts<'_>,
    source: Addr,
    status: u16,
    tag: &[u8],
) -> Result<Parts<'static>, AllocError>
    ensures { IfOk result (λ p. p ≡ replied parts.now source status tag.now) }
{
    let ends = replied_ends(alloc, parts, status, tag);
    let way = both(marked_top(alloc, &parts.vias, source), ends);
    let request = both(parts.call_id.keep(alloc), parts.keep_sequence(alloc));
    let ((vias, ends), (call_id, cseq)) = both(way, request)?;
    Ok(parts_with(vias, ends, call_id, cseq))
}

#[tactic(auto, unfolding(crate::specs::Reply::reply_of))]
fn reply(
    alloc: Global,
    parts: &Parts<'_>,
    source: Addr,
    status: u16,
    tag: &[u8],
) -> Result<Response<'static>, AllocError>
    ensures { IfOk result (λ r. r ≡ reply_of parts.now source status tag.now) }
{
    let parts = reply_parts(alloc, parts, source, status, tag)?;
    let reason = Text::from_slice(alloc, reason_of(status));
    let (headers, reason) = both(reply_headers(alloc, &parts), reason)?;
    Ok(Response {
        status,
        reason,
        parts,
        headers,
        body: Text::from_vec(Vec::new(alloc)),
    })
}

/// The response to a request that came from `source`, without a body: each Via, From, To, Call-ID and CSeq as
/// received. The top Via gets the source, and To gets the tag if it has none and the status is not 100.
pub fn reply_to(
    alloc: Global,
    parts: &Parts<'_>,
    source: Addr,
    status: u16,
    tag: &[u8],
) -> Result<Response<'static>, AllocError>
    ensures answer { IfOk result (λ r. r ≡ reply_of parts.now source status tag.now) }
    // It is a response to the request, by branch, Call-ID, tags, number and method.
    ensures replies { IfOk result (λ r. Replies r.parts parts.now status tag.now) }
    // What is written for it is read back as it, if the parts were read, the tag is a token and the status is that of
    // a response.
    ensures again { IfOk result (λ r. CanBeRepeated parts.now → IsTrue (is_run_of is_token_byte tag.now) → 100 ≤ status → status ≤ 699 → IsReadAgain r) }
{
    numbers_fit(&source.ip, source.port);
    reply(alloc, parts, source, status, tag)
}

fn response_port(via: &Via, source: Addr) -> u16
    ensures { result ≡ response_port via.now source }
{
    if asks_port(via.params.as_slice()) {
        source.port
    } else {
        port_or_default(via.port)
    }
}

/// Where a response goes: to the source address. The port there is the source port if the top `rport` was empty, or
/// otherwise the port of sent-by, or otherwise 5060 (RFC 3261 section 18.2.2, RFC 3581 section 4). Takes no memory.
pub fn reply_address(parts: &Parts, source: Addr) -> Addr
    ensures address { result ≡ response_address parts.now.vias source }
{
    let ip = source.ip;
    let port = match parts.vias.as_slice() {
        [] => port_or_default(None),
        [via, ..] => response_port(via, source),
    };
    Addr { ip, port }
}
