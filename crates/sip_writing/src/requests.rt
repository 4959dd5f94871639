//! Requests that the server makes (RFC 3261 sections 7, 8.1.1, 12.2.1.1 and 17.1.1.3).

ghost use Rattle.std.specs.Prelude.{◌≡◌, ◌≤◌, ◌++◌, ◌∷◌, [], ℕ, Some, IfOk, OnOk, IsTrue, codes, decimal, length};
ghost use Rattle.text.specs.Cut.{led_by};
ghost use Rattle.sip_uri.specs.Writing.{ip4_text};
ghost use Rattle.text.specs.Class.{is_run_of, is_token_byte};
ghost use Rattle.sip_uri.specs.NameAddr.{name_addr_text};
ghost use Rattle.sip_message.specs.declared.message.Message.TheVariants as Kinds;
ghost use Rattle.sip_message.specs.Lookup.{named};
ghost use Rattle.sip_writing.specs.Requests.{branch_text, server_via, tag_params, name_with_tag, cseq_text, parts_of, parts_with_names, headers_with, request_of, IsReadVia, IsSound};
ghost use Rattle.sip_writing.specs.WritingMessage.{IsWrittenMessage};

use crate::received::numbers_fit;
use crate::reply::{tag_param, via_headers};
use crate::socket_address::put_socket_address;
use sip_message::{
    CSeq, Ends, Header, Headers, Parts, Party, Request, Sequence, Via, Vias, parts_with,
};
use sip_uri::{Addr, Host, NameAddr, Param, Params, Uri, keep_text, write_name_addr};
use std::alloc::{AllocError, Global};
use text::{Room, Text, both, put_number};

/// How many bytes of a text fit in a room after a number of 32 bits and a space, or after the front of a branch.
const MOST_BEHIND: usize = 40;

/// What a request is made of. The body's length is computed from the body.
#[derive(Clone, Copy)]
pub struct Draft<'m, 'a> {
    pub method: &'m [u8],
    pub uri: &'m Uri<'a>,
    pub via: &'m Via<'a>,
    pub max_forwards: u8,
    pub from: &'m NameAddr<'a>,
    pub to: &'m NameAddr<'a>,
    pub call_id: &'m [u8],
    /// The number of CSeq.
    pub number: u32,
    /// Header fields that come after those that each request has.
    pub further: &'m [Header<'a>],
    pub body: &'m [u8],
}

/// The value of a branch: the front that RFC 3261 section 8.1.1.7 asks for, and the token.
fn branch_text(alloc: Global, token: &[u8]) -> Result<Text<'static>, AllocError>
    ensures { IfOk result (λ text. text ≡ branch_text token.now) }
{
    if token.len() > MOST_BEHIND {
        let mut branch = Vec::with_capacity(alloc, 7 + token.len())?;
        branch.extend_from_slice(b"z9hG4bK")?;
        branch.extend_from_slice(token)?;
        return Ok(Text::from_vec(branch));
    }
    let mut room = Room::new();
    room.put(b"z9hG4bK");
    room.put(token);
    room.text(alloc)
}

fn branch_param(alloc: Global, token: &[u8]) -> Result<Param<'static>, AllocError>
    ensures { IfOk result (λ p. p ≡ record { name = codes "branch"; value = Some (branch_text token.now) }) }
{
    let name = Text::lent(b"branch");
    let branch = branch_text(alloc, token)?;
    Ok(Param {
        name,
        value: Some(branch),
    })
}

/// The server's address in the form of sent-by.
fn sent_by_text(alloc: Global, server: Addr) -> Result<Text<'static>, AllocError>
    ensures { IfOk result (λ text. text ≡ ip4_text server.ip ++ led_by 58 (Some (decimal server.port))) }
{
    let mut room = Room::new();
    put_socket_address(&mut room, server);
    room.text(alloc)
}

#[tactic(auto, unfolding(crate::specs::Requests::server_via))]
fn made_via(alloc: Global, server: Addr, token: &[u8]) -> Result<Via<'static>, AllocError>
    ensures { IfOk result (λ via. via ≡ server_via server token.now) }
{
    let mut params = Vec::new(alloc);
    params.push(branch_param(alloc, token)?)?;
    Ok(Via {
        sent_by: sent_by_text(alloc, server)?,
        host: Host::Ip4(server.ip),
        port: Some(server.port),
        params: Params::from_vec(params),
    })
}

/// A law: an IPv4 address has four octets.
fn four_octets(ip: &[u8; 4])
    ensures { length ip.now ≡ 4 }
{}

/// The Via of a request that the server sends from this address: `SIP/2.0/UDP ADDRESS:PORT;branch=z9hG4bKTOKEN`
/// (RFC 3261 section 8.1.1.7).
pub fn server_via(alloc: Global, server: Addr, token: &[u8]) -> Result<Via<'static>, AllocError>
    ensures via { IfOk result (λ via. via ≡ server_via server token.now) }
    // It can be read, and so a request may have it.
    ensures read { IfOk result (λ via. IsTrue (is_run_of is_token_byte token.now) → 1 ≤ server.port → IsReadVia via) }
{
    numbers_fit(&server.ip, server.port);
    four_octets(&server.ip);
    made_via(alloc, server, token)
}

fn tag_params(alloc: Global, tag: &[u8]) -> Result<Params<'static>, AllocError>
    ensures { IfOk result (λ params. params ≡ tag_params tag.now) }
{
    let mut params = Vec::new(alloc);
    if tag.is_empty() {
        return Ok(Params::from_vec(params));
    }
    params.push(tag_param(alloc, tag)?)?;
    Ok(Params::from_vec(params))
}

/// The name of From or To of a request: display and URI, and only this tag, which is left out if it is empty (RFC
/// 3261 section 12.2.1.1).
pub fn name_with_tag(
    alloc: Global,
    display: &Option<Text<'_>>,
    uri: &Uri<'_>,
    tag: &[u8],
) -> Result<NameAddr<'static>, AllocError>
    ensures name { IfOk result (λ name. name ≡ name_with_tag display.now uri.now tag.now) }
{
    let display = keep_text(alloc, display)?;
    let uri = uri.keep(alloc)?;
    let params = tag_params(alloc, tag)?;
    Ok(NameAddr {
        display,
        uri,
        params,
    })
}

fn party_of(alloc: Global, name: NameAddr<'static>) -> Result<Party<'static>, AllocError>
    ensures name { IfOk result (λ party. party.name ≡ name.entry) }
    ensures text { IfOk result (λ party. party.text ≡ name_addr_text name.entry) }
{
    let text = write_name_addr(alloc, &name)?;
    Ok(Party { text, name })
}

fn ends_of(
    alloc: Global,
    from: NameAddr<'static>,
    to: NameAddr<'static>,
) -> Result<Ends<'static>, AllocError>
    ensures from { IfOk result (λ ends. (ends.from.name ≡ from.entry) × (ends.from.text ≡ name_addr_text from.entry)) }
    ensures to { IfOk result (λ ends. (ends.to.name ≡ to.entry) × (ends.to.text ≡ name_addr_text to.entry)) }
{
    let (from, to) = both(party_of(alloc, from), party_of(alloc, to))?;
    Ok(Ends { from, to })
}

fn cseq_text(alloc: Global, number: u32, method: &[u8]) -> Result<Text<'static>, AllocError>
    ensures { IfOk result (λ text. text ≡ cseq_text number method.now) }
{
    if method.len() > MOST_BEHIND {
        let mut out = Vec::with_capacity(alloc, 11 + method.len())?;
        put_number(&mut out, u64::from(number))?;
        out.push(b' ')?;
        out.extend_from_slice(method)?;
        return Ok(Text::from_vec(out));
    }
    let mut room = Room::new();
    room.put_number(u64::from(number));
    room.put_byte(b' ');
    room.put(method);
    room.text(alloc)
}

fn sequence_of(alloc: Global, number: u32, method: &[u8]) -> Result<Sequence<'static>, AllocError>
    ensures cseq { IfOk result (λ s. s.cseq ≡ record { number = number; method = method.now }) }
    ensures text { IfOk result (λ s. s.text ≡ cseq_text number method.now) }
{
    let text = cseq_text(alloc, number, method)?;
    let method = Text::from_slice(alloc, method)?;
    Ok(Sequence {
        text,
        cseq: CSeq { number, method },
    })
}

fn one_via(alloc: Global, via: Via<'static>) -> Result<Vias<'static>, AllocError>
    ensures { IfOk result (λ vias. vias ≡ via.entry ∷ []) }
{
    let mut vias = Vec::new(alloc);
    vias.push(via)?;
    Ok(Vias::from_vec(vias))
}

/// The parts of a request of the server's own, with these names in From and To.
pub fn parts_with_names(
    alloc: Global,
    via: Via<'static>,
    from: NameAddr<'static>,
    to: NameAddr<'static>,
    call_id: &[u8],
    number: u32,
    method: &[u8],
) -> Result<Parts<'static>, AllocError>
    ensures parts { IfOk result (λ parts. parts ≡ parts_with_names via.entry from.entry to.entry call_id.now number method.now) }
{
    let way = both(one_via(alloc, via), ends_of(alloc, from, to));
    let call_id = Text::from_slice(alloc, call_id);
    let sequence = sequence_of(alloc, number, method);
    let ((vias, ends), (call_id, sequence)) = both(way, both(call_id, sequence))?;
    Ok(parts_with(vias, ends, call_id, sequence))
}

#[tactic(auto, unfolding(crate::specs::Requests::parts_of))]
fn parts_of(alloc: Global, draft: &Draft<'_, '_>) -> Result<Parts<'static>, AllocError>
    ensures { IfOk result (λ parts. parts ≡ parts_of draft.now) }
{
    let ends = both(draft.from.keep(alloc), draft.to.keep(alloc));
    let (via, (from, to)) = both(draft.via.keep(alloc), ends)?;
    parts_with_names(
        alloc,
        via,
        from,
        to,
        draft.call_id,
        draft.number,
        draft.method,
    )
}

fn add_hops(alloc: Global, headers: &mut Headers<'static>, hops: u8) -> Result<(), AllocError>
    ensures { OnOk result (headers.new ≡ headers.old ++ named (codes "Max-Forwards") (decimal hops) ∷ []) }
{
    let mut out = Vec::new(alloc);
    put_number(&mut out, u64::from(hops))?;
    headers.add(alloc, b"Max-Forwards", &out)
}

#[tactic(auto, unfolding(crate::specs::Requests::headers_with))]
fn headers_with(alloc: Global, hops: u8, parts: &Parts<'_>) -> Result<Headers<'static>, AllocError>
    ensures { IfOk result (λ hs. hs ≡ headers_with hops parts.now) }
{
    let mut headers = via_headers(alloc, parts.vias.as_slice())?;
    add_hops(alloc, &mut headers, hops)?;
    headers.add(alloc, b"From", parts.from_text.as_bytes())?;
    headers.add(alloc, b"To", parts.to_text.as_bytes())?;
    headers.add(alloc, b"Call-ID", parts.call_id.as_bytes())?;
    headers.add(alloc, b"CSeq", parts.cseq_text.as_bytes())?;
    Ok(headers)
}

/// Appends these header fields.
fn add_further(
    alloc: Global,
    headers: &mut Headers<'static>,
    further: &[Header<'_>],
) -> Result<(), AllocError>
    ensures { OnOk result (headers.new ≡ headers.old ++ further.now) }
{
    for header in further {
        headers.push(header.keep(alloc)?)?;
    }
    Ok(())
}

fn headers_of(
    alloc: Global,
    hops: u8,
    parts: &Parts<'_>,
    further: &[Header<'_>],
) -> Result<Headers<'static>, AllocError>
    ensures { IfOk result (λ hs. hs ≡ headers_with hops parts.now ++ further.now) }
{
    let mut headers = headers_with(alloc, hops, parts)?;
    add_further(alloc, &mut headers, further)?;
    Ok(headers)
}

#[tactic(auto, unfolding(crate::specs::Requests::request_of))]
fn request_of(alloc: Global, draft: &Draft<'_, '_>) -> Result<Request<'static>, AllocError>
    ensures { IfOk result (λ r. r ≡ request_of draft.now) }
{
    let parts = parts_of(alloc, draft)?;
    let headers = headers_of(alloc, draft.max_forwards, &parts, draft.further);
    let line = both(Text::from_slice(alloc, draft.method), draft.uri.keep(alloc));
    let rest = both(headers, Text::from_slice(alloc, draft.body));
    let ((method, uri), (headers, body)) = both(line, rest)?;
    Ok(Request {
        method,
        uri,
        parts,
        max_forwards: draft.max_forwards,
        headers,
        body,
    })
}

/// A law: hops have eight bits.
fn hops_fit(hops: u8)
    ensures { hops ≤ 255 }
{}

/// The request of a draft: its header fields are Via, Max-Forwards, From, To, Call-ID, CSeq and the further ones, in
/// this order. It borrows nothing.
pub fn build_request(alloc: Global, draft: &Draft<'_, '_>) -> Result<Request<'static>, AllocError>
    ensures request { IfOk result (λ r. r ≡ request_of draft.now) }
    // What is written for the request of a sound draft is read as that request.
    ensures written { IfOk result (λ r. IsSound draft.now → IsWrittenMessage (Kinds.Request r)) }
{
    hops_fit(draft.max_forwards);
    request_of(alloc, draft)
}
