//! What can be answered for a request that can't be read.

ghost use Rattle.std.specs.Prelude.{◌≡◌, codes, option_map, IfOk};
ghost use Rattle.std.specs.Option.{option_copied};
ghost use Rattle.sip_message.specs.Repeatable.{IfRepeatable};
ghost use Rattle.sip_message.specs.AnswerableParts.{is_part_there, are_two_parts, asks_answer, is_asking_line, vias_there, party_at, first_party, first_call_id, sequence_at, first_sequence, first_ends, parts_among, parts_behind, answerable_of};
ghost use Rattle.header_fields.specs.Fields.{readable_headers};
ghost use Rattle.header_fields.specs.Lines.{ended_lines};
ghost use Rattle.sip_message.specs.Via.{via_texts};

use crate::call_id::is_call_id;
use crate::cseq::{Sequence, read_cseq};
use crate::message::{Parts, parts_with};
use crate::party::{Ends, Party, read_party};
use crate::start::{begins_sip, is_part};
use crate::via::{Via, Vias, read_each};
use header_fields::{FieldValue, Header, ended_lines, first_line, first_value, readable_headers};
use std::alloc::{AllocError, Global};
use text::{Text, cut};

fn are_two_parts(text: Option<&[u8]>) -> bool
    ensures { result ≡ are_two_parts (option_copied text.entry) }
{
    let Some(text) = text else {
        return false;
    };
    let (uri, version) = cut(text, b' ');
    is_part(uri) && version.is_some_and(|version| is_part(version))
}

fn asks_answer(method: &[u8]) -> bool
    ensures { result ≡ asks_answer method.now }
{
    is_part(method) && !begins_sip(method) && method != b"ACK".as_slice()
}

fn is_asking_line(line: &[u8]) -> bool
    ensures { result ≡ is_asking_line line.now }
{
    let (method, behind) = cut(line, b' ');
    asks_answer(method) && are_two_parts(behind)
}

fn party_at<'a>(alloc: Global, value: &FieldValue<'a>) -> Result<Option<Party<'a>>, AllocError>
    ensures { IfOk result (λ party. party ≡ party_at value.now) }
{
    let text = value.text(alloc)?;
    match read_party(alloc, &text)? {
        Some(name) => Ok(Some(Party { text, name })),
        None => Ok(None),
    }
}

fn first_party<'a>(
    alloc: Global,
    headers: &[Header<'a>],
    name: &[u8],
) -> Result<Option<Party<'a>>, AllocError>
    ensures { IfOk result (λ party. party ≡ first_party name.now headers.now) }
{
    match first_value(headers, name) {
        Some(text) => party_at(alloc, text),
        None => Ok(None),
    }
}

fn first_call_id<'a>(alloc: Global, headers: &[Header<'a>]) -> Result<Option<Text<'a>>, AllocError>
    ensures { IfOk result (λ id. id ≡ first_call_id headers.now) }
{
    let Some(value) = first_value(headers, b"Call-ID") else {
        return Ok(None);
    };
    let text = value.text(alloc)?;
    if !is_call_id(text.as_bytes()) {
        return Ok(None);
    }
    Ok(Some(text))
}

fn sequence_at<'a>(
    alloc: Global,
    value: &FieldValue<'a>,
) -> Result<Option<Sequence<'a>>, AllocError>
    ensures { IfOk result (λ cseq. cseq ≡ sequence_at value.now) }
{
    let text = value.text(alloc)?;
    match read_cseq(alloc, &text)? {
        Some(cseq) => Ok(Some(Sequence { text, cseq })),
        None => Ok(None),
    }
}

fn first_sequence<'a>(
    alloc: Global,
    headers: &[Header<'a>],
) -> Result<Option<Sequence<'a>>, AllocError>
    ensures { IfOk result (λ cseq. cseq ≡ first_sequence headers.now) }
{
    match first_value(headers, b"CSeq") {
        Some(text) => sequence_at(alloc, text),
        None => Ok(None),
    }
}

fn first_ends<'a>(alloc: Global, headers: &[Header<'a>]) -> Result<Option<Ends<'a>>, AllocError>
    ensures { IfOk result (λ ends. ends ≡ first_ends headers.now) }
{
    let Some(from) = first_party(alloc, headers, b"From")? else {
        return Ok(None);
    };
    match first_party(alloc, headers, b"To")? {
        Some(to) => Ok(Some(Ends { from, to })),
        None => Ok(None),
    }
}

/// The Via values, the top one first, if there is one and each can be read.
#[tactic(auto, using(crate::proofs::ViaLaws::none_among, crate::proofs::ViaLaws::all_among))]
fn vias_there<'a>(alloc: Global, headers: &[Header<'a>]) -> Result<Option<Vec<Via<'a>>>, AllocError>
    ensures { IfOk result (λ o. option_map (λ v. v.items) o ≡ vias_there (via_texts headers.now)) }
{
    let Some(vias) = read_each(alloc, headers)? else {
        return Ok(None);
    };
    if vias.is_empty() {
        return Ok(None);
    }
    Ok(Some(vias))
}

#[tactic(auto, unfolding(crate::specs::AnswerableParts::parts_among))]
fn parts_among<'a>(alloc: Global, headers: &[Header<'a>]) -> Result<Option<Parts<'a>>, AllocError>
    ensures { IfOk result (λ parts. parts ≡ parts_among headers.now) }
{
    let Some(vias) = vias_there(alloc, headers)? else {
        return Ok(None);
    };
    let Some(ends) = first_ends(alloc, headers)? else {
        return Ok(None);
    };
    let Some(call_id) = first_call_id(alloc, headers)? else {
        return Ok(None);
    };
    match first_sequence(alloc, headers)? {
        Some(cseq) => Ok(Some(parts_with(Vias::from_vec(vias), ends, call_id, cseq))),
        None => Ok(None),
    }
}

fn parts_behind(alloc: Global, rest: &[u8]) -> Result<Option<Parts<'_>>, AllocError>
    ensures { IfOk result (λ parts. parts ≡ parts_among (readable_headers (ended_lines rest.now))) }
{
    let lines = ended_lines(alloc, rest)?;
    let headers = readable_headers(alloc, &lines)?;
    parts_among(alloc, &headers)
}

/// What a response to a datagram that can't be read repeats of it. There is something if the first line has three
/// parts, is not a response's and its method is not ACK. Via, From, To, Call-ID and CSeq also have to be there, and
/// each has to be readable by itself. They are taken from header lines that end and are well formed, the first of
/// each name; From needs no tag, and CSeq not the request's method. There is nothing if the first line begins with
/// `SIP/`, ignoring case.
#[tactic(auto, unfolding(crate::specs::AnswerableParts::answerable_of))]
pub fn answerable(alloc: Global, bytes: &[u8]) -> Result<Option<Parts<'_>>, AllocError>
    ensures parts { IfOk result (λ parts. parts ≡ answerable_of bytes.now) }
    ensures repeatable { IfOk result (λ parts. IfRepeatable parts) }
{
    let (line, rest) = first_line(bytes);
    if !is_asking_line(line) {
        return Ok(None);
    }
    match rest {
        Some(rest) => parts_behind(alloc, rest),
        None => Ok(None),
    }
}
