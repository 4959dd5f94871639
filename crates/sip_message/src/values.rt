//! What the header fields of a message say.

ghost use Rattle.sip_message.specs.Faults.{Gives};
ghost use Rattle.sip_message.specs.Lookup.{IsFound};
ghost use Rattle.sip_message.specs.declared.contact.ContactNeed.TheVariants.{AtMostOne};
ghost use Rattle.sip_message.specs.Values.{from_for, to_of, call_id_of, cseq_for, one_address, contacts_for, contact_for, hops_of, type_of, parts_of, hops_behind};

use crate::call_id::is_call_id;
use crate::contact::{ContactNeed, ContactValue, contact_need, contact_values};
use crate::cseq::{Sequence, is_method_for, read_cseq};
use crate::error::MessageError;
use crate::header_names::HeaderName;
use crate::lookup::Found;
use crate::max_forwards::{MAX_FORWARDS, read_max_forwards};
use crate::media_type::is_media_type;
use crate::message::Parts;
use crate::party::{Party, is_tagged_for, read_party};
use crate::start::Start;
use crate::via::read_vias;
use header_fields::Header;
use std::alloc::Global;
use text::Text;

/// The values of a message's header fields, except its body's length.
#[derive(Drop)]
pub(crate) struct Values<'a> {
    pub parts: Parts<'a>,
    pub max_forwards: u8,
}

#[tactic(auto, using(crate::proofs::FaultLaws::fails_itself))]
fn read_from<'a>(
    alloc: Global,
    start: &Start<'_>,
    found: &Found<'_, 'a>,
) -> Result<Party<'a>, MessageError>
    requires { IsFound found.now }
    ensures { Gives result (from_for start.now found.now.headers.now) }
{
    let text = found.from()?.text(alloc)?;
    let Some(name) = read_party(alloc, &text)? else {
        return Err(MessageError::Unreadable(HeaderName::From));
    };
    if !is_tagged_for(start, name.params.as_slice()) {
        return Err(MessageError::Unreadable(HeaderName::From));
    }
    Ok(Party { text, name })
}

#[tactic(auto, using(crate::proofs::FaultLaws::fails_itself))]
fn read_to<'a>(alloc: Global, found: &Found<'_, 'a>) -> Result<Party<'a>, MessageError>
    requires { IsFound found.now }
    ensures { Gives result (to_of found.now.headers.now) }
{
    let text = found.to()?.text(alloc)?;
    let Some(name) = read_party(alloc, &text)? else {
        return Err(MessageError::Unreadable(HeaderName::To));
    };
    Ok(Party { text, name })
}

#[tactic(auto, using(crate::proofs::FaultLaws::fails_itself))]
fn read_call_id<'a>(alloc: Global, found: &Found<'_, 'a>) -> Result<Text<'a>, MessageError>
    requires { IsFound found.now }
    ensures { Gives result (call_id_of found.now.headers.now) }
{
    let text = found.call_id()?.text(alloc)?;
    if !is_call_id(text.as_bytes()) {
        return Err(MessageError::Unreadable(HeaderName::CallId));
    }
    Ok(text)
}

#[tactic(auto, using(crate::proofs::FaultLaws::fails_itself))]
fn read_cseq_for<'a>(
    alloc: Global,
    start: &Start<'_>,
    found: &Found<'_, 'a>,
) -> Result<Sequence<'a>, MessageError>
    requires { IsFound found.now }
    ensures { Gives result (cseq_for start.now found.now.headers.now) }
{
    let text = found.cseq()?.text(alloc)?;
    let Some(cseq) = read_cseq(alloc, &text)? else {
        return Err(MessageError::Unreadable(HeaderName::CSeq));
    };
    if !is_method_for(start, &cseq.method) {
        return Err(MessageError::Unreadable(HeaderName::CSeq));
    }
    Ok(Sequence { text, cseq })
}

#[tactic(auto, using(crate::proofs::FaultLaws::fails_itself))]
fn read_hops(alloc: Global, found: &Found<'_, '_>) -> Result<u8, MessageError>
    requires { IsFound found.now }
    ensures { Gives result (hops_of found.now.headers.now) }
{
    let Some(value) = found.max_forwards()? else {
        return Ok(MAX_FORWARDS);
    };
    let text = value.text(alloc)?;
    match read_max_forwards(text.as_bytes()) {
        Some(hops) => Ok(hops),
        None => Err(MessageError::Unreadable(HeaderName::MaxForwards)),
    }
}

#[tactic(auto, using(crate::proofs::FaultLaws::fails_itself))]
fn read_type<'a>(alloc: Global, found: &Found<'_, 'a>) -> Result<Option<Text<'a>>, MessageError>
    requires { IsFound found.now }
    ensures { Gives result (type_of found.now.headers.now) }
{
    let Some(value) = found.content_type()? else {
        return Ok(None);
    };
    let text = value.text(alloc)?;
    if !is_media_type(alloc, text.as_bytes())? {
        return Err(MessageError::Unreadable(HeaderName::ContentType));
    }
    Ok(Some(text))
}

fn one_address(values: &[ContactValue<'_>]) -> Result<(), MessageError>
    ensures { Gives result (one_address values.now) }
{
    match values {
        [] => Err(MessageError::Missing(HeaderName::Contact)),
        [ContactValue::Address(_)] => Ok(()),
        _ => Err(MessageError::Unreadable(HeaderName::Contact)),
    }
}

fn one_address_at_most(values: &[ContactValue<'_>]) -> Result<(), MessageError>
    ensures { Gives result (contacts_for AtMostOne values.now) }
{
    match values {
        [] | [ContactValue::Address(_)] => Ok(()),
        _ => Err(MessageError::Unreadable(HeaderName::Contact)),
    }
}

#[tactic(auto, using(crate::proofs::FaultLaws::fails_itself))]
fn check_contact(
    alloc: Global,
    start: &Start<'_>,
    method: &Text<'_>,
    headers: &[Header<'_>],
) -> Result<(), MessageError>
    ensures { Gives result (contact_for start.now method.now headers.now) }
{
    match contact_need(start, method) {
        ContactNeed::Unlooked => Ok(()),
        ContactNeed::One => one_address(contact_values(alloc, headers)?.as_slice()),
        ContactNeed::AtMostOne => one_address_at_most(contact_values(alloc, headers)?.as_slice()),
    }
}

/// What a response repeats of the request.
#[tactic(auto, unfolding(crate::specs::Values::parts_of), using(crate::proofs::FaultLaws::failed_then))]
pub(crate) fn read_parts<'a>(
    alloc: Global,
    start: &Start<'_>,
    found: &Found<'_, 'a>,
) -> Result<Parts<'a>, MessageError>
    requires { IsFound found.now }
    ensures { Gives result (parts_of start.now found.now.headers.now) }
{
    let vias = read_vias(alloc, found.headers)?;
    let from = read_from(alloc, start, found)?;
    let to = read_to(alloc, found)?;
    let call_id = read_call_id(alloc, found)?;
    let sequence = read_cseq_for(alloc, start, found)?;
    Ok(Parts {
        vias,
        from: from.name,
        to: to.name,
        call_id,
        cseq: sequence.cseq,
        from_text: from.text,
        to_text: to.text,
        cseq_text: sequence.text,
    })
}

/// The hops of a message whose Contact and Content-Type can be read.
#[tactic(auto, using(crate::proofs::FaultLaws::failed_then))]
pub(crate) fn read_hops_behind(
    alloc: Global,
    start: &Start<'_>,
    method: &Text<'_>,
    found: &Found<'_, '_>,
) -> Result<u8, MessageError>
    requires { IsFound found.now }
    ensures { Gives result (hops_behind start.now method.now found.now.headers.now) }
{
    check_contact(alloc, start, method, found.headers)?;
    let max_forwards = read_hops(alloc, found)?;
    let _content_type = read_type(alloc, found)?;
    Ok(max_forwards)
}
