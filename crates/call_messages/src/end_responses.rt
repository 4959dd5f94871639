//! Responses to the requests of an end, as they are sent.

ghost use Rattle.std.specs.Prelude.{◌≡◌, IfOk};
ghost use Rattle.sip_message.specs.declared.message.Message.TheVariants as Kinds;
ghost use Rattle.sip_writing.specs.Writing.{message_text};
ghost use Rattle.call_messages.specs.Messages.{answer, okay, provisional, refusal, response_to, retry_later, trying, with_body};

use crate::fields::{contact_header, description_headers, retry_alone};
use crate::scene::Asker;
use sdp::{Description, write_description};
use sip_message::{Header, is_method};
use sip_uri::Addr;
use sip_writing::{Reply, write_reply};
use std::alloc::{AllocError, Global};
use text::Text;

#[tactic(auto, unfolding(responses::specs::Responding::responds, sip_writing::specs::Reply::reply_of))]
fn response_with(
    alloc: Global,
    asker: &Asker<'_, '_>,
    status: u16,
    further: &[Header<'_>],
    body: &[u8],
) -> Result<Text<'static>, AllocError>
    ensures { IfOk result (λ t. t ≡ message_text (Kinds.Response (with_body body.now (response_to asker.now status further.now)))) }
{
    let reply = Reply {
        parts: asker.parts,
        source: asker.source,
        status,
        tag: asker.tag,
        further,
        body,
    };
    write_reply(alloc, &reply)
}

#[tactic(auto, unfolding(responses::specs::Responding::responds, sip_writing::specs::Reply::reply_of))]
fn response_to(
    alloc: Global,
    asker: &Asker<'_, '_>,
    status: u16,
    further: &[Header<'_>],
) -> Result<Text<'static>, AllocError>
    ensures { IfOk result (λ t. t ≡ message_text (Kinds.Response (response_to asker.now status further.now))) }
{
    response_with(alloc, asker, status, further, b"")
}

/// 100 to an INVITE that is passed on: it has no tag of the server's (RFC 3261 section 8.2.6.2).
pub fn trying(alloc: Global, asker: &Asker<'_, '_>) -> Result<Text<'static>, AllocError>
    ensures trying { IfOk result (λ t. t ≡ message_text (Kinds.Response (trying asker.now))) }
{
    response_to(alloc, asker, 100, &[])
}

/// A provisional response that is passed on, 101 to 199: it has the server's Contact and no body (RFC 3261 section
/// 12.1.1).
pub fn provisional(
    alloc: Global,
    server: Addr,
    asker: &Asker<'_, '_>,
    status: u16,
) -> Result<Text<'static>, AllocError>
    ensures provisional { IfOk result (λ t. t ≡ message_text (Kinds.Response (provisional server asker.now status))) }
{
    let further = [contact_header(alloc, server)?];
    response_to(alloc, asker, status, &further)
}

/// 200 to an INVITE or an UPDATE with an offer: it has the server's Contact, and this answer (RFC 3261 section
/// 13.3.1.4, RFC 3311 section 5.2).
pub fn answer(
    alloc: Global,
    server: Addr,
    asker: &Asker<'_, '_>,
    description: &Description<'_>,
) -> Result<Text<'static>, AllocError>
    ensures answer { IfOk result (λ t. t ≡ message_text (Kinds.Response (answer server asker.now description.now))) }
{
    let further = description_headers(alloc, server)?;
    let body = write_description(alloc, description)?;
    response_with(alloc, asker, 200, &further, body.as_bytes())
}

/// A final response that is not a 2xx. It has no Contact and no body.
pub fn refusal(
    alloc: Global,
    asker: &Asker<'_, '_>,
    status: u16,
) -> Result<Text<'static>, AllocError>
    ensures refusal { IfOk result (λ t. t ≡ message_text (Kinds.Response (refusal asker.now status))) }
{
    response_to(alloc, asker, status, &[])
}

/// 500 to an offer that comes while the same end's last one is open: it says when it may come again (RFC 3261 section
/// 14.2).
pub fn retry_later(alloc: Global, asker: &Asker<'_, '_>) -> Result<Text<'static>, AllocError>
    ensures later { IfOk result (λ t. t ≡ message_text (Kinds.Response (retry_later asker.now))) }
{
    let further = retry_alone(alloc)?;
    response_to(alloc, asker, 500, &further)
}

/// A 200 without a body: to a BYE, a CANCEL, or an UPDATE without an offer, whose 2xx has the server's Contact (RFC
/// 3311 section 5.2).
pub fn okay(alloc: Global, server: Addr, asker: &Asker<'_, '_>) -> Result<Text<'static>, AllocError>
    ensures okay { IfOk result (λ t. t ≡ message_text (Kinds.Response (okay server asker.now))) }
{
    if is_method(asker.parts, b"UPDATE") {
        let further = [contact_header(alloc, server)?];
        return response_to(alloc, asker, 200, &further);
    }
    response_to(alloc, asker, 200, &[])
}
