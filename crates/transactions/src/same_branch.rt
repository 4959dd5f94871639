//! Requests with the branch of an INVITE that the server sent: its CANCEL (RFC 3261 section 9.1) and the ACK to a
//! refusal (section 17.1.1.3).

ghost use Rattle.std.specs.Prelude.{◌≡◌, [], IfOk, IfErr, IfSome, true, IsTrue, codes, option_map};
ghost use Rattle.text.specs.Class.{is_run_of, is_token_byte};
ghost use Rattle.sip_message.specs.declared.message.Message.TheVariants as Kinds;
ghost use Rattle.sip_message.specs.declared.start.Start.TheVariants.{Asking};
ghost use Rattle.sip_message.specs.Contact.{contact_need};
ghost use Rattle.sip_message.specs.Grammar.{SaysContact};
ghost use Rattle.sip_writing.specs.Requests.{IsEnd, IsReadVia};
ghost use Rattle.sip_writing.specs.Writing.{message_text};
ghost use Rattle.sip_writing.specs.WritingMessage.{IsWrittenMessage};
ghost use Rattle.transactions.specs.Contents.{ack_for, sends};
ghost use Rattle.transactions.specs.SameBranch.{request_like, ack_to, ack_with, ack_of, cancel_of, cancel_with, IsSoundInvite, HasReadVia};

use crate::transaction::Transaction;
use sip_message::{MAX_FORWARDS, Parts, Request, Response, Via, tag_text};
use sip_uri::{NameAddr, Uri};
use sip_writing::{Draft, build_request, name_with_tag, write_request};
use std::alloc::{AllocError, Global};
use text::Text;
use transaction_machines::{Sending, State};

// The request with this To and method.
#[tactic(auto, unfolding(sip_writing::specs::Requests::request_of, sip_writing::specs::Requests::parts_of, crate::specs::SameBranch::request_like, crate::specs::SameBranch::parts_like))]
fn request_like(
    alloc: Global,
    uri: &Uri<'_>,
    via: &Via<'_>,
    invite: &Parts<'_>,
    to: &NameAddr<'_>,
    method: &[u8],
) -> Result<Request<'static>, AllocError>
    ensures request { IfOk result (λ r. r ≡ request_like uri.now via.now invite.now to.now method.now) }
    ensures written { IfOk result (λ r. IsTrue (is_run_of is_token_byte method.now) →
        SaysContact (contact_need (Asking (record { method = method.now; uri = uri.now })) method.now) [] →
        IsSoundInvite uri.now invite.now → IsReadVia via.now → IsEnd to.now → IsWrittenMessage (Kinds.Request r)) }
{
    let draft = Draft {
        method,
        uri,
        via,
        max_forwards: MAX_FORWARDS,
        from: &invite.from,
        to,
        call_id: invite.call_id.as_bytes(),
        number: invite.cseq.number,
        further: &[],
        body: b"",
    };
    build_request(alloc, &draft)
}

// The ACK, with this Via.
fn ack_by(
    alloc: Global,
    uri: &Uri<'_>,
    via: &Via<'_>,
    invite: &Parts<'_>,
    to: &NameAddr<'_>,
) -> Result<Request<'static>, AllocError>
    ensures request { IfOk result (λ r. r ≡ request_like uri.now via.now invite.now (ack_to to.now) (codes "ACK")) }
    ensures written { IfOk result (λ r. IsSoundInvite uri.now invite.now → IsReadVia via.now → IsEnd (ack_to to.now) →
        IsWrittenMessage (Kinds.Request r)) }
{
    let to = name_with_tag(alloc, &to.display, &to.uri, tag_text(to.params.as_slice()))?;
    request_like(alloc, uri, via, invite, &to, b"ACK")
}

/// The ACK to a refusal of the INVITE of a client transaction: the INVITE's Request-URI, top Via, From, Call-ID and
/// number, and the response's To (RFC 3261 section 17.1.1.3). None where the INVITE has no Via.
pub fn ack_of(
    alloc: Global,
    invite: &Transaction,
    response: &Response<'_>,
) -> Result<Option<Request<'static>>, AllocError>
    ensures ack { IfOk result (λ ack. ack ≡ ack_of invite.now.uri invite.now.parts response.now.parts) }
    // What is written for it is read as it.
    ensures written { IfOk result (λ ack. IfSome ack (λ r. IsSoundInvite invite.now.uri invite.now.parts →
        HasReadVia invite.now.parts.vias → IsEnd (ack_to response.now.parts.to) → IsWrittenMessage (Kinds.Request r))) }
{
    let [via, ..] = invite.parts.vias.as_slice() else {
        return Ok(None);
    };
    let ack = ack_by(alloc, &invite.uri, via, &invite.parts, &response.parts.to)?;
    Ok(Some(ack))
}

// The CANCEL, with this Via.
fn cancel_by(
    alloc: Global,
    uri: &Uri<'_>,
    via: &Via<'_>,
    invite: &Parts<'_>,
) -> Result<Request<'static>, AllocError>
    ensures request { IfOk result (λ r. r ≡ request_like uri.now via.now invite.now invite.now.to (codes "CANCEL")) }
    ensures written { IfOk result (λ r. IsSoundInvite uri.now invite.now → IsReadVia via.now → IsEnd invite.now.to →
        IsWrittenMessage (Kinds.Request r)) }
{
    request_like(alloc, uri, via, invite, &invite.to, b"CANCEL")
}

/// The CANCEL of the INVITE of a client transaction: its Request-URI, only its top Via, From, To, Call-ID and number
/// (RFC 3261 section 9.1). None where the transaction is not a client transaction of an INVITE, or the INVITE has no
/// Via.
pub fn cancel_of(
    alloc: Global,
    invite: &Transaction,
) -> Result<Option<Request<'static>>, AllocError>
    ensures cancel { IfOk result (λ cancel. cancel ≡ cancel_of invite.now) }
    // What is written for it is read as it.
    ensures written { IfOk result (λ cancel. IfSome cancel (λ r. IsSoundInvite invite.now.uri invite.now.parts →
        HasReadVia invite.now.parts.vias → IsEnd invite.now.parts.to → IsWrittenMessage (Kinds.Request r))) }
{
    let State::InviteClient(_) = invite.state else {
        return Ok(None);
    };
    let [via, ..] = invite.parts.vias.as_slice() else {
        return Ok(None);
    };
    let cancel = cancel_by(alloc, &invite.uri, via, &invite.parts)?;
    Ok(Some(cancel))
}

fn text_of(
    alloc: Global,
    request: &Option<Request<'_>>,
) -> Result<Option<Text<'static>>, AllocError>
    ensures { IfOk result (λ text. text ≡ option_map (λ r. message_text (Kinds.Request r)) request.now) }
{
    match request {
        Some(request) => Ok(Some(write_request(alloc, request)?)),
        None => Ok(None),
    }
}

fn ack_text(
    alloc: Global,
    invite: &Transaction,
    response: &Response<'_>,
) -> Result<Option<Text<'static>>, AllocError>
    ensures { IfOk result (λ text. text ≡ option_map (λ r. message_text (Kinds.Request r)) (ack_of invite.now.uri invite.now.parts response.now.parts)) }
{
    let ack = ack_of(alloc, invite, response)?;
    text_of(alloc, &ack)
}

/// The bytes of the ACK to a response, where one is sent.
pub(crate) fn ack_for(
    alloc: Global,
    transaction: &Transaction,
    response: &Response<'_>,
    sending: Sending,
) -> Result<Option<Text<'static>>, AllocError>
    ensures ack { IfOk result (λ ack. ack ≡ ack_for transaction.now response.now sending) }
    // What sends nothing takes no memory.
    ensures needed { IfErr result (λ error. sends sending ≡ true) }
{
    match sending {
        Sending::Nothing | Sending::Again => Ok(None),
        Sending::Fresh => ack_text(alloc, transaction, response),
    }
}
