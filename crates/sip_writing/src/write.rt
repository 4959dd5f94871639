//! Writing messages.

ghost use Rattle.std.specs.Prelude.{◌≡◌, ◌++◌, ◌∷◌, [], ℕ, List, codes, OnOk, IfOk, decimal};
ghost use Rattle.sip_uri.specs.Writing.{uri_text};
ghost use Rattle.sip_message.specs.Grammar.{ReadsMessage};
ghost use Rattle.sip_message.specs.declared.message.Message.TheVariants as Kinds;
ghost use Rattle.sip_writing.specs.WritingMessage.{IsWrittenMessage};
ghost use Rattle.sip_writing.specs.Writing.{status_line, header_text, headers_text, length_text, message_text};

use crate::room::ROOM;
use sip_message::{Header, Message, Request, Response};
use sip_uri::{Uri, put_uri};
use std::alloc::{AllocError, Global};
use text::{Text, put_number};

/// Appends the start line of a request.
pub(crate) fn put_request_line(
    out: &mut Vec<u8>,
    method: &[u8],
    uri: &Uri<'_>,
) -> Result<(), AllocError>
    ensures line { OnOk result (out.new.items ≡ out.old.items ++ method.now ++ 32 ∷ [] ++ uri_text uri.now ++ codes " SIP/2.0\r\n") }
{
    out.extend_from_slice(method)?;
    out.push(b' ')?;
    put_uri(out, uri)?;
    out.extend_from_slice(b" SIP/2.0\r\n")?;
    Ok(())
}

fn put_status_line(out: &mut Vec<u8>, response: &Response) -> Result<(), AllocError>
    ensures { OnOk result (out.new.items ≡ out.old.items ++ status_line response.now) }
{
    out.extend_from_slice(b"SIP/2.0 ")?;
    put_number(out, u64::from(response.status))?;
    out.push(b' ')?;
    out.extend_from_slice(response.reason.as_bytes())?;
    out.extend_from_slice(b"\r\n")?;
    Ok(())
}

fn put_header(out: &mut Vec<u8>, header: &Header) -> Result<(), AllocError>
    ensures { OnOk result (out.new.items ≡ out.old.items ++ header_text header.now) }
{
    out.extend_from_slice(header.name.as_bytes())?;
    out.extend_from_slice(b": ")?;
    header.value.put(out)?;
    out.extend_from_slice(b"\r\n")
}

/// Appends the header fields, each on a line of its own.
pub(crate) fn put_headers(out: &mut Vec<u8>, headers: &[Header]) -> Result<(), AllocError>
    ensures text { OnOk result (out.new.items ≡ out.old.items ++ headers_text headers.now) }
{
    for header in headers {
        put_header(out, header)?;
    }
    Ok(())
}

/// Content-Length, the empty line after it, and the body.
pub(crate) fn put_content(out: &mut Vec<u8>, body: &[u8]) -> Result<(), AllocError>
    ensures { OnOk result (out.new.items ≡ out.old.items ++ length_text body.now ++ body.now) }
{
    out.extend_from_slice(b"Content-Length: ")?;
    put_number(out, body.len() as u64)?;
    out.extend_from_slice(b"\r\n\r\n")?;
    out.extend_from_slice(body)?;
    Ok(())
}

fn put_body(out: &mut Vec<u8>, body: &Text) -> Result<(), AllocError>
    ensures { OnOk result (out.new.items ≡ out.old.items ++ length_text body.now ++ body.now) }
{
    put_content(out, body.as_bytes())
}

#[tactic(auto, unfolding(crate::specs::Writing::message_text))]
fn put_request(out: &mut Vec<u8>, request: &Request) -> Result<(), AllocError>
    ensures { OnOk result (out.new.items ≡ out.old.items ++ message_text (Kinds.Request request.now)) }
{
    put_request_line(out, request.method.as_bytes(), &request.uri)?;
    put_headers(out, request.headers.as_slice())?;
    put_body(out, &request.body)?;
    Ok(())
}

#[tactic(auto, unfolding(crate::specs::Writing::message_text))]
fn put_response(out: &mut Vec<u8>, response: &Response) -> Result<(), AllocError>
    ensures { OnOk result (out.new.items ≡ out.old.items ++ message_text (Kinds.Response response.now)) }
{
    put_status_line(out, response)?;
    put_headers(out, response.headers.as_slice())?;
    put_body(out, &response.body)?;
    Ok(())
}

/// The bytes of a request: its start line, its header fields in order, Content-Length, and its body.
pub fn write_request(alloc: Global, request: &Request) -> Result<Text<'static>, AllocError>
    ensures text { IfOk result (λ t. t ≡ message_text (Kinds.Request request.now)) }
    // What is written for a request of the written form is that request, even beyond the limits of reading.
    ensures again { IsWrittenMessage (Kinds.Request request.now) → IfOk result (λ t. ReadsMessage t (Kinds.Request request.now)) }
{
    let mut out = Vec::with_capacity(alloc, ROOM)?;
    put_request(&mut out, request)?;
    Ok(Text::from_vec(out))
}

/// The bytes of a response, in the same order.
pub fn write_response(alloc: Global, response: &Response) -> Result<Text<'static>, AllocError>
    ensures text { IfOk result (λ t. t ≡ message_text (Kinds.Response response.now)) }
    // What is written for a response of the written form is that response, even beyond the limits of reading.
    ensures again { IsWrittenMessage (Kinds.Response response.now) → IfOk result (λ t. ReadsMessage t (Kinds.Response response.now)) }
{
    let mut out = Vec::with_capacity(alloc, ROOM)?;
    put_response(&mut out, response)?;
    Ok(Text::from_vec(out))
}

/// The bytes of a message: of its request, or of its response.
pub fn write_message(alloc: Global, message: &Message) -> Result<Text<'static>, AllocError>
    ensures text { IfOk result (λ t. t ≡ message_text message.now) }
    // What is written for a message of the written form is that message, even beyond the limits of reading.
    ensures again { IsWrittenMessage message.now → IfOk result (λ t. ReadsMessage t message.now) }
{
    match message {
        Message::Request(request) => write_request(alloc, request),
        Message::Response(response) => write_response(alloc, response),
    }
}
