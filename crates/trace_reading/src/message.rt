//! What a trace sees of a message.

ghost use Rattle.std.specs.Prelude.{◌≡◌, IfOk};
ghost use Rattle.sip_message.specs.Repeatable.{parts_in};
ghost use Rattle.sip_message.specs.Words.{tag_text};
ghost use Rattle.trace_reading.specs.Message.{kind_of, body_in, branch_text, trace_message};

use crate::body::description_in;
use call_trace::{Kind, Message as TraceMessage};
use sdp::Description;
use sip_message::{Message, Parts, Vias, headers_in, tag_text, top_branch};
use std::alloc::{AllocError, Global};
use text::Text;

/// The texts of a message, each with bytes of its own.
#[derive(Drop)]
struct Texts {
    branch: Vec<u8>,
    call_id: Vec<u8>,
    from_tag: Vec<u8>,
    to_tag: Vec<u8>,
    method: Vec<u8>,
    whole: Vec<u8>,
}

fn kind_of(message: &Message<'_>) -> Kind
    ensures { result ≡ kind_of message.now }
{
    match message {
        Message::Request(_) => Kind::Request,
        Message::Response(response) => Kind::Response(response.status),
    }
}

fn parts_in<'m, 'a>(message: &'m Message<'a>) -> &'m Parts<'a>
    ensures { result.now ≡ parts_in message.now }
{
    match message {
        Message::Request(request) => &request.parts,
        Message::Response(response) => &response.parts,
    }
}

fn body_in<'m>(message: &'m Message<'_>) -> &'m [u8]
    ensures { result.now ≡ body_in message.now }
{
    match message {
        Message::Request(request) => request.body.as_bytes(),
        Message::Response(response) => response.body.as_bytes(),
    }
}

fn branch_text<'m>(vias: &'m Vias<'_>) -> &'m [u8]
    ensures { result.now ≡ branch_text vias.now }
{
    match top_branch(vias) {
        Some(branch) => branch.as_bytes(),
        None => b"",
    }
}

/// The texts of a message with these parts, which was in these bytes.
fn texts_of(alloc: Global, parts: &Parts<'_>, bytes: &[u8]) -> Result<Texts, AllocError>
    ensures branch { IfOk result (λ t. t.branch.items ≡ branch_text parts.now.vias) }
    ensures call_id { IfOk result (λ t. t.call_id.items ≡ parts.now.call_id) }
    ensures from_tag { IfOk result (λ t. t.from_tag.items ≡ tag_text parts.now.from.params) }
    ensures to_tag { IfOk result (λ t. t.to_tag.items ≡ tag_text parts.now.to.params) }
    ensures method { IfOk result (λ t. t.method.items ≡ parts.now.cseq.method) }
    ensures whole { IfOk result (λ t. t.whole.items ≡ bytes.now) }
{
    Ok(Texts {
        branch: Vec::from_slice(alloc, branch_text(&parts.vias))?,
        call_id: Vec::from_slice(alloc, parts.call_id.as_bytes())?,
        from_tag: Vec::from_slice(alloc, tag_text(parts.from.params.as_slice()))?,
        to_tag: Vec::from_slice(alloc, tag_text(parts.to.params.as_slice()))?,
        method: Vec::from_slice(alloc, parts.cseq.method.as_bytes())?,
        whole: Vec::from_slice(alloc, bytes)?,
    })
}

/// The message of these texts. Without an early return it keeps the proof of its caller short.
fn message_with(
    kind: Kind,
    number: u32,
    texts: Texts,
    description: Option<Description<'static>>,
) -> TraceMessage
    ensures { result ≡ record {
      kind = kind;
      branch = texts.branch.items;
      call_id = texts.call_id.items;
      from_tag = texts.from_tag.items;
      to_tag = texts.to_tag.items;
      number = number;
      method = texts.method.items;
      description = description.entry;
      bytes = texts.whole.items;
    } }
{
    TraceMessage {
        kind,
        branch: Text::from_vec(texts.branch),
        call_id: Text::from_vec(texts.call_id),
        from_tag: Text::from_vec(texts.from_tag),
        to_tag: Text::from_vec(texts.to_tag),
        number,
        method: Text::from_vec(texts.method),
        description,
        bytes: Text::from_vec(texts.whole),
    }
}

/// What a trace sees of a message that was in these bytes.
#[tactic(auto, unfolding(crate::specs::Message::trace_message))]
pub(crate) fn trace_message(
    alloc: Global,
    bytes: &[u8],
    message: &Message<'_>,
) -> Result<TraceMessage, AllocError>
    ensures { IfOk result (λ m. m ≡ trace_message bytes.now message.now) }
{
    let parts = parts_in(message);
    let texts = texts_of(alloc, parts, bytes)?;
    let description = description_in(alloc, headers_in(message), body_in(message))?;
    Ok(message_with(kind_of(message), parts.cseq.number, texts, description))
}
