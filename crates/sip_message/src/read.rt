//! Reading messages.

ghost use Rattle.std.specs.Prelude.{◌≡◌, ℕ, Ok, IfOk, IfErr};
ghost use Rattle.std.specs.Option.{option_copied};
ghost use Rattle.sip_message.specs.Repeatable.{CanBeRepeated, parts_in};
ghost use Rattle.sip_message.specs.Contact.{headers_in};
ghost use Rattle.sip_message.specs.Faults.{Gives};
ghost use Rattle.sip_message.specs.Lookup.{IsFound};
ghost use Rattle.sip_message.specs.Places.{IsPlaced};
ghost use Rattle.sip_message.specs.Grammar.{ReadsMessage, IsWithin, Refuses};
ghost use Rattle.header_fields.specs.Lines.{is_clean, before_line_end, after_line_end};
ghost use Rattle.sip_message.specs.Read.{contents_of, message_with, behind_start, message_of};
ghost use Rattle.sip_message.specs.declared.message.Message.{Message};

use crate::content_length::{read_body, without_length};
use crate::error::MessageError;
use crate::lookup::{Found, found_in};
use crate::message::{Message, Request, Response};
use crate::start::{Start, read_start};
use crate::values::{Values, read_hops_behind, read_parts};
use header_fields::{HeadError, Headers, first_line, is_clean, next_line, read_head};
use std::alloc::Global;
use text::Text;

/// Bytes in a datagram.
const MAX_DATAGRAM_BYTES: usize = 16_384;

/// Header lines, including continuation lines.
const MAX_LINES: u32 = 128;

/// Values and body of a message.
#[derive(Drop)]
pub(crate) struct Contents<'a> {
    pub values: Values<'a>,
    pub body: Text<'a>,
}

/// The contents of a message. The faults come in the order of `HeaderName`, then the body's.
#[tactic(auto, unfolding(crate::specs::Read::contents_of, crate::specs::Values::values_of), using(crate::proofs::FaultLaws::failed_then))]
fn read_contents<'a>(
    alloc: Global,
    start: &Start<'_>,
    found: &Found<'_, 'a>,
    rest: &'a [u8],
) -> Result<Contents<'a>, MessageError>
    requires { IsFound found.now }
    ensures { Gives result (contents_of start.now found.now.headers.now rest.now) }
{
    let parts = read_parts(alloc, start, found)?;
    let max_forwards = read_hops_behind(alloc, start, &parts.cseq.method, found)?;
    let body = read_body(alloc, found, rest)?;
    let values = Values {
        parts,
        max_forwards,
    };
    Ok(Contents { values, body })
}

fn message<'a>(start: Start<'a>, headers: Headers<'a>, contents: Contents<'a>) -> Message<'a>
    ensures { result ≡ message_with start.entry headers.entry contents.entry }
{
    let Contents { values, body } = contents;
    let headers = without_length(headers);
    match start {
        Start::Asking(line) => Message::Request(Request {
            method: line.method,
            uri: line.uri,
            parts: values.parts,
            max_forwards: values.max_forwards,
            headers,
            body,
        }),
        Start::Answering(line) => Message::Response(Response {
            status: line.status,
            reason: line.reason,
            parts: values.parts,
            headers,
            body,
        }),
    }
}

#[tactic(auto, using(crate::proofs::FaultLaws::failed_then))]
fn behind_start<'a>(
    alloc: Global,
    start: Start<'a>,
    rest: Option<&'a [u8]>,
) -> Result<Message<'a>, MessageError>
    ensures { Gives result (behind_start start.entry (option_copied rest.entry)) }
{
    let Some(rest) = rest else {
        return Err(MessageError::HeaderLine);
    };
    let (headers, rest) = match read_head(alloc, MAX_LINES + 1, rest) {
        Ok(head) => head,
        Err(HeadError::OutOfMemory) => return Err(MessageError::OutOfMemory),
        Err(HeadError::Line) => return Err(MessageError::HeaderLine),
    };
    let contents = read_contents(alloc, &start, &found_in(headers.as_slice()), rest)?;
    Ok(message(start, headers, contents))
}

/// The first line, what comes after its end, and whether it is clean.
fn start_line(bytes: &[u8]) -> (&[u8], Option<&[u8]>, bool)
    ensures line { result.0.now ≡ before_line_end bytes.now }
    ensures rest { option_copied result.1 ≡ after_line_end bytes.now }
    ensures clean { result.2 ≡ is_clean (before_line_end bytes.now) }
{
    if let Some((line, after)) = next_line(bytes) {
        return (line, Some(after), true);
    }
    let (line, rest) = first_line(bytes);
    (line, rest, is_clean(line))
}

#[tactic(auto, unfolding(crate::specs::Read::message_of), using(crate::proofs::FaultLaws::failed_then))]
fn read(alloc: Global, bytes: &[u8]) -> Result<Message<'_>, MessageError>
    ensures { Gives result (message_of bytes.now) }
{
    if bytes.len() > MAX_DATAGRAM_BYTES {
        return Err(MessageError::TooLong);
    }
    let (line, rest, clean) = start_line(bytes);
    let start = read_start(alloc, line)?;
    if !clean {
        return Err(MessageError::HeaderLine);
    }
    behind_start(alloc, start, rest)
}

/// The message in a datagram, of at most 16,384 bytes and at most 128 header lines, including continuation lines.
pub fn read_message(alloc: Global, bytes: &[u8]) -> Result<Message<'_>, MessageError>
    // What is read is the message that the bytes are, and they are within the limits.
    ensures found { IfOk result (λ m. (reads : ReadsMessage bytes.now m) × IsWithin bytes.now m reads) }
    // Bytes within the limits that are a message are read, unless memory runs out.
    ensures only { (m : Message) (reads : ReadsMessage bytes.now m) → IsWithin bytes.now m reads → Gives result (Ok m) }
    ensures refused { IfErr result (λ e. Refuses bytes.now e) }
    ensures exact { Gives result (message_of bytes.now) }
    // Its header fields are in the bytes in their order, without overlap, and each says what is at its place.
    ensures placed { IfOk result (λ m. IsPlaced bytes.now (headers_in m)) }
    ensures repeatable { IfOk result (λ m. CanBeRepeated (parts_in m)) }
{
    read(alloc, bytes)
}
