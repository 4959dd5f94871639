//! Reading the messages of a trace.

ghost use Rattle.std.specs.Prelude.{◌≡◌, Ok, IfOk, IfErr};
ghost use Rattle.sip_message.specs.declared.message.Message.{Message};
ghost use Rattle.sip_message.specs.Faults.{Gives};
ghost use Rattle.sip_message.specs.Grammar.{ReadsMessage, IsWithin, Refuses};
ghost use Rattle.trace_reading.specs.Message.{trace_message};
ghost use Rattle.trace_reading.specs.Read.{Shows, read_of};

use crate::message::trace_message;
use call_trace::Message as TraceMessage;
use sip_message::{Message, MessageError, read_message};
use std::alloc::{AllocError, Global};

fn shown(alloc: Global, bytes: &[u8], message: &Message<'_>) -> Result<TraceMessage, MessageError>
    ensures { Gives result (Ok (trace_message bytes.now message.now)) }
{
    match trace_message(alloc, bytes, message) {
        Ok(seen) => Ok(seen),
        Err(AllocError) => Err(MessageError::OutOfMemory),
    }
}

/// The same for a message that is then dropped.
fn shown_last(
    alloc: Global,
    bytes: &[u8],
    message: Message<'_>,
) -> Result<TraceMessage, MessageError>
    ensures { Gives result (Ok (trace_message bytes.now message.entry)) }
{
    let seen = shown(alloc, bytes, &message);
    seen
}

fn read(alloc: Global, bytes: &[u8]) -> Result<TraceMessage, MessageError>
    ensures { Gives result (read_of bytes.now) }
{
    match read_message(alloc, bytes) {
        Ok(message) => shown_last(alloc, bytes, message),
        Err(fault) => Err(fault),
    }
}

/// What a trace sees of a datagram with these bytes: its kind, the branch of the top Via, Call-ID, tags, number and
/// method of CSeq, its body as a description, if it is one, and the bytes. An absent branch or tag is the empty text.
pub fn read_trace_message(alloc: Global, bytes: &[u8]) -> Result<TraceMessage, MessageError>
    // What is read is what the message that the bytes are shows, and they are within the limits.
    ensures found { IfOk result (λ m. Shows bytes.now m) }
    // Bytes within the limits that are a message are read, unless memory runs out.
    ensures only { (m : Message) (reads : ReadsMessage bytes.now m) → IsWithin bytes.now m reads → Gives result (Ok (trace_message bytes.now m)) }
    // A datagram is refused with the fault that the message has.
    ensures refused { IfErr result (λ e. Refuses bytes.now e) }
    // All of this at once, as a function of the bytes.
    ensures exact { Gives result (read_of bytes.now) }
{
    read(alloc, bytes)
}
