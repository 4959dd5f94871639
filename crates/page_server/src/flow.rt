//! Bytes from and to a client, as far as both sides take them now.

ghost use Rattle.std.specs.Prelude.{◌≡◌, ◌≤◌, ◌-◌, ℕ, length, IfOk};
ghost use Rattle.page_server.specs.Flows.{IfGone};

use crate::answer::Answer;
use crate::request::Request;
use std::alloc::AllocError;
use std::io;
use std::io::{ErrorKind, Read, Write};

/// How many bytes are read at once; below it, how many reads and writes a turn has at most.
const BLOCK: usize = 2_048;

const MAX_READS: u32 = 16;

const MAX_WRITES: u32 = 16;

/// What a read or a write did.
enum Flow {
    /// This many bytes went.
    Gone(usize),
    /// No byte goes now.
    Stuck,
    /// No byte will go any more.
    Ended,
}

fn flow_of(done: io::Result<usize>) -> Flow
    ensures { (most : ℕ) → IfOk done (λ n. n ≤ most) → IfGone result (λ n. n ≤ most) }
{
    match done {
        Ok(0) => Flow::Ended,
        Ok(count) => Flow::Gone(count),
        Err(error) => match error.kind() {
            ErrorKind::WouldBlock | ErrorKind::Interrupted => Flow::Stuck,
            _ => Flow::Ended,
        },
    }
}

fn read_flow<R: Read>(stream: &mut R, block: &mut [u8]) -> Flow
    ensures { IfGone result (λ n. n ≤ length block.new) }
{
    flow_of(stream.read(block))
}

fn write_flow<W: Write>(stream: &mut W, bytes: &[u8]) -> Flow
    ensures { IfGone result (λ n. n ≤ length bytes.now) }
{
    flow_of(stream.write(bytes))
}

/// Reads what has come of a request. Returns whether more may come.
pub(crate) fn read_request<R: Read>(
    stream: &mut R,
    request: &mut Request,
) -> Result<bool, AllocError> {
    let mut block = [0u8; BLOCK];
    for _ in 0..MAX_READS {
        match read_flow(stream, &mut block) {
            Flow::Gone(count) => request.add(&block[..count])?,
            Flow::Stuck => return Ok(true),
            Flow::Ended => return Ok(false),
        }
    }
    Ok(true)
}

/// Reads what has come, and drops it. Returns whether more may come.
pub(crate) fn read_away<R: Read>(stream: &mut R) -> bool {
    let mut block = [0u8; BLOCK];
    for _ in 0..MAX_READS {
        match read_flow(stream, &mut block) {
            Flow::Gone(_) => {}
            Flow::Stuck => return true,
            Flow::Ended => return false,
        }
    }
    true
}

/// Sends as much of an answer as the client takes now. Returns whether it may take more.
pub(crate) fn write_answer<W: Write>(stream: &mut W, answer: &mut Answer) -> bool
    ensures text { answer.new.text ≡ answer.old.text }
    ensures sent { answer.old.sent ≤ answer.new.sent }
{
    for _ in 0..MAX_WRITES {
        if answer.is_sent() {
            return true;
        }
        match write_flow(stream, answer.rest()) {
            Flow::Gone(count) => answer.advance(count),
            Flow::Stuck => return true,
            Flow::Ended => return false,
        }
    }
    true
}
