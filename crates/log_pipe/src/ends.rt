//! The ends of the log's rings.

ghost use Rattle.std.specs.Prelude.{◌≡◌, IfOk};
ghost use Rattle.sockets.specs.ErrorStreams.{unused_stream};
ghost use Rattle.log_pipe.specs.Ends.{IsUnused};
ghost use Rattle.log_pipe.specs.Limits.{room_of_events, room_of_sending};

use crate::log_lines::LogLines;
use crate::log_writer::LogWriter;
use rtrb::RingBuffer;
use sockets::ErrorStream;
use std::alloc::{AllocError, Global};

/// How many bytes of lines wait to be written at most: those of events, and those of the socket for SIP.
const ROOM_OF_EVENTS: usize = 262_144;

const ROOM_OF_SENDING: usize = 16_384;

/// The ends for the lines of events and for those of the socket for SIP, and that of the thread that writes both.
#[derive(Drop)]
pub struct LogPipe {
    pub events: LogLines,
    pub sending: LogLines,
    pub writer: LogWriter,
}

/// The ends of a log in which no line waits, to standard error.
pub fn log_pipe_ends(alloc: Global) -> Result<LogPipe, AllocError>
    ensures events { IfOk result (λ log. IsUnused room_of_events log.events.ring log.writer.events) }
    ensures sending { IfOk result (λ log. IsUnused room_of_sending log.sending.ring log.writer.sending) }
    ensures lost { IfOk result (λ log. (log.events.lost ≡ 0) × (log.sending.lost ≡ 0)) }
    ensures stream { IfOk result (λ log. log.writer.stream ≡ unused_stream) }
{
    let (events, events_out) = RingBuffer::new(alloc, ROOM_OF_EVENTS)?;
    let (sending, sending_out) = RingBuffer::new(alloc, ROOM_OF_SENDING)?;
    Ok(LogPipe {
        events: LogLines {
            ring: events,
            lost: 0,
        },
        sending: LogLines {
            ring: sending,
            lost: 0,
        },
        writer: LogWriter {
            events: events_out,
            sending: sending_out,
            stream: ErrorStream::new(),
        },
    })
}
