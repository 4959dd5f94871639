//! The thread that writes the lines of the log.

ghost use Rattle.std.specs.Prelude.{◌≡◌, length};
ghost use Rattle.log_pipe.specs.Limits.{max_block};
ghost use Rattle.log_pipe.specs.Writing.{IsDone, IsWritten, Writes, WritesBoth};

use rtrb::Consumer;
use sockets::ErrorStream;
use std::sync::Wait;
use std::sync::atomic::{AtomicBool, Ordering};

/// How many bytes are written at once.
const BLOCK: usize = 4_096;

/// The lines of the events and those of the socket for SIP, and where they are written.
#[derive(Drop)]
pub struct LogWriter {
    pub(crate) events: Consumer<u8>,
    pub(crate) sending: Consumer<u8>,
    pub(crate) stream: ErrorStream,
}

/// Writes everything that is there: whole lines, since lines are passed on whole. A block is taken only when the stream
/// has room, so lines wait in the ring until then. Returns whether there were any.
fn write_all<R: Wait>(
    rt: &R,
    ring: &mut Consumer<u8>,
    stream: &mut ErrorStream,
    block: &mut [u8],
    is_over: &AtomicBool,
) -> bool
    requires { length block.old ≡ max_block }
    ensures { IsWritten ring.old ring.new stream.old stream.new }
{
    let mut are_any = false;
    for _ in rt.forever() {
        if ring.is_empty() {
            return are_any;
        }
        if !stream.wait_for_room(rt, is_over) {
            return are_any;
        }
        let count = ring.pop_partial_slice(block);
        stream.write(rt, &block[..count], is_over);
        are_any = true;
    }
    unreachable!()
}

impl LogWriter {
    /// Writes what is there of both. Returns whether there was anything.
    fn write_both<R: Wait>(&mut self, rt: &R, block: &mut [u8], is_over: &AtomicBool) -> bool
        requires { length block.old ≡ max_block }
        ensures { WritesBoth self.old self.new }
    {
        let of_events = write_all(rt, &mut self.events, &mut self.stream, block, is_over);
        let of_sending = write_all(rt, &mut self.sending, &mut self.stream, block, is_over);
        of_events || of_sending
    }

    /// Writes lines until the flag is set and none are left, or the stream gives up on finding room for them.
    pub fn run<R: Wait>(&mut self, rt: &R, is_over: &AtomicBool)
        ensures writes { Writes self.old self.new }
        ensures done { IsDone self.new }
    {
        let mut block = [0; BLOCK];
        for _ in rt.forever() {
            // What was passed on before the flag was set is there now.
            let is_last = is_over.load(Ordering::SeqCst);
            let are_any = self.write_both(rt, &mut block, is_over);
            if is_last {
                return;
            }
            if !are_any {
                self.stream.wait();
            }
        }
    }
}
