//! Standard error, as a thread of its own and the last words of the program are written to it.

ghost use Rattle.std.specs.Prelude.{◌≡◌, ◌∷◌, ◌++◌, ◌+◌, ◌<◌, ◌≤◌, [], length, nat_lt, take, IfSome, MatchOption};
ghost use Rattle.sockets.specs.ErrorStreams.{Follow, left_after, left_by, max_part, part_of, unused_stream, wait_for_room};

use crate::last_call::is_of_nothing;
use crate::log::Log;
use crate::number_log::NumberLog;
use crate::part_log::PartLog;
use libc::net::POLLOUT;
use libc::types::pollfd;
use std::io;
use std::marker::Model;
use std::sync::Wait;
use std::sync::atomic::{AtomicBool, Ordering};

/// Its descriptor.
const DESCRIPTOR: i32 = 2;

/// How many bytes are written at once at most: a pipe that has room takes as many without a wait.
const MAX_PART: usize = 4_096;

/// How many milliseconds are waited at once.
const WAIT: u16 = 50;

/// How many waits may find no room once all is over: less than a second of them.
const MAX_PATIENCE: u32 = 15;

/// The standard error of the process, which a thread writes to without its runtime. It is written only when it has
/// room: a reader that is slow, or reads nothing, keeps nobody that has to end. Contracts see the texts that it was
/// asked to write, and how the last one was written.
#[derive(Drop)]
pub struct ErrorStream {
    texts: Log,
    parts: PartLog,
    waited: NumberLog,
    patience: u32,
}

impl Model for ErrorStream {
    ghost use Rattle.std.specs.Prelude.{map};
    ghost use Rattle.sockets.specs.ErrorStreams.{Stream};

    ghost Value = { Stream };

    ghost view = { λ s. record { texts = map (λ d. d.bytes) s.texts.entries; parts = s.parts.entries; waited = s.waited.entries; patience = s.patience } };
}

// The first bytes of these, as many as there are but at most this many.
#[tactic(auto, using(std::proofs::lemmas::List::take_min))]
fn first_of(bytes: &[u8], most: usize) -> &[u8]
    ensures { result.now ≡ take most bytes.now }
{
    &bytes[..most.min(bytes.len())]
}

// What is left of a text once the system took this many bytes: nothing if it took none.
fn left_by(left: &[u8], count: usize) -> &[u8]
    requires { count ≤ length left.now }
    ensures { result.now ≡ left_by (part_of left.now count) left.now }
{
    if count == 0 {
        &left[left.len()..]
    } else {
        &left[count..]
    }
}

impl ErrorStream {
    /// A stream to which nothing was written. Takes no memory.
    pub fn new() -> ErrorStream
        ensures { result ≡ unused_stream }
    {
        ErrorStream {
            texts: Log::new(),
            parts: PartLog::new(),
            waited: NumberLog::new(),
            patience: MAX_PATIENCE,
        }
    }

    // Waits until one of these is ready, for a while at most. Returns whether one is.
    fn poll(&mut self, asked: &mut [pollfd]) -> bool
        ensures { self.new ≡ record self.old { waited = self.old.waited ++ wait_for_room ∷ [] } }
    {
        let limit = WAIT;
        self.waited.note(u64::from(limit));
        libc::net::poll(asked, i32::from(limit)) > 0
    }

    /// Waits a while.
    pub fn wait(&mut self)
        ensures { self.new ≡ record self.old { waited = self.old.waited ++ wait_for_room ∷ [] } }
    {
        let _ = self.poll(&mut []);
    }

    // Loses patience if all is over: there was a wait without room.
    fn tire(&mut self, is_over: &AtomicBool)
        ensures texts { self.new.texts ≡ self.old.texts }
        ensures parts { self.new.parts ≡ self.old.parts }
        ensures waited { self.new.waited ≡ self.old.waited }
        ensures patience { self.new.patience ≤ self.old.patience }
        ensures slowly { self.old.patience ≤ self.new.patience + 1 }
    {
        if is_over.load(Ordering::SeqCst) {
            self.patience = self.patience.saturating_sub(1);
        }
    }

    /// Waits until the stream has room, and returns true. Once all is over, it returns false after 15 of these waits
    /// without room, in all its calls: less than a second.
    pub fn wait_for_room<R: Wait>(&mut self, rt: &R, is_over: &AtomicBool) -> bool
        ensures room { result ≡ nat_lt 0 self.new.patience }
        ensures texts { self.new.texts ≡ self.old.texts }
        ensures parts { self.new.parts ≡ self.old.parts }
        ensures patience { self.new.patience ≤ self.old.patience }
        ensures waited { length self.old.waited + self.old.patience ≤ length self.new.waited + self.new.patience }
    {
        for _ in rt.forever() {
            if self.patience == 0 {
                return false;
            }
            let mut asked = [pollfd {
                fd: DESCRIPTOR,
                events: POLLOUT,
                revents: 0,
            }];
            if self.poll(&mut asked) {
                return true;
            }
            self.tire(is_over);
        }
        unreachable!()
    }

    // Writes the first part of what is left of a text. Returns how many of its bytes the system took, 0 if it refuses;
    // None if it takes none now.
    fn write_part(&mut self, left: &[u8]) -> Option<usize>
        ensures few { IfSome result (λ count. count ≤ length (take max_part left.now)) }
        ensures parts { MatchOption result (self.new.parts ≡ self.old.parts) (λ count. self.new.parts ≡ self.old.parts ++ part_of left.now count ∷ []) }
        ensures texts { self.new.texts ≡ self.old.texts }
        ensures waited { self.new.waited ≡ self.old.waited }
        ensures patience { self.new.patience ≡ self.old.patience }
    {
        let part = first_of(left, MAX_PART);
        let count = match usize::try_from(libc::write(DESCRIPTOR, part)) {
            Ok(count) => count,
            Err(_) if is_of_nothing(io::Error::from_raw_os_error(os::errno()).kind()) =>
                return None,
            Err(_) => 0,
        };
        self.parts.note(part, count as u64);
        Some(count)
    }

    /// Writes a text, part by part, each once there is room. What the system refuses is lost, and so is what finds no
    /// room in time once all is over.
    pub fn write<R: Wait>(&mut self, rt: &R, text: &[u8], is_over: &AtomicBool)
        ensures texts { self.new.texts ≡ self.old.texts ++ text.now ∷ [] }
        ensures parts { Follow text.now self.new.parts }
        ensures whole { 0 < self.new.patience → left_after text.now self.new.parts ≡ [] }
        ensures patience { self.new.patience ≤ self.old.patience }
        ensures waited { length self.old.waited + self.old.patience ≤ length self.new.waited + self.new.patience }
    {
        self.texts.note(0, &[], 0, text);
        self.parts = PartLog::new();
        let mut left = text;
        for _ in rt.forever() {
            if left.is_empty() || !self.wait_for_room(rt, is_over) {
                return;
            }
            match self.write_part(left) {
                Some(count) => left = left_by(left, count),
                None => {
                    self.wait();
                    self.tire(is_over);
                }
            }
        }
        unreachable!()
    }
}
