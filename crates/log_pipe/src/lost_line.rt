//! The line that says how many lines were lost.

ghost use Rattle.std.specs.Prelude.{◌≡◌, ◌+◌, ◌≤◌, ◌++◌, [], ◌∷◌, length};
ghost use Rattle.log_pipe.specs.Losses.{lost_line};
ghost use Rattle.log_pipe.specs.Limits.{max_lost_line};

use itoa::Buffer;
use std::marker::Model;

/// What it says before the count.
const FRONT: &[u8] = b"lines-lost count=";

/// The maximum number of bytes of the line: its words, 20 digits, and its end.
const MAX_LOST_LINE: usize = 38;

/// A line in place, which contracts see as a list of bytes.
#[derive(Drop)]
pub(crate) struct LostLine {
    bytes: [u8; MAX_LOST_LINE],
    length: usize,
}

impl Model for LostLine {
    ghost use Rattle.std.specs.Prelude.{ℕ, List, take, ◌≤◌};
    ghost use Rattle.log_pipe.specs.Limits.{max_lost_line};

    ghost Value = { List ℕ };

    ghost view = { λ l. take l.length l.bytes };

    ghost invariant = { λ l. l.length ≤ max_lost_line };
}

impl LostLine {
    /// The line for this many. Takes no memory.
    pub(crate) fn new(count: u64) -> LostLine
        ensures { result ≡ lost_line count }
    {
        let mut line = LostLine {
            bytes: [0; MAX_LOST_LINE],
            length: 0,
        };
        let mut buffer = Buffer::new();
        line.put(FRONT);
        line.put(buffer.format(count).as_bytes());
        line.put(b"\n");
        line
    }

    /// Appends bytes, for which there is room.
    fn put(&mut self, bytes: &[u8])
        requires { length self.old + length bytes.now ≤ max_lost_line }
        ensures { self.new ≡ self.old ++ bytes.now }
    {
        let end = self.length + bytes.len();
        self.bytes[self.length..end].copy_from_slice(bytes);
        self.length = end;
    }

    /// The bytes, lent. Takes no memory.
    pub(crate) fn as_bytes(&self) -> &[u8]
        ensures { result.now ≡ self.now }
    {
        &self.bytes[..self.length]
    }
}
