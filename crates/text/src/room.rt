//! A buffer for a short text that is being made.

ghost use Rattle.std.specs.Prelude.{◌≡◌, ◌+◌, ◌<◌, ◌≤◌, ◌++◌, [], ◌∷◌, IfOk, decimal, length};
ghost use Rattle.text.specs.Limits.{max_in_room};

use crate::text::Text;
use itoa::Buffer;
use std::alloc::{AllocError, Global};
use std::marker::Model;

/// The maximum number of bytes of a text that is made in a room.
const MAX_IN_ROOM: usize = 64;

/// Bytes that are put one after the other, at most 64: contracts see them as a list.
#[derive(Drop)]
pub struct Room {
    bytes: [u8; MAX_IN_ROOM],
    length: usize,
}

impl Model for Room {
    ghost use Rattle.std.specs.Prelude.{ℕ, List, take, ◌≤◌};
    ghost use Rattle.text.specs.Limits.{max_in_room};

    ghost Value = { List ℕ };

    ghost view = { λ r. take r.length r.bytes };

    ghost invariant = { λ r. r.length ≤ max_in_room };
}

impl Room {
    /// No bytes. Takes no memory.
    pub fn new() -> Room
        ensures { result ≡ [] }
    {
        Room {
            bytes: [0; MAX_IN_ROOM],
            length: 0,
        }
    }

    /// Appends a byte, for which there is room. Takes no memory.
    pub fn put_byte(&mut self, byte: u8)
        requires { length self.old < max_in_room }
        ensures { self.new ≡ self.old ++ byte ∷ [] }
    {
        self.bytes[self.length] = byte;
        self.length += 1;
    }

    /// Appends bytes, for which there is room. Takes no memory.
    pub fn put(&mut self, bytes: &[u8])
        requires { length self.old + length bytes.now ≤ max_in_room }
        ensures { self.new ≡ self.old ++ bytes.now }
    {
        let end = self.length + bytes.len();
        self.bytes[self.length..end].copy_from_slice(bytes);
        self.length = end;
    }

    /// Appends a number in plain decimals, with room for its 20 digits. Takes no memory.
    pub fn put_number(&mut self, number: u64)
        requires { length self.old + 20 ≤ max_in_room }
        ensures { self.new ≡ self.old ++ decimal number }
    {
        let mut buffer = Buffer::new();
        self.put(buffer.format(number).as_bytes());
    }

    /// The bytes as a text, which takes memory if there are more than fit inline.
    pub fn text(&self, alloc: Global) -> Result<Text<'static>, AllocError>
        ensures { IfOk result (λ t. t ≡ self.now) }
    {
        Text::from_slice(alloc, &self.bytes[..self.length])
    }
}
