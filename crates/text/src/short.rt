//! Short texts, whose bytes are stored inline.

ghost use Rattle.std.specs.Prelude.{◌≡◌, IfSome};

use std::marker::Model;

/// The maximum number of bytes stored inline: with their count and the form of a text they take 32 bytes, as a list's
/// handle does with that form.
const MAX_IN_PLACE: usize = 30;

/// The bytes of a short text.
#[derive(Clone, Drop)]
pub(crate) struct Short {
    bytes: [u8; MAX_IN_PLACE],
    length: u8,
}

impl Model for Short {
    ghost use Rattle.std.specs.Prelude.{ℕ, List, take, ◌≤◌};
    ghost use Rattle.text.specs.Limits.{max_in_place};

    ghost Value = { List ℕ };

    ghost view = { λ s. take s.length s.bytes };

    ghost invariant = { λ s. s.length ≤ max_in_place };
}

impl Short {
    /// A copy of the bytes, if they are few.
    pub(crate) fn of(bytes: &[u8]) -> Option<Short>
        ensures { IfSome result (λ short. short ≡ bytes.now) }
    {
        if bytes.len() > MAX_IN_PLACE {
            return None;
        }
        let mut place = [0; MAX_IN_PLACE];
        place[..bytes.len()].copy_from_slice(bytes);
        Some(Short {
            bytes: place,
            length: bytes.len() as u8,
        })
    }

    /// The bytes, lent.
    pub(crate) fn as_bytes(&self) -> &[u8]
        ensures { result.now ≡ self.now }
    {
        &self.bytes[..usize::from(self.length)]
    }
}
