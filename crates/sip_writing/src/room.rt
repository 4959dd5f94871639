//! The room for writing a message.

/// Room that fits most messages, in bytes: one allocation is enough for them, and it is small enough for the C
/// library's lists of free blocks.
pub(crate) const ROOM: usize = 1024;
