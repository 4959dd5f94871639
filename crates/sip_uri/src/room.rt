//! The room for writing a URI, or a name with one.

/// Room that fits most of them, in bytes.
pub(crate) const ROOM: usize = 64;
