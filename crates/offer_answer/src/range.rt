//! The server's own places.

/// The address of the server, and its least and its greatest relay port.
#[derive(Clone, Copy)]
pub struct OwnRange {
    pub ip: [u8; 4],
    pub first: u16,
    pub last: u16,
}
