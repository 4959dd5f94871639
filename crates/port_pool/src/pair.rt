//! Pairs of ports.

/// Two ports of the server through which one medium of a call faces one end: the even one for the medium itself, the
/// one above it for its reports (RFC 4566 section 5.14).
#[derive(Clone, Copy)]
pub struct Pair {
    pub even: u16,
}
