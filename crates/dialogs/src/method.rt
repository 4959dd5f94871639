//! The methods of the requests that the server numbers in a dialog.

/// A method of a request of the server's that has a number of its own in a dialog (RFC 3261 sections 14 and 15, RFC
/// 3311). An ACK has that of its INVITE.
#[derive(Clone, Copy)]
pub enum Method {
    Invite,
    Update,
    Bye,
}

impl Method {
    ghost use Rattle.std.specs.Prelude.{◌≡◌};
    ghost use Rattle.dialogs.specs.Counting.{method_text, max_for};

    /// The method as it is written. Takes no memory.
    pub fn as_bytes(self) -> &'static [u8]
        ensures { result.now ≡ method_text self }
    {
        match self {
            Method::Invite => b"INVITE",
            Method::Update => b"UPDATE",
            Method::Bye => b"BYE",
        }
    }

    /// The greatest number that a new request of this method may have.
    pub(crate) fn max_cseq(self) -> u32
        ensures { result ≡ max_for self }
    {
        match self {
            Method::Bye => 2_147_483_647,
            Method::Invite | Method::Update => 2_147_483_646,
        }
    }
}
