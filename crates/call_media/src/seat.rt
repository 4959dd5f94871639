//! The pairs that serve a medium.

ghost use Rattle.std.specs.Prelude.{◌≡◌};

/// The pairs that serve a medium, each by its even port: that port is sent to the end that it faces.
#[derive(Clone, Copy, Debug)]
pub struct Seat {
    /// Sent to the offerer.
    pub offerer: u16,
    /// Sent to the answerer.
    pub answerer: u16,
}

impl Seat {
    ghost use Rattle.std.specs.Prelude.{◌≡◌};
    ghost use Rattle.call_media.specs.Seats.{across};

    /// The same pairs, where the other end offers. Takes no memory.
    pub fn across(self) -> Seat
        ensures { result ≡ across self }
    {
        Seat {
            offerer: self.answerer,
            answerer: self.offerer,
        }
    }
}
