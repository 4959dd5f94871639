//! The media of one call.

use crate::session::{OpenOffer, Session};
use crate::versions::Versions;
use offer_answer::OwnRange;

/// The media of one call: its session, and an offer that was passed on, if any.
pub struct CallMedia {
    pub(crate) number: u64,
    pub(crate) range: OwnRange,
    pub(crate) versions: Versions,
    pub(crate) offer: Option<OpenOffer>,
    pub(crate) session: Option<Session>,
}

impl Drop for CallMedia {
    fn drop(self) {
        let CallMedia {
            number: _,
            range: _,
            versions: _,
            offer: _,
            session: _,
        } = self;
    }
}

impl CallMedia {
    ghost use Rattle.std.specs.Prelude.{ℕ, ◌≡◌, ◌≢◌, None, false};
    ghost use Rattle.std.specs.Option.{option_copied};
    ghost use Rattle.port_pool.specs.Pool.{Contents, is_port_of};
    ghost use Rattle.offer_answer.specs.Direct.{hold_address};
    ghost use Rattle.call_media.specs.Serving.{Serves};
    ghost use Rattle.call_media.specs.Versions.{none_sent};

    /// The media of a call of this number, which has no offer yet. The server's address is not 0.0.0.0. Takes no
    /// memory.
    pub fn new(number: u64, range: OwnRange) -> CallMedia
        requires { range.ip ≢ hold_address }
        ensures media { result ≡ record { number = number; range = range; versions = none_sent; offer = None; session = None } }
        ensures serves { (pool : Contents) → ((port : ℕ) → is_port_of pool number port ≡ false) → Serves result pool }
    {
        CallMedia {
            number,
            range,
            versions: Versions::none_sent(),
            offer: None,
            session: None,
        }
    }

    /// The session, if one is live. Takes no memory.
    pub fn session(&self) -> Option<&Session>
        ensures { option_copied result ≡ self.now.session }
    {
        self.session.as_ref()
    }

    /// The offer that was passed on, if one is open. Takes no memory.
    pub fn open_offer(&self) -> Option<&OpenOffer>
        ensures { option_copied result ≡ self.now.offer }
    {
        self.offer.as_ref()
    }
}
