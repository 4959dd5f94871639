//! What comes with an event to a live call.

ghost use Rattle.std.specs.Prelude.{◌≡◌};
ghost use Rattle.call_steps.specs.Values.{asker_value, coming_value, without_offer};

use call_messages::Asker;
use calls::{LegDialog, TakenOffer};
use sip_message::Request;
use sip_uri::Addr;

/// A request that was received.
#[derive(Clone, Copy)]
pub struct ReceivedRequest<'m, 'a> {
    pub request: &'m Request<'a>,
    /// The transaction that it began.
    pub id: usize,
    /// Where it came from.
    pub source: Addr,
}

/// What comes with an event to a call.
#[derive(Drop)]
pub(crate) struct Coming<'m, 'a> {
    /// The dialog that is put in place of one of the call's: that of a 2xx, or the one that counted a request.
    pub leg: Option<LegDialog>,
    /// The request that offers.
    pub offer: Option<Asker<'m, 'a>>,
    /// A BYE or a CANCEL, which gets its 200.
    pub request: Option<Asker<'m, 'a>>,
    /// The hops that an offer came with.
    pub hops: u8,
    /// The offer that is taken.
    pub taken: Option<TakenOffer>,
}

impl<'m, 'a> Coming<'m, 'a> {
    ghost use Rattle.std.specs.Prelude.{option_map};

    /// No offer comes.
    pub(crate) fn without_offer(
        leg: Option<LegDialog>,
        request: Option<Asker<'m, 'a>>,
    ) -> Coming<'m, 'a>
        ensures { coming_value result ≡ without_offer leg (option_map asker_value request.entry) }
    {
        Coming {
            leg,
            offer: None,
            request,
            hops: 0,
            taken: None,
        }
    }
}
