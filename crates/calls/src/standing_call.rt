//! A call, with what the server keeps for it.

ghost use Rattle.std.specs.Prelude.{◌≡◌};
ghost use Rattle.calls.specs.Carrying.{offerer_of};

use call_core::{Call, End, Standing};
use events::Sent;
use sip_uri::{Addr, Uri};
use text::Text;

/// The INVITE or UPDATE of an end that was taken as an offer.
#[derive(Clone, Copy)]
pub struct OfferRequest {
    /// The number of its transaction.
    pub id: usize,
    /// Where it came from.
    pub source: Addr,
    /// Its CSeq number, which its ACK has too.
    pub number: u32,
}

/// The end whose offer was taken last; the caller's before the first. Takes no memory.
pub fn offerer_of(standing: Option<Standing>) -> End
    ensures { result ≡ offerer_of standing }
{
    match standing {
        None => End::Caller,
        Some(standing) => standing.offerer,
    }
}

/// An offer inside a call that was taken.
#[derive(Drop)]
pub struct TakenOffer {
    pub asked: OfferRequest,
    /// Where its sender says that it is reached, if it says so.
    pub target: Option<Uri<'static>>,
}

/// A call, with what the server keeps for it.
pub struct StandingCall {
    pub call: Call,
    /// The tag of From in what the server sends the callee, which names that leg before there is a dialog.
    pub callee_tag: Text<'static>,
    /// The offer that was taken last.
    pub asked: OfferRequest,
    /// Where the sender of that offer is reached once it is answered with 2xx, if the offer is inside the call and said
    /// so.
    pub target: Option<Uri<'static>>,
    /// The 200 to it, which is sent again until its ACK comes.
    pub answer: Option<Sent>,
}

impl Drop for StandingCall {
    fn drop(self) {
        let StandingCall {
            call: _,
            callee_tag: _,
            asked: _,
            target: _,
            answer: _,
        } = self;
    }
}
