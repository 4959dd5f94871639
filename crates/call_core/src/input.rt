//! What reaches a call, with the descriptions that come with it.

ghost use Rattle.std.specs.Prelude.{◌≡◌};
ghost use Rattle.call_core.specs.Inputs.{signal_of};

use crate::signal::{OfferMethod, Signal};
use call_media::End;
use sdp::Description;

/// What reaches a call. The responses are those to the open offer, which come from the end across from the offerer. A
/// body that is missing, of another type or encoding, or unreadable is no description.
pub enum Input<'d> {
    /// An offer of this end, inside the call.
    Offer(End, OfferMethod, Option<Description<'d>>),
    /// A provisional response: 100 to 199.
    Provisional(u16),
    /// A 2xx.
    Answer(Option<Description<'d>>),
    /// A final response with this status: 300 to 699.
    Refusal(u16),
    /// No final response came in time: timer B of an INVITE, F of an UPDATE (RFC 3261 section 17.1).
    TimedOut,
    /// The offerer's ACK of the 2xx that it got.
    Ack,
    /// The offerer's CANCEL of its INVITE.
    Cancel,
    /// A BYE of this end.
    Bye(End),
    /// The other end has rung long enough, or was given long enough after a CANCEL.
    Limit,
    /// The 2xx is due again, since no ACK came (RFC 3261 section 13.3.1.4).
    Repeat,
    /// No ACK came in time (section 13.3.1.4).
    Wait,
    /// The call has lasted long enough, or its media have stopped.
    Lifetime,
}

impl Drop for Input<'_> {
    fn drop(self) {
        match self {
            Input::Offer(_, _, _) => {}
            Input::Provisional(_) => {}
            Input::Answer(_) => {}
            Input::Refusal(_) => {}
            Input::TimedOut => {}
            Input::Ack => {}
            Input::Cancel => {}
            Input::Bye(_) => {}
            Input::Limit => {}
            Input::Repeat => {}
            Input::Wait => {}
            Input::Lifetime => {}
        }
    }
}

impl Input<'_> {
    /// The signal, where no description counts: a 2xx without one is unfit.
    pub(crate) fn signal(&self) -> Signal
        ensures { result ≡ signal_of self.now }
    {
        match self {
            Input::Offer(end, method, _) => Signal::Offer(*end, *method),
            Input::Provisional(status) => Signal::Provisional(*status),
            Input::Answer(_) => Signal::UnfitAnswer,
            Input::Refusal(status) => Signal::Refusal(*status),
            Input::TimedOut => Signal::TimedOut,
            Input::Ack => Signal::Ack,
            Input::Cancel => Signal::Cancel,
            Input::Bye(end) => Signal::Bye(*end),
            Input::Limit => Signal::Limit,
            Input::Repeat => Signal::Repeat,
            Input::Wait => Signal::Wait,
            Input::Lifetime => Signal::Lifetime,
        }
    }
}
