//! What reaches a call.

use call_media::End;

/// The method of a request that carries an offer (RFC 3264 section 5, RFC 3311).
#[derive(Clone, Copy, Debug)]
pub enum OfferMethod {
    Invite,
    Update,
}

/// What reaches a call. The responses are those to the open offer, which come from the end across from the offerer.
#[derive(Clone, Copy)]
pub enum Signal {
    /// An offer of this end that can be passed on.
    Offer(End, OfferMethod),
    /// A provisional response: 100 to 199.
    Provisional(u16),
    /// A 2xx with an answer that fits the offer.
    FitAnswer,
    /// A 2xx without one.
    UnfitAnswer,
    /// A final response with this status: 300 to 699.
    Refusal(u16),
    /// No final response came in time: timer B of an INVITE, F of an UPDATE (RFC 3261 section 17.1).
    TimedOut,
    /// The offerer's ACK of the 2xx that it got.
    Ack,
    /// The offerer's CANCEL of its INVITE.
    Cancel,
    /// A BYE of this end.
    Bye(End),
    /// The other end has rung long enough, or was given long enough after a CANCEL.
    Limit,
    /// The 2xx is due again, since no ACK came (RFC 3261 section 13.3.1.4).
    Repeat,
    /// No ACK came in time (section 13.3.1.4).
    Wait,
    /// The call has lasted long enough, or its media have stopped.
    Lifetime,
}
