//! What is asked of a plan for a request that began a transaction.

use crate::reason::Reason;
use call_core::End;
use calls::StandingCall;
use sip_uri::Uri;

/// A final response to a request that concerns no call.
#[derive(Clone, Copy)]
pub enum Reply {
    /// 200 to a CANCEL of the request of this transaction.
    CancelOf(usize),
    /// A refusal for this reason.
    Refusal(Reason),
    /// 200 to OPTIONS, with the methods that are offered.
    MethodsListed,
    /// The registrar answers.
    Registration,
}

/// What a call does for a request, with what was found for it. A place is that of the call on the list.
#[derive(Clone, Copy)]
pub enum CallRule<'r> {
    /// A first INVITE: the callee is asked where it is bound.
    Begins(&'r Uri<'static>),
    /// A CANCEL of the call's offer.
    Cancels(usize),
    /// A BYE of this end.
    Leaves(usize, End),
    /// An offer of this end inside this call.
    Offers(usize, End, &'r StandingCall),
    /// An UPDATE of this end of this call without an offer.
    Refreshes(usize, End, &'r StandingCall),
}
