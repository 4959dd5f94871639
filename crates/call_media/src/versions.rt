//! The descriptions that were sent on each leg, counted.

ghost use Rattle.std.specs.Prelude.{◌≡◌};
ghost use Rattle.call_media.specs.Versions.{leg_id};

use crate::end::End;
use offer_answer::ServerOrigin;

/// How many descriptions the server sent on each leg of a call.
#[derive(Clone, Copy)]
pub struct Versions {
    pub to_caller: u64,
    pub to_callee: u64,
}

impl Versions {
    ghost use Rattle.std.specs.Prelude.{◌≡◌};
    ghost use Rattle.call_media.specs.Versions.{none_sent, one_more_to, origin, sent_to};

    /// Those of a new call. Takes no memory.
    pub(crate) fn none_sent() -> Versions
        ensures { result ≡ none_sent }
    {
        Versions {
            to_caller: 0,
            to_callee: 0,
        }
    }

    fn sent_to(self, end: End) -> u64
        ensures { result ≡ sent_to end self }
    {
        match end {
            End::Caller => self.to_caller,
            End::Callee => self.to_callee,
        }
    }

    /// One more was sent to this end. Takes no memory.
    pub(crate) fn one_more_to(self, end: End) -> Versions
        ensures { result ≡ one_more_to end self }
    {
        let sent = self.sent_to(end).saturating_add(1);
        match end {
            End::Caller => Versions {
                to_caller: sent,
                to_callee: self.to_callee,
            },
            End::Callee => Versions {
                to_caller: self.to_caller,
                to_callee: sent,
            },
        }
    }

    /// What the `o=` line of the next description to this end says. Takes no memory.
    pub(crate) fn origin(self, number: u64, ip: [u8; 4], end: End) -> ServerOrigin
        ensures { result ≡ origin number ip end self }
    {
        ServerOrigin {
            id: leg_id(number, end),
            version: self.one_more_to(end).sent_to(end),
            ip,
        }
    }
}

/// Two for each call, of which the lower is the caller's leg.
fn leg_id(number: u64, end: End) -> u64
    ensures { result ≡ leg_id number end }
{
    let lower = number.wrapping_mul(2);
    match end {
        End::Caller => lower,
        End::Callee => lower.wrapping_add(1),
    }
}
