//! Why the server itself refuses a request.

ghost use Rattle.std.specs.Prelude.{◌≡◌};
ghost use Rattle.plans.specs.Reasons.{status};

use registrar::Refusal;
use responses::status_of;
use sip_message::MessageError;
use thiserror::Error;

/// A rule by which the server itself refuses a request: docs/rules/agent.md has them in their order. Sections are
/// RFC 3261's.
#[derive(Clone, Copy, Debug, Error)]
pub enum Reason {
    /// It can't be read: its first fault (section 21.5.7).
    #[error("{0}")]
    Unread(MessageError),
    /// Its top branch doesn't begin as section 8.1.1.7 says.
    #[error("no branch of RFC 3261")]
    NoBranch,
    /// A CANCEL of no live request (section 9.2).
    #[error("nothing to cancel")]
    NothingToCancel,
    /// It came by another path, too (section 8.2.2.2).
    #[error("merged")]
    Merged,
    /// A method that is known and not offered (section 8.2.1).
    #[error("method not offered")]
    MethodNotOffered,
    /// A method that is not known.
    #[error("unknown method")]
    UnknownMethod,
    /// It requires an extension (section 8.2.2.3).
    #[error("extension required")]
    ExtensionRequired,
    /// A proxy is in between, which is not served.
    #[error("proxy between")]
    ProxyBetween,
    /// It is in no dialog of a call, or in one of a call that has no place for it (section 12.2.2).
    #[error("no dialog")]
    NoDialog,
    /// Its number is not above the last (section 12.2.2).
    #[error("old number")]
    OldNumber,
    /// No further hop is left (section 16.3).
    #[error("no hops left")]
    NoHops,
    /// Its Contact doesn't say where its sender is reached.
    #[error("contact without address")]
    Unreached,
    /// No user of the office (section 21.4.5).
    #[error("unknown user")]
    UnknownUser,
    /// The user is bound nowhere (section 21.4.18).
    #[error("not registered")]
    Unbound,
    /// The type of its body is not taken (section 8.2.3).
    #[error("type of body")]
    BodyType,
    /// The encoding of its body is not taken (section 8.2.3).
    #[error("encoding of body")]
    BodyEncoding,
    /// Its offer has no description that can be read (K3).
    #[error("no description")]
    Undescribed,
    /// Its offer may not be made, or the relay doesn't carry it (K3).
    #[error("unfit offer")]
    UnfitOffer,
    /// Too few pairs of ports are free (K4).
    #[error("no ports")]
    NoPorts,
    /// The limit of live calls is reached.
    #[error("too many calls")]
    TooManyCalls,
    /// An offer of the other end is open (K1, section 14.2).
    #[error("glare")]
    Glare,
    /// An offer of the same end is open (K2, section 14.2).
    #[error("second offer")]
    SecondOffer,
    /// No number is left for a request to the other end (K5).
    #[error("number at its end")]
    NumberAtItsEnd,
    /// The registrar refuses it (section 10.3).
    #[error("{0}")]
    Register(Refusal),
}

impl Reason {
    /// The status of the response. Takes no memory.
    pub fn status(self) -> u16
        ensures { result ≡ status self }
    {
        match self {
            Reason::Unread(MessageError::Version) => 505,
            Reason::Unread(_) | Reason::NoBranch | Reason::ProxyBetween | Reason::Unreached => 400,
            Reason::UnknownUser => 404,
            Reason::MethodNotOffered => 405,
            Reason::BodyType | Reason::BodyEncoding => 415,
            Reason::ExtensionRequired => 420,
            Reason::Unbound => 480,
            Reason::NothingToCancel | Reason::NoDialog => 481,
            Reason::Merged => 482,
            Reason::NoHops => 483,
            Reason::Undescribed | Reason::UnfitOffer => 488,
            Reason::Glare => 491,
            Reason::OldNumber | Reason::SecondOffer | Reason::NumberAtItsEnd => 500,
            Reason::UnknownMethod => 501,
            Reason::NoPorts | Reason::TooManyCalls => 503,
            Reason::Register(refusal) => status_of(refusal),
        }
    }
}
