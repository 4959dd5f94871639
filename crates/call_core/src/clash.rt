//! Offers that cross others.

ghost use Rattle.std.specs.Prelude.{◌≡◌};
ghost use Rattle.call_core.specs.Clashes as clashes;
ghost use Rattle.call_core.specs.Clashes.{crossing, of_offerer};

use crate::stage::{Stage, Standing};
use call_media::End;
use thiserror::Error;

/// Why an offer is not passed on, since another is open (RFC 3261 section 14.2, RFC 3311 section 5.2).
#[derive(Clone, Copy, Debug, Error)]
pub enum Clash {
    /// It crosses one of the other end, or comes before the ACK of the last 200: 491.
    #[error("K1: offer while another is open")]
    Glare,
    /// The same end has one open: 500 with Retry-After.
    #[error("K2: second offer while the first is open")]
    SecondOffer,
}

fn clash_between(offerer: End, end: End) -> Option<Clash>
    ensures { result ≡ crossing offerer end }
{
    if end == offerer {
        Some(Clash::SecondOffer)
    } else {
        Some(Clash::Glare)
    }
}

fn of_offerer(offerer: End, end: End, clash: Clash) -> Option<Clash>
    ensures { result ≡ of_offerer offerer end clash }
{
    if end == offerer { Some(clash) } else { None }
}

/// What an offer of this end meets where the call has this standing: K1, K2, or none. Takes no memory.
#[tactic(auto, unfolding(crate::specs::Clashes::clash_of))]
pub fn clash_at(standing: Standing, end: End) -> Option<Clash>
    ensures { result ≡ clashes.clash_of standing.stage standing.offerer end }
{
    let offerer = standing.offerer;
    match standing.stage {
        Stage::Asked(_) => of_offerer(offerer, end, Clash::SecondOffer),
        Stage::Answered(_) | Stage::Reanswered(_) => Some(Clash::Glare),
        Stage::Reasked(..) | Stage::Updating => clash_between(offerer, end),
        Stage::Ending(_) => of_offerer(offerer, end, Clash::Glare),
        Stage::Cancelling(_) | Stage::Settled => None,
    }
}

/// What an UPDATE without an offer meets: K2 where the same end has an UPDATE open (RFC 3311 section 5.2), or none.
/// Takes no memory.
#[tactic(auto, unfolding(crate::specs::Clashes::clash_without_offer))]
pub fn clash_without_offer(standing: Standing, end: End) -> Option<Clash>
    ensures { result ≡ clashes.clash_without_offer standing.stage standing.offerer end }
{
    match standing.stage {
        Stage::Updating => of_offerer(standing.offerer, end, Clash::SecondOffer),
        _ => None,
    }
}
