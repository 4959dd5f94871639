//! What passing an offer on requires.

ghost use Rattle.std.specs.Prelude.{◌≡◌, ◌≢◌, ◌≤◌, ℕ, All, IfOk, IfErr, OnOk, None, true, length};
ghost use Rattle.port_pool.specs.Holdings.{AreRising, LeadsPair, even_of, free_pairs, holder_at, is_among};
ghost use Rattle.port_pool.specs.Pool.{AreFree, lowest_free};
ghost use Rattle.offer_answer.specs.Checks.{offer_fault};
ghost use Rattle.offer_answer.specs.Direct.{hold_address};
ghost use Rattle.call_media.specs.declared.end.End.TheVariants.{Caller};
ghost use Rattle.call_media.specs.Ends.{is_same};
ghost use Rattle.call_media.specs.Seats.{seated};
ghost use Rattle.call_media.specs.Sessions.{previous};
ghost use Rattle.call_media.specs.Offers.{DoFor, HasPairs, IsPassedOn, IsReady, RefusesOffer, RefusesPairs, fresh_needed, opened, opened_over};
ghost use Rattle.call_media.specs.Serving.{Serves};

use crate::end::End;
use crate::previous::{previous, seats_kept};
use crate::refusal::OfferRefusal;
use crate::seat::Seat;
use crate::seats::{pairs_needed, ports_to_answerer, seat_media};
use crate::session::{OpenOffer, Seats};
use crate::state::CallMedia;
use boxed::Boxed;
use offer_answer::{check_offer, readdress};
use port_pool::{Pair, Pool, PoolError};
use sdp::Description;
use std::alloc::{AllocError, Global};

/// An offer that may be passed on, and the fresh pairs that it takes.
#[derive(Drop)]
pub struct PlannedOffer {
    pub offer: OpenOffer,
    pub fresh: Vec<Pair>,
}

/// As many pairs as an offer needs, of those that are free.
fn free_pairs(pool: &Pool, needed: usize, now: u64) -> Result<Vec<Pair>, OfferRefusal>
    ensures pairs { IfOk result (λ pairs. pairs.items ≡ lowest_free pool.now now needed) }
    ensures count { IfOk result (λ pairs. length pairs.items ≡ needed) }
    ensures enough { OnOk result (needed ≤ length (free_pairs now pool.now.holdings)) }
    ensures free { IfOk result (λ pairs. AreFree pool.now now pairs.items) }
    ensures unheld { IfOk result (λ pairs. (port : ℕ) → is_among pairs.items (even_of port) ≡ true →
        holder_at pool.now.holdings port ≡ None) }
    ensures ports { IfOk result (λ pairs. All (λ p. LeadsPair p.even) pairs.items) }
    ensures rising { IfOk result (λ pairs. AreRising pairs.items) }
    ensures refused { IfErr result (RefusesPairs pool.now needed now) }
{
    match pool.plan_reserve(needed, now) {
        Ok(pairs) => Ok(pairs),
        Err(PoolError::TooFew) => Err(OfferRefusal::NoPorts),
        Err(PoolError::OutOfMemory | PoolError::NotHeld) => Err(OfferRefusal::OutOfMemory),
    }
}

impl CallMedia {
    /// What passing an offer of this end on requires, at the moment `now` in milliseconds. The offer must be one that
    /// the end may make after what it said before, and that the relay carries (K3, RFC 3264 section 8), and enough
    /// pairs must be free (K4). Nothing changes.
    pub fn plan_offer(
        &self,
        alloc: Global,
        pool: &Pool,
        end: End,
        offer: &Description<'_>,
        now: u64,
    ) -> Result<PlannedOffer, OfferRefusal>
        requires { Serves self.now pool.now }
        ensures fits { OnOk result (offer_fault self.now.range offer.now (previous end self.now.session) ≡ None) }
        ensures enough { OnOk result (HasPairs self.now pool.now end offer.now now) }
        ensures offer { IfOk result (λ p. p.offer ≡ opened self.now pool.now end offer.now now) }
        ensures fresh { IfOk result (λ p. p.fresh.items ≡ lowest_free pool.now now (fresh_needed self.now end offer.now)) }
        ensures ready { IfOk result (λ p. IsReady self.now pool.now now p) }
        ensures refused { IfErr result (RefusesOffer self.now pool.now end offer.now now) }
    {
        let session = self.session.as_ref();
        if let Err(fault) = check_offer(offer, previous(session, end), self.range) {
            return Err(OfferRefusal::Unfit(fault));
        }
        let kept = seats_kept(alloc, session, end)?;
        let needed = pairs_needed(offer.media.as_slice(), &kept);
        pool.pairs_never_meet();
        let fresh = free_pairs(pool, needed, now)?;
        let open = self.offer_over(alloc, end, offer, &kept, &fresh)?;
        Ok(PlannedOffer { offer: open, fresh })
    }

    /// The offer over these pairs, at the server's address and ports.
    fn offer_over(
        &self,
        alloc: Global,
        end: End,
        offer: &Description<'_>,
        kept: &[Option<Seat>],
        fresh: &[Pair],
    ) -> Result<OpenOffer, AllocError>
        requires server { self.now.range.ip ≢ hold_address }
        requires pairs { DoFor (is_same end Caller) offer.now.media kept.now fresh.now }
        ensures offer { IfOk result (λ o. o ≡ opened_over self.now end offer.now
            (seated (is_same end Caller) offer.now.media kept.now fresh.now)) }
        ensures passed_on { IfOk result (λ o. IsPassedOn self.now.range.ip o) }
    {
        let media = offer.media.as_slice();
        let seats = seat_media(alloc, end.is_caller(), media, kept, fresh)?;
        let ports = ports_to_answerer(alloc, &seats)?;
        let origin = self
            .versions
            .origin(self.number, self.range.ip, end.other());
        let sent = readdress(alloc, offer, &ports, origin)?;
        let offer_sent = Boxed::new(alloc, sent)?;
        let taken = offer.keep(alloc)?;
        let offer_taken = Boxed::new(alloc, taken)?;
        Ok(OpenOffer {
            offerer: end,
            seats: Seats::from_vec(seats),
            offer_taken,
            offer_sent,
        })
    }
}
