//! What changes in the media of a call, and in the pool with it. Nothing here can fail.

ghost use Rattle.std.specs.Prelude.{◌≡◌, ◌&&◌, ℕ, IfOk, IsTrue, None, Some, [], false, if◌then◌else◌, is_some, not, true};
ghost use Rattle.port_pool.specs.Changes.{LeadFrom};
ghost use Rattle.port_pool.specs.Holdings.{even_of, holder_at, is_among};
ghost use Rattle.port_pool.specs.Pool.{AreBareBut, AreHeld, RestsFrom, changes_of, is_port_of, with_changes, with_pairs, without_call, without_others};
ghost use Rattle.call_media.specs.declared.session.OpenOffer.{OpenOffer};
ghost use Rattle.call_media.specs.Answers.{IsFit, session_planned, with_session};
ghost use Rattle.call_media.specs.Offers.{IsReady, ended, with_offer, without_offer};
ghost use Rattle.call_media.specs.Serving.{Serves, SparesOthers};
ghost use Rattle.call_media.specs.Sessions.{pairs_listed};

use crate::answer_plan::PlannedAnswer;
use crate::offer_plan::PlannedOffer;
use crate::previous::pairs_listed;
use crate::session::{OpenOffer, Session};
use crate::state::CallMedia;
use port_pool::{Change, Pool};
use std::alloc::AllocError;

/// The session of an offer and the planned answer to it, and the changes that lead to its rows.
fn session_of(offer: OpenOffer, planned: PlannedAnswer) -> (Session, Vec<Change>)
    ensures session { result.0 ≡ session_planned offer planned }
    ensures changes { result.1.items ≡ planned.rows.changes.items }
{
    let session = Session {
        offerer: offer.offerer,
        offer_taken: offer.offer_taken,
        answer_sent: planned.sent,
        offer_sent: offer.offer_sent,
        answer_taken: planned.taken,
        pairs: planned.rows.pairs,
    };
    (session, planned.rows.changes)
}

impl CallMedia {
    /// Passes a planned offer on, where none is open: its fresh pairs are the call's. Takes no memory.
    pub fn hold_offer(&mut self, pool: &mut Pool, planned: PlannedOffer, now: u64)
        requires serves { Serves self.old pool.old }
        requires settled { self.old.offer ≡ None }
        requires ready { IsReady self.old pool.old now planned }
        ensures media { self.new ≡ with_offer self.old planned.offer }
        ensures pool { pool.new ≡ with_pairs pool.old self.old.number planned.fresh.items }
        ensures serves { Serves self.new pool.new }
        ensures spares { SparesOthers self.old.number pool.old pool.new }
    {
        pool.pairs_never_meet();
        pool.hold(self.number, &planned.fresh, now);
        self.versions = self.versions.one_more_to(planned.offer.offerer.other());
        drop(self.offer.replace(planned.offer));
    }

    /// Gives the open offer up, if there is one: its pairs that the session doesn't use rest from the moment `now`, in
    /// milliseconds. Takes no memory.
    pub fn withdraw_offer(&mut self, pool: &mut Pool, now: u64)
        requires serves { Serves self.old pool.old }
        ensures media { self.new ≡ without_offer self.old }
        ensures pool { pool.new ≡ without_others pool.old self.old.number (pairs_listed self.old.session) now }
        ensures rests { (port : ℕ) → is_port_of pool.old self.old.number port ≡ true →
            is_among (pairs_listed self.old.session) (even_of port) ≡ false → RestsFrom pool.new (even_of port) now }
        ensures serves { Serves self.new pool.new }
        ensures spares { SparesOthers self.old.number pool.old pool.new }
    {
        pool.free_others(self.number, pairs_listed(self.session.as_ref()), now);
        drop(self.offer.take());
    }

    /// Passes the planned answer to the open offer on: the session is that of the offer and its answer, the relay table
    /// has its rows, and the call's pairs that it doesn't use rest from the moment `now`, in milliseconds. Returns
    /// the changes of the table. Takes no memory.
    pub fn put_answer(&mut self, pool: &mut Pool, planned: PlannedAnswer, now: u64) -> Vec<Change>
        requires serves { Serves self.old pool.old }
        requires asked { IsTrue (is_some self.old.offer) }
        requires ready { (o : OpenOffer) → self.old.offer ≡ Some o → IsFit self.old pool.old o planned }
        ensures media { (o : OpenOffer) → self.old.offer ≡ Some o →
            self.new ≡ with_session self.old (session_planned o planned) }
        ensures changes { result.items ≡ planned.rows.changes.items }
        ensures pool { pool.new
            ≡ without_others (with_changes pool.old planned.rows.changes.items) self.old.number planned.rows.pairs now }
        ensures leads { LeadFrom pool.old.rows pool.new.rows result.items }
        ensures rests { (port : ℕ) → is_port_of pool.old self.old.number port ≡ true →
            is_among planned.rows.pairs (even_of port) ≡ false → RestsFrom pool.new (even_of port) now }
        ensures serves { Serves self.new pool.new }
        ensures spares { SparesOthers self.old.number pool.old pool.new }
    {
        offer_answer::rows_of_session_stand();
        pool.pairs_never_meet();
        match self.offer.take() {
            Some(offer) => self.put_answer_to(pool, offer, planned, now),
            None => unreachable!(),
        }
    }

    fn put_answer_to(
        &mut self,
        pool: &mut Pool,
        offer: OpenOffer,
        planned: PlannedAnswer,
        now: u64,
    ) -> Vec<Change>
        requires taken { self.old.offer ≡ None }
        requires held { AreHeld pool.old planned.rows.changes.items }
        requires bare { AreBareBut (with_changes pool.old planned.rows.changes.items) self.old.number planned.rows.pairs }
        ensures media { self.new ≡ with_session self.old (session_planned offer planned) }
        ensures changes { result.items ≡ planned.rows.changes.items }
        ensures pool { pool.new
            ≡ without_others (with_changes pool.old planned.rows.changes.items) self.old.number planned.rows.pairs now }
        ensures holder { (port : ℕ) → holder_at pool.new.holdings port
            ≡ (if is_port_of pool.old self.old.number port && not (is_among planned.rows.pairs (even_of port)) then None
            else holder_at pool.old.holdings port) }
        ensures rests { (port : ℕ) → is_port_of pool.old self.old.number port ≡ true →
            is_among planned.rows.pairs (even_of port) ≡ false → RestsFrom pool.new (even_of port) now }
    {
        pool.put(&planned.rows.changes);
        pool.free_others(self.number, planned.rows.pairs.as_slice(), now);
        self.versions = self.versions.one_more_to(offer.offerer);
        let (session, changes) = session_of(offer, planned);
        drop(self.session.replace(session));
        changes
    }

    /// What ending the media of the call requires: the removals of all its rows.
    pub fn plan_end(&self, pool: &Pool) -> Result<Vec<Change>, AllocError>
        ensures { IfOk result (λ removals. removals.items ≡ changes_of pool.now self.now.number []) }
    {
        pool.plan_drop(self.number)
    }

    /// Ends the media of the call: no session is live and no offer is open, its rows are gone, and its pairs rest
    /// from the moment `now`, in milliseconds. Takes no memory.
    pub fn end(&mut self, pool: &mut Pool, removals: &[Change], now: u64)
        requires serves { Serves self.old pool.old }
        requires removals { removals.now ≡ changes_of pool.old self.old.number [] }
        ensures media { self.new ≡ ended self.old }
        ensures pool { pool.new ≡ without_call pool.old self.old.number now }
        ensures leads { LeadFrom pool.old.rows pool.new.rows removals.now }
        ensures gone { (port : ℕ) → is_port_of pool.new self.old.number port ≡ false }
        ensures rests { (port : ℕ) → is_port_of pool.old self.old.number port ≡ true → RestsFrom pool.new (even_of port) now }
        ensures serves { Serves self.new pool.new }
        ensures spares { SparesOthers self.old.number pool.old pool.new }
    {
        pool.end_call(self.number, removals, now);
        drop(self.offer.take());
        drop(self.session.take());
    }
}
