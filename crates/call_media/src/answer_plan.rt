//! What passing an answer on requires.

ghost use Rattle.std.specs.Prelude.{◌≡◌, ◌≢◌, IfErr, IfOk, IsTrue, None, OnOk, Some, ◌+◌, ◌++◌, is_some, length, map};
ghost use Rattle.std.specs.FinMap.{get};
ghost use Rattle.port_pool.specs.Changes.{LeadFrom};
ghost use Rattle.port_pool.specs.Pool.{AreHeld, changes_of, row_after, with_changes};
ghost use Rattle.offer_answer.specs.Alike.{Alike};
ghost use Rattle.offer_answer.specs.Checks.{answer_fault};
ghost use Rattle.offer_answer.specs.Direct.{hold_address};
ghost use Rattle.offer_answer.specs.Joined.{is_at_server};
ghost use Rattle.offer_answer.specs.Readdressing.{has_ports, told_ports};
ghost use Rattle.offer_answer.specs.Rows.{HasRows, are_distinct, pairs_named};
ghost use Rattle.offer_answer.specs.Session.{leads_by, session_lines};
ghost use Rattle.call_media.specs.declared.session.OpenOffer.{OpenOffer};
ghost use Rattle.call_media.specs.Answers.{FitsRows, IsFit, RefusesAnswer, answer_sent, session_over};
ghost use Rattle.call_media.specs.Seats.{pairs_at, port_to_offerer};
ghost use Rattle.call_media.specs.Serving.{IsOpen, Serves, are_held};

use crate::refusal::AnswerRefusal;
use crate::seats::ports_to_offerer;
use crate::session::{OpenOffer, Pairs, SessionRows};
use crate::state::CallMedia;
use boxed::Boxed;
use offer_answer::{check_answer, plan_session, readdress, session_pairs};
use port_pool::{Change, Pair, Pool};
use sdp::Description;
use std::alloc::{AllocError, Global};

/// An answer that may be passed on, and what it makes of the open offer.
#[derive(Drop)]
pub struct PlannedAnswer {
    /// As the answerer gave it.
    pub taken: Boxed<Description<'static>>,
    /// As the offerer gets it.
    pub sent: Boxed<Description<'static>>,
    pub rows: SessionRows,
}

/// The pairs with these even ports.
fn pairs_at(alloc: Global, ports: &[u16]) -> Result<Vec<Pair>, AllocError>
    ensures { IfOk result (λ pairs. pairs.items ≡ pairs_at ports.now) }
{
    ports.iter().map(|even| Pair { even: *even }).collect(alloc)
}

/// The pairs that the session of an open offer and its answer uses.
fn pairs_used(
    alloc: Global,
    offer: &OpenOffer,
    sent: &Description<'_>,
    answer: &Description<'_>,
) -> Result<Pairs, AllocError>
    ensures { IfOk result (λ pairs. pairs
        ≡ pairs_at (pairs_named offer.now.offer_taken sent.now offer.now.offer_sent answer.now)) }
{
    let taken = offer.offer_taken.get();
    let asked = offer.offer_sent.get();
    let ports = session_pairs(alloc, taken, sent, asked, answer)?;
    let pairs = pairs_at(alloc, &ports)?;
    Ok(Pairs::from_vec(pairs))
}

/// The rows of the session of an open offer and its answer, and the pairs that they are of.
fn session_rows(
    alloc: Global,
    pool: &Pool,
    number: u64,
    offer: &OpenOffer,
    sent: &Description<'_>,
    answer: &Description<'_>,
) -> Result<SessionRows, AllocError>
    requires held { IsTrue (are_held number pool.now
        (pairs_named offer.now.offer_taken sent.now offer.now.offer_sent answer.now)) }
    requires distinct { IsTrue (are_distinct
        (pairs_named offer.now.offer_taken sent.now offer.now.offer_sent answer.now)) }
    ensures { IfOk result (λ rows. FitsRows number pool.now (session_over offer.now sent.now answer.now) rows) }
{
    let changes = plan_session(
        alloc,
        pool,
        number,
        offer.offer_taken.get(),
        sent,
        offer.offer_sent.get(),
        answer,
    )?;
    let pairs = pairs_used(alloc, offer, sent, answer)?;
    Ok(SessionRows { pairs, changes })
}

/// The answer is kept with what is sent in its place.
fn with_taken(
    alloc: Global,
    answer: &Description<'_>,
    sent: Description<'static>,
    rows: SessionRows,
) -> Result<PlannedAnswer, AllocError>
    ensures { IfOk result (λ p. p ≡ record { taken = answer.now; sent = sent.entry; rows = rows }) }
{
    let sent = Boxed::new(alloc, sent)?;
    let taken = Boxed::new(alloc, answer.keep(alloc)?)?;
    Ok(PlannedAnswer { taken, sent, rows })
}

impl CallMedia {
    /// What passing the answer to the open offer on requires. The answer must be one that the offer lets the answerer
    /// give, and that the relay carries (RFC 3264 section 6). Nothing changes.
    pub fn plan_answer(
        &self,
        alloc: Global,
        pool: &Pool,
        answer: &Description<'_>,
    ) -> Result<PlannedAnswer, AnswerRefusal>
        requires serves { Serves self.now pool.now }
        requires asked { IsTrue (is_some self.now.offer) }
        ensures fits { (o : OpenOffer) → self.now.offer ≡ Some o →
            OnOk result (answer_fault self.now.range o.offer_sent answer.now ≡ None) }
        ensures taken { IfOk result (λ p. p.taken ≡ answer.now) }
        ensures ready { (o : OpenOffer) → self.now.offer ≡ Some o → IfOk result (IsFit self.now pool.now o) }
        ensures refused { (o : OpenOffer) → self.now.offer ≡ Some o → IfErr result (RefusesAnswer self.now o answer.now) }
    {
        match self.offer.as_ref() {
            Some(offer) => self.plan_answer_to(alloc, pool, offer, answer),
            None => unreachable!(),
        }
    }

    fn plan_answer_to(
        &self,
        alloc: Global,
        pool: &Pool,
        offer: &OpenOffer,
        answer: &Description<'_>,
    ) -> Result<PlannedAnswer, AnswerRefusal>
        requires server { self.now.range.ip ≢ hold_address }
        requires asked { IsOpen self.now.range.ip self.now.number pool.now offer.now }
        ensures fits { OnOk result (answer_fault self.now.range offer.now.offer_sent answer.now ≡ None) }
        ensures taken { IfOk result (λ p. p.taken ≡ answer.now) }
        ensures ready { IfOk result (IsFit self.now pool.now offer.now) }
        ensures refused { IfErr result (RefusesAnswer self.now offer.now answer.now) }
    {
        check_answer(offer.offer_sent.get(), answer, self.range)?;
        pool.pairs_never_meet();
        let sent = self.answer_sent(alloc, offer, answer)?;
        let planned = self.planned_answer(alloc, pool, offer, answer, sent)?;
        Ok(planned)
    }

    /// The answer as the offerer gets it: at the server's address and ports.
    fn answer_sent(
        &self,
        alloc: Global,
        offer: &OpenOffer,
        answer: &Description<'_>,
    ) -> Result<Description<'static>, AllocError>
        requires server { self.now.range.ip ≢ hold_address }
        requires one_each { length (map port_to_offerer offer.now.seats) ≡ length answer.now.media }
        requires not_zero { IsTrue (has_ports (map port_to_offerer offer.now.seats) answer.now.media) }
        ensures exact { IfOk result (λ d. d ≡ answer_sent self.now offer.now answer.now) }
        ensures alike { IfOk result (Alike answer.now) }
        ensures at_server { IfOk result (λ d. IsTrue (is_at_server self.now.range.ip d)) }
        ensures told { IfOk result (λ d. map (λ m. m.port) d.media
            ≡ told_ports (map port_to_offerer offer.now.seats) answer.now.media) }
    {
        let ports = ports_to_offerer(alloc, offer.seats.as_slice())?;
        let origin = self
            .versions
            .origin(self.number, self.range.ip, offer.offerer);
        let sent = readdress(alloc, answer, &ports, origin)?;
        Ok(sent)
    }

    /// The answer as it is taken and as it is sent, with the rows of the session.
    fn planned_answer(
        &self,
        alloc: Global,
        pool: &Pool,
        offer: &OpenOffer,
        answer: &Description<'_>,
        sent: Description<'static>,
    ) -> Result<PlannedAnswer, AllocError>
        requires asked { IsOpen self.now.range.ip self.now.number pool.now offer.now }
        requires exact { sent ≡ answer_sent self.now offer.now answer.now }
        requires alike { Alike answer.now sent }
        requires at_server { IsTrue (is_at_server self.now.range.ip sent) }
        requires told { map (λ m. m.port) sent.media ≡ told_ports (map port_to_offerer offer.now.seats) answer.now.media }
        requires media { length answer.now.media ≡ length offer.now.offer_sent.media }
        ensures taken { IfOk result (λ p. p.taken ≡ answer.now) }
        ensures ready { IfOk result (IsFit self.now pool.now offer.now) }
    {
        let rows = session_rows(alloc, pool, self.number, offer, &sent, answer)?;
        let planned = with_taken(alloc, answer, sent, rows)?;
        Ok(planned)
    }
}
